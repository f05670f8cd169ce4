// What an act tells, as the rows of its matter say it.

ghost use Rattle.std.specs.Prelude.{◌≡◌, ◌∷◌, [], ℕ, IfOk, Some, true, flat_map, option_to_list};
ghost use Rattle.matter_rows.specs.declared.act.Act.{Act as AnyAct};
ghost use Rattle.matter_parts.specs.Audit.{rows_kept};
ghost use Rattle.matter_parts.specs.Parts.{IsWhole};
ghost use Rattle.matter_rows.specs.Rows.{Rows, entry_at};
ghost use Rattle.trail_laws.specs.Replayed.{cleared_by, making, own_by, own_by_deed, returned_by, settled_parts, shown_by};
ghost use Rattle.trust_base.specs.Limits.{IsBankAmount};
ghost use Rattle.trail_replay.specs.Telling.{asks_of, doings_of, is_of_entry, lines_of};

use matter_rows::{Act, ClaimState, Clearing, Deed, DepositState, Entry, Holder, PaymentState};
use std::alloc::{AllocError, Global};
use trust_base::{BankAmount, BankText, CentsOrZero, EntryNo, Line, LineText, MatterNo};
use trust_matter::{
    Ask, BankLine, ClaimAsk, DepositAsk, FeeAsk, Matter, OpenAsk, PaymentAsk, SplitAsk,
};

/// What an act tells: an ask of its caller on its day, or a line that the cashier imported on its day.
#[derive(Drop)]
pub(crate) enum Told {
    Asked(Ask),
    Shown(BankLine),
}

// The ask that made an entry.
fn making(number: EntryNo, entry: &Entry) -> Result<Ask, AllocError>
    ensures { IfOk result (λ ask. ask ≡ making number entry.now) }
{
    Ok(match entry {
        Entry::Deposit(deposit) => Ask::Deposit(DepositAsk {
            number,
            amount: deposit.amount,
            source: deposit.source.copied()?,
            description: deposit.description.copied()?,
        }),
        Entry::Payment(payment) => Ask::Propose(PaymentAsk {
            number,
            amount: payment.amount,
            fund: payment.fund,
            payee: payment.payee.copied()?,
            purpose: payment.purpose.copied()?,
            instrument: payment.instrument.copied()?,
        }),
        Entry::Fee(fee) => Ask::EarnFee(FeeAsk {
            number,
            amount: fee.amount,
            description: fee.description.copied()?,
        }),
        Entry::Claim(claim) => Ask::RaiseClaim(ClaimAsk {
            number,
            amount: claim.amount,
            against: claim.against.copied()?,
            reason: claim.reason.copied()?,
        }),
    })
}

// The line of the bank that showed an amount of an entry.
#[tactic(auto, unfolding(trust_base::specs::BankTexts::is_bank_text, trust_base::specs::BankTexts::is_line_text))]
fn shown(
    alloc: Global,
    matter: MatterNo,
    entry: EntryNo,
    by: &Clearing,
    cents: i64,
) -> Result<Option<BankLine>, AllocError>
    requires { IsBankAmount cents }
    ensures { IfOk result (λ line. (act : AnyAct) → lines_of act line
        ≡ shown_by matter entry act (record { clearing = by.now; amount = cents }) ∷ []) }
{
    let Some(amount) = BankAmount::from_number(cents) else {
        return Ok(None);
    };
    let Some(reference) = BankText::read(alloc, b"")? else {
        return Ok(None);
    };
    let Some(text) = LineText::read(alloc, b"")? else {
        return Ok(None);
    };
    let bank_ref = by.bank_ref.copied()?;
    Ok(Some(BankLine {
        matter,
        entry,
        line: Line {
            date: by.bank_day,
            reference,
            bank_ref,
            amount,
            text,
        },
    }))
}

// The line that cleared an entry.
fn cleared(
    alloc: Global,
    matter: MatterNo,
    number: EntryNo,
    entry: &Entry,
) -> Result<Option<BankLine>, AllocError>
    ensures { IfOk result (λ line. (act : AnyAct) → lines_of act line
        ≡ flat_map (λ s. shown_by matter number act s ∷ []) (cleared_by entry.now)) }
{
    match entry {
        Entry::Deposit(deposit) => {
            let amount = deposit.amount.get() as i64;
            match &deposit.state {
                DepositState::Cleared(by) => shown(alloc, matter, number, by, amount),
                DepositState::Returned(back) => shown(
                    alloc,
                    matter,
                    number,
                    &back.clearing,
                    amount,
                ),
                DepositState::Held | DepositState::Cancelled(_) => Ok(None),
            }
        }
        Entry::Payment(payment) => match &payment.state {
            PaymentState::Cleared(cleared) => {
                let amount = -(payment.amount.get() as i64);
                shown(alloc, matter, number, &cleared.clearing, amount)
            }
            PaymentState::Proposed
            | PaymentState::Declined
            | PaymentState::Issued(_)
            | PaymentState::Voided(_) => Ok(None),
        },
        Entry::Fee(_) | Entry::Claim(_) => Ok(None),
    }
}

// The line that took an entry back.
fn returned(
    alloc: Global,
    matter: MatterNo,
    number: EntryNo,
    entry: &Entry,
) -> Result<Option<BankLine>, AllocError>
    ensures { IfOk result (λ line. (act : AnyAct) → lines_of act line
        ≡ flat_map (λ s. shown_by matter number act s ∷ []) (returned_by entry.now)) }
{
    match entry {
        Entry::Deposit(deposit) => match &deposit.state {
            DepositState::Returned(back) => {
                let amount = -(deposit.amount.get() as i64);
                shown(alloc, matter, number, &back.returning, amount)
            }
            DepositState::Held | DepositState::Cleared(_) | DepositState::Cancelled(_) => Ok(None),
        },
        Entry::Payment(_) | Entry::Fee(_) | Entry::Claim(_) => Ok(None),
    }
}

// The part with which a claim was settled.
fn settled_part(entry: &Entry) -> Option<CentsOrZero>
    ensures { option_to_list result ≡ settled_parts entry.now }
{
    match entry {
        Entry::Claim(claim) => match &claim.state {
            ClaimState::Settled(settled) => Some(settled.part),
            ClaimState::Open | ClaimState::Offered(_) => None,
        },
        Entry::Deposit(_) | Entry::Payment(_) | Entry::Fee(_) => None,
    }
}

fn asked_if(ask: Option<Ask>) -> Option<Told>
    ensures { (act : AnyAct) → doings_of act result ≡ asks_of act ask }
{
    match ask {
        None => None,
        Some(ask) => Some(Told::Asked(ask)),
    }
}

fn shown_if(line: Option<BankLine>) -> Option<Told>
    ensures { (act : AnyAct) → doings_of act result ≡ lines_of act line }
{
    match line {
        None => None,
        Some(line) => Some(Told::Shown(line)),
    }
}

// What an act of an entry that is there tells.
fn told_of_entry(
    alloc: Global,
    matter: MatterNo,
    number: EntryNo,
    entry: &Entry,
    deed: &Deed,
) -> Result<Option<Told>, AllocError>
    ensures { IfOk result (λ told. (act : AnyAct) → (rows : Rows) → act.entry ≡ Some number
        → entry_at rows.entries number ≡ Some entry.now → is_of_entry deed.now ≡ true
        → doings_of act told ≡ own_by_deed matter rows act deed.now) }
{
    let ask = match deed {
        Deed::Opened(_) | Deed::Seated(_) | Deed::Unseated(_) | Deed::Closed => return Ok(None),
        Deed::Deposited | Deed::Proposed | Deed::Earned | Deed::Disputed | Deed::Claimed => Some(
            making(number, entry)?,
        ),
        Deed::Cancelled => Some(Ask::CancelDeposit(number)),
        Deed::Approved => Some(Ask::Approve(number)),
        Deed::Declined => Some(Ask::Decline(number)),
        Deed::Withdrawn => Some(Ask::Withdraw(number)),
        Deed::Voided => Some(Ask::VoidPayment(number)),
        Deed::Offered(part) => Some(Ask::Offer(SplitAsk {
            number,
            to_client: *part,
        })),
        Deed::Accepted => match settled_part(entry) {
            None => None,
            Some(to_client) => Some(Ask::Accept(SplitAsk { number, to_client })),
        },
        Deed::Awarded => match settled_part(entry) {
            None => None,
            Some(to_client) => Some(Ask::Award(SplitAsk { number, to_client })),
        },
        Deed::Cleared => return Ok(shown_if(cleared(alloc, matter, number, entry)?)),
        Deed::Returned => return Ok(shown_if(returned(alloc, matter, number, entry)?)),
    };
    Ok(asked_if(ask))
}

/// What an act tells, if the rows of the matter say it.
pub(crate) fn what_is_told(
    alloc: Global,
    number: MatterNo,
    matter: &Matter,
    act: &Act,
) -> Result<Option<Told>, AllocError>
    requires { IsWhole matter.now (rows_kept matter.now) }
    ensures { IfOk result (λ told. doings_of act.now told ≡ own_by number (rows_kept matter.now) act.now) }
{
    match &act.deed {
        Deed::Opened(lawyer) => match matter.head() {
            None => Ok(None),
            Some(head) => match &head.holder {
                Holder::Purged(_) => Ok(None),
                Holder::Client(client) => {
                    let client = client.copied()?;
                    let lawyer = lawyer.copied()?;
                    Ok(Some(Told::Asked(Ask::OpenMatter(OpenAsk { client, lawyer }))))
                }
            },
        },
        Deed::Seated(seat) => Ok(Some(Told::Asked(Ask::AddSeat(seat.copied()?)))),
        Deed::Unseated(person) => Ok(Some(Told::Asked(Ask::DropSeat(person.copied()?)))),
        Deed::Closed => Ok(Some(Told::Asked(Ask::CloseMatter))),
        _ => match act.entry {
            None => Ok(None),
            Some(entry) => match matter.find(entry) {
                None => Ok(None),
                Some(kept) => told_of_entry(alloc, number, entry, &kept.entry, &act.deed),
            },
        },
    }
}
