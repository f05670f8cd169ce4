//! Decides an ask of a matter: returns the refusal, or the change of its rows. Says who may ask, when a matter may
//! change, and what is decided about deposits and fees.

ghost use Rattle.std.specs.Prelude.{◌≡◌, true, false, MatchResult, None, Some, Err};
ghost use Rattle.trust_base.specs.declared.refusal.Refusal.TheVariants as refusals;
ghost use Rattle.trust_base.specs.Limits.{IsAmount};
ghost use Rattle.matter_rows.specs.Rows.{Rows, next_number};
ghost use Rattle.matter_rows.specs.Sound.{Sound};
ghost use Rattle.matter_rows.specs.declared.act.Caller.{Caller as AnyCaller};
ghost use Rattle.matter_parts.specs.Changes.{last_after};
ghost use Rattle.matter_parts.specs.Parts.{IsPart};
ghost use Rattle.matter_parts.specs.TotalsAfter.{IsMade};
ghost use Rattle.trust_matter.specs.Acts.{act_by};
ghost use Rattle.trust_matter.specs.KeptFacts.{kept_facts, holds_for};
ghost use Rattle.trust_matter.specs.Step.{AnswersLateBy, Decides, WhyNotMade, change_conditions, early_conditions, first};

use crate::act::act_by;
use crate::ask::{Ask, DepositAsk, FeeAsk};
use crate::claim::{decide_accept, decide_award, decide_claim, decide_offer};
use crate::head::{decide_add_seat, decide_close, decide_drop_seat, decide_open, decide_purge};
use crate::payment::{
    decide_approve, decide_decline, decide_propose, decide_void, decide_withdraw,
};
use matter_parts::{Change, Edit, Kept, Matter, Numbered, change_of};
use matter_rows::{Against, Caller, Deposit, DepositState, Entry, Fee, Role};
use trust_base::{Day, EntryNo, Refusal, Rule};

/// Decides an ask of a caller on a business day. Returns the change that it makes, or the refusal with the least number
/// whose condition holds. A repeat is a change that changes nothing. Allocates only if the ask is accepted. Returns
/// `Store` if not enough is loaded, and never if it is and the matter is part of sound rows.
pub fn decide(matter: &Matter, caller: &Caller, ask: &Ask, day: Day) -> Result<Change, Refusal>
    // If the entry that the ask names, and the one that this names, are loaded or do not exist, then the answer is
    // right for all sound rows that the matter is part of.
    ensures decided { holds_for matter.now ask.now ≡ true → (rows : Rows) → Sound rows → IsPart matter.now rows
        → Decides rows (record { caller = caller.now; ask = ask.now; day = day }) result }
    ensures unread { holds_for matter.now ask.now ≡ false → result ≡ Err refusals.Store }
{
    let other = match ask {
        Ask::Propose(asked) => asked.fund.number(),
        Ask::RaiseClaim(asked) => asked.against.number(),
        _ => match matter.kept_under(ask.number()) {
            None => None,
            Some(kept) => kept.entry.target(),
        },
    };
    if !matter.holds_or_none(ask.number()) || !matter.holds_or_none(other) {
        return Err(Refusal::Store);
    }
    check_caller(matter, caller, ask)?;
    let decided = match ask {
        Ask::OpenMatter(asked) => decide_open(matter, asked, day),
        Ask::AddSeat(asked) => decide_add_seat(matter, asked, day),
        Ask::DropSeat(person) => decide_drop_seat(matter, person, day),
        Ask::Deposit(asked) => decide_deposit(matter, asked, day),
        Ask::CancelDeposit(number) => decide_cancel(matter, *number, day),
        Ask::Propose(asked) => decide_propose(matter, asked, day),
        Ask::Approve(number) => decide_approve(matter, *number, day),
        Ask::Decline(number) => decide_decline(matter, *number, day),
        Ask::Withdraw(number) => decide_withdraw(matter, *number, day),
        Ask::VoidPayment(number) => decide_void(matter, *number, day),
        Ask::EarnFee(asked) => decide_fee(matter, asked, day),
        Ask::RaiseClaim(asked) => decide_claim(matter, asked, day),
        Ask::Offer(asked) => decide_offer(matter, asked, day),
        Ask::Accept(asked) => decide_accept(matter, asked, day),
        Ask::Award(asked) => decide_award(matter, asked, day),
        Ask::CloseMatter => decide_close(matter, day),
        Ask::Purge => decide_purge(matter, day),
        Ask::Show => Ok(Edit::Nothing),
        Ask::ShowEntries => Ok(Edit::Nothing),
        Ask::Accounting => Ok(Edit::Nothing),
        Ask::Account(_) => Ok(Edit::Nothing),
        Ask::ShowEntry(number) => decide_show_entry(matter, *number, day),
    };
    let edit = decided?;
    change_by(matter, caller, ask, edit, day)
}

// The change of an edit that an ask makes, with the act that it is remembered by.
fn change_by(
    matter: &Matter,
    caller: &Caller,
    ask: &Ask,
    edit: Edit,
    day: Day,
) -> Result<Change, Refusal>
    ensures { MatchResult result
        (λ c. IsMade matter.now edit (last_after matter.now.head edit day) c
        × (c.act ≡ act_by edit (record { caller = caller.now; ask = ask.now; day = day })))
        (λ r. WhyNotMade matter.now edit r) }
{
    // What changes nothing leaves the last day as it is.
    let last = match (matter.head(), &edit) {
        (Some(head), Edit::Nothing) => head.last,
        _ => day,
    };
    let act = act_by(&edit, caller, ask, day)?;
    change_of(matter, edit, last, act)
}

// Refuses a caller for whom the matter does not exist, any ask of a purged matter, and what the policy forbids.
fn check_caller(matter: &Matter, caller: &Caller, ask: &Ask) -> Result<(), Refusal>
    ensures { MatchResult result
        (λ _. first (early_conditions (kept_facts matter.now ask.now)
        (record { caller = caller.now; ask = ask.now; day = 0 })) ≡ None)
        (λ r. first (early_conditions (kept_facts matter.now ask.now)
        (record { caller = caller.now; ask = ask.now; day = 0 })) ≡ Some r) }
{
    let (role, is_unknown) = match caller {
        Caller::Cashier => {
            let is_opening = matches!(ask, Ask::OpenMatter(_));
            (None, matter.head().is_none() && !is_opening)
        }
        Caller::Person(person) => {
            let role = matter.role_of(person);
            (role, role.is_none())
        }
    };
    if is_unknown {
        return Err(Refusal::NoMatter);
    }
    if matter.is_purged() {
        return Err(Refusal::Purged);
    }
    let rule = match ask {
        Ask::Show | Ask::ShowEntry(_) | Ask::ShowEntries | Ask::Accounting | Ask::Account(_) =>
            Rule::Read,
        Ask::Propose(_) | Ask::Withdraw(_) => Rule::Propose,
        Ask::Approve(_) | Ask::Decline(_) | Ask::VoidPayment(_) => Rule::Sign,
        Ask::EarnFee(_) | Ask::Offer(_) => Rule::Sign,
        Ask::RaiseClaim(asked) => match &asked.against {
            Against::General(_) => Rule::Claim,
            Against::Fee(_) => Rule::Dispute,
        },
        Ask::Accept(_) => Rule::Dispute,
        Ask::OpenMatter(_) | Ask::AddSeat(_) | Ask::DropSeat(_) | Ask::CloseMatter | Ask::Purge =>
            Rule::Office,
        Ask::Deposit(_) | Ask::CancelDeposit(_) | Ask::Award(_) => Rule::Office,
    };
    let is_allowed = match caller {
        Caller::Cashier => !matches!(rule, Rule::Dispute | Rule::Sign),
        Caller::Person(_) => match (role, rule) {
            (Some(_), Rule::Read) => true,
            (Some(Role::Client), Rule::Dispute) => true,
            (Some(Role::Lawyer), Rule::Claim | Rule::Propose | Rule::Sign) => true,
            _ => false,
        },
    };
    if !is_allowed {
        return Err(Refusal::NotAllowed(rule));
    }
    Ok(())
}

// Refuses a change of a closed matter, one dated before its last day, and a new entry that does not have the next
// number.
pub(crate) fn check_change(matter: &Matter, made: Option<EntryNo>, day: Day) -> Result<(), Refusal>
    ensures { MatchResult result
        (λ _. first (change_conditions matter.now.head (next_number matter.now.figures.entries) made day) ≡ None)
        (λ r. first (change_conditions matter.now.head (next_number matter.now.figures.entries) made day) ≡ Some r) }
{
    if matter.is_closed() {
        return Err(Refusal::Closed);
    }
    if let Some(last) = matter.last_if_after(day) {
        return Err(Refusal::DateBackwards(last));
    }
    match made {
        Some(number) if !matter.is_next(number) => Err(Refusal::WrongNumber(matter.next_number())),
        _ => Ok(()),
    }
}

// Decides to book a deposit, which is held.
fn decide_deposit(matter: &Matter, asked: &DepositAsk, day: Day) -> Result<Edit, Refusal>
    ensures amount { IsAmount asked.now.amount }
    ensures answer { (c : AnyCaller) → AnswersLateBy (kept_facts matter.now (Ask.Deposit asked.now))
        (record { caller = c; ask = Ask.Deposit asked.now; day = day }) result }
{
    let number = asked.number;
    let amount = asked.amount.get();
    let is_booked = match matter.find(number) {
        Some(
            Kept {
                entry: Entry::Deposit(booked),
                ..
            },
        ) => {
            booked.amount.get() == amount
                && booked.source.is_same(&asked.source)
                && booked.description.is_same(&asked.description)
        }
        _ => false,
    };
    if is_booked {
        return Ok(Edit::Nothing);
    }
    check_change(matter, Some(number), day)?;
    let source = asked.source.copied()?;
    let description = asked.description.copied()?;
    let entry = Entry::Deposit(Deposit {
        book: day,
        amount: asked.amount,
        source,
        description,
        state: DepositState::Held,
    });
    Ok(Edit::Append(Numbered { number, entry }))
}

// Decides to cancel a held deposit.
fn decide_cancel(matter: &Matter, number: EntryNo, day: Day) -> Result<Edit, Refusal>
    ensures { (c : AnyCaller) → AnswersLateBy (kept_facts matter.now (Ask.CancelDeposit number))
        (record { caller = c; ask = Ask.CancelDeposit number; day = day }) result }
{
    check_change(matter, None, day)?;
    let kept = matter.find(number).ok_or(Refusal::NoEntry)?;
    let Entry::Deposit(deposit) = &kept.entry else {
        return Err(Refusal::WrongKind);
    };
    let DepositState::Held = &deposit.state else {
        return Err(Refusal::WrongState);
    };
    let entry = Entry::Deposit(deposit.restated(DepositState::Cancelled(day))?);
    Ok(Edit::Exchange(Numbered { number, entry }))
}

// Decides to set a fee apart from what is available.
fn decide_fee(matter: &Matter, asked: &FeeAsk, day: Day) -> Result<Edit, Refusal>
    ensures amount { IsAmount asked.now.amount }
    ensures answer { (c : AnyCaller) → AnswersLateBy (kept_facts matter.now (Ask.EarnFee asked.now))
        (record { caller = c; ask = Ask.EarnFee asked.now; day = day }) result }
{
    let left = matter.figures().available;
    let amount = asked.amount.get();
    let is_earned = match matter.find(asked.number) {
        Some(kept) => match &kept.entry {
            Entry::Fee(earned) => {
                earned.amount.get() == amount && earned.description.is_same(&asked.description)
            }
            _ => false,
        },
        None => false,
    };
    if is_earned {
        return Ok(Edit::Nothing);
    }
    let number = asked.number;
    check_change(matter, Some(number), day)?;
    if left < amount {
        return Err(Refusal::Short(left));
    }
    let description = asked.description.copied()?;
    let entry = Entry::Fee(Fee {
        book: day,
        amount: asked.amount,
        description,
    });
    Ok(Edit::Append(Numbered { number, entry }))
}

// Decides to read an entry.
fn decide_show_entry(matter: &Matter, number: EntryNo, day: Day) -> Result<Edit, Refusal>
    ensures { (c : AnyCaller) → AnswersLateBy (kept_facts matter.now (Ask.ShowEntry number))
        (record { caller = c; ask = Ask.ShowEntry number; day = day }) result }
{
    let _day = day;
    if matter.find(number).is_none() {
        return Err(Refusal::NoEntry);
    }
    Ok(Edit::Nothing)
}
