// What is reported of an item of a statement that was not applied, or of an exception.

use cashier_remarks::{LineRemark, Plain, Reference};
use firm_rows::{BalanceKind, FirmLedger};
use trust_base::{Day, Dollars, Line};
use trust_desk::NotApplied;
use trust_matter::{BankLine, DepositState, Entry, Matter, PaymentState, Reason};

// The remark about a line whose entry is not of the kind, or not in the state, that it needs.
fn remark_on_state<'a>(line: &BankLine, entry: &'a Entry) -> LineRemark<'a> {
    match entry {
        Entry::Deposit(deposit) => match &deposit.state {
            DepositState::Held => no_entry(line),
            DepositState::Cleared(clearing) => LineRemark::DepositCleared(
                clearing.bank_day,
                Plain::new(clearing.bank_ref.as_slice()),
            ),
            DepositState::Cancelled(day) => LineRemark::Cancelled(*day),
            DepositState::Returned(back) => LineRemark::TakenBack(
                back.returning.bank_day,
                Plain::new(back.returning.bank_ref.as_slice()),
            ),
        },
        Entry::Payment(payment) => match &payment.state {
            PaymentState::Proposed | PaymentState::Issued(_) => LineRemark::NotApproved,
            PaymentState::Declined => LineRemark::Declined,
            PaymentState::Cleared(paid) => LineRemark::PaymentCleared(
                paid.clearing.bank_day,
                Plain::new(paid.clearing.bank_ref.as_slice()),
            ),
            PaymentState::Voided(voided) => LineRemark::Voided(voided.undone),
        },
        Entry::Fee(_) => LineRemark::Fee,
        Entry::Claim(_) => LineRemark::Claim,
    }
}

// The amount that a line of an entry needs to have.
fn amount_of(entry: &Entry) -> Dollars {
    match entry {
        Entry::Deposit(deposit) => Dollars(deposit.amount.get() as i128),
        Entry::Payment(payment) => Dollars(-(payment.amount.get() as i128)),
        Entry::Fee(fee) => Dollars(fee.amount.get() as i128),
        Entry::Claim(claim) => Dollars(claim.amount.get() as i128),
    }
}

// The remark about a line whose matter has no such entry.
fn no_entry<'a>(line: &BankLine) -> LineRemark<'a> {
    LineRemark::NoEntry {
        matter: line.matter,
        entry: line.entry,
    }
}

// The remark about a line that names an entry, given its matter as it was loaded and the first reason against it.
fn remark_on_line<'a>(
    line: &BankLine,
    matter: &'a Matter,
    reason: Reason,
    today: Day,
) -> LineRemark<'a> {
    match reason {
        Reason::Future => LineRemark::AfterToday(today),
        Reason::NoMatter if matter.is_purged() => LineRemark::Purged(line.matter),
        Reason::NoMatter => LineRemark::NeverOpened(line.matter),
        Reason::NoEntry => no_entry(line),
        Reason::WrongKind | Reason::WrongState => match matter.find(line.entry) {
            Some(kept) => remark_on_state(line, &kept.entry),
            None => no_entry(line),
        },
        Reason::WrongAmount => match matter.find(line.entry) {
            Some(kept) => LineRemark::OtherAmount {
                there: amount_of(&kept.entry),
                here: line.line.amount,
            },
            None => no_entry(line),
        },
        Reason::Uncovered => match matter.last_if_after(today) {
            Some(last) => LineRemark::WorkOf {
                matter: line.matter,
                last,
            },
            None => LineRemark::Uncovered(line.matter),
        },
    }
}

// The remark about a line of the firm's own that does not fit its ledger.
fn remark_on_own<'a>(line: &Line, ledger: &FirmLedger, today: Day) -> LineRemark<'a> {
    let amount = line.amount.get();
    if line.date > today {
        LineRemark::AfterToday(today)
    } else if amount == 0 {
        LineRemark::MovesNothing
    } else {
        LineRemark::Beyond(Dollars(ledger.balance() as i128 + amount as i128))
    }
}

// The remark about a balance that does not fit. `kept` is the amount on file for its day, if any. Whether it is dated
// after the business day is asked first, as in `json_bodies`.
fn remark_on_balance<'a>(
    kind: BalanceKind,
    line: &Line,
    kept: Option<i64>,
    today: Day,
) -> LineRemark<'a> {
    match kept {
        Some(amount) if line.date <= today => LineRemark::OtherBalance {
            kind,
            day: line.date,
            there: Dollars(amount as i128),
            here: line.amount,
        },
        Some(_) | None => LineRemark::AfterToday(today),
    }
}

// Whether a line that an import would apply clears a payment or takes a deposit back.
fn is_out(line: &Line) -> bool {
    line.reference.as_slice().starts_with(b"M") && line.amount.get() < 0
}

/// Makes the remark about an exception on a business day, or about a line that was not applied. None if the item is not
/// a valid line, as every exception is.
pub fn remark_on_exception<'a>(told: &NotApplied<'a>, today: Day) -> Option<LineRemark<'a>> {
    let remark = match *told {
        NotApplied::OfMatter {
            line,
            matter,
            reason,
        } => remark_on_line(line, matter, reason, today),
        NotApplied::OfFirm { line, ledger } => remark_on_own(line, ledger, today),
        NotApplied::OfBalance { kind, line, kept } => remark_on_balance(kind, line, kept, today),
        NotApplied::Stray { line } if line.reference.as_slice().is_empty() => {
            LineRemark::NoReference
        }
        NotApplied::Stray { line: _ } => LineRemark::Stray,
        NotApplied::Unreadable => return None,
        NotApplied::WouldApply { line } if is_out(line) => LineRemark::WouldTakeOut,
        NotApplied::WouldApply { line: _ } => LineRemark::WouldApply,
        NotApplied::WouldRepeat { line: _ } => LineRemark::WouldRepeat,
    };
    Some(remark)
}

/// Returns what an item that was not applied names. None if it names nothing at all, if it is not a valid line, or if
/// it is an exception that an import would accept.
pub fn reference_of<'a>(told: &NotApplied<'a>) -> Option<Reference<'a>> {
    match *told {
        NotApplied::OfMatter { line, .. } => Some(Reference::Entry {
            matter: line.matter,
            entry: line.entry,
        }),
        NotApplied::OfFirm { .. } => Some(Reference::Firm),
        NotApplied::OfBalance { kind, .. } => Some(Reference::Balance(kind)),
        NotApplied::Stray { line } if line.reference.as_slice().is_empty() => None,
        NotApplied::Stray { line } => Some(Reference::Stray(Plain::new(line.reference.as_slice()))),
        NotApplied::Unreadable | NotApplied::WouldApply { .. } | NotApplied::WouldRepeat { .. } =>
            None,
    }
}
