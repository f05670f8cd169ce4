//! What a bank line does to a matter.

ghost use Rattle.std.specs.Prelude.{◌≡◌, true, false, IfOk, MatchResult, None, Some, Err};
ghost use Rattle.trust_base.specs.declared.refusal.StoreFault.TheVariants as faults;
ghost use Rattle.matter_rows.specs.Rows.{Rows};
ghost use Rattle.matter_rows.specs.Sound.{Sound};
ghost use Rattle.matter_parts.specs.Parts.{IsPart, kept_at};
ghost use Rattle.trust_matter.specs.LineStep.{LineDecides, dated_by, first_reason, reasons};
ghost use Rattle.trust_matter.specs.KeptFacts.{kept_line_facts, holds_for_line};

use crate::act::line_act;
use crate::bank_line::BankLine;
use matter_parts::{Change, Edit, Kept, Matter, Numbered, change_of};
use matter_rows::{Clearing, DepositState, Entry, PaymentState, ReturnedDeposit};
use std::alloc::AllocError;
use trust_base::{Day, StoreFault};

/// Why a bank line matches no entry. Reasons are tried in this order.
#[derive(Clone, Copy)]
pub enum Reason {
    /// The line is dated after the business day.
    Future,
    /// The matter was never opened.
    NoMatter,
    /// The matter has no entry with this number.
    NoEntry,
    /// The entry is a fee or a claim, which no line clears.
    WrongKind,
    /// The deposit is neither held nor, if the line takes it back, cleared; or the payment is not issued.
    WrongState,
    /// The amount is neither the deposit's nor the negative of the payment's.
    WrongAmount,
    /// The line takes back a cleared deposit, but what is available does not cover it, or the business day is before
    /// the matter's last day.
    Uncovered,
}

/// An edit, and the matter's last day after it.
#[derive(Drop)]
pub struct DatedEdit {
    pub edit: Edit,
    pub last: Day,
}

/// What a line does, as contracts see it: the edit that clears the entry or takes the deposit back, nothing as it is a
/// repeat, or nothing as it matches no entry.
#[derive(Drop)]
pub enum LineEffect {
    Applied(DatedEdit),
    Repeat,
    Unmatched(Reason),
}

/// The verdict on a line: the change that clears the entry or takes the deposit back, a repeat, or why the line matches
/// no entry.
pub enum LineVerdict {
    Applied(Change),
    Repeat,
    Unmatched(Reason),
}

// Written by hand, so that a function that holds a verdict makes one call at each exit.
impl Drop for LineVerdict {
    fn drop(self) {
        match self {
            LineVerdict::Applied(_change) => (),
            LineVerdict::Repeat => (),
            LineVerdict::Unmatched(_reason) => (),
        }
    }
}

// The entry that the line clears or takes back, or the first reason why there is none.
fn entry_cleared<'m>(matter: &'m Matter, line: &BankLine, today: Day) -> Result<&'m Kept, Reason>
    ensures { MatchResult result
        (λ kept. (first_reason (reasons (kept_line_facts matter.now line.now today)) ≡ None)
        × (kept_at matter.now line.now.entry ≡ Some kept.now))
        (λ reason. first_reason (reasons (kept_line_facts matter.now line.now today)) ≡ Some reason) }
{
    if today.get() < line.line.date.get() {
        return Err(Reason::Future);
    }
    if matter.is_gone() {
        return Err(Reason::NoMatter);
    }
    let kept = matter.find(line.entry).ok_or(Reason::NoEntry)?;
    let is_awaited = match &kept.entry {
        Entry::Deposit(deposit) => matches!(deposit.state, DepositState::Held),
        Entry::Payment(payment) => matches!(payment.state, PaymentState::Issued(_)),
        Entry::Fee(_) | Entry::Claim(_) => return Err(Reason::WrongKind),
    };
    let is_return = kept.entry.is_return(&line.line);
    if !is_awaited && !is_return {
        return Err(Reason::WrongState);
    }
    if !kept.entry.has_its_amount(&line.line) && !is_return {
        return Err(Reason::WrongAmount);
    }
    if is_return && (matter.last_if_after(today).is_some() || !matter.covers(&kept.entry)) {
        return Err(Reason::Uncovered);
    }
    Ok(kept)
}

// The edit by which the line clears the entry or takes it back, and the matter's last day after it. No line clears a
// fee or a claim.
fn edit_by_line(
    matter: &Matter,
    kept: &Kept,
    line: &BankLine,
    today: Day,
) -> Result<DatedEdit, AllocError>
    requires { kept_at matter.now line.now.entry ≡ Some kept.now }
    ensures { IfOk result (λ d. d ≡ dated_by (kept_line_facts matter.now line.now today)) }
{
    let number = line.entry;
    let edit = match &kept.entry {
        Entry::Deposit(deposit) => {
            let by = Clearing {
                bank_day: line.line.date,
                bank_ref: line.line.bank_ref.copied()?,
            };
            // A held deposit is cleared; a cleared one is returned on the business day.
            let state = match &deposit.state {
                DepositState::Held => DepositState::Cleared(by),
                DepositState::Cleared(clearing) => DepositState::Returned(ReturnedDeposit {
                    clearing: clearing.copied()?,
                    returning: by,
                    undone: today,
                }),
                DepositState::Cancelled(_) | DepositState::Returned(_) => deposit.state.copied()?,
            };
            let entry = Entry::Deposit(deposit.restated(state)?);
            Edit::Exchange(Numbered { number, entry })
        }
        Entry::Payment(payment) => {
            let state = payment.state.cleared(&line.line)?;
            let entry = Entry::Payment(payment.restated(state)?);
            Edit::Exchange(Numbered { number, entry })
        }
        Entry::Fee(_) | Entry::Claim(_) => Edit::Nothing,
    };
    let last = match matter.head() {
        _ if kept.entry.is_return(&line.line) => today,
        Some(head) if line.line.date.get() < head.last.get() => head.last,
        _ => line.line.date,
    };
    Ok(DatedEdit { edit, last })
}

/// Decides a bank line on a business day. The line clears the entry that it names or takes it back, already did so, or
/// matches no entry, for the first reason that holds. Allocates only if the line is applied. Returns `Store` if not
/// enough is loaded, and never if it is and the matter is part of sound rows.
pub fn decide_line(matter: &Matter, line: &BankLine, today: Day) -> Result<LineVerdict, StoreFault>
    // If the entry that the line names, and the one that this draws on, are loaded or do not exist, then the answer is
    // right for all sound rows that the matter is part of.
    ensures decided { holds_for_line matter.now line.now.entry ≡ true → (rows : Rows) → Sound rows
        → IsPart matter.now rows → LineDecides rows line.now today result }
    ensures unread { holds_for_line matter.now line.now.entry ≡ false → result ≡ Err faults.Store }
{
    let found = matter.find(line.entry);
    let target = match found {
        None => None,
        Some(kept) => kept.entry.target(),
    };
    if !matter.holds(line.entry) || !matter.holds_or_none(target) {
        return Err(StoreFault::Store);
    }
    let is_again = match found {
        None => false,
        Some(kept) => match &kept.entry {
            Entry::Deposit(deposit) => {
                let is_returned = match &deposit.state {
                    DepositState::Returned(back) => {
                        back.returning.bank_day.get() == line.line.date.get()
                            && back.returning.bank_ref.is_same(&line.line.bank_ref)
                            && -(deposit.amount.get() as i64) == line.line.amount.get()
                    }
                    _ => false,
                };
                is_returned
                    || deposit.state.is_cleared_by(&line.line)
                        && kept.entry.has_its_amount(&line.line)
            }
            Entry::Payment(payment) => {
                payment.state.is_cleared_by(&line.line) && kept.entry.has_its_amount(&line.line)
            }
            Entry::Fee(_) | Entry::Claim(_) => false,
        },
    };
    if is_again {
        return Ok(LineVerdict::Repeat);
    }
    let kept = match entry_cleared(matter, line, today) {
        Ok(kept) => kept,
        Err(reason) => return Ok(LineVerdict::Unmatched(reason)),
    };
    let dated = edit_by_line(matter, kept, line, today)?;
    let act = line_act(&kept.entry, line, today);
    match change_of(matter, dated.edit, dated.last, Some(act)) {
        Ok(change) => Ok(LineVerdict::Applied(change)),
        Err(_) => Err(StoreFault::Store),
    }
}
