//! Payments: their states, and what they are paid from.

ghost use Rattle.std.specs.Prelude.{◌≡◌, IfOk, ◌+◌, ◌-◌, ◌<◌, ◌≤◌, ◌≤ℤ◌, ◌-ℤ◌, ◌+ℤ◌, pos, true, ◌&&◌, ◌++◌, ◌↔◌, IsTrue};
ghost use Rattle.std.specs.List.{AllByRecursion};
ghost use Rattle.matter_rows.specs.Shares.{number_or_none, fund_no};
ghost use Rattle.matter_rows.specs.Rows.{is_same_fund, entry_at};
ghost use Rattle.matter_rows.specs.Clearings.{clearing_by, is_payment_cleared_by, cleared_payment};
ghost use Rattle.matter_rows.specs.Balances.{funds};
ghost use Rattle.matter_rows.specs.Events.{issued_on};
ghost use Rattle.matter_rows.specs.Sound.{payment_days, payment_bank, AreRising, funded_from};

use crate::claim::Claim;
use crate::clearing::{Clearing, clearing_by};
use crate::entry::Entry;
use crate::fee::Fee;
use crate::soundness::{entry_at, has_fee, is_up_to};
use std::alloc::AllocError;
use trust_base::{Cents, Day, EntryNo, Label, Line};

/// What a payment is paid from: the general fund, an earned fee, or a settled claim.
#[derive(Clone, Copy)]
pub enum Fund {
    General,
    Fee(EntryNo),
    Claim(EntryNo),
}

impl Fund {
    /// The number of the fee or claim, if the fund is one.
    pub fn number(self) -> Option<EntryNo>
        ensures { number_or_none result ≡ fund_no self }
    {
        match self {
            Fund::General => None,
            Fund::Fee(number) | Fund::Claim(number) => Some(number),
        }
    }

    /// Whether both are the same fund.
    pub fn is_same(self, other: Fund) -> bool
        ensures { result ≡ is_same_fund self other }
    {
        match self {
            Fund::General => matches!(other, Fund::General),
            Fund::Fee(number) => match other {
                Fund::Fee(k) => number.get() == k.get(),
                _ => false,
            },
            Fund::Claim(number) => match other {
                Fund::Claim(k) => number.get() == k.get(),
                _ => false,
            },
        }
    }

    // Whether the fund is among the entries, and of its kind.
    pub(crate) fn is_in(self, entries: &[Entry]) -> bool
        ensures { result ≡ funds entries.now self }
    {
        match self {
            Fund::General => true,
            Fund::Fee(number) => has_fee(entries, number),
            Fund::Claim(number) => match entry_at(entries, number) {
                None => false,
                Some(entry) => entry.is_settled(),
            },
        }
    }

    // Whether the fund, if it is a settled claim, was settled on or before the day.
    pub(crate) fn is_ready_by(self, entries: &[Entry], day: Day) -> bool
        ensures { IsTrue result ↔ (funded_from entries.now self ≤ day) }
    {
        match self {
            Fund::General | Fund::Fee(_) => true,
            Fund::Claim(number) => match entry_at(entries, number) {
                Some(Entry::Claim(claim)) => claim.state.is_ready_by(day),
                Some(Entry::Deposit(_) | Entry::Payment(_) | Entry::Fee(_)) | None => true,
            },
        }
    }
}

/// A payment that the bank cleared: the day of its issue, and the bank line.
#[derive(Drop)]
pub struct ClearedPayment {
    pub issued: Day,
    pub clearing: Clearing,
}

/// A payment that was taken back: the day of its issue, and the day of its voiding.
#[derive(Clone, Copy)]
pub struct VoidedPayment {
    pub issued: Day,
    pub undone: Day,
}

/// A payment is proposed, then either declined, or issued on a day and then cleared or voided.
#[derive(Drop)]
pub enum PaymentState {
    Proposed,
    Declined,
    Issued(Day),
    Cleared(ClearedPayment),
    Voided(VoidedPayment),
}

impl PaymentState {
    /// A deep copy. The only error is out of memory.
    pub fn copied(&self) -> Result<PaymentState, AllocError>
        ensures { IfOk result (λ s. s ≡ self.now) }
    {
        match self {
            PaymentState::Proposed => Ok(PaymentState::Proposed),
            PaymentState::Declined => Ok(PaymentState::Declined),
            PaymentState::Issued(day) => Ok(PaymentState::Issued(*day)),
            PaymentState::Cleared(paid) => Ok(PaymentState::Cleared(ClearedPayment {
                issued: paid.issued,
                clearing: paid.clearing.copied()?,
            })),
            PaymentState::Voided(voided) => Ok(PaymentState::Voided(*voided)),
        }
    }

    /// The day on which the payment was issued. None while it is proposed, and if it was declined.
    pub fn issued_on(&self) -> Option<Day>
        ensures { result ≡ issued_on self.now }
    {
        match self {
            PaymentState::Proposed | PaymentState::Declined => None,
            PaymentState::Issued(day) => Some(*day),
            PaymentState::Cleared(paid) => Some(paid.issued),
            PaymentState::Voided(voided) => Some(voided.issued),
        }
    }

    /// Whether the payment was cleared with the line's date and bank reference.
    pub fn is_cleared_by(&self, line: &Line) -> bool
        ensures { result ≡ is_payment_cleared_by self.now line.now }
    {
        match self {
            PaymentState::Cleared(paid) => paid.clearing.is_by(line),
            PaymentState::Proposed
            | PaymentState::Declined
            | PaymentState::Issued(_)
            | PaymentState::Voided(_) => false,
        }
    }

    /// The state after this line: an issued payment is cleared, and keeps the day of its issue. Any other state is
    /// copied unchanged.
    pub fn cleared(&self, line: &Line) -> Result<PaymentState, AllocError>
        ensures { IfOk result (λ s. s ≡ cleared_payment line.now self.now) }
    {
        match self {
            PaymentState::Issued(issued) => Ok(PaymentState::Cleared(ClearedPayment {
                issued: *issued,
                clearing: clearing_by(line)?,
            })),
            PaymentState::Proposed
            | PaymentState::Declined
            | PaymentState::Cleared(_)
            | PaymentState::Voided(_) => self.copied(),
        }
    }

    pub(crate) fn is_by(&self, day: Day) -> bool
        ensures { IsTrue result ↔ AllByRecursion (λ d. d ≤ day) (payment_days self.now ++ payment_bank self.now) }
    {
        match self {
            PaymentState::Proposed | PaymentState::Declined => true,
            PaymentState::Issued(issued) => is_up_to(*issued, day),
            PaymentState::Cleared(cleared) => {
                is_up_to(cleared.issued, day) && is_up_to(cleared.clearing.bank_day, day)
            }
            PaymentState::Voided(voided) => {
                is_up_to(voided.issued, day) && is_up_to(voided.undone, day)
            }
        }
    }

    pub(crate) fn is_rising(&self, book: Day) -> bool
        ensures { IsTrue result ↔ AreRising book (payment_days self.now) }
    {
        match self {
            PaymentState::Proposed | PaymentState::Declined => true,
            PaymentState::Issued(issued) => is_up_to(book, *issued),
            PaymentState::Cleared(cleared) => is_up_to(book, cleared.issued),
            PaymentState::Voided(voided) => {
                is_up_to(book, voided.issued) && is_up_to(voided.issued, voided.undone)
            }
        }
    }
}

/// Money paid out for the client.
#[derive(Drop)]
pub struct Payment {
    pub book: Day,
    pub amount: Cents,
    pub fund: Fund,
    pub payee: Label,
    pub purpose: Label,
    pub instrument: Label,
    pub state: PaymentState,
}

impl Payment {
    /// The payment in another state, as a deep copy. The only error is out of memory.
    pub fn restated(&self, state: PaymentState) -> Result<Payment, AllocError>
        ensures { IfOk result (λ p. p ≡ record self.now { state = state }) }
    {
        Ok(Payment {
            payee: self.payee.copied()?,
            purpose: self.purpose.copied()?,
            instrument: self.instrument.copied()?,
            state,
            ..*self
        })
    }
}
