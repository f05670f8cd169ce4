//! Deposits: their states, and the lines of the bank that clear them or take them back.

ghost use Rattle.std.specs.Prelude.{◌≡◌, IfOk, ◌+◌, ◌-◌, ◌<◌, ◌≤◌, ◌≤ℤ◌, ◌-ℤ◌, ◌+ℤ◌, true, ◌++◌, ◌↔◌, ◌&&◌, IsTrue};
ghost use Rattle.std.specs.List.{AllByRecursion};
ghost use Rattle.matter_rows.specs.Clearings.{has_amount_back, is_deposit_cleared_by};
ghost use Rattle.matter_rows.specs.Sound.{deposit_days, deposit_bank, AreRising, IsBackInTime};

use crate::clearing::Clearing;
use crate::soundness::is_up_to;
use std::alloc::AllocError;
use trust_base::{Cents, Day, Label, Line};

/// A deposit that the bank cleared and then took back: both bank lines, and the day on which the return was booked.
#[derive(Drop)]
pub struct ReturnedDeposit {
    pub clearing: Clearing,
    pub returning: Clearing,
    pub undone: Day,
}

/// A deposit is held until the bank clears it or it is cancelled on a day. The bank may take a cleared one back.
#[derive(Drop)]
pub enum DepositState {
    Held,
    Cleared(Clearing),
    Cancelled(Day),
    Returned(ReturnedDeposit),
}

impl DepositState {
    /// A deep copy. The only error is out of memory.
    pub fn copied(&self) -> Result<DepositState, AllocError>
        ensures { IfOk result (λ s. s ≡ self.now) }
    {
        match self {
            DepositState::Held => Ok(DepositState::Held),
            DepositState::Cleared(clearing) => Ok(DepositState::Cleared(clearing.copied()?)),
            DepositState::Cancelled(day) => Ok(DepositState::Cancelled(*day)),
            DepositState::Returned(back) => Ok(DepositState::Returned(ReturnedDeposit {
                clearing: back.clearing.copied()?,
                returning: back.returning.copied()?,
                undone: back.undone,
            })),
        }
    }

    /// Whether the deposit was cleared with the line's date and bank reference.
    pub fn is_cleared_by(&self, line: &Line) -> bool
        ensures { result ≡ is_deposit_cleared_by self.now line.now }
    {
        match self {
            DepositState::Cleared(clearing) => clearing.is_by(line),
            DepositState::Returned(back) => back.clearing.is_by(line),
            DepositState::Held | DepositState::Cancelled(_) => false,
        }
    }

    pub(crate) fn is_by(&self, day: Day) -> bool
        ensures { IsTrue result ↔ AllByRecursion (λ d. d ≤ day) (deposit_days self.now ++ deposit_bank self.now) }
    {
        match self {
            DepositState::Held => true,
            DepositState::Cleared(clearing) => is_up_to(clearing.bank_day, day),
            DepositState::Cancelled(cancelled) => is_up_to(*cancelled, day),
            DepositState::Returned(returned) => {
                is_up_to(returned.undone, day)
                    && is_up_to(returned.clearing.bank_day, day)
                    && is_up_to(returned.returning.bank_day, day)
            }
        }
    }

    pub(crate) fn is_rising(&self, book: Day) -> bool
        ensures { IsTrue result ↔ (AreRising book (deposit_days self.now) × IsBackInTime self.now) }
    {
        match self {
            DepositState::Held | DepositState::Cleared(_) => true,
            DepositState::Cancelled(day) => is_up_to(book, *day),
            DepositState::Returned(returned) => {
                is_up_to(book, returned.undone)
                    && is_up_to(returned.returning.bank_day, returned.undone)
            }
        }
    }
}

/// Money received for the client.
#[derive(Drop)]
pub struct Deposit {
    pub book: Day,
    pub amount: Cents,
    pub source: Label,
    pub description: Label,
    pub state: DepositState,
}

impl Deposit {
    /// The deposit in another state, as a deep copy. The only error is out of memory.
    pub fn restated(&self, state: DepositState) -> Result<Deposit, AllocError>
        ensures { IfOk result (λ d. d ≡ record self.now { state = state }) }
    {
        Ok(Deposit {
            source: self.source.copied()?,
            description: self.description.copied()?,
            state,
            ..*self
        })
    }

    // Whether the line has the negative of the deposit's amount.
    pub(crate) fn has_amount_back(&self, line: &Line) -> bool
        ensures { result ≡ has_amount_back self.now line.now }
    {
        -(self.amount.get() as i64) == line.amount.get()
    }
}
