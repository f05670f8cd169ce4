// The trial balance, from rows that arrive one at a time.

ghost use Rattle.std.specs.Prelude.{◌≡◌, fold};
ghost use Rattle.firm_rows.specs.Journal.{ledger_share};
ghost use Rattle.firm_figures.specs.Reconciling.{added};
ghost use Rattle.firm_figures.specs.Lists.{TrialKept, no_trial, add_last, with_trial_row, with_trial_own, trial_sum};
ghost use Rattle.firm_figures.specs.declared.trial_sink.TrialLine.{TrialLine};

use crate::figures::{added, together};
use firm_rows::{FirmLine, MatterRow, MatterRowSink, RowSink};
use std::alloc::{AllocError, Global};
use std::marker::Model;
use trust_base::MatterNo;
use trust_matter::{DepositState, Entry, PaymentState};

/// An open matter and its ledger, in cents.
#[derive(Clone, Copy)]
pub struct TrialLine {
    pub matter: MatterNo,
    pub ledger: i128,
}

/// The trial balance: the open matters by number with their ledgers, the firm's own balance, and their sum, in cents.
#[derive(Drop)]
pub struct TrialBalance {
    pub lines: Vec<TrialLine>,
    pub own: i128,
    pub total: i128,
}

/// Lists the ledgers of the open matters, and adds up the firm's own lines.
///
/// Contracts see it as the lines and the firm's balance.
#[derive(Drop)]
pub struct TrialSink {
    own: i128,
    lines: Vec<TrialLine>,
}

impl Model for TrialSink {
    ghost Value = { TrialKept };

    ghost view = { λ s. record { own = s.own; lines = s.lines.items } };
}

// What an entry adds to the ledger of its matter.
#[tactic(auto, unfolding(matter_rows::specs::Shares::total_share, matter_rows::specs::Shares::held_share))]
fn ledger_share(entry: &Entry) -> i64
    ensures { result ≡ ledger_share entry.now }
{
    match entry {
        Entry::Deposit(deposit) => match &deposit.state {
            DepositState::Held | DepositState::Cleared(_) => deposit.amount.get() as i64,
            DepositState::Cancelled(_) | DepositState::Returned(_) => 0,
        },
        Entry::Payment(payment) => match &payment.state {
            PaymentState::Issued(_) | PaymentState::Cleared(_) => -(payment.amount.get() as i64),
            PaymentState::Proposed | PaymentState::Declined | PaymentState::Voided(_) => 0,
        },
        Entry::Fee(_) | Entry::Claim(_) => 0,
    }
}

impl TrialLine {
    fn add(&mut self, amount: i64)
        ensures { self.new ≡ record { matter = self.old.matter; ledger = added self.old.ledger amount } }
    {
        self.ledger = added(self.ledger, amount);
    }
}

// Adds an amount to the last line, if that is of this matter.
fn add_last(lines: &mut [TrialLine], matter: MatterNo, amount: i64)
    ensures { lines.new ≡ add_last matter amount lines.old }
{
    if let Some(line) = lines.last_mut() {
        if line.matter == matter {
            line.add(amount);
        }
    }
}

// The sum of the ledgers and the firm's own balance.
fn total_of(lines: &[TrialLine], own: i128) -> i128
    ensures { result ≡ fold (λ z (l : TrialLine). added z l.ledger) own lines.now }
{
    let mut total = own;
    for line in lines {
        total = together(total, line.ledger);
    }
    total
}

impl TrialSink {
    /// An empty trial balance.
    pub fn new(alloc: Global) -> TrialSink
        ensures { result ≡ no_trial }
    {
        TrialSink {
            lines: Vec::new(alloc),
            own: 0,
        }
    }

    /// The trial balance.
    pub fn finish(self) -> TrialBalance
        ensures lines { result.lines.items ≡ self.lines }
        ensures own { result.own ≡ self.own }
        ensures total { result.total ≡ trial_sum self }
    {
        let total = total_of(self.lines.as_slice(), self.own);
        TrialBalance {
            lines: self.lines,
            own: self.own,
            total,
        }
    }
}

impl MatterRowSink for TrialSink {
    ghost taken = { with_trial_row };

    fn matter_row(&mut self, matter: MatterNo, row: MatterRow<'_>) -> Result<(), AllocError> {
        match row {
            MatterRow::Head(head) => {
                if head.closed.is_none() {
                    self.lines.push(TrialLine { matter, ledger: 0 })?;
                }
            }
            MatterRow::Seat(_seat) => {}
            MatterRow::Entry(_, entry) => add_last(&mut self.lines, matter, ledger_share(entry)),
        }
        Ok(())
    }
}

impl RowSink<FirmLine> for TrialSink {
    ghost taken = { with_trial_own };

    fn take(&mut self, line: &FirmLine) -> Result<(), AllocError> {
        self.own = added(self.own, line.amount.get());
        Ok(())
    }
}
