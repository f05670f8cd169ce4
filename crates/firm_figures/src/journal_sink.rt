// Builds the journal from movements that arrive one at a time.

ghost use Rattle.std.specs.Prelude.{◌≡◌};
ghost use Rattle.firm_figures.specs.Lists.{JournalKept, no_journal, with_moved};
ghost use Rattle.firm_figures.specs.declared.journal_sink.JournalLine.{JournalLine};

use crate::figures::added;
use firm_rows::{Movement, RowSink};
use std::alloc::{AllocError, Global};
use std::marker::Model;

/// A movement with the running sum, in cents.
#[derive(Clone, Copy)]
pub struct JournalLine {
    pub movement: Movement,
    pub sum: i128,
}

/// Builds the journal.
///
/// Contracts see it as the lines and the last sum.
#[derive(Drop)]
pub struct JournalSink {
    lines: Vec<JournalLine>,
    sum: i128,
}

impl Model for JournalSink {
    ghost Value = { JournalKept };

    ghost view = { λ s. record { lines = s.lines.items; sum = s.sum } };
}

impl JournalSink {
    /// An empty journal.
    pub fn new(alloc: Global) -> JournalSink
        ensures { result ≡ no_journal }
    {
        JournalSink {
            lines: Vec::new(alloc),
            sum: 0,
        }
    }

    /// The lines.
    pub fn finish(self) -> Vec<JournalLine>
        ensures { result.items ≡ self.lines }
    {
        self.lines
    }
}

impl RowSink<Movement> for JournalSink {
    ghost taken = { with_moved };

    fn take(&mut self, movement: &Movement) -> Result<(), AllocError> {
        let sum = added(self.sum, movement.amount);
        self.lines.push(JournalLine {
            movement: *movement,
            sum,
        })?;
        self.sum = sum;
        Ok(())
    }
}
