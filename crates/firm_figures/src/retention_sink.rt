// How long the records of closed matters are kept, from rows that arrive one at a time.

ghost use Rattle.std.specs.Prelude.{◌≡◌};
ghost use Rattle.firm_figures.specs.Lists.{Retained, none_retained, with_row_retained};

use firm_rows::{MatterRow, MatterRowSink};
use std::alloc::{AllocError, Global};
use std::marker::Model;
use trust_base::{CivilDay, Day, MatterNo};
use trust_matter::Holder;

/// A closed matter: the day it was closed, the last day on which its records are kept, which may lie after 2199, and
/// whether it may be purged on the business day.
#[derive(Clone, Copy)]
pub struct RetentionLine {
    pub matter: MatterNo,
    pub closed: Day,
    pub until: CivilDay,
    pub may_purge: bool,
}

/// Lists the closed matters that were not purged, as of a business day.
///
/// Contracts see it as the day and the lines.
#[derive(Drop)]
pub struct RetentionSink {
    today: Day,
    lines: Vec<RetentionLine>,
}

impl Model for RetentionSink {
    ghost Value = { Retained };

    ghost view = { λ s. record { today = s.today; lines = s.lines.items } };
}

impl RetentionSink {
    /// An empty list as of a business day.
    pub fn new(alloc: Global, today: Day) -> RetentionSink
        ensures { result ≡ none_retained today }
    {
        RetentionSink {
            today,
            lines: Vec::new(alloc),
        }
    }

    /// The lines.
    pub fn finish(self) -> Vec<RetentionLine>
        ensures { result.items ≡ self.lines }
    {
        self.lines
    }
}

impl MatterRowSink for RetentionSink {
    ghost taken = { with_row_retained };

    fn matter_row(&mut self, matter: MatterNo, row: MatterRow<'_>) -> Result<(), AllocError> {
        let head = match row {
            MatterRow::Head(head) => head,
            MatterRow::Seat(_seat) => return Ok(()),
            MatterRow::Entry(_number, _entry) => return Ok(()),
        };
        if let (Holder::Client(_), Some(closed)) = (&head.holder, head.closed) {
            let until = closed.retained_until();
            self.lines.push(RetentionLine {
                matter,
                closed,
                until,
                may_purge: until.get() < self.today.get(),
            })?;
        }
        Ok(())
    }
}
