//! Which purged matters had records that a report wants.

ghost use Rattle.trust_store.specs.Calls.{IsRead};

use crate::watching::PurgedWatch;
use firm_figures::{is_head_purged_after, is_head_purged_at};
use firm_periods::is_head_purged_within;
use firm_rows::{MatterRow, MatterRowSink};
use std::alloc::{AllocError, Global};
use std::marker::Model;
use trust_base::{Day, MatterNo, Period, StoreFault};
use trust_matter::Head;
use trust_store::Book;

/// Which matters' records a report wants.
#[derive(Clone, Copy)]
pub enum WantedRecords {
    /// Of those that were open as of a day: the list of clients, and what waits for the bank.
    OpenAt(Day),
    /// Of those that were closed after a day: its reconciliation.
    ClosedAfter(Day),
    /// Of those that were open in a period: what was received, disbursed and approved in it.
    OpenWithin(Period),
    /// Of all that a part of the packet of a month's end wants.
    OfMonth(Day),
}

impl WantedRecords {
    // Whether it wants the records of a matter with this head, and the matter was purged.
    fn are_purged(self, head: &Head) -> bool {
        match self {
            WantedRecords::OpenAt(day) => is_head_purged_at(head, day),
            WantedRecords::ClosedAfter(day) => is_head_purged_after(head, day),
            WantedRecords::OpenWithin(period) => is_head_purged_within(head, period),
            WantedRecords::OfMonth(day) => {
                is_head_purged_after(head, day)
                    || is_head_purged_within(head, Period::month_to(day))
            }
        }
    }
}

// A purged matter.
#[derive(Clone, Copy)]
struct PurgedMatter {
    matter: MatterNo,
    opened: Day,
    closed: Day,
}

// The purged matters whose records a report wants, by number.
//
// Contracts see nothing of it.
#[derive(Drop)]
struct PurgedMatters {
    wanted: WantedRecords,
    matters: Vec<PurgedMatter>,
}

impl Model for PurgedMatters {
    ghost Value = { Unit };

    ghost view = { λ seen. tt };
}

impl PurgedMatters {
    fn new(alloc: Global, wanted: WantedRecords) -> PurgedMatters {
        PurgedMatters {
            wanted,
            matters: Vec::new(alloc),
        }
    }

    // Keeps the matter with this head, if it is one of them.
    fn keep(&mut self, matter: MatterNo, head: &Head) -> Result<(), AllocError> {
        if !self.wanted.are_purged(head) {
            return Ok(());
        }
        let Some(closed) = head.closed else {
            return Ok(());
        };
        self.matters.push(PurgedMatter {
            matter,
            opened: head.opened,
            closed,
        })?;
        Ok(())
    }
}

impl MatterRowSink for PurgedMatters {
    ghost taken = { λ seen row. seen };

    fn matter_row(&mut self, matter: MatterNo, row: MatterRow<'_>) -> Result<(), AllocError> {
        match row {
            MatterRow::Head(head) => self.keep(matter, head),
            MatterRow::Seat(_seat) => Ok(()),
            MatterRow::Entry(_number, _entry) => Ok(()),
        }
    }
}

/// Reports to `watch`, by number, the purged matters whose records a report wants, which is why it is refused. The book
/// is unchanged. The contract does not say what `watch` is told.
///
/// Returns `Store` if the book's store failed, and `Memory` if memory ran out.
pub fn tell_purged<B: Book, V: PurgedWatch>(
    alloc: Global,
    book: &mut B,
    wanted: WantedRecords,
    watch: &V,
) -> Result<(), StoreFault>
    ensures { IsRead result (B.seen book.old) (B.seen book.new) }
{
    let mut seen = PurgedMatters::new(alloc, wanted);
    book.each_row(&mut seen)?;
    for purged in &seen.matters {
        watch.purged(purged.matter, purged.opened, purged.closed);
    }
    Ok(())
}
