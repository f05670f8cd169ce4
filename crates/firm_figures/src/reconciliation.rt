// The reconciliation as of a day, its figures and lists, from rows that arrive one at a time.

ghost use Rattle.std.specs.Prelude.{◌≡◌, ℕ, IfOk, OnOk, OnErr};
ghost use Rattle.std.specs.Option.{option_map};
ghost use Rattle.firm_rows.specs.Firm.{EntryRow, HeadRow};
ghost use Rattle.firm_figures.specs.Figures.{names_balance};
ghost use Rattle.firm_figures.specs.Listing.{listed};
ghost use Rattle.firm_figures.specs.Openings.{AreClosings};
ghost use Rattle.firm_figures.specs.Reconciling.{with_entry_told};
ghost use Rattle.firm_figures.specs.Reconciliations.{ReconciliationKept, nothing_kept, with_row_kept, with_movement_kept, with_own_kept, with_exception_kept, with_balance_noted, kept_told, told};

use crate::day_lists::{
    EntryDays, Issued, OpeningLine, ReconciliationLists, Standing, doubles_of, openings_after,
    push_issued, push_line,
};
use crate::figures::{ReconciliationFigures, Sums, added, less, together};
use crate::heads::is_head_purged_after;
use firm_rows::{BalanceKind, BalanceRow, FirmLine, MatterRow, MatterRowSink, Movement, RowSink};
use std::alloc::{AllocError, Global};
use std::marker::Model;
use trust_base::{BankText, Day, EntryNo, Line, MatterNo};
use trust_matter::{Entry, Head};

/// The reconciliation as of a day: the ten figures, and the lists that go with them. Doubles are payments with the same
/// instrument as another, sorted by instrument (byte by byte), matter and entry. Openings are those that differ from
/// the latest closing before them, by day.
pub struct Reconciliation {
    pub figures: ReconciliationFigures,
    pub lists: ReconciliationLists,
    pub doubles: Vec<Issued>,
    pub openings: Vec<OpeningLine>,
}

// Written by hand, so that a function that holds a reconciliation makes one call at each exit.
impl Drop for Reconciliation {
    fn drop(self) {
        let Reconciliation {
            figures: _figures,
            lists: _lists,
            doubles: _doubles,
            openings: _openings,
        } = self;
    }
}

/// Builds the reconciliation as of a day from the rows, movements, lines, exceptions and balances of a firm, one at a
/// time. It stores sums, the lists that it returns, every payment issued on or before the day and not voided by then,
/// the balances dated on or before the day, and whether the day's records are complete.
///
/// Contracts see it as these.
pub struct ReconciliationSink {
    day: Day,
    sums: Sums,
    lists: ReconciliationLists,
    issued: Vec<Issued>,
    openings: Vec<BalanceRow>,
    closings: Vec<BalanceRow>,
    // Whether a matter that was closed after the day was purged.
    purged: bool,
}

// Written by hand, so that a function that holds a sink makes one call at each exit.
impl Drop for ReconciliationSink {
    fn drop(self) {
        let ReconciliationSink {
            day: _day,
            sums: _sums,
            lists: _lists,
            issued: _issued,
            openings: _openings,
            closings: _closings,
            purged: _purged,
        } = self;
    }
}

impl Model for ReconciliationSink {
    ghost Value = { ReconciliationKept };

    ghost view = { λ s. record {
      figures = record {
        day = s.day;
        closing = s.sums.closing;
        transit = s.sums.transit;
        outstanding = s.sums.outstanding;
        journal = s.sums.journal;
        entries = s.sums.entries;
        own = s.sums.own;
        exceptions = s.sums.exceptions;
        matched = s.sums.matched;
        early = s.sums.early;
      };
      lists = listed s.day s.lists;
      issued = record { day = s.day; issued = s.issued.items };
      balances = record { day = s.day; openings = s.openings.items; closings = s.closings.items };
      period = record { day = s.day; purged = s.purged };
    } };
}

impl ReconciliationSink {
    /// Starts as of a day, with nothing added.
    pub fn new(alloc: Global, day: Day) -> ReconciliationSink
        ensures { result ≡ nothing_kept day }
    {
        ReconciliationSink {
            day,
            sums: Sums {
                closing: None,
                transit: 0,
                outstanding: 0,
                journal: 0,
                entries: 0,
                own: 0,
                exceptions: 0,
                matched: 0,
                early: 0,
            },
            lists: ReconciliationLists {
                transit: Vec::new(alloc),
                out: Vec::new(alloc),
                early: Vec::new(alloc),
                exceptions: Vec::new(alloc),
            },
            issued: Vec::new(alloc),
            openings: Vec::new(alloc),
            closings: Vec::new(alloc),
            purged: false,
        }
    }

    // Puts an entry on the lists on which it stands, and among the issued payments if it is one. If memory runs out,
    // it is put nowhere.
    fn list_entry(
        &mut self,
        matter: MatterNo,
        number: EntryNo,
        entry: &Entry,
    ) -> Result<(), AllocError>
        ensures ok { let after = with_row_kept self.old (matter, EntryRow number entry.now) in
            OnOk result (self.new ≡ record after { figures = self.old.figures }) }
        ensures err { OnErr result (self.new ≡ self.old) }
    {
        let standing = Standing::of(entry, self.day);
        let amount = EntryDays::by(entry, self.day).amount;
        self.lists.transit.reserve(1)?;
        self.lists.out.reserve(1)?;
        self.lists.early.reserve(2)?;
        push_issued(&mut self.issued, self.day, matter, number, entry)?;
        push_line(
            &mut self.lists.transit,
            matter,
            number,
            standing.transit,
            amount,
        );
        push_line(&mut self.lists.out, matter, number, standing.out, amount);
        push_line(
            &mut self.lists.early,
            matter,
            number,
            standing.early,
            amount,
        );
        push_line(
            &mut self.lists.early,
            matter,
            number,
            standing.back,
            -amount,
        );
        Ok(())
    }

    // Adds an entry to the sums.
    fn add_entry(&mut self, entry: &Entry)
        ensures { self.new ≡ record self.old { figures = with_entry_told self.old.figures entry.now } }
    {
        let days = EntryDays::by(entry, self.day);
        let standing = Standing::of(entry, self.day);
        let gone = days.undone.or(days.returned);
        let transit = days.amount_left(standing.transit, None);
        let outstanding = days.amount_left(None, standing.out);
        let entries = days.amount_left(days.booked, gone);
        let matched = days.amount_left(days.banked, days.back);
        let early = days.amount_left(standing.early, standing.back);
        self.sums.transit = together(self.sums.transit, transit);
        self.sums.outstanding = together(self.sums.outstanding, outstanding);
        self.sums.entries = together(self.sums.entries, entries);
        self.sums.matched = together(self.sums.matched, matched);
        self.sums.early = together(self.sums.early, early);
    }

    /// Takes the head of a matter in. Unlike the row by itself, it is never refused.
    pub fn see_head(&mut self, head: &Head)
        ensures { (m : ℕ) → self.new ≡ with_row_kept self.old (m, HeadRow head.now) }
    {
        if is_head_purged_after(head, self.day) {
            self.purged = true;
        }
    }

    /// Takes an entry of a matter in. If memory runs out, nothing changes.
    pub fn see_entry(
        &mut self,
        matter: MatterNo,
        number: EntryNo,
        entry: &Entry,
    ) -> Result<(), AllocError>
        ensures ok { OnOk result (self.new ≡ with_row_kept self.old (matter, EntryRow number entry.now)) }
        ensures err { OnErr result (self.new ≡ self.old) }
    {
        self.list_entry(matter, number, entry)?;
        self.add_entry(entry);
        Ok(())
    }

    /// Whether a matter that was closed after the day was purged. The day's records are then no longer complete.
    pub fn is_period_purged(&self) -> bool
        ensures { result ≡ self.now.period.purged }
    {
        self.purged
    }

    /// The reconciliation, or None if no closing balance of the day was added. The closings must have been added in
    /// order of day, as they are in a firm. The only error is out of memory.
    pub fn finish(self, alloc: Global) -> Result<Option<Reconciliation>, AllocError>
        ensures { AreClosings self.balances.closings → IfOk result (λ found. option_map told found ≡ kept_told self) }
    {
        let Some(closing) = self.sums.closing else {
            return Ok(None);
        };
        let ReconciliationSink {
            day: _day,
            sums,
            lists,
            issued,
            openings,
            closings,
            purged: _purged,
        } = self;
        let adjusted = less(added(sums.transit, closing), sums.outstanding);
        let unmatched = less(closing as i128, sums.matched);
        let figures = ReconciliationFigures {
            closing,
            transit: sums.transit,
            outstanding: sums.outstanding,
            adjusted,
            journal: sums.journal,
            ledgers: together(sums.entries, sums.own),
            difference: less(adjusted, sums.journal),
            exceptions: sums.exceptions,
            early: sums.early,
            // The part of the closing balance that nothing explains.
            gap: less(less(unmatched, sums.own), sums.exceptions),
        };
        let openings = openings_after(alloc, &closings, &openings)?;
        Ok(Some(Reconciliation {
            figures,
            lists,
            doubles: doubles_of(alloc, issued)?,
            openings,
        }))
    }
}

impl MatterRowSink for ReconciliationSink {
    ghost taken = { with_row_kept };

    fn matter_row(&mut self, matter: MatterNo, row: MatterRow<'_>) -> Result<(), AllocError> {
        match row {
            MatterRow::Head(head) => {
                self.see_head(head);
                Ok(())
            }
            MatterRow::Seat(_seat) => Ok(()),
            MatterRow::Entry(number, entry) => self.see_entry(matter, number, entry),
        }
    }
}

impl RowSink<Line> for ReconciliationSink {
    ghost taken = { with_exception_kept };

    fn take(&mut self, line: &Line) -> Result<(), AllocError> {
        let mut amount = 0;
        if line.date.get() <= self.day.get() {
            self.lists.exceptions.push(line.copied()?)?;
            if !names_balance(&line.reference) {
                amount = line.amount.get();
            }
        }
        self.sums.exceptions = added(self.sums.exceptions, amount);
        Ok(())
    }
}

impl RowSink<Movement> for ReconciliationSink {
    ghost taken = { with_movement_kept };

    fn take(&mut self, movement: &Movement) -> Result<(), AllocError> {
        let is_counted = movement.day.get() <= self.day.get();
        let amount = if is_counted { movement.amount } else { 0 };
        self.sums.journal = added(self.sums.journal, amount);
        Ok(())
    }
}

impl RowSink<FirmLine> for ReconciliationSink {
    ghost taken = { with_own_kept };

    fn take(&mut self, line: &FirmLine) -> Result<(), AllocError> {
        let mut amount = 0;
        if line.date.get() <= self.day.get() {
            amount = line.amount.get();
        }
        self.sums.own = added(self.sums.own, amount);
        Ok(())
    }
}

impl RowSink<BalanceRow> for ReconciliationSink {
    ghost taken = { with_balance_noted };

    fn take(&mut self, row: &BalanceRow) -> Result<(), AllocError> {
        if row.day.get() <= self.day.get() {
            match row.kind {
                BalanceKind::Opening => self.openings.push(*row)?,
                BalanceKind::Closing => self.closings.push(*row)?,
            }
        }
        if self.sums.closing.is_none() && row.kind == BalanceKind::Closing && row.day == self.day {
            self.sums.closing = Some(row.amount.get());
        }
        Ok(())
    }
}

fn names_balance(reference: &BankText) -> bool
    ensures { result ≡ names_balance reference.now }
{
    reference.as_slice() == b"OPEN".as_slice() || reference.as_slice() == b"CLOSE".as_slice()
}
