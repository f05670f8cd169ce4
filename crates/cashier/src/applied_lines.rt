// The lines that an import applied, and which of them are like one that an earlier import applied.

ghost use Rattle.book_reports.specs.Checking.{AreReads};

use cashier_remarks::{LineRemark, Plain, Reference, Remark, Remarks};
use firm_rows::Owner;
use std::alloc::{AllocError, Global};
use std::cell::{Cell, RefCell};
use trust_base::{Dollars, Line, StoreFault};
use trust_desk::{AppliedLine, Desk, EarlierWatch};
use trust_store::Book;

// Where the record of a line begins.
#[derive(Clone, Copy)]
struct Start {
    // The number of the record; the first after the header has number 1.
    number: u64,
    // The line of the file, from 1.
    line: u64,
}

// Some lines, in the order of their records, and where the record of each begins.
#[derive(Drop)]
struct KeptLines {
    lines: Vec<AppliedLine>,
    starts: Vec<Start>,
}

impl KeptLines {
    fn new(alloc: Global) -> KeptLines {
        KeptLines {
            lines: Vec::new(alloc),
            starts: Vec::new(alloc),
        }
    }

    fn push(&mut self, start: Start, owner: Owner, line: &Line) -> Result<(), AllocError> {
        let applied = AppliedLine::of(start.number, owner, line)?;
        self.starts.push(start)?;
        self.lines.push(applied)?;
        Ok(())
    }
}

/// The lines that an import applied, kept until its end to look up which of them stand on something else too.
#[derive(Drop)]
pub struct AppliedLines {
    alloc: Global,
    kept: RefCell<KeptLines>,
    // Whether memory ran out for one of them.
    is_short: Cell<bool>,
}

impl AppliedLines {
    /// Keeps none yet.
    pub fn new(alloc: Global) -> AppliedLines {
        AppliedLines {
            alloc,
            kept: RefCell::new(KeptLines::new(alloc)),
            is_short: Cell::new(false),
        }
    }

    /// Keeps a line that was applied, if memory suffices: that of the record with this number, which begins on the line
    /// `start` of the file. The first record after the header has number 1. The numbers have to come in order.
    pub fn keep(&self, number: u64, start: u64, owner: Owner, line: &Line) {
        let start = Start {
            number,
            line: start,
        };
        let Ok(mut kept) = self.kept.try_borrow_mut() else {
            return;
        };
        if kept.push(start, owner, line).is_err() {
            self.is_short.set(true);
        }
    }

    /// Lets go of them: nobody is told about those that were kept so far.
    pub fn forget(&self) {
        self.is_short.set(false);
        let _ = self.kept.try_replace(KeptLines::new(self.alloc));
    }

    // Takes them out. None if memory ran out for one of them.
    fn take(&self) -> Option<KeptLines> {
        if self.is_short.get() {
            return None;
        }
        match self.kept.try_replace(KeptLines::new(self.alloc)) {
            Ok(kept) => Some(kept),
            Err(_) => None,
        }
    }
}

// Reports the lines that were applied although an earlier import applied one like them.
#[derive(Drop)]
struct EarlierTelling<'a, M> {
    starts: &'a [Start],
    remarks: &'a M,
}

// Returns the line of the file on which the record with a number begins. These are sorted by their numbers.
fn start_line(starts: &[Start], number: u64) -> Option<u64> {
    match starts.binary_search_by(|start| start.number.cmp(&number)) {
        Ok(place) => starts.get(place).map(|start| start.line),
        Err(_) => None,
    }
}

impl<M: Remarks> EarlierWatch for EarlierTelling<'_, M> {
    fn stood_already(&self, line: &AppliedLine, earlier: Owner) {
        if let Some(start) = start_line(self.starts, line.number) {
            self.remarks.tell(&Remark::Line {
                line: start,
                of: Some(Reference::of_owner(line.line.owner)),
                told: LineRemark::Earlier {
                    before: Reference::of_owner(earlier),
                    bank_ref: Plain::new(line.line.bank_ref.as_slice()),
                    day: line.line.date,
                    amount: Dollars(line.line.amount as i128),
                },
            });
        }
    }
}

/// Reports which of the lines that an import applied stand on something else too, and which fault kept that from being
/// read, if any. The book is only read, and not at all if no line is kept.
pub fn tell_of_earlier<M: Remarks, B: Book>(remarks: &M, applied: &AppliedLines, desk: &mut Desk<B>)
    ensures { AreReads (B.seen desk.old) (B.seen desk.new) }
{
    let Some(KeptLines { lines, starts }) = applied.take() else {
        return remarks.tell(&Remark::EarlierEnd(StoreFault::Memory));
    };
    let telling = EarlierTelling {
        starts: starts.as_slice(),
        remarks,
    };
    if let Err(fault) = desk.tell_earlier(applied.alloc, lines, &telling) {
        remarks.tell(&Remark::EarlierEnd(fault));
    }
}
