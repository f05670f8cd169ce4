//! The bank lines that a book has, and what they show: a line that cleared two entries, and work after a day.

ghost use Rattle.std.specs.Prelude.{◌≡◌};
ghost use Rattle.trust_store.specs.Calls.{IsRead};
ghost use Rattle.book_reports.specs.Checking.{AreReads};

use crate::watching::{AppliedLine, ClearedLine, EarlierWatch, RowWatch};
use firm_rows::{BalanceRow, FirmLine, MatterRow, MatterRowSink, Movement, Owner, RowSink};
use std::alloc::{AllocError, Global};
use std::cmp::Ordering;
use std::marker::Model;
use std::mem;
use trust_base::{BankText, Day, EntryNo, Line, MatterNo, StoreFault};
use trust_matter::{Clearing, DepositState, Entry, Head, PaymentState};
use trust_store::Book;

/// The bank lines that cleared entries and the firm's own, dated in a month or the month before it, and the last day on
/// which a matter was changed. A report's reader should know of them: two may be the same line.
///
/// Contracts see nothing of it.
#[derive(Drop)]
pub struct ClearedLines {
    // The numbers of the first and the last day.
    from: u32,
    to: u32,
    lines: Vec<ClearedLine>,
    last: Option<Day>,
    // Whether memory ran out while rows were shown beside a report.
    is_short: bool,
}

impl Model for ClearedLines {
    ghost Value = { Unit };

    ghost view = { λ lines. tt };
}

impl ClearedLines {
    /// Keeps no line, and the last day.
    pub fn none(alloc: Global) -> ClearedLines {
        ClearedLines {
            from: 1,
            to: 0,
            lines: Vec::new(alloc),
            last: None,
            is_short: false,
        }
    }

    /// Keeps the lines dated by a day, in its month or the month before, and the last day.
    pub fn up_to(alloc: Global, day: Day) -> ClearedLines {
        ClearedLines {
            from: month_before(day),
            to: day.get(),
            lines: Vec::new(alloc),
            last: None,
            is_short: false,
        }
    }

    // Adds a line of an owner, if its date is between the two days.
    fn keep(
        &mut self,
        owner: &Owner,
        date: Day,
        bank_ref: &BankText,
        amount: i64,
    ) -> Result<(), AllocError> {
        if date.get() < self.from || self.to < date.get() {
            return Ok(());
        }
        let bank_ref = bank_ref.copied()?;
        self.lines.push(ClearedLine {
            owner: *owner,
            date,
            bank_ref,
            amount,
        })?;
        Ok(())
    }

    // Adds the lines that cleared an entry or took it back.
    fn keep_entry(
        &mut self,
        matter: MatterNo,
        entry: EntryNo,
        kept: &Entry,
    ) -> Result<(), AllocError> {
        let owner = Owner::Matter { matter, entry };
        let lines = EntryLines::of(kept);
        if let Some((line, amount)) = lines.clearing {
            self.keep(&owner, line.bank_day, &line.bank_ref, amount)?;
        }
        if let Some((line, amount)) = lines.returning {
            self.keep(&owner, line.bank_day, &line.bank_ref, amount)?;
        }
        Ok(())
    }

    // Keeps the later of two days on which a matter was changed last.
    fn keep_last(&mut self, head: &Head) {
        match self.last {
            Some(last) if head.last.get() <= last.get() => {}
            Some(_) | None => self.last = Some(head.last),
        }
    }

    // Adds a line of the firm's own.
    fn keep_own(&mut self, line: &FirmLine) -> Result<(), AllocError> {
        self.keep(&Owner::Firm, line.date, &line.bank_ref, line.amount.get())
    }

    // Keeps no more lines, since memory ran out.
    fn stop(&mut self) {
        self.is_short = true;
        self.to = 0;
    }

    /// Reports to `watch` the lines that have the same date, bank reference and amount as another of them, and the last
    /// day on which a matter was changed. The contract does not say what `watch` is told. The only error is out of
    /// memory, also if it ran out while the rows were shown; then nothing is told.
    pub fn tell<V: RowWatch>(self, watch: &V) -> Result<(), AllocError> {
        if self.is_short {
            return Err(AllocError);
        }
        let mut lines = self.lines;
        lines.sort_by(|one, other| order_of(one, other))?;
        tell_of_same(&lines, watch);
        if let Some(last) = self.last {
            watch.worked_on(last);
        }
        Ok(())
    }
}

// The bank lines of an entry, each with its amount in cents, negative for money that went out.
#[derive(Clone, Copy)]
struct EntryLines<'a> {
    // The line that cleared it.
    clearing: Option<(&'a Clearing, i64)>,
    // The line that took the deposit back.
    returning: Option<(&'a Clearing, i64)>,
}

impl<'a> EntryLines<'a> {
    fn of(entry: &'a Entry) -> EntryLines<'a> {
        let (clearing, returning) = match entry {
            Entry::Deposit(deposit) => {
                let amount = deposit.amount.get() as i64;
                match &deposit.state {
                    DepositState::Cleared(line) => (Some((line, amount)), None),
                    DepositState::Returned(back) => (
                        Some((&back.clearing, amount)),
                        Some((&back.returning, -amount)),
                    ),
                    DepositState::Held | DepositState::Cancelled(_) => (None, None),
                }
            }
            Entry::Payment(payment) => match &payment.state {
                PaymentState::Cleared(paid) => {
                    let amount = payment.amount.get() as i64;
                    (Some((&paid.clearing, -amount)), None)
                }
                PaymentState::Proposed
                | PaymentState::Declined
                | PaymentState::Issued(_)
                | PaymentState::Voided(_) => (None, None),
            },
            Entry::Fee(_) | Entry::Claim(_) => (None, None),
        };
        EntryLines {
            clearing,
            returning,
        }
    }
}

impl MatterRowSink for ClearedLines {
    ghost taken = { λ lines row. lines };

    fn matter_row(&mut self, matter: MatterNo, row: MatterRow<'_>) -> Result<(), AllocError> {
        match row {
            MatterRow::Head(head) => {
                self.keep_last(head);
                Ok(())
            }
            MatterRow::Seat(_seat) => Ok(()),
            MatterRow::Entry(number, entry) => self.keep_entry(matter, number, entry),
        }
    }
}

impl RowSink<FirmLine> for ClearedLines {
    ghost taken = { λ lines line. lines };

    fn take(&mut self, line: &FirmLine) -> Result<(), AllocError> {
        self.keep_own(line)
    }
}

// A report's sink, and the lines that its rows show beside it.
//
// Contracts see it as the sink.
#[derive(Drop)]
pub(crate) struct Beside<S> {
    sink: S,
    lines: ClearedLines,
}

impl<S> Model for Beside<S> {
    ghost Value = { S };

    ghost view = { λ beside. beside.sink };
}

impl<S> Beside<S> {
    // Takes the lines from their place until `into_sink`.
    pub(crate) fn of(alloc: Global, sink: S, lines: &mut ClearedLines) -> Beside<S>
        ensures { result ≡ sink }
    {
        Beside {
            sink,
            lines: mem::replace(lines, ClearedLines::none(alloc)),
        }
    }

    // Puts the lines back.
    pub(crate) fn into_sink(self, lines: &mut ClearedLines) -> S
        ensures { result ≡ self }
    {
        let Beside { sink, lines: shown } = self;
        *lines = shown;
        sink
    }
}

impl<S: MatterRowSink> MatterRowSink for Beside<S> {
    ghost taken = { S.taken };

    fn matter_row(&mut self, matter: MatterNo, row: MatterRow<'_>) -> Result<(), AllocError> {
        match row {
            MatterRow::Head(head) => {
                self.lines.keep_last(head);
                self.sink.matter_row(matter, MatterRow::Head(head))
            }
            MatterRow::Seat(seat) => self.sink.matter_row(matter, MatterRow::Seat(seat)),
            MatterRow::Entry(number, entry) => {
                if self.lines.keep_entry(matter, number, entry).is_err() {
                    self.lines.stop();
                }
                self.sink
                    .matter_row(matter, MatterRow::Entry(number, entry))
            }
        }
    }
}

impl<S: RowSink<Movement>> RowSink<Movement> for Beside<S> {
    ghost taken = { S.taken };

    fn take(&mut self, movement: &Movement) -> Result<(), AllocError> {
        self.sink.take(movement)
    }
}

impl<S: RowSink<FirmLine>> RowSink<FirmLine> for Beside<S> {
    ghost taken = { S.taken };

    fn take(&mut self, line: &FirmLine) -> Result<(), AllocError> {
        if self.lines.keep_own(line).is_err() {
            self.lines.stop();
        }
        self.sink.take(line)
    }
}

impl<S: RowSink<Line>> RowSink<Line> for Beside<S> {
    ghost taken = { S.taken };

    fn take(&mut self, line: &Line) -> Result<(), AllocError> {
        self.sink.take(line)
    }
}

impl<S: RowSink<BalanceRow>> RowSink<BalanceRow> for Beside<S> {
    ghost taken = { S.taken };

    fn take(&mut self, row: &BalanceRow) -> Result<(), AllocError> {
        self.sink.take(row)
    }
}

// Compares by date, amount and bank reference.
fn order_of(one: &ClearedLine, other: &ClearedLine) -> Ordering {
    let by_date = one.date.get().cmp(&other.date.get());
    let by_amount = by_date.then(one.amount.cmp(&other.amount));
    by_amount.then(one.bank_ref.as_slice().cmp(other.bank_ref.as_slice()))
}

// Reports each of these sorted lines that is equal to the one before it.
fn tell_of_same<V: RowWatch>(lines: &[ClearedLine], watch: &V) {
    for pair in lines.windows(2) {
        if order_of(&pair[0], &pair[1]) == Ordering::Equal {
            watch.cleared_twice(&pair[0], &pair[1]);
        }
    }
}

// The number of the first day of the month before the day's month.
fn month_before(day: Day) -> u32 {
    let number = day.get();
    let first = number - number % 100 + 1;
    if number / 100 % 100 == 1 {
        first.saturating_sub(8_900)
    } else {
        first.saturating_sub(100)
    }
}

// Reads the bank lines of a book, and the last day of any matter.
fn collect<B: Book>(book: &mut B, found: &mut ClearedLines) -> Result<(), StoreFault>
    ensures { IsRead result (B.seen book.old) (B.seen book.new) }
{
    book.each_row(found)?;
    book.each_firm_line(found)?;
    Ok(())
}

impl AppliedLine {
    /// Keeps a line that an import applied to an owner, with the number of its item.
    pub fn of(number: u64, owner: Owner, line: &Line) -> Result<AppliedLine, AllocError> {
        Ok(AppliedLine {
            number,
            line: ClearedLine {
                owner,
                date: line.date,
                bank_ref: line.bank_ref.copied()?,
                amount: line.amount.get(),
            },
        })
    }
}

// A line that an import applied, with what an earlier line like it belongs to, if there is one.
#[derive(Drop)]
struct Likened {
    applied: AppliedLine,
    earlier: Option<Owner>,
}

// Finds for each of the lines that an import applied whether the book has an earlier one like it.
//
// Contracts see nothing of it.
#[derive(Drop)]
struct Likening {
    // Sorted by date, amount and bank reference.
    lines: Vec<Likened>,
}

impl Model for Likening {
    ghost Value = { Unit };

    ghost view = { λ lines. tt };
}

impl Likening {
    fn of(alloc: Global, applied: Vec<AppliedLine>) -> Result<Likening, AllocError> {
        let mut lines = Vec::new(alloc);
        for applied in applied {
            lines.push(Likened {
                applied,
                earlier: None,
            })?;
        }
        lines.sort_by(|one, other| order_of(&one.applied.line, &other.applied.line))?;
        Ok(Likening { lines })
    }

    // Takes a line that the book has. The import's own are among those that it applied; any other is an earlier one.
    fn see(&mut self, owner: &Owner, date: Day, bank_ref: &BankText, amount: i64) {
        let start = self.lines.partition_point(|one| {
            order_beside(&one.applied.line, date, bank_ref, amount) == Ordering::Less
        });
        let end = self.lines.partition_point(|one| {
            order_beside(&one.applied.line, date, bank_ref, amount) != Ordering::Greater
        });
        let Some(alike) = self.lines.as_mut_slice().get_mut(start..end) else {
            return;
        };
        if alike.iter().any(|one| one.applied.line.owner == *owner) {
            return;
        }
        for one in alike {
            one.earlier = Some(*owner);
        }
    }

    // Takes the lines that cleared an entry or took it back.
    fn see_entry(&mut self, matter: MatterNo, entry: EntryNo, kept: &Entry) {
        let owner = Owner::Matter { matter, entry };
        let lines = EntryLines::of(kept);
        if let Some((line, amount)) = lines.clearing {
            self.see(&owner, line.bank_day, &line.bank_ref, amount);
        }
        if let Some((line, amount)) = lines.returning {
            self.see(&owner, line.bank_day, &line.bank_ref, amount);
        }
    }
}

// Compares a line that an import applied with a line of the book.
fn order_beside(one: &ClearedLine, date: Day, bank_ref: &BankText, amount: i64) -> Ordering {
    let by_date = one.date.get().cmp(&date.get());
    let by_amount = by_date.then(one.amount.cmp(&amount));
    by_amount.then(one.bank_ref.as_slice().cmp(bank_ref.as_slice()))
}

impl MatterRowSink for Likening {
    ghost taken = { λ lines row. lines };

    fn matter_row(&mut self, matter: MatterNo, row: MatterRow<'_>) -> Result<(), AllocError> {
        match row {
            MatterRow::Head(_head) => Ok(()),
            MatterRow::Seat(_seat) => Ok(()),
            MatterRow::Entry(number, entry) => {
                self.see_entry(matter, number, entry);
                Ok(())
            }
        }
    }
}

impl RowSink<FirmLine> for Likening {
    ghost taken = { λ lines line. lines };

    fn take(&mut self, line: &FirmLine) -> Result<(), AllocError> {
        self.see(&Owner::Firm, line.date, &line.bank_ref, line.amount.get());
        Ok(())
    }
}

// Reads the bank lines of a book beside those that an import applied.
fn liken<B: Book>(book: &mut B, found: &mut Likening) -> Result<(), StoreFault>
    ensures { IsRead result (B.seen book.old) (B.seen book.new) }
{
    book.each_row(found)?;
    book.each_firm_line(found)?;
    Ok(())
}

/// Reports to `watch` what the rows of a book show that a reader of a day's report should know, as
/// `ClearedLines::up_to` has it. The book is unchanged. The contract does not say what `watch` is told.
///
/// Returns `Store` if the book's store failed, and `Memory` if memory ran out.
pub fn tell_rows<B: Book, V: RowWatch>(
    alloc: Global,
    book: &mut B,
    day: Day,
    watch: &V,
) -> Result<(), StoreFault>
    ensures { IsRead result (B.seen book.old) (B.seen book.new) }
{
    let mut found = ClearedLines::up_to(alloc, day);
    collect(book, &mut found)?;
    found.tell(watch)?;
    Ok(())
}

/// Reports to `watch`, in the order of their items, which of the lines that an import applied stand on something
/// else too, by an earlier import: those for which the book has another line of the same date, bank reference and
/// amount. The book is unchanged, and is not read if nothing was applied. The contract does not say what `watch` is
/// told.
///
/// Returns `Store` if the book's store failed, and `Memory` if memory ran out.
#[tactic(auto, using(crate::proofs::ReadCalls::reads_of_read))]
pub fn tell_earlier<B: Book, V: EarlierWatch>(
    alloc: Global,
    book: &mut B,
    applied: Vec<AppliedLine>,
    watch: &V,
) -> Result<(), StoreFault>
    ensures { AreReads (B.seen book.old) (B.seen book.new) }
{
    if applied.is_empty() {
        return Ok(());
    }
    let mut found = Likening::of(alloc, applied)?;
    liken(book, &mut found)?;
    let mut lines = found.lines;
    lines.sort_by(|one, other| one.applied.number.cmp(&other.applied.number))?;
    for one in &lines {
        if let Some(earlier) = one.earlier {
            watch.stood_already(&one.applied, earlier);
        }
    }
    Ok(())
}
