//! Finds out which row of a book can't be read.

ghost use Rattle.std.specs.Prelude.{◌≡◌, false, Err, IfOk, IfSome, OnOk};
ghost use Rattle.book_reports.specs.Checking.{AreReads, IsRaisedBy, IsRefusedAlone};
ghost use Rattle.trust_store.specs.Calls.{IsRead};

use firm_rows::{BalanceKind, MatterRow, MatterRowSink, RowSink};
use std::alloc::{AllocError, Global};
use std::marker::Model;
use trust_base::{Day, EntryNo, MatterNo, StoreFault};
use trust_store::Book;

/// The part of a book that can't be read, though its store works.
#[derive(Clone, Copy)]
pub enum Unread {
    /// This matter is not the whole of sound rows, though each of its rows can be read.
    Matter(MatterNo),
    /// The head after this matter's, or the first head.
    Head(Option<MatterNo>),
    /// A seat of this matter.
    Seat(MatterNo),
    /// The entry of a matter after this one, or its first entry.
    Entry {
        matter: MatterNo,
        after: Option<EntryNo>,
    },
    /// The nth movement, from 1.
    Movement(u64),
    /// The nth line of the firm's own, from 1.
    FirmLine(u64),
    /// The nth exception, from 1.
    Exception(u64),
    /// The nth balance, from 1.
    Balance(u64),
    /// The nth act, from 1.
    Act(u64),
    /// The nth dismissal, from 1.
    Dismissal(u64),
    /// None of these: the rows can't be read together.
    Elsewhere,
}

// The numbers of the matters whose heads it received, and the matter of the last row, with the entry's number if that
// row was an entry.
//
// Contracts see nothing of it.
#[derive(Drop)]
struct MattersSeen {
    matters: Vec<MatterNo>,
    last: Option<(MatterNo, Option<EntryNo>)>,
}

impl Model for MattersSeen {
    ghost Value = { Unit };

    ghost view = { λ seen. tt };
}

impl MattersSeen {
    fn new(alloc: Global) -> MattersSeen {
        MattersSeen {
            matters: Vec::new(alloc),
            last: None,
        }
    }
}

impl MatterRowSink for MattersSeen {
    ghost taken = { λ seen row. seen };

    fn matter_row(&mut self, matter: MatterNo, row: MatterRow<'_>) -> Result<(), AllocError> {
        match row {
            MatterRow::Head(_head) => {
                self.matters.push(matter)?;
                self.last = Some((matter, None));
            }
            MatterRow::Seat(_seat) => {}
            MatterRow::Entry(number, _entry) => self.last = Some((matter, Some(number))),
        }
        Ok(())
    }
}

// Counts the rows that it receives, of any kind but those of matters.
//
// Contracts see nothing of it.
#[derive(Drop)]
struct RowsSeen {
    count: u64,
}

impl Model for RowsSeen {
    ghost Value = { Unit };

    ghost view = { λ seen. tt };
}

impl RowsSeen {
    fn new() -> RowsSeen {
        RowsSeen { count: 0 }
    }

    // The number of the next row.
    fn next(&self) -> u64 {
        self.count.saturating_add(1)
    }

    // Counts one more row.
    fn see(&mut self) {
        self.count = self.count.saturating_add(1);
    }
}

impl<T> RowSink<T> for RowsSeen {
    ghost taken = { λ seen row. seen };

    fn take(&mut self, _row: &T) -> Result<(), AllocError> {
        self.see();
        Ok(())
    }
}

// Whether a read succeeded. Out of memory is passed on as an error.
fn is_answered<T: Drop>(read: Result<T, StoreFault>) -> Result<bool, StoreFault>
    ensures { IfOk result (λ answered. answered ≡ false → read ≡ Err StoreFault.Store) }
{
    match read {
        Ok(_) => Ok(true),
        Err(StoreFault::Store) => Ok(false),
        Err(StoreFault::Memory) => Err(StoreFault::Memory),
    }
}

// Whether the rows of a matter are the whole of sound ones.
#[tactic(auto, using(crate::proofs::ReadCalls::reads_of_read))]
fn is_whole<B: Book>(alloc: Global, book: &mut B, matter: MatterNo) -> Result<bool, StoreFault>
    ensures reads { AreReads (B.seen book.old) (B.seen book.new) }
    ensures refused { IfOk result (λ whole. whole ≡ false
        → IsRaisedBy 1 (B.seen book.old).refusals (B.seen book.new).refusals) }
{
    let read = book.matter(alloc, matter);
    is_answered(read)
}

// Whether the head and the seats of a matter can be read.
#[tactic(auto, using(crate::proofs::ReadCalls::reads_of_read))]
fn has_front<B: Book>(alloc: Global, book: &mut B, matter: MatterNo) -> Result<bool, StoreFault>
    ensures reads { AreReads (B.seen book.old) (B.seen book.new) }
    ensures refused { IfOk result (λ whole. whole ≡ false
        → IsRaisedBy 1 (B.seen book.old).refusals (B.seen book.new).refusals) }
{
    let read = book.matter_for(alloc, matter, None, None);
    is_answered(read)
}

// Returns the row after the last readable row of a matter, which was its head, a seat or this entry.
fn row_after<B: Book>(
    alloc: Global,
    book: &mut B,
    matter: MatterNo,
    after: Option<EntryNo>,
) -> Result<Unread, StoreFault>
    ensures { AreReads (B.seen book.old) (B.seen book.new) }
{
    if is_whole(alloc, book, matter)? {
        return Ok(Unread::Head(Some(matter)));
    }
    if after.is_some() || has_front(alloc, book, matter)? {
        return Ok(Unread::Entry { matter, after });
    }
    Ok(Unread::Seat(matter))
}

// Returns the row of a matter that can't be read, if there is one.
#[tactic(auto, using(crate::proofs::ReadCalls::reads_of_read))]
fn unread_row<B: Book>(
    alloc: Global,
    book: &mut B,
    seen: &mut MattersSeen,
) -> Result<Option<Unread>, StoreFault>
    ensures reads { AreReads (B.seen book.old) (B.seen book.new) }
    ensures refused { IfOk result (λ row. IfSome row (IsRefusedAlone (B.seen book.old) (B.seen book.new))) }
{
    let read = book.each_row(seen);
    if is_answered(read)? {
        return Ok(None);
    }
    match seen.last {
        Some((matter, after)) => row_after(alloc, book, matter, after).map(Some),
        None => Ok(Some(Unread::Head(None))),
    }
}

// Returns the first of these matters that is not the whole of sound rows, if there is one.
fn unread_matter<B: Book>(
    alloc: Global,
    book: &mut B,
    matters: &[MatterNo],
) -> Result<Option<Unread>, StoreFault>
    ensures reads { AreReads (B.seen book.old) (B.seen book.new) }
    ensures refused { IfOk result (λ row. IfSome row (IsRefusedAlone (B.seen book.old) (B.seen book.new))) }
{
    for matter in matters {
        if !is_whole(alloc, book, *matter)? {
            return Ok(Some(Unread::Matter(*matter)));
        }
    }
    Ok(None)
}

// Returns which part of the matters can't be read, if any.
fn unread_of_matters<B: Book>(alloc: Global, book: &mut B) -> Result<Option<Unread>, StoreFault>
    ensures reads { AreReads (B.seen book.old) (B.seen book.new) }
    ensures refused { IfOk result (λ row. IfSome row (IsRefusedAlone (B.seen book.old) (B.seen book.new))) }
{
    let mut seen = MattersSeen::new(alloc);
    if let Some(unread) = unread_row(alloc, book, &mut seen)? {
        return Ok(Some(unread));
    }
    unread_matter(alloc, book, &seen.matters)
}

// Returns which row of the journal, of the firm's own lines, of the exceptions, of the balances, of the acts or of the
// dismissals can't be read.
#[tactic(auto, using(crate::proofs::ReadCalls::reads_of_read))]
fn unread_of_firm<B: Book>(book: &mut B) -> Result<Unread, StoreFault>
    ensures reads { AreReads (B.seen book.old) (B.seen book.new) }
    ensures refused { IfOk result (IsRefusedAlone (B.seen book.old) (B.seen book.new)) }
{
    let mut seen = RowsSeen::new();
    if !is_answered(book.each_movement(&mut seen))? {
        return Ok(Unread::Movement(seen.next()));
    }
    let mut seen = RowsSeen::new();
    if !is_answered(book.each_firm_line(&mut seen))? {
        return Ok(Unread::FirmLine(seen.next()));
    }
    let mut seen = RowsSeen::new();
    if !is_answered(book.each_exception(&mut seen))? {
        return Ok(Unread::Exception(seen.next()));
    }
    let mut seen = RowsSeen::new();
    if !is_answered(book.each_balance(&mut seen))? {
        return Ok(Unread::Balance(seen.next()));
    }
    let mut seen = RowsSeen::new();
    if !is_answered(book.each_act(&mut seen))? {
        return Ok(Unread::Act(seen.next()));
    }
    let mut seen = RowsSeen::new();
    if !is_answered(book.each_dismissal(&mut seen))? {
        return Ok(Unread::Dismissal(seen.next()));
    }
    Ok(Unread::Elsewhere)
}

// Returns which part of a book can't be read.
fn unread_in<B: Book>(alloc: Global, book: &mut B) -> Result<Unread, StoreFault>
    ensures reads { AreReads (B.seen book.old) (B.seen book.new) }
    ensures refused { IfOk result (IsRefusedAlone (B.seen book.old) (B.seen book.new)) }
{
    match unread_of_matters(alloc, book)? {
        Some(unread) => Ok(unread),
        None => unread_of_firm(book),
    }
}

// Whether it is a balance.
fn is_balance(unread: &Unread) -> bool {
    matches!(unread, Unread::Balance(_))
}

// Reads once more, to see that the store works: the balance of a day, or the firm's own lines if a balance can't be
// read.
fn ask_again<B: Book>(
    alloc: Global,
    book: &mut B,
    is_balance_unread: bool,
    day: Day,
) -> Result<(), StoreFault>
    ensures { IsRead result (B.seen book.old) (B.seen book.new) }
{
    if is_balance_unread {
        book.firm(alloc)?;
    } else {
        book.balance(BalanceKind::Opening, day)?;
    }
    Ok(())
}

/// Returns which part of a book can't be read on a business day, after `check` returned `Store`: the first row that a
/// separate read does not pass on, or the first matter that it does not return. So a row or a matter is named only if
/// the book refused to read it by itself. The book is unchanged.
///
/// Returns `Store` if the book's store does not work, which one more read shows, and `Memory` if memory ran out.
#[tactic(auto, using(crate::proofs::ReadCalls::reads_of_read))]
pub fn find_unread<B: Book>(alloc: Global, book: &mut B, day: Day) -> Result<Unread, StoreFault>
    ensures reads { AreReads (B.seen book.old) (B.seen book.new) }
    ensures refused { IfOk result (IsRefusedAlone (B.seen book.old) (B.seen book.new)) }
    ensures serves { (B.seen book.new).sure → OnOk result (B.seen book.new).clean }
{
    let unread = unread_in(alloc, book)?;
    ask_again(alloc, book, is_balance(&unread), day)?;
    Ok(unread)
}
