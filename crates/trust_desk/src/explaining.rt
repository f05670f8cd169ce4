//! Explains why the exceptions of a book are exceptions: what an import would do with each.

ghost use Rattle.trust_store.specs.Calls.{IsRead};

use crate::desk::Desk;
use crate::importing::{Counted, counted_by, counted_line, tell_of_balance, tell_of_firm_line};
use crate::watching::{At, ItemWatch, NotApplied};
use firm_rows::{BalanceKind, FirmLedger, decide_balance, decide_firm_line};
use json_bodies::exceptions;
use statement_csv::{Item, item_of_line};
use std::alloc::Global;
use trust_base::{Day, Line, StoreFault};
use trust_matter::decide_line;
use trust_store::Book;

// Reports an exception that an import would accept.
fn tell_of_taken<V: ItemWatch>(at: &At<'_, V>, line: &Line, counted: Counted) {
    match counted {
        Counted::Applied => at.tell(&NotApplied::WouldApply { line }),
        Counted::Repeated => at.tell(&NotApplied::WouldRepeat { line }),
        Counted::Exception | Counted::Unreadable => (),
    }
}

// Explains a balance that is an exception.
fn explain_balance<B: Book, V: ItemWatch>(
    book: &mut B,
    kind: BalanceKind,
    line: &Line,
    day: Day,
    at: &At<'_, V>,
) -> Result<(), StoreFault>
    ensures { IsRead result (B.seen book.old) (B.seen book.new) }
{
    let kept = book.balance(kind, line.date)?;
    let verdict = decide_balance(kept, line, day);
    tell_of_balance(at, kind, line, kept, verdict);
    tell_of_taken(at, line, counted_by(verdict));
    Ok(())
}

// Explains an exception, according to its item.
fn explain_item<B: Book, V: ItemWatch>(
    alloc: Global,
    book: &mut B,
    item: &Item,
    ledger: &FirmLedger,
    day: Day,
    at: &At<'_, V>,
) -> Result<(), StoreFault>
    ensures { ((B.seen book.old).sure → (B.seen book.old).clean)
        → IsRead result (B.seen book.old) (B.seen book.new) }
{
    match item {
        Item::Opening(line) => explain_balance(book, BalanceKind::Opening, line, day, at),
        Item::Closing(line) => explain_balance(book, BalanceKind::Closing, line, day, at),
        Item::OfMatter(line) => {
            let matter = book.matter_for(alloc, line.matter, Some(line.entry), None)?;
            // The entry is loaded, so only memory can run out.
            let Ok(verdict) = decide_line(&matter, line, day) else {
                return Err(StoreFault::Memory);
            };
            let counted = counted_line(at, line, &matter, &verdict);
            tell_of_taken(at, &line.line, counted);
            Ok(())
        }
        Item::OfFirm(line) => {
            let verdict = decide_firm_line(ledger, line, day);
            tell_of_firm_line(at, line, ledger, verdict);
            tell_of_taken(at, line, counted_by(verdict));
            Ok(())
        }
        Item::Stray(line) => {
            at.tell(&NotApplied::Stray { line });
            Ok(())
        }
        // An unreadable record is never stored as an exception.
        Item::Unreadable(_) => Ok(()),
    }
}

// Explains exceptions in order, given the ledger of the firm's own lines.
fn explain_each<B: Book, V: ItemWatch>(
    alloc: Global,
    book: &mut B,
    lines: Vec<Line>,
    ledger: &FirmLedger,
    day: Day,
    watch: &V,
) -> Result<(), StoreFault>
    ensures { ((B.seen book.old).sure → (B.seen book.old).clean)
        → IsRead result (B.seen book.old) (B.seen book.new) }
{
    let mut number = 0u64;
    for line in lines {
        number = number.saturating_add(1);
        let item = item_of_line(line, number);
        explain_item(alloc, book, &item, ledger, day, &At { number, watch })?;
    }
    Ok(())
}

impl<B: Book> Desk<B> {
    /// Reports to `watch`, for each exception in the order of their list, what an import on a business day would do
    /// with it: why it would not apply it, or that it would. The book is unchanged. The contract does not say what
    /// `watch` is told.
    ///
    /// Returns `Store` if the book's store failed, and `Memory` if memory ran out. The exceptions after that are then
    /// not reported.
    pub fn tell_exceptions<V: ItemWatch>(
        &mut self,
        alloc: Global,
        day: Day,
        watch: &V,
    ) -> Result<(), StoreFault>
        ensures read { IsRead result (B.seen self.old) (B.seen self.new) }
    {
        let lines = exceptions(alloc, &mut self.book)?;
        let ledger = self.book.firm(alloc)?;
        explain_each(alloc, &mut self.book, lines, &ledger, day, watch)
    }
}
