//! Whether a book's rows are those of a sound firm.

ghost use Rattle.std.specs.Prelude.{◌≡◌, ◌↔◌, ◌-◌, ◌^◌, IfOk, IfSome, None, min};
ghost use Rattle.std.specs.Result.{result_err};
ghost use Rattle.firm_audit.specs.Flaws.{IsFlawOf};
ghost use Rattle.firm_audit.specs.Trails.{IsTrailFound};
ghost use Rattle.firm_rows.specs.FirmSound.{FirmSound};
ghost use Rattle.book_reports.specs.Checking.{AreCountsOf, entry_count, matter_count};
ghost use Rattle.trust_store.specs.Calls.{IsRead};
ghost use Rattle.trust_store.specs.Kept.{firm_of_all, joined};

use firm_audit::{Flaw, TrailFound, audit, audit_trail};
use std::alloc::Global;
use trust_base::StoreFault;
use trust_store::{AllRows, Book, KeptMatter};

/// How many rows of each kind a book has.
#[derive(Clone, Copy)]
pub struct RowCounts {
    /// The number of matters that were opened, purged ones too.
    pub matters: u64,
    /// The number of entries of all matters, up to 2^64 - 1.
    pub entries: u64,
    /// The number of movements in the journal.
    pub movements: u64,
    /// The number of lines in the firm's own ledger.
    pub firm_lines: u64,
    /// The number of exceptions.
    pub exceptions: u64,
    /// The number of opening and closing balances.
    pub balances: u64,
}

/// The result of checking a book.
#[derive(Clone, Copy)]
pub struct Checked {
    /// How many rows the book has.
    pub counts: RowCounts,
    /// Whether its trail fits the rows; or, if these are not those of a sound firm, what is not sound in them.
    pub found: Result<TrailFound, Flaw>,
}

// How many of these matters were opened.
fn opened_of(matters: &[KeptMatter]) -> u64
    ensures { result ≡ matter_count (joined matters.now) }
{
    let mut count = 0u64;
    for kept in matters {
        if kept.matter.head().is_some() {
            count += 1;
        }
    }
    count
}

// How many entries these matters have, up to 2^64 - 1.
fn entries_of(matters: &[KeptMatter]) -> u64
    ensures { result ≡ min (entry_count (joined matters.now)) (2 ^ 64 - 1) }
{
    let mut count = 0u64;
    for kept in matters {
        count = count.saturating_add(kept.matter.kept().len() as u64);
    }
    count
}

// How many rows there are.
fn counts_of(rows: &AllRows) -> RowCounts
    ensures { AreCountsOf (firm_of_all rows.now) result }
{
    RowCounts {
        matters: opened_of(&rows.matters),
        entries: entries_of(&rows.matters),
        movements: rows.movements.len() as u64,
        firm_lines: rows.firm_lines.len() as u64,
        exceptions: rows.exceptions.len() as u64,
        balances: rows.balances.len() as u64,
    }
}

/// Reads all rows of the book, and returns how many there are and what is not sound in them. The store may hold
/// anything that can be read as rows. No flaw is returned exactly if the rows are those of a sound firm, and one
/// that is returned is there. It is never `Flaw::Matter`, since a book returns whole matters only. Of sound rows it
/// also returns whether the trail fits them. The book is unchanged.
///
/// Returns `Store` if the book's store failed, if a row is invalid, or if a matter is not the whole of sound rows;
/// `find_unread` then returns which. Returns `Memory` if memory ran out.
pub fn check<B: Book>(alloc: Global, book: &mut B) -> Result<Checked, StoreFault>
    ensures sound { (B.seen book.new).clean → (B.seen book.old).readable
        → IfOk result (λ c. result_err c.found ≡ None ↔ FirmSound (B.seen book.old).firm) }
    ensures flaw { (B.seen book.new).clean → (B.seen book.old).readable
        → IfOk result (λ c. IfSome (result_err c.found) (IsFlawOf (B.seen book.old).firm)) }
    ensures counts { (B.seen book.new).clean → (B.seen book.old).readable
        → IfOk result (λ c. AreCountsOf (B.seen book.old).firm c.counts) }
    ensures trail { (B.seen book.new).clean → (B.seen book.old).readable
        → IfOk result (λ c. IfOk c.found (IsTrailFound (B.seen book.old).firm)) }
    ensures read { IsRead result (B.seen book.old) (B.seen book.new) }
{
    let rows = book.all_rows(alloc)?;
    let counts = counts_of(&rows);
    let Ok(flaw) = audit(alloc, &rows) else {
        return Err(StoreFault::Memory);
    };
    if let Some(flaw) = flaw {
        return Ok(Checked {
            counts,
            found: Err(flaw),
        });
    }
    let Ok(trail) = audit_trail(alloc, &rows) else {
        return Err(StoreFault::Memory);
    };
    Ok(Checked {
        counts,
        found: Ok(trail),
    })
}
