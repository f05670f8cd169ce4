// The lists, each made of one state of a book.

ghost use Rattle.std.specs.Prelude.{◌≡◌, IfOk};
ghost use Rattle.json_bodies.specs.Lists.{matters_body, waiting_body};
ghost use Rattle.trust_store.specs.Calls.{IsRead};

use crate::listed::{nothing_waits, write_listed, write_waiting};
use crate::shown::is_shown;
use json::Writer;
use std::alloc::Global;
use trust_base::StoreFault;
use trust_matter::Caller;
use trust_store::Book;

/// The body that lists the matters that a caller is shown, by number. It reads of each matter its head, its seats and
/// its totals, and no entry; one matter is in memory at a time.
///
/// Returns `Store` if the book's store failed, and `Memory` if memory ran out.
pub fn matters_body<B: Book>(
    alloc: Global,
    book: &mut B,
    caller: &Caller,
) -> Result<Vec<u8>, StoreFault>
    ensures told { (B.seen book.new).clean → (B.seen book.old).stands
        → IfOk result (λ text. text.items ≡ matters_body caller.now (B.seen book.old).firm) }
    ensures read { IsRead result (B.seen book.old) (B.seen book.new) }
{
    let numbers = book.opened_matters(alloc)?;
    let mut out = Writer::new(Vec::with_capacity(alloc, 256)?);
    out.begin_object()?;
    out.key("matters")?;
    out.begin_array()?;
    'each: for number in &numbers {
        let matter = book.matter_for(alloc, *number, None, None)?;
        if is_shown(&matter, caller) {
            write_listed(alloc, &mut out, caller, *number, &matter)?;
        }
    }
    out.end_array()?;
    out.end_object()?;
    Ok(out.into_inner())
}

/// The body that lists what waits in the matters that a caller is shown, by matter and entry: payments that are
/// proposed, and claims that are not settled. It reads the entries of those matters alone whose totals say that
/// something may wait; one matter is in memory at a time.
///
/// Returns `Store` if the book's store failed, and `Memory` if memory ran out.
pub fn waiting_body<B: Book>(
    alloc: Global,
    book: &mut B,
    caller: &Caller,
) -> Result<Vec<u8>, StoreFault>
    ensures told { (B.seen book.new).clean → (B.seen book.old).stands
        → IfOk result (λ text. text.items ≡ waiting_body caller.now (B.seen book.old).firm) }
    ensures read { IsRead result (B.seen book.old) (B.seen book.new) }
{
    let numbers = book.opened_matters(alloc)?;
    let mut out = Writer::new(Vec::with_capacity(alloc, 256)?);
    out.begin_object()?;
    out.key("waiting")?;
    out.begin_array()?;
    'each: for number in &numbers {
        let totals = book.matter_for(alloc, *number, None, None)?;
        if is_shown(&totals, caller) && !nothing_waits(&totals) {
            let matter = book.matter(alloc, *number)?;
            write_waiting(alloc, &mut out, *number, &matter)?;
        }
    }
    out.end_array()?;
    out.end_object()?;
    Ok(out.into_inner())
}
