//! The rows of a book's trail that stand for no act, and those among the dismissals that stand for none.

ghost use Rattle.std.specs.Prelude.{◌≡◌, ◌≢◌, [], ◌∷◌, ◌++◌, None, IfOk, map};
ghost use Rattle.trust_store.specs.Calls.{IsRead};

use crate::watching::ActWatch;
use firm_rows::{MatterAct, RowSink};
use std::alloc::{AllocError, Global};
use std::marker::Model;
use trust_base::{MatterNo, StoreFault};
use trust_store::{Book, UnreadAct};

// The matter that each of these rows names, or None if it names none.
fn matters_named(alloc: Global, unread: &[UnreadAct]) -> Result<Vec<Option<MatterNo>>, AllocError>
    ensures { IfOk result (λ matters. matters.items ≡ map (λ row. row.matter) unread.now) }
{
    let mut matters = Vec::with_capacity(alloc, unread.len())?;
    for row in unread {
        matters.push(row.matter)?;
    }
    Ok(matters)
}

/// The matter that each of these rows may be of, or None if it may be of any: as one that names none, or that lies
/// among the dismissals.
pub(crate) fn matters_of(
    alloc: Global,
    acts: &[UnreadAct],
    dismissals: &[u64],
) -> Result<Vec<Option<MatterNo>>, AllocError>
    ensures acts { dismissals.now ≡ []
        → IfOk result (λ matters. matters.items ≡ map (λ row. row.matter) acts.now) }
    ensures any { dismissals.now ≢ []
        → IfOk result (λ matters. matters.items ≡ map (λ row. row.matter) acts.now ++ None ∷ []) }
{
    let mut matters = matters_named(alloc, acts)?;
    if !dismissals.is_empty() {
        matters.push(None)?;
    }
    Ok(matters)
}

// Passes over acts.
//
// Contracts see nothing of it.
#[derive(Drop)]
struct ActsPassed;

impl Model for ActsPassed {
    ghost Value = { Unit };

    ghost view = { λ passed. tt };
}

impl RowSink<MatterAct> for ActsPassed {
    ghost taken = { λ passed act. passed };

    fn take(&mut self, _act: &MatterAct) -> Result<(), AllocError> {
        Ok(())
    }
}

/// Reports to `watch` the rows of the trail that stand for no act, and then those among the dismissals that stand for
/// none, each in the order of acceptance. The book is unchanged.
/// The contract does not say what `watch` is told.
///
/// Returns `Store` if the book's store failed, and `Memory` if memory ran out.
pub fn tell_unread<B: Book, V: ActWatch>(
    alloc: Global,
    book: &mut B,
    watch: &V,
) -> Result<(), StoreFault>
    ensures { IsRead result (B.seen book.old) (B.seen book.new) }
{
    let mut passed = ActsPassed;
    let acts = book.each_readable_act(alloc, &mut passed)?;
    let dismissals = book.unread_dismissals(alloc)?;
    for row in &acts {
        watch.unread_act(row.number);
    }
    for number in &dismissals {
        watch.unread_dismissal(*number);
    }
    Ok(())
}
