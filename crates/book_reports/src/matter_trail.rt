//! The trail of one matter.

ghost use Rattle.std.specs.Prelude.{IfOk};
ghost use Rattle.book_reports.specs.Trails.{IsTrailOf};
ghost use Rattle.trust_store.specs.Calls.{IsRead};

use crate::matter_acts::MatterActs;
use std::alloc::Global;
use trust_base::{Day, MatterNo, StoreFault};
use trust_reports::matter_trail_text;
use trust_store::Book;

/// The trail of a matter, and why it may be refused.
#[derive(Drop)]
pub struct MatterTrail {
    /// The matter was never opened.
    pub is_missing: bool,
    /// The matter was purged, with its acts.
    pub is_purged: bool,
    /// The text.
    pub text: Vec<u8>,
}

/// Returns the trail of a matter on a business day.
///
/// Returns `Store` if the book's store failed, and `Memory` if memory ran out.
pub fn find_trail<B: Book>(
    alloc: Global,
    book: &mut B,
    matter: MatterNo,
    today: Day,
) -> Result<MatterTrail, StoreFault>
    ensures told { (B.seen book.new).clean → (B.seen book.old).stands
        → IfOk result (IsTrailOf matter today (B.seen book.old).firm) }
    ensures read { IsRead result (B.seen book.old) (B.seen book.new) }
{
    let found = book.matter_for(alloc, matter, None, None)?;
    let mut acts = MatterActs::new(alloc);
    book.each_act_of(matter, &mut acts)?;
    let mut text = Vec::new(alloc);
    matter_trail_text(today, matter, &acts.finish(), &mut text)?;
    Ok(MatterTrail {
        is_missing: found.head().is_none(),
        is_purged: found.is_purged(),
        text,
    })
}
