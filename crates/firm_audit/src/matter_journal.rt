// Whether the movements of a matter are sound.

ghost use Rattle.std.specs.Prelude.{◌≡◌, ◌≢◌, ◌⊎◌, ◌↔◌, None, false, IfNone, IfOk, IfSome, IsTrue, map};
ghost use Rattle.std.specs.Option.{option_copied};
ghost use Rattle.matter_rows.specs.Rows.{last_of};
ghost use Rattle.matter_rows.specs.Balances.{ledger};
ghost use Rattle.matter_parts.specs.Parts.{entries_kept};
ghost use Rattle.trust_store.specs.Kept.{IsKeptWhole};
ghost use Rattle.firm_audit.specs.Audited.{moved_of, RiseWithin, moved_sum, AreCovered, AreMoved, IsJournal};
ghost use Rattle.firm_audit.specs.Flaws.{IsJournalFlaw, IsOverdrawn, IsUnlikeAmong};

use crate::Flaw;
use crate::event::is_moved;
use firm_rows::Movement;
use matter_parts::{Kept, balances};
use matter_rows::Head;
use std::alloc::{AllocError, Global};
use trust_base::{EntryNo, MatterNo};
use trust_store::{KeptMatter, is_of_matter};

// The movements of a matter, in order.
fn movements_of(
    alloc: Global,
    matter: MatterNo,
    movements: &[Movement],
) -> Result<Vec<Movement>, AllocError>
    ensures { IfOk result (λ own. own.items ≡ moved_of matter movements.now) }
{
    let mut own = Vec::new(alloc);
    for movement in movements {
        if is_of_matter(&movement.owner, matter) {
            own.push(*movement)?;
        }
    }
    Ok(own)
}

// The first entry whose movements are not its events.
fn unlike(own: &[Movement], matter: MatterNo, kept: &[Kept]) -> Option<EntryNo>
    ensures none { result ≡ None → AreMoved matter kept.now own.now }
    ensures some { IfSome result (IsUnlikeAmong matter kept.now own.now) }
{
    for one in kept {
        if !is_moved(own, matter, one.number, &one.entry) {
            return Some(one.number);
        }
    }
    None
}

// The last day of the matter; 0 if it was never opened.
fn last_day(head: Option<&Head>) -> u32
    ensures { result ≡ last_of (option_copied head.entry) }
{
    match head {
        None => 0,
        Some(head) => head.last.get(),
    }
}

// Whether the movements are in order of day, up to the last day.
fn is_in_time(own: &[Movement], last: u32) -> bool
    ensures { IsTrue result ↔ RiseWithin 0 last (map (λ v. v.day) own.now) }
{
    let mut before = 0;
    for movement in own {
        let day = movement.day.get();
        if day < before || last < day {
            return false;
        }
        before = day;
    }
    true
}

// The sum of the movements. None if any running sum is negative.
fn covered_sum(own: &[Movement]) -> Option<i128>
    ensures sum { IfSome result (λ sum. sum ≡ moved_sum own.now) }
    ensures covered { IfSome result (λ _. AreCovered own.now) }
    ensures overdrawn { IfNone result (IsOverdrawn own.now) }
{
    let mut sum = 0i128;
    for movement in own {
        sum += i128::from(movement.amount);
        if sum < 0 {
            return None;
        }
    }
    Some(sum)
}

// Whether the movements add up to the matter's ledger, and never to less than zero on the way.
fn adds_up(own: &[Movement], kept: &KeptMatter) -> bool
    requires { IsKeptWhole kept.now }
    ensures sum { IsTrue result → moved_sum own.now ≡ ledger (entries_kept kept.now.matter.kept) }
    ensures covered { IsTrue result → AreCovered own.now }
    ensures flaw { result ≡ false
        → IsOverdrawn own.now ⊎ (moved_sum own.now ≢ ledger (entries_kept kept.now.matter.kept)) }
{
    let told = balances(&kept.matter);
    let Some(sum) = covered_sum(own) else {
        return false;
    };
    sum == i128::from(told.total) + i128::from(told.held)
}

/// The first flaw in a matter's movements.
pub(crate) fn matter_flaw(
    alloc: Global,
    kept: &KeptMatter,
    movements: &[Movement],
) -> Result<Option<Flaw>, AllocError>
    requires { IsKeptWhole kept.now }
    ensures sound { IfOk result
        (λ found. found ≡ None → IsJournal kept.now (moved_of kept.now.number movements.now)) }
    ensures flaw { IfOk result (λ found. IfSome found (IsJournalFlaw kept.now movements.now)) }
{
    let matter = kept.number;
    let own = movements_of(alloc, matter, movements)?;
    if let Some(entry) = unlike(&own, matter, kept.matter.kept()) {
        return Ok(Some(Flaw::Entry { matter, entry }));
    }
    if !is_in_time(&own, last_day(kept.matter.head())) {
        return Ok(Some(Flaw::Journal(matter)));
    }
    if !adds_up(&own, kept) {
        return Ok(Some(Flaw::Journal(matter)));
    }
    Ok(None)
}
