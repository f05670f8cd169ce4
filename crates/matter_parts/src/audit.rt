// Tests a matter against its own rows.

ghost use Rattle.std.specs.Prelude.{◌≡◌, ◌+◌, ◌<◌, ◌≤◌, ◌↔◌, ◌-ℤ◌, IfNone, IfOk, IfSome, IsTrue, length, pos, true};
ghost use Rattle.std.specs.List.{AllByRecursion};
ghost use Rattle.matter_rows.specs.Rows.{closed_on};
ghost use Rattle.matter_rows.specs.Balances.{names};
ghost use Rattle.matter_rows.specs.Shares.{IsSmallSum, target, worth};
ghost use Rattle.matter_parts.specs.Parts.{AreEmptyIfClosed, AreFigures, AreSmall, entries_kept};
ghost use Rattle.matter_parts.specs.Audit.{AreDrawn, AreInPlace, IsSoundWhole, IsUntargeted};

use crate::figures::Figures;
use crate::kept::Kept;
use crate::matter::Matter;
use matter_rows::{Entry, Head, Shares, are_in_form, are_in_order, head_copied, sums_of};
use std::alloc::{AllocError, Global};
use trust_base::MAX_ENTRY;

// Copies the loaded entries.
fn entries_copied(alloc: Global, kept: &[Kept]) -> Result<Vec<Entry>, AllocError>
    ensures { IfOk result (λ es. es.items ≡ entries_kept kept.now) }
{
    let mut entries = Vec::new(alloc);
    for one in kept {
        let entry = one.entry.copied()?;
        entries.push(entry)?;
    }
    Ok(entries)
}

// Whether the counts, and the sum of the held deposits, are these.
fn are_counts(figures: &Figures, sums: &Shares, entries: u64) -> bool
    requires { AreSmall figures.now }
    ensures { IsTrue result
        ↔ ((figures.now.entries ≡ entries) × (pos figures.now.pending ≡ sums.now.pending)
        × (pos figures.now.held ≡ sums.now.held)) }
{
    figures.entries == entries
        && figures.pending as i64 == sums.pending
        && figures.held as i64 == sums.held
}

// Whether the other totals are these.
fn are_funds(figures: &Figures, sums: &Shares) -> bool
    requires { AreSmall figures.now }
    ensures { IsTrue result
        ↔ ((pos figures.now.available ≡ sums.now.available) × (pos figures.now.disputed ≡ sums.now.disputed)
        × (pos figures.now.fees ≡ sums.now.fees) × (pos figures.now.claims ≡ sums.now.claims)) }
{
    figures.available as i64 == sums.available
        && figures.disputed as i64 == sums.disputed
        && figures.fees as i64 == sums.fees
        && figures.claims as i64 == sums.claims
}

// Whether these are the totals and counts of the entries.
fn are_totals(figures: &Figures, entries: &[Entry]) -> bool
    requires small { AreSmall figures.now }
    requires few { length entries.now ≤ MAX_ENTRY }
    requires named { AllByRecursion (λ e. names entries.now e ≡ true) entries.now }
    ensures { IsTrue result ↔ AreFigures figures.now entries.now }
{
    let sums = sums_of(entries);
    if !are_counts(figures, &sums, entries.len() as u64) {
        return false;
    }
    are_funds(figures, &sums)
}

// Whether a closed matter has no money left and nothing waiting. True of a matter that is not closed.
fn is_empty_if_closed(head: &Option<Head>, figures: &Figures) -> bool
    ensures { IsTrue result ↔ AreEmptyIfClosed (closed_on head.now) figures.now }
{
    let Some(head) = head else {
        return true;
    };
    if head.closed.is_none() {
        return true;
    }
    figures.available == 0
        && figures.disputed == 0
        && figures.fees == 0
        && figures.claims == 0
        && figures.held == 0
        && figures.pending == 0
}

// Returns the index of the entry that this one draws on, if there are that many entries.
fn place_drawn(entry: &Entry, count: usize) -> Option<usize>
    ensures some { IfSome result (λ place. (place < count) × (target entry.now ≡ place + 1)) }
    ensures none { IfNone result (IsUntargeted entry.now count) }
{
    let target = entry.target()?;
    let place = (target.get() - 1) as usize;
    if place < count { Some(place) } else { None }
}

// Returns what all entries draw on each of them, in cents, in the order of their numbers.
fn drawn_on_each(alloc: Global, entries: &[Entry]) -> Result<Vec<i64>, AllocError>
    requires { length entries.now ≤ MAX_ENTRY }
    ensures { IfOk result (λ drawn. AreDrawn drawn.items entries.now) }
{
    let mut drawn: Vec<i64> = vec![in alloc; 0; entries.len()]?;
    for entry in entries {
        if let Some(place) = place_drawn(entry, entries.len()) {
            let more = drawn[place] + entry.draw();
            drawn[place] = more;
        }
    }
    Ok(drawn)
}

// Whether it is the entry of this index, with the right amount left if `drawn` is drawn on it.
fn is_in_place(kept: &Kept, place: usize, drawn: i64) -> bool
    requires place { place < MAX_ENTRY }
    requires small { IsSmallSum drawn }
    ensures { IsTrue result
        ↔ ((kept.now.number ≡ place + 1) × (pos kept.now.left ≡ worth kept.now.entry -ℤ drawn)) }
{
    let left = kept.entry.worth() - drawn;
    kept.number.get() as usize == place + 1 && left >= 0 && left as u64 == kept.left
}

// Whether each loaded entry is the one of its index, with the right amount left for what is drawn on it.
fn are_in_place(kept: &[Kept], entries: &[Entry], drawn: &[i64]) -> bool
    requires few { length entries.now ≤ MAX_ENTRY }
    requires entries { entries.now ≡ entries_kept kept.now }
    requires drawn { AreDrawn drawn.now entries.now }
    ensures { IsTrue result ↔ AreInPlace entries.now 1 kept.now }
{
    for place in 0..kept.len() {
        if !is_in_place(&kept[place], place, drawn[place]) {
            return false;
        }
    }
    true
}

// Whether the matter, with this head, these entries and what is drawn on each, passes every test.
fn passes(matter: &Matter, head: &Option<Head>, entries: &[Entry], drawn: &[i64]) -> bool
    requires few { length entries.now ≤ MAX_ENTRY }
    requires head { head.now ≡ matter.now.head }
    requires entries { entries.now ≡ entries_kept matter.now.kept }
    requires drawn { AreDrawn drawn.now entries.now }
    ensures { IsTrue result ↔ IsSoundWhole matter.now }
{
    let seats = matter.seats();
    let figures = matter.figures();
    if !are_in_order(seats) {
        return false;
    }
    if !are_in_form(head, seats, entries) {
        return false;
    }
    if !are_totals(&figures, entries) {
        return false;
    }
    if !is_empty_if_closed(head, &figures) {
        return false;
    }
    are_in_place(matter.kept(), entries, drawn)
}

/// Whether the matter has loaded all entries of sound rows, by number and each with what is left of it, and its totals
/// are those of the rows. Takes time linear in the number of entries, and memory for a copy of them during the test.
/// The only error is out of memory.
pub fn is_sound_whole(alloc: Global, matter: &Matter) -> Result<bool, AllocError>
    ensures { IfOk result (λ b. IsTrue b ↔ IsSoundWhole matter.now) }
{
    let entries = entries_copied(alloc, matter.kept())?;
    if entries.len() > MAX_ENTRY as usize {
        return Ok(false);
    }
    let drawn = drawn_on_each(alloc, &entries)?;
    let head = head_copied(matter.head())?;
    Ok(passes(matter, &head, &entries, &drawn))
}
