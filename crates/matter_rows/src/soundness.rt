//! Whether rows are sound: checks of each entry, of the seats, and of the head.

ghost use Rattle.std.specs.Prelude.{◌≡◌, ◌+◌, ◌≤◌, ◌<◌, ◌++◌, ◌↔◌, ◌&&◌, IsTrue, map};
ghost use Rattle.std.specs.List.{AllByRecursion};
ghost use Rattle.std.specs.Option.{option_copied};
ghost use Rattle.matter_rows.specs.Rows.{entry_at, book_day};
ghost use Rattle.matter_rows.specs.Balances.{is_fee, passes};
ghost use Rattle.matter_rows.specs.Sound.{AreInOrder, AreRising, IsBare};
ghost use Rattle.matter_rows.specs.SoundRows.{IsSoundEntry, IsClosedWithin, IsSoundHead, AreInForm};

use crate::entry::Entry;
use crate::head::{Head, Holder};
use crate::seat::{Seat, comes_before};
use trust_base::{Day, EntryNo};

// Whether the first day is not after the second.
pub(crate) fn is_up_to(first: Day, second: Day) -> bool
    ensures { IsTrue result ↔ (first ≤ second) }
{
    first.get() <= second.get()
}

// The entry with this number. None if it does not exist.
#[tactic(auto, using(crate::proofs::Tested::place_steps))]
pub(crate) fn entry_at(entries: &[Entry], number: EntryNo) -> Option<&Entry>
    ensures { option_copied result ≡ entry_at entries.now number }
{
    let place = (number.get() - 1) as usize;
    if place < entries.len() {
        Some(&entries[place])
    } else {
        None
    }
}

// Whether the entry with this number exists and is a fee.
pub(crate) fn has_fee(entries: &[Entry], number: EntryNo) -> bool
    ensures { result ≡ passes is_fee (entry_at entries.now number) }
{
    match entry_at(entries, number) {
        None => false,
        Some(entry) => matches!(entry, Entry::Fee(_)),
    }
}

// Whether each entry is one of a sound matter with this head.
#[tactic(auto, using(crate::proofs::Tested::rest_steps))]
fn are_sound(head: &Head, entries: &[Entry]) -> bool
    ensures { IsTrue result ↔ AllByRecursion (IsSoundEntry head.now entries.now) entries.now }
{
    for entry in entries {
        if !entry.is_sound(head, entries) {
            return false;
        }
    }
    true
}

// Whether entries were made in order of day, the first not before `from`.
#[tactic(auto, using(crate::proofs::Tested::rest_steps))]
fn are_rising(from: Day, entries: &[Entry]) -> bool
    ensures { IsTrue result ↔ AreRising from (map book_day entries.now) }
{
    let mut before = from;
    for entry in entries {
        let book = entry.book();
        if !is_up_to(before, book) {
            return false;
        }
        before = book;
    }
    true
}

/// Whether the seats are sorted by person, byte by byte, without repeats.
#[tactic(auto, using(crate::proofs::Tested::order_steps))]
pub fn are_in_order(seats: &[Seat]) -> bool
    ensures { IsTrue result ↔ AreInOrder seats.now }
{
    for place in 1..seats.len() {
        let before = &seats[place - 1];
        let seat = &seats[place];
        if !comes_before(&before.person, &seat.person) {
            return false;
        }
    }
    true
}

// Whether the matter, if closed, was closed on or after its opening and by its last day.
fn is_closed_within(head: &Head) -> bool
    ensures { IsTrue result ↔ IsClosedWithin head.now.opened head.now.last head.now.closed }
{
    match head.closed {
        None => true,
        Some(day) => is_up_to(head.opened, day) && is_up_to(day, head.last),
    }
}

// Whether the days of the head and all entries are sound.
fn is_sound_head(head: &Head, entries: &[Entry]) -> bool
    ensures { IsTrue result ↔ IsSoundHead head.now entries.now }
{
    is_up_to(head.opened, head.last)
        && is_closed_within(head)
        && are_rising(head.opened, entries)
        && are_sound(head, entries)
}

// Whether the matter, if purged, is only a stub: closed, last changed on the day of the purge, and without seats or
// entries.
fn is_bare_if_purged(head: &Head, seats: &[Seat], entries: &[Entry]) -> bool
    ensures { IsTrue result ↔ IsBare head.now.holder head.now.closed head.now.last seats.now entries.now }
{
    match &head.holder {
        Holder::Client(_) => true,
        Holder::Purged(day) => {
            head.closed.is_some()
                && head.last.get() == day.get()
                && seats.is_empty()
                && entries.is_empty()
        }
    }
}

/// Whether the head and all entries are sound, each on its own and with those that it names. Without a head, or if the
/// matter was purged, there must be no seats and no entries.
pub fn are_in_form(head: &Option<Head>, seats: &[Seat], entries: &[Entry]) -> bool
    ensures { IsTrue result ↔ AreInForm head.now seats.now entries.now }
{
    match head {
        None => seats.is_empty() && entries.is_empty(),
        Some(head) => is_sound_head(head, entries) && is_bare_if_purged(head, seats, entries),
    }
}
