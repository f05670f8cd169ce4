// Looks up the deposits and payments of a book.

ghost use Rattle.std.specs.Prelude.{◌≡◌, ◌==◌, ◌++◌, ℕ, ℤ, map, flat_map, IfOk, OnOk, option_to_list, slice_get};
ghost use Rattle.std.specs.List.{Contains, filter};
ghost use Rattle.std.specs.List.Sorted.{IsStrictlyIncreasing};
ghost use Rattle.statement_lines.specs.Keys.{amount_key, day_key, entry_key, reference_key, text_key as key_of_text};
ghost use Rattle.statement_lines.specs.Lookups.{elements};
ghost use Rattle.statement_lines.specs.Marks.{is_shown, marks_from};
ghost use Rattle.statement_lines.specs.Places.{places_with};
ghost use Rattle.statement_match.specs.DaySums.{day_sums, day_with, first_day, same_day as same_day_of, together_on};

use crate::day_sums::{DaySum, day_held, days_in_order, sum_held};
use statement_lines::{BookEntry, Lookup, Mark, StatementLine, line_marks_of, text_key};
use std::alloc::{AllocError, Global};
use std::marker::Model;
use trust_base::{Day, Line};

/// The deposits and payments of a book, looked up by what the reasons need. Those that may match are found at once,
/// however many there are.
///
/// Contracts see it as the list of these entries.
#[derive(Drop)]
pub(crate) struct EntryIndex<'a, 'b> {
    entries: &'a [BookEntry],
    amounts: Lookup<'a, BookEntry>,
    references: Lookup<'a, BookEntry>,
    days: Lookup<'a, BookEntry>,
    marks: Lookup<'b, Mark>,
}

impl<'a, 'b> Model for EntryIndex<'a, 'b> {
    ghost use Rattle.std.specs.Prelude.{List};
    ghost use Rattle.statement_lines.specs.declared.book_entry.BookEntry.{BookEntry};
    ghost use Rattle.statement_lines.specs.Places.{AreEntriesFound};

    ghost Value = { List BookEntry };

    ghost view = { λ i. i.entries.now };

    ghost invariant = { λ i. AreEntriesFound i.entries.now i.amounts.sorted.items i.references.sorted.items
        i.days.sorted.items i.marks.sorted.items };
}

// Adds the places of the given marks.
fn add_found(places: &mut Vec<usize>, found: &[(u64, &Mark)]) -> Result<(), AllocError>
    ensures { OnOk result (places.new.items ≡ places.old.items ++ map (λ m. m.1) (elements found.now)) }
{
    for mark in found {
        places.push(mark.1.1)?;
    }
    Ok(())
}

// Sorts places and removes duplicates.
fn put_in_order(places: &mut Vec<usize>)
    ensures rises { IsStrictlyIncreasing places.new.items }
    ensures keeps { (place : ℕ) → Contains places.old.items place → Contains places.new.items place }
{
    places.sort_unstable();
    places.dedup();
}

// Adds the entry at a place, if there is one.
fn add_at<'a>(
    found: &mut Vec<(u64, &'a BookEntry)>,
    entries: &'a [BookEntry],
    place: usize,
) -> Result<(), AllocError>
    ensures { OnOk result (elements found.new.items
        ≡ elements found.old.items ++ option_to_list (slice_get entries.now place)) }
{
    if let Some(entry) = entries.get(place) {
        found.push((place as u64, entry))?;
    }
    Ok(())
}

// Returns the entries at these places.
fn entries_at<'a>(
    alloc: Global,
    entries: &'a [BookEntry],
    places: &[usize],
) -> Result<Vec<(u64, &'a BookEntry)>, AllocError>
    ensures { IfOk result (λ found. elements found.items
        ≡ flat_map (λ place. option_to_list (slice_get entries.now place)) places.now) }
{
    let mut found = Vec::new(alloc);
    for place in places {
        add_at(&mut found, entries, *place)?;
    }
    Ok(found)
}

impl<'a, 'b> EntryIndex<'a, 'b> {
    /// Makes the index from the entries and their marks. The only error is out of memory.
    pub(crate) fn of(
        alloc: Global,
        entries: &'a [BookEntry],
        marks: &'b [Mark],
    ) -> Result<EntryIndex<'a, 'b>, AllocError>
        requires { marks.now ≡ marks_from 0 entries.now }
        ensures { IfOk result (λ index. index ≡ entries.now) }
    {
        let amounts = Lookup::of(alloc, entries, |entry| entry.entry.amount.unsigned_abs())?;
        let references = Lookup::of(
            alloc,
            entries,
            |entry| text_key(0, entry.entry.reference.as_slice()),
        )?;
        let days = Lookup::of(alloc, entries, |entry| u64::from(entry.day.get()))?;
        let marks = Lookup::of(alloc, marks, |mark| mark.0)?;
        Ok(EntryIndex {
            entries,
            amounts,
            references,
            days,
            marks,
        })
    }

    /// The entries whose amount is that of the line or its negative.
    pub(crate) fn of_amount(&self, line: &Line) -> &[(u64, &'a BookEntry)]
        ensures { elements result.now ≡ filter (λ e. entry_key e == amount_key line.now) self.now }
    {
        self.amounts.at(line.amount.get().unsigned_abs())
    }

    /// The entries of the day with this number, in any state.
    pub(crate) fn of_day(&self, day: u32) -> &[(u64, &'a BookEntry)]
        ensures { elements result.now ≡ filter (λ e. day_key e == day) self.now }
    {
        self.days.at(u64::from(day))
    }

    /// The entries that may have the line's reference.
    pub(crate) fn named_by(&self, line: &Line) -> &[(u64, &'a BookEntry)]
        ensures { elements result.now ≡ filter (λ e. reference_key e == key_of_text 0 line.now.reference) self.now }
    {
        self.references.at(text_key(0, line.reference.as_slice()))
    }

    // The sum of the waiting deposits that were booked on a day, in cents.
    fn sum_on(&self, day: u32) -> i128
        ensures { result ≡ together_on self.now day }
    {
        sum_held(self.days.at(u64::from(day)))
    }

    // The sum of the deposits of each of these days.
    fn sums_on(&self, alloc: Global, days: &[u32]) -> Result<Vec<DaySum>, AllocError>
        ensures { IfOk result (λ sums. sums.items ≡ day_sums self.now days.now) }
    {
        let mut sums = Vec::new(alloc);
        for day in days {
            sums.push((*day, self.sum_on(*day)))?;
        }
        Ok(sums)
    }

    /// Returns the sums of the waiting deposits by the day on which they were booked. The only error is out of memory.
    pub(crate) fn sums_by_day(&self, alloc: Global) -> Result<Vec<DaySum>, AllocError>
        ensures { IfOk result (λ sums. (amount : ℤ) → day_with amount sums.items ≡ first_day amount self.now) }
    {
        let days = days_in_order(alloc, self.entries)?;
        let sums = self.sums_on(alloc, &days)?;
        Ok(sums)
    }

    /// Returns `day` as a civil day, if a waiting deposit was booked on it.
    pub(crate) fn same_day(&self, day: u32) -> Option<Day>
        ensures { result ≡ same_day_of self.now day }
    {
        day_held(self.days.at(u64::from(day)))
    }

    // Adds the places of the entries with this mark.
    fn add_places(&self, places: &mut Vec<usize>, mark: u64) -> Result<(), AllocError>
        ensures { OnOk result (places.new.items ≡ places.old.items ++ places_with self.now mark) }
    {
        add_found(places, self.marks.at(mark))
    }

    // Returns the places of the entries with one of these marks, mark by mark.
    fn places(&self, alloc: Global, marks: &[u64]) -> Result<Vec<usize>, AllocError>
        ensures { IfOk result (λ places. places.items ≡ flat_map (places_with self.now) marks.now) }
    {
        let mut places = Vec::new(alloc);
        for mark in marks {
            self.add_places(&mut places, *mark)?;
        }
        Ok(places)
    }

    /// The entries that a line may show. They include all that it shows, in their order. The only error is out of
    /// memory.
    pub(crate) fn shown_by(
        &self,
        alloc: Global,
        line: &StatementLine,
    ) -> Result<Vec<(u64, &'a BookEntry)>, AllocError>
        ensures { IfOk result (λ found.
            filter (is_shown line.now) (elements found.items) ≡ filter (is_shown line.now) self.now) }
    {
        let marks = line_marks_of(alloc, line)?;
        let mut places = self.places(alloc, &marks)?;
        put_in_order(&mut places);
        let found = entries_at(alloc, self.entries, &places)?;
        Ok(found)
    }
}
