//! Entries that are named, and those that they draw on.

ghost use Rattle.std.specs.Prelude.{◌≡◌, ◌≤◌, ◌==◌};
ghost use Rattle.matter_rows.specs.Shares.{number_or_none};
ghost use Rattle.matter_parts.specs.Parts.{is_it};
ghost use Rattle.matter_parts.specs.NamedEntries.{IsNextPlace, has_number};

use trust_base::EntryNo;

/// Two entries, and the one that each of them draws on.
#[derive(Clone, Copy)]
pub struct NamedEntries {
    pub first: Option<EntryNo>,
    pub second: Option<EntryNo>,
    pub under_first: Option<EntryNo>,
    pub under_second: Option<EntryNo>,
}

impl NamedEntries {
    // Whether the entry is one of these.
    pub(crate) fn has(&self, number: EntryNo) -> bool
        ensures { result ≡ has_number self.now number }
    {
        is_it(self.first, number)
            || is_it(self.second, number)
            || is_target(self.under_first, number)
            || is_target(self.under_second, number)
    }

    // Returns the first place from `from` on whose number is named, or `end` if there is none. The number at a place is
    // one more than the place.
    pub(crate) fn next_place(&self, from: usize, end: usize) -> usize
        requires { from ≤ end }
        ensures { IsNextPlace (has_number self.now) from end result }
    {
        let NamedEntries {
            first,
            second,
            under_first,
            under_second,
        } = *self;
        let end = nearer(under_second, from, end);
        let end = nearer(under_first, from, end);
        let end = nearer(second, from, end);
        nearer(first, from, end)
    }
}

// Returns the place of the number, if it is at least `from` and below `end`; otherwise `end`.
fn nearer(named: Option<EntryNo>, from: usize, end: usize) -> usize
    requires { from ≤ end }
    ensures { IsNextPlace (λ n. n == number_or_none named) from end result }
{
    let Some(number) = named else {
        return end;
    };
    let place = number.get() as usize - 1;
    if from <= place && place < end {
        place
    } else {
        end
    }
}

// Whether this is the number.
fn is_it(named: Option<EntryNo>, number: EntryNo) -> bool
    ensures { result ≡ is_it named number }
{
    match named {
        None => false,
        Some(named) => number.get() == named.get(),
    }
}

// Whether this is the number of the entry that another draws on.
fn is_target(target: Option<EntryNo>, number: EntryNo) -> bool
    ensures { result ≡ (number == number_or_none target) }
{
    let own = number.get();
    match target {
        None => false,
        Some(target) => own == target.get(),
    }
}
