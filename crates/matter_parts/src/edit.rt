//! The one place in a matter's rows that a change edits.

use matter_rows::{Entry, Head, Seat};
use trust_base::{Day, EntryNo, PersonId};

/// An entry with its number.
#[derive(Drop)]
pub struct Numbered {
    pub number: EntryNo,
    pub entry: Entry,
}

/// The head and the first seat of a matter.
#[derive(Drop)]
pub struct Opening {
    pub head: Head,
    pub seat: Seat,
}

/// The one place in the rows that changes.
pub enum Edit {
    Nothing,
    /// The matter gets a head and its first seat.
    Open(Opening),
    /// A person takes a seat.
    Seat(Seat),
    /// A person gives up the seat.
    Unseat(PersonId),
    /// The matter is closed on a day.
    Close(Day),
    /// The matter is purged on a day: its seats and entries are removed, and only a stub of the head stays.
    Purge(Day),
    /// An entry is added after the others.
    Append(Numbered),
    /// An entry replaces the one with its number.
    Exchange(Numbered),
}

// Written by hand, so that a function that holds an edit makes one call at each exit.
impl Drop for Edit {
    fn drop(self) {
        match self {
            Edit::Nothing => (),
            Edit::Open(_opening) => (),
            Edit::Seat(_seat) => (),
            Edit::Unseat(_person) => (),
            Edit::Close(_day) => (),
            Edit::Purge(_day) => (),
            Edit::Append(_added) => (),
            Edit::Exchange(_changed) => (),
        }
    }
}
