// What is known of a book: what lines are compared with, and what is reported about lines that are left.

ghost use Rattle.std.specs.Prelude.{◌≡◌};

use crate::book_entry::{BookEntry, WaitingEntry};
use crate::booking::Booking;
use std::marker::Model;
use trust_base::Line;

/// What the lines of a statement are compared with in a book: the entries that wait for the bank, and the bank lines
/// that are booked.
///
/// Contracts see it as these two lists.
#[derive(Drop)]
pub struct Held {
    pub(crate) waiting: Vec<WaitingEntry>,
    pub(crate) bookings: Vec<Booking>,
}

impl Model for Held {
    ghost use Rattle.statement_lines.specs.Held.{Held};

    ghost Value = { Held };

    ghost view = { λ h. record {
      waiting = h.waiting.items;
      bookings = h.bookings.items;
    } };
}

impl Held {
    /// Makes it from the two lists. Allocates nothing.
    pub fn new(waiting: Vec<WaitingEntry>, bookings: Vec<Booking>) -> Held
        ensures waiting { result.waiting ≡ waiting.items }
        ensures bookings { result.bookings ≡ bookings.items }
    {
        Held { waiting, bookings }
    }
}

/// What the lines of a statement are compared with in a book, and all its deposits, payments and exceptions, which are
/// reported to a person.
///
/// Contracts see it as these three.
#[derive(Drop)]
pub struct Known {
    pub held: Held,
    pub entries: Vec<BookEntry>,
    pub exceptions: Vec<Line>,
}

impl Model for Known {
    ghost use Rattle.statement_lines.specs.Known.{Known};

    ghost Value = { Known };

    ghost view = { λ k. record { held = k.held; entries = k.entries.items; exceptions = k.exceptions.items } };
}
