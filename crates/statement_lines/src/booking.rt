// Bank lines that are in the book.

ghost use Rattle.std.specs.Prelude.{◌≡◌, List};
ghost use Rattle.std.specs.List.{list_any};
ghost use Rattle.statement_lines.specs.Bookings.{booking_of, is_beside, is_same_booking};
ghost use Rattle.statement_lines.specs.Keys.{booking_key};

use crate::key::text_key;
use std::marker::Model;
use trust_base::{BankText, Day, Line};

/// A bank line that is in the book: it cleared an entry, took a deposit back, or is a line of the firm's own.
#[derive(Drop)]
pub struct Booking {
    /// The day on which the bank booked it.
    pub date: Day,
    /// The bank's own reference.
    pub bank_ref: BankText,
    /// The amount in cents, negative for money that went out.
    pub amount: i64,
}

/// The bank lines that a book has for an entry.
///
/// Contracts see it as the list of them.
#[derive(Drop)]
pub struct BookedLines {
    lines: Vec<Booking>,
}

impl Model for BookedLines {
    ghost use Rattle.std.specs.Prelude.{List};
    ghost use Rattle.statement_lines.specs.declared.booking.Booking.{Booking};

    ghost Value = { List Booking };

    ghost view = { λ b. b.lines.items };
}

impl BookedLines {
    /// Makes it from the list of them.
    pub fn new(lines: Vec<Booking>) -> BookedLines
        ensures { result ≡ lines.items }
    {
        BookedLines { lines }
    }

    /// Whether one of them has the date, bank reference and amount of a line.
    pub fn has(&self, line: &Line) -> bool
        ensures { result ≡ list_any (is_same_booking (booking_of line.now)) self.now }
    {
        self.lines.iter().any(|booking| booking.is_same(line))
    }
}

impl Booking {
    /// The number by which it is looked up, made of its date and bank reference.
    pub(crate) fn key(&self) -> u64
        ensures { result ≡ booking_key self.now }
    {
        text_key(u64::from(self.date.get()), self.bank_ref.as_slice())
    }

    /// Whether it has the date and bank reference of a line.
    pub fn is_beside(&self, line: &Line) -> bool
        ensures { result ≡ is_beside (booking_of line.now) self.now }
    {
        line.date.get() == self.date.get() && line.bank_ref.is_same(&self.bank_ref)
    }

    /// Whether it has the date, bank reference and amount of a line.
    pub fn is_same(&self, line: &Line) -> bool
        ensures { result ≡ is_same_booking (booking_of line.now) self.now }
    {
        self.is_beside(line) && line.amount.get() == self.amount
    }
}
