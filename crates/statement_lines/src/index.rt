// Looks up what a book has, and the lines of a statement.

ghost use Rattle.std.specs.Prelude.{◌≡◌, ◌==◌, IfOk};
ghost use Rattle.std.specs.List.{filter, list_any};
ghost use Rattle.std.specs.Str.{bytes_eq};
ghost use Rattle.statement_lines.specs.Keys.{amount_key, booking_key};
ghost use Rattle.statement_lines.specs.Keys.{line_key as key_of_line, waiting_key};
ghost use Rattle.statement_lines.specs.Lookups.{elements};
ghost use Rattle.statement_lines.specs.OpenLines.{is_claimed as is_claimed_reference};

use crate::book_entry::WaitingEntry;
use crate::booking::Booking;
use crate::key::{line_key, text_key};
use crate::known::Held;
use crate::lookup::Lookup;
use crate::statement_line::StatementLine;
use std::alloc::{AllocError, Global};
use std::marker::Model;
use trust_base::{BankText, Line};

/// What a book has and the lines of a statement, looked up by what the rule needs. Those that may match are found at
/// once, however many there are.
///
/// Contracts see it as these two.
#[derive(Drop)]
pub struct Index<'a> {
    held: &'a Held,
    lines: &'a [StatementLine],
    waiting: Lookup<'a, WaitingEntry>,
    bookings: Lookup<'a, Booking>,
    beside: Lookup<'a, StatementLine>,
    amounts: Lookup<'a, StatementLine>,
    claims: Lookup<'a, StatementLine>,
}

impl<'a> Model for Index<'a> {
    ghost use Rattle.statement_lines.specs.Sides.{AreLookedUp, Sides};

    ghost Value = { Sides };

    ghost view = { λ i. record { held = i.held.now; lines = i.lines.now } };

    ghost invariant = { λ i. AreLookedUp i.held.now i.lines.now i.waiting.sorted.items i.bookings.sorted.items
        i.beside.sorted.items i.amounts.sorted.items i.claims.sorted.items };
}

// Whether one of the given lines has this reference.
fn is_claimed_among(found: &[(u64, &StatementLine)], reference: &BankText) -> bool
    ensures { result ≡ list_any (λ e. bytes_eq e.1.now.reference reference.now) found.now }
{
    found
        .iter()
        .any(|entry| entry.1.line().reference.is_same(reference))
}

impl<'a> Index<'a> {
    /// Makes the index from what a book has and the lines of a statement. The only error is out of memory.
    pub fn of(
        alloc: Global,
        held: &'a Held,
        lines: &'a [StatementLine],
    ) -> Result<Index<'a>, AllocError>
        ensures { IfOk result (λ index. index ≡ record { held = held.now; lines = lines.now }) }
    {
        let waiting = Lookup::of(alloc, &held.waiting, |entry| entry.amount.unsigned_abs())?;
        let bookings = Lookup::of(alloc, &held.bookings, |booking| booking.key())?;
        let beside = Lookup::of(alloc, lines, |line| line_key(line.line()))?;
        let amounts = Lookup::of(alloc, lines, |line| line.line().amount.get().unsigned_abs())?;
        let claims = Lookup::of(
            alloc,
            lines,
            |line| text_key(0, line.line().reference.as_slice()),
        )?;
        Ok(Index {
            held,
            lines,
            waiting,
            bookings,
            beside,
            amounts,
            claims,
        })
    }

    /// The lines of the statement.
    pub fn lines(&self) -> &'a [StatementLine]
        ensures { result.now ≡ self.now.lines }
    {
        self.lines
    }

    /// The waiting entries whose amount is that of the line or its negative.
    pub fn waiting_of(&self, line: &Line) -> &[(u64, &'a WaitingEntry)]
        ensures { elements result.now ≡ filter (λ w. waiting_key w == amount_key line.now) self.now.held.waiting }
    {
        self.waiting.at(line.amount.get().unsigned_abs())
    }

    /// The lines of the book that may have the line's date and bank reference.
    pub fn bookings_of(&self, line: &Line) -> &[(u64, &'a Booking)]
        ensures { elements result.now ≡ filter (λ b. booking_key b == key_of_line line.now) self.now.held.bookings }
    {
        self.bookings.at(line_key(line))
    }

    /// The lines of the statement that may have the line's date and bank reference.
    pub fn lines_of(&self, line: &Line) -> &[(u64, &'a StatementLine)]
        ensures { elements result.now ≡ filter (λ x. key_of_line x == key_of_line line.now) self.now.lines }
    {
        self.beside.at(line_key(line))
    }

    /// The lines of the statement whose amount is the entry's or its negative.
    pub fn lines_of_amount(&self, entry: &WaitingEntry) -> &[(u64, &'a StatementLine)]
        ensures { elements result.now ≡ filter (λ x. amount_key x == waiting_key entry.now) self.now.lines }
    {
        self.amounts.at(entry.amount.unsigned_abs())
    }

    /// Whether a record has this reference.
    pub fn is_claimed(&self, reference: &BankText) -> bool
        ensures { result ≡ is_claimed_reference self.now.lines reference.now }
    {
        is_claimed_among(self.claims.at(text_key(0, reference.as_slice())), reference)
    }
}
