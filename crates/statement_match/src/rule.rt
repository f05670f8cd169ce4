// Decides the outcome for the lines of a statement.

ghost use Rattle.std.specs.Prelude.{◌≡◌, ◌==◌, IfOk, find, nat_le, nat_lt, option_copied, option_map};
ghost use Rattle.std.specs.List.{count_by, filter, list_any};
ghost use Rattle.statement_lines.specs.Bookings.{amount_if, booking_of, is_beside, is_same_booking, total_of};
ghost use Rattle.statement_lines.specs.Lookups.{elements};
ghost use Rattle.statement_lines.specs.Showing.{fits};
ghost use Rattle.statement_lines.specs.OpenLines.{is_open_fit, is_open_like};
ghost use Rattle.statement_match.specs.Rule.{becomes, fill, is_booked as is_booked_line};
ghost use Rattle.statement_match.specs.Rule.{is_booked_in_parts as is_split_line, is_doubled as is_doubled_line};
ghost use Rattle.statement_match.specs.Rule.{is_fitted_once as is_entry_fitted_once, is_in_book as is_booked_already};
ghost use Rattle.statement_match.specs.Rule.{outcomes};

use statement_lines::{Booking, Index, LineOutcome, StatementLine, WaitingEntry};
use std::alloc::{AllocError, Global};
use trust_base::{Day, Line};

// Whether at most `most` of the given lines are open and have the date, bank reference and amount of a line.
fn are_at_most_among(found: &[(u64, &StatementLine)], line: &StatementLine, most: usize) -> bool
    ensures { result ≡ nat_le (count_by (λ e. is_open_like line.now e.1.now) found.now) most }
{
    found
        .iter()
        .filter(|entry| line.is_open_like(entry.1))
        .nth(most)
        .is_none()
}

// Whether at most `most` open lines have the date, bank reference and amount of a line.
fn are_at_most(index: &Index, line: &StatementLine, most: usize) -> bool
    ensures { result ≡ nat_le (count_by (is_open_like line.now) index.now.lines) most }
{
    are_at_most_among(index.lines_of(line.line()), line, most)
}

// How many of the given lines are open and have the date, bank reference and amount of a line.
fn count_open_like_among(found: &[(u64, &StatementLine)], line: &StatementLine) -> usize
    ensures { result ≡ count_by (λ e. is_open_like line.now e.1.now) found.now }
{
    found.iter().filter(|one| line.is_open_like(one.1)).count()
}

/// How many open lines have the date, bank reference and amount of a line.
pub(crate) fn count_open_like(index: &Index, line: &StatementLine) -> usize
    ensures { result ≡ count_by (is_open_like line.now) index.now.lines }
{
    count_open_like_among(index.lines_of(line.line()), line)
}

// How many of the given lines of the book have the date, bank reference and amount of a line.
fn booked_like_among(found: &[(u64, &Booking)], line: &Line) -> usize
    ensures { result ≡ count_by (λ e. is_same_booking (booking_of line.now) e.1.now) found.now }
{
    found.iter().filter(|entry| entry.1.is_same(line)).count()
}

/// How many lines of the book have the date, bank reference and amount of a line.
pub(crate) fn booked_like(index: &Index, line: &Line) -> usize
    ensures { result ≡ count_by (is_same_booking (booking_of line.now)) index.now.held.bookings }
{
    booked_like_among(index.bookings_of(line), line)
}

// Whether exactly one of the given lines has the date and bank reference of a line.
fn is_single_among(found: &[(u64, &StatementLine)], line: &StatementLine) -> bool
    ensures { result ≡ (count_by (λ e. is_beside (booking_of line.now) (booking_of e.1.now)) found.now == 1) }
{
    found
        .iter()
        .filter(|entry| line.is_beside(entry.1))
        .take(2)
        .count()
        == 1
}

// Whether exactly one line of the statement has the date and bank reference of a line.
fn is_single(index: &Index, line: &StatementLine) -> bool
    ensures { result ≡ (count_by (λ x. is_beside (booking_of line.now) (booking_of x)) index.now.lines == 1) }
{
    is_single_among(index.lines_of(line.line()), line)
}

// Whether one of the given lines of the book has the date and bank reference of a line.
fn is_beside_among(found: &[(u64, &Booking)], line: &Line) -> bool
    ensures { result ≡ list_any (λ e. is_beside (booking_of line.now) e.1.now) found.now }
{
    found.iter().any(|entry| entry.1.is_beside(line))
}

/// Whether a line of the book has the date and bank reference of a line.
pub(crate) fn is_beside_booked(index: &Index, line: &Line) -> bool
    ensures { result ≡ list_any (is_beside (booking_of line.now)) index.now.held.bookings }
{
    is_beside_among(index.bookings_of(line), line)
}

// Whether one of the given lines of the book has the date, bank reference and amount of a line.
fn is_same_among(found: &[(u64, &Booking)], line: &Line) -> bool
    ensures { result ≡ list_any (λ e. is_same_booking (booking_of line.now) e.1.now) found.now }
{
    found.iter().any(|entry| entry.1.is_same(line))
}

// Whether a line of the book has the date, bank reference and amount of a line.
fn has_booked_like(index: &Index, line: &Line) -> bool
    ensures { result ≡ list_any (is_same_booking (booking_of line.now)) index.now.held.bookings }
{
    is_same_among(index.bookings_of(line), line)
}

// The amount of a line of the book in cents, if it has the date and bank reference of a line; otherwise 0.
fn amount_beside(booking: &Booking, line: &Line) -> i64
    ensures { result ≡ amount_if (is_beside (booking_of line.now)) booking.now }
{
    if booking.is_beside(line) {
        booking.amount
    } else {
        0
    }
}

// The sum in cents of the given lines of the book that have the date and bank reference of a line.
fn sum_beside(bookings: &[(u64, &Booking)], line: &Line) -> i128
    ensures { result ≡ total_of (filter (is_beside (booking_of line.now)) (elements bookings.now)) }
{
    let mut total = 0i128;
    for entry in bookings {
        total += amount_beside(entry.1, line) as i128;
    }
    total
}

// The sum in cents of the lines of the book that have the date and bank reference of a line.
fn total_beside(index: &Index, line: &Line) -> i128
    ensures { result ≡ total_of (filter (is_beside (booking_of line.now)) index.now.held.bookings) }
{
    sum_beside(index.bookings_of(line), line)
}

// Whether the book has at least as many lines with the date, bank reference and amount of a line as the statement has
// open ones.
fn is_booked(index: &Index, line: &StatementLine) -> bool
    ensures { result ≡ is_booked_line index.now.held index.now.lines line.now }
{
    are_at_most(index, line, booked_like(index, line.line()))
}

// Whether the line is the only one with its date and bank reference, and the book's lines with these add up to its
// amount.
fn is_booked_in_parts(index: &Index, line: &StatementLine) -> bool
    ensures { result ≡ is_split_line index.now.held index.now.lines line.now }
{
    let whole = line.line();
    is_single(index, line)
        && is_beside_booked(index, whole)
        && total_beside(index, whole) == whole.amount.get() as i128
}

// Whether a line is in the book already.
#[tactic(auto, unfolding(crate::specs::Rule::is_in_book))]
fn is_in_book(index: &Index, line: &StatementLine) -> bool
    ensures { result ≡ is_booked_already index.now.held index.now.lines line.now }
{
    is_booked(index, line) || is_booked_in_parts(index, line)
}

// Whether another open line, or a line of the book, has its date, bank reference and amount.
#[tactic(auto, unfolding(crate::specs::Rule::is_doubled))]
fn is_doubled(index: &Index, line: &StatementLine) -> bool
    ensures { result ≡ is_doubled_line index.now.held index.now.lines line.now }
{
    !are_at_most(index, line, 1) || has_booked_like(index, line.line())
}

// Whether a line fits exactly one of the given entries.
fn fits_one_among(today: Day, found: &[(u64, &WaitingEntry)], line: &StatementLine) -> bool
    ensures { result ≡ (count_by (λ e. fits today line.now e.1.now) found.now == 1) }
{
    found
        .iter()
        .filter(|entry| line.fits(today, entry.1))
        .take(2)
        .count()
        == 1
}

// Whether a line fits exactly one entry.
fn fits_one(today: Day, index: &Index, line: &StatementLine) -> bool
    ensures { result ≡ (count_by (fits today line.now) index.now.held.waiting == 1) }
{
    fits_one_among(today, index.waiting_of(line.line()), line)
}

// Returns the first of the given entries that a line fits.
fn first_fit_among<'a>(
    today: Day,
    found: &[(u64, &'a WaitingEntry)],
    line: &StatementLine,
) -> Option<&'a WaitingEntry>
    ensures { option_copied result ≡ option_map (λ e. e.1.now) (find (λ e. fits today line.now e.1.now) found.now) }
{
    found
        .iter()
        .find(|entry| line.fits(today, entry.1))
        .map(|entry| entry.1)
}

// Returns the first entry that a line fits.
fn first_fit<'a>(today: Day, index: &Index<'a>, line: &StatementLine) -> Option<&'a WaitingEntry>
    ensures { option_copied result ≡ find (fits today line.now) index.now.held.waiting }
{
    first_fit_among(today, index.waiting_of(line.line()), line)
}

// Whether exactly one of the given lines is open and fits the entry.
fn is_fitted_once_among(today: Day, found: &[(u64, &StatementLine)], entry: &WaitingEntry) -> bool
    ensures { result ≡ (count_by (λ e. is_open_fit today entry.now e.1.now) found.now == 1) }
{
    found
        .iter()
        .filter(|line| line.1.is_open_fit(today, entry))
        .take(2)
        .count()
        == 1
}

// Whether exactly one open line fits the entry.
fn is_fitted_once(today: Day, index: &Index, entry: &WaitingEntry) -> bool
    ensures { result ≡ is_entry_fitted_once today index.now.lines entry.now }
{
    is_fitted_once_among(today, index.lines_of_amount(entry), entry)
}

// Fills a line, or leaves it.
#[tactic(auto, unfolding(crate::specs::Rule::fill))]
fn fill_of(today: Day, index: &Index, line: &StatementLine) -> Result<LineOutcome, AllocError>
    ensures { IfOk result (λ outcome. outcome ≡ fill today index.now.held index.now.lines line.now) }
{
    if is_beside_booked(index, line.line()) || !fits_one(today, index, line) {
        return Ok(LineOutcome::Left);
    }
    match first_fit(today, index, line) {
        Some(entry) if is_fitted_once(today, index, entry) && !index.is_claimed(&entry.reference) =>
            { Ok(LineOutcome::Filled(entry.reference.copied()?)) }
        _ => Ok(LineOutcome::Left),
    }
}

/// Returns the outcome for a line. The only error is out of memory.
#[tactic(auto, unfolding(crate::specs::Rule::becomes))]
pub(crate) fn outcome_of(
    today: Day,
    index: &Index,
    line: &StatementLine,
) -> Result<LineOutcome, AllocError>
    ensures { IfOk result (λ outcome. outcome ≡ becomes today index.now.held index.now.lines line.now) }
{
    if !line.is_open() {
        return Ok(LineOutcome::AsItIs);
    }
    if is_in_book(index, line) {
        return Ok(LineOutcome::InBook);
    }
    if is_doubled(index, line) {
        return Ok(LineOutcome::Doubled);
    }
    fill_of(today, index, line)
}

/// Returns the outcome for each line of a statement on a business day. The only error is out of memory.
pub(crate) fn outcomes_by(
    alloc: Global,
    today: Day,
    index: &Index,
) -> Result<Vec<LineOutcome>, AllocError>
    ensures { IfOk result (λ found. found.items ≡ outcomes today index.now.held index.now.lines) }
{
    let mut found = Vec::new(alloc);
    for line in index.lines() {
        found.push(outcome_of(today, index, line)?)?;
    }
    Ok(found)
}
