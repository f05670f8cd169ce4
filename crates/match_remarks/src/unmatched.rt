// What standard error says of the records that a match leaves.

use statement_match::{
    Candidate, Candidates, Misfit, NamedException, NamedExceptions, Relation, Sharers,
    UnmatchedReason, UnmatchedRecord,
};
use std::fmt::{self, Display};
use trust_base::Dollars;

/// A record that a match leaves, and why a person has to look at it.
#[derive(Clone, Copy)]
pub struct UnmatchedLine<'a>(pub &'a UnmatchedRecord);

// Bytes of a bank or of the book, with a space for each control character, which a terminal would obey.
#[derive(Clone, Copy)]
struct Shown<'a>(&'a [u8]);

impl fmt::Display for Shown<'_> {
    fn fmt<W: fmt::Write>(&self, f: &mut fmt::Formatter<W>) -> fmt::Result {
        for chunk in self.0.utf8_chunks() {
            for letter in chunk.valid().chars() {
                f.write_char(if letter.is_control() { ' ' } else { letter })?;
            }
            if !chunk.invalid().is_empty() {
                f.write_char(char::REPLACEMENT_CHARACTER)?;
            }
        }
        Ok(())
    }
}

// Writes a space and these bytes, unless there are none.
fn write_further<W: fmt::Write>(f: &mut fmt::Formatter<W>, bytes: &[u8]) -> fmt::Result {
    if bytes.is_empty() {
        return Ok(());
    }
    f.write_char(' ')?;
    Shown(bytes).fmt(f)
}

// Writes an entry's state, its day, the bank's reference, and its source or payee, each after a space.
fn write_state<W: fmt::Write>(f: &mut fmt::Formatter<W>, entry: &Candidate) -> fmt::Result {
    let (state, day) = (entry.state.word(), entry.day);
    write!(f, " {state} {day}")?;
    if let Some(bank_ref) = &entry.bank_ref {
        write_further(f, bank_ref.as_slice())?;
    }
    write_further(f, entry.party.as_slice())
}

// Writes an entry's amount after a space.
fn write_amount<W: fmt::Write>(f: &mut fmt::Formatter<W>, entry: &Candidate) -> fmt::Result {
    let amount = Dollars(entry.amount as i128);
    write!(f, " {amount}")
}

// Writes how many are not listed, if any.
fn write_more<W: fmt::Write>(f: &mut fmt::Formatter<W>, listed: usize, count: u64) -> fmt::Result {
    let more = count.saturating_sub(listed as u64);
    if more == 0 {
        return Ok(());
    }
    write!(f, "; and {more} more")
}

// Writes entries, with their amounts if the line has another.
fn write_entries<W: fmt::Write>(
    f: &mut fmt::Formatter<W>,
    entries: &Candidates,
    has_amounts: bool,
) -> fmt::Result {
    let mut mark = "";
    for entry in &entries.listed {
        f.write_str(mark)?;
        Shown(entry.reference.as_slice()).fmt(f)?;
        write_state(f, entry)?;
        if has_amounts {
            write_amount(f, entry)?;
        }
        mark = "; ";
    }
    write_more(f, entries.listed.len(), entries.count)
}

// Writes words and entries, if there are any.
fn write_if_any<W: fmt::Write>(
    f: &mut fmt::Formatter<W>,
    words: &str,
    entries: &Candidates,
) -> fmt::Result {
    if entries.listed.is_empty() {
        return Ok(());
    }
    f.write_str(words)?;
    write_entries(f, entries, false)
}

// The words of an exception that does not fit an entry, and whether the entry stands behind them.
fn words_of_misfit(misfit: Misfit) -> (&'static str, bool) {
    match misfit {
        Misfit::NoEntry => ("no deposit or payment has it", false),
        Misfit::OfNoEntry => (
            "no reference of an entry; the report exceptions says why",
            false,
        ),
        Misfit::Again => ("the book has the line for it already", false),
        Misfit::DatedAfter(_) => ("dated after ", false),
        Misfit::TakesBack => ("it would take back a deposit:", true),
        Misfit::NotWaiting => ("not waiting for the bank:", true),
        Misfit::OfAnotherAmount => ("of another amount:", true),
        Misfit::Fits => ("an import would apply it:", true),
    }
}

// Writes an exception's reference, and why it matches nothing.
fn write_exception<W: fmt::Write>(
    f: &mut fmt::Formatter<W>,
    exception: &NamedException,
) -> fmt::Result {
    let (words, has_entry) = words_of_misfit(exception.misfit);
    Shown(exception.reference.as_slice()).fmt(f)?;
    f.write_str(" (")?;
    f.write_str(words)?;
    if let Misfit::DatedAfter(today) = exception.misfit {
        today.fmt(f)?;
    }
    if let Some(entry) = &exception.entry
        && has_entry
    {
        write_state(f, entry)?;
        if let Misfit::OfAnotherAmount = exception.misfit {
            write_amount(f, entry)?;
        }
    }
    f.write_char(')')
}

fn write_exceptions<W: fmt::Write>(
    f: &mut fmt::Formatter<W>,
    exceptions: &NamedExceptions,
) -> fmt::Result {
    let mut mark = "it is an exception under ";
    for exception in &exceptions.listed {
        f.write_str(mark)?;
        write_exception(f, exception)?;
        mark = "; ";
    }
    write_more(f, exceptions.listed.len(), exceptions.count)?;
    f.write_str("; dismiss takes an exception away")
}

// Writes two or more numbers of records.
fn write_numbers<W: fmt::Write>(f: &mut fmt::Formatter<W>, sharers: &Sharers) -> fmt::Result {
    let last = sharers.count.saturating_sub(1);
    let mut place = 0u64;
    for number in &sharers.listed {
        let mark = if place == 0 {
            ""
        } else if place == last {
            " and "
        } else {
            ", "
        };
        write!(f, "{mark}{number}")?;
        place = place.saturating_add(1);
    }
    let more = sharers.count.saturating_sub(place);
    if more == 0 {
        return Ok(());
    }
    write!(f, " and {more} more")
}

// What is said of entries in this relation to a line, and whether their amounts are told.
fn words_of(relation: Relation) -> (&'static str, bool) {
    match relation {
        Relation::Fitted => ("it fits: ", false),
        Relation::NotWaiting => (
            "the entry that it shows is not waiting for the bank: ",
            false,
        ),
        Relation::IssuedAfter => ("it shows an entry that was issued after it: ", false),
        Relation::OfAnotherAmount => ("it shows an entry of another amount: ", true),
        Relation::OfItsAmount => (
            "nothing in its words tells which entry; of its amount: ",
            false,
        ),
        Relation::MaybeReturned => ("no payment of its amount; it may be a return of ", false),
        Relation::Named => ("its reference is that of an entry: ", false),
        Relation::NamedAgain => ("it is in the book already: ", false),
        Relation::NamedOfAnotherAmount => (
            "its reference is that of an entry of another amount: ",
            true,
        ),
        Relation::HeldOn(_) => ("deposits were booked on the day: ", false),
    }
}

fn write_reason<W: fmt::Write>(f: &mut fmt::Formatter<W>, reason: &UnmatchedReason) -> fmt::Result {
    match reason {
        UnmatchedReason::IsException(exceptions, waiting) => {
            write_exceptions(f, exceptions)?;
            write_if_any(f, "; of its amount: ", waiting)
        }
        UnmatchedReason::DatedAfter(today) => write!(f, "dated after {today}"),
        UnmatchedReason::Doubled { records, booked } => {
            write!(
                f,
                "{records} records have this day, bank reference and amount"
            )?;
            if *booked == 0 {
                return Ok(());
            }
            write!(f, "; the book has {booked}")
        }
        UnmatchedReason::BesideBooked => {
            f.write_str("the book has a line of its day and bank reference")
        }
        UnmatchedReason::FitsSeveral(entries) => {
            let count = entries.count;
            write!(f, "{count} entries have its amount and number: ")?;
            write_entries(f, entries, false)
        }
        UnmatchedReason::Claimed(reference) => {
            let reference = Shown(reference.as_slice());
            write!(f, "it shows {reference}, which another record names")
        }
        UnmatchedReason::Shared(sharers, reference) => {
            f.write_str("records ")?;
            write_numbers(f, sharers)?;
            let reference = Shown(reference.as_slice());
            write!(f, " show {reference}")
        }
        UnmatchedReason::OtherBusiness(entries) => {
            f.write_str("its words tell of a charge, a return or a correction")?;
            write_if_any(f, "; it may be a return of ", entries)
        }
        UnmatchedReason::Related(relation, entries) => {
            let (words, has_amounts) = words_of(*relation);
            f.write_str(words)?;
            write_entries(f, entries, has_amounts)
        }
        UnmatchedReason::NoneOfItsAmount => f.write_str("no entry of its amount"),
        UnmatchedReason::Together(day, entries) => {
            write!(
                f,
                "no entry of its amount; the deposits of {day} are together its amount: "
            )?;
            write_entries(f, entries, false)
        }
        UnmatchedReason::OwnMoney(sum) => {
            let sum = Dollars(*sum as i128);
            write!(
                f,
                "the firm's own money would be {sum} with it, and stays from 0.00 to 500.00"
            )
        }
        UnmatchedReason::MovesNothing => f.write_str("an amount of 0.00 moves nothing"),
        UnmatchedReason::NamesNone => {
            f.write_str("the book has no deposit or payment of its reference")
        }
    }
}

impl fmt::Display for UnmatchedLine<'_> {
    fn fmt<W: fmt::Write>(&self, f: &mut fmt::Formatter<W>) -> fmt::Result {
        match self.0 {
            UnmatchedRecord::Unreadable(number) => {
                write!(f, "record {number}: no line of a statement")
            }
            UnmatchedRecord::OfLine(number, line, reason) => {
                let (date, amount) = (line.date, line.amount);
                write!(f, "record {number}, {date} {amount}")?;
                write_further(f, line.text.as_slice())?;
                f.write_str(": ")?;
                write_reason(f, reason)
            }
        }
    }
}
