// What is wrong with a record of a statement that is not a valid line.

use crate::day_meant::day_meant;
use crate::excerpt::Excerpt;
use crate::fields::{first_not_text, has_line_end, text_at};
use crate::sentence::{write_one, write_two};
use crate::sum_meant::sum_meant;
use csv::ByteRecord;
use day_sheet::field_bytes;
use std::fmt;
use trust_base::{BankAmount, Day, MAX_BANK_TEXT, MAX_LINE_TEXT};

/// The header of a statement.
pub const HEADER: &str = "date,reference,bank_ref,amount,text";

/// Of a record of a sheet or a statement that continues after its line.
pub const OPEN_QUOTE: &str =
    "a double quote is opened here and not closed in its line: close it, or take it away";

/// Whether a double quote was opened before the text, or in a text that is too long, and not closed on its line.
pub fn has_open_quote(row: &ByteRecord) -> bool {
    has_line_end(field_bytes(row, 0))
        || has_line_end(field_bytes(row, 1))
        || has_line_end(field_bytes(row, 2))
        || has_line_end(field_bytes(row, 3))
        || field_bytes(row, 4).len() > MAX_LINE_TEXT && has_line_end(field_bytes(row, 4))
}

// Whether a field can be a reference: printable ASCII, and not too long.
fn is_reference(field: &[u8]) -> bool {
    field.len() <= MAX_BANK_TEXT && field.iter().all(|byte| 0x20 <= *byte && *byte <= 0x7E)
}

// The balance that is meant by a reference without a bank reference.
fn balance_meant(reference: &str) -> Option<&'static str> {
    let front = reference.as_bytes().get(..4)?;
    if front.eq_ignore_ascii_case(b"clos") {
        Some("CLOSE")
    } else if front.eq_ignore_ascii_case(b"open") {
        Some("OPEN")
    } else {
        None
    }
}

// Writes what is wrong with a text that is no day.
fn write_no_day<W: fmt::Write>(f: &mut fmt::Formatter<W>, text: &str) -> fmt::Result {
    let excerpt = Excerpt::new(text);
    match day_meant(text) {
        Some(meant) => write_two(f, "{} is no day: write {}", &excerpt, &meant),
        None if text.is_empty() => f.write_str("the day is empty: write it as 2026-03-16"),
        None => {
            write_one(
                f,
                "{} is no day: write year, month and day as 2026-03-16",
                &excerpt,
            )
        }
    }
}

// Writes what is wrong with a text that is no amount.
fn write_no_amount<W: fmt::Write>(f: &mut fmt::Formatter<W>, text: &str) -> fmt::Result {
    let excerpt = Excerpt::new(text);
    match sum_meant(text) {
        Some(meant) => {
            write_two(
                f,
                "{} is no amount: write {}, no $ and no comma",
                &excerpt,
                &meant,
            )
        }
        None if text.is_empty() => {
            f.write_str("the amount is empty: write dollars and cents as 1234.50")
        }
        None => {
            let words = "{} is no amount: write dollars and cents as 1234.50, no $ and no comma";
            write_one(f, words, &excerpt)
        }
    }
}

// Writes what is wrong with a line that is no balance, and has no reference of the bank.
fn write_no_bank_reference<W: fmt::Write>(
    f: &mut fmt::Formatter<W>,
    reference: &str,
) -> fmt::Result {
    match balance_meant(reference) {
        Some(name) => {
            let words = "{} is no balance: write {}; a line that is none has a bank_ref";
            write_two(f, words, &Excerpt::new(reference), &name)
        }
        None => f.write_str(
            "the bank_ref is empty: write the bank's own reference of the line, as each but OPEN and CLOSE has one",
        ),
    }
}

// Writes what is wrong with a line whose day and amount are valid.
fn write_words_fault<W: fmt::Write>(
    f: &mut fmt::Formatter<W>,
    reference: &str,
    bank_ref: &str,
    text: &str,
) -> fmt::Result {
    if !is_reference(reference.as_bytes()) {
        let words = "{} is no reference: write at most 64 printed characters of ASCII";
        write_one(f, words, &Excerpt::new(reference))
    } else if !is_reference(bank_ref.as_bytes()) {
        let words = "{} is no reference of the bank: write at most 64 printed characters of ASCII";
        write_one(f, words, &Excerpt::new(bank_ref))
    } else if text.len() > MAX_LINE_TEXT {
        f.write_str("the text has more than 1000 bytes: shorten it")
    } else {
        write_no_bank_reference(f, reference)
    }
}

// Writes the first thing that is wrong with a line that is five fields of a record, after so many first ones.
fn write_fields_fault<W: fmt::Write>(
    f: &mut fmt::Formatter<W>,
    row: &ByteRecord,
    first: usize,
) -> fmt::Result {
    let number = first_not_text(row);
    let (date, amount) = (text_at(row, first), text_at(row, first.saturating_add(3)));
    if number > 0 {
        write_one(f, "field {} is not UTF-8: save the file as UTF-8", &number)
    } else if Day::read(date.as_bytes()).is_none() {
        write_no_day(f, date)
    } else if BankAmount::read(amount.as_bytes()).is_none() {
        write_no_amount(f, amount)
    } else {
        let reference = text_at(row, first.saturating_add(1));
        let bank_ref = text_at(row, first.saturating_add(2));
        write_words_fault(
            f,
            reference,
            bank_ref,
            text_at(row, first.saturating_add(4)),
        )
    }
}

/// Writes the first thing that is wrong with the line that a record should dismiss, which comes after the record's
/// first three fields.
pub fn write_dismissed_fault<W: fmt::Write>(
    f: &mut fmt::Formatter<W>,
    row: &ByteRecord,
) -> fmt::Result {
    write_fields_fault(f, row, 3)
}

/// Whether a record is the header of a statement, or begins like a line of one.
pub fn is_of_statement(row: &ByteRecord) -> bool {
    let (date, reference) = (field_bytes(row, 0), field_bytes(row, 1));
    row.len() == 5
        && (Day::read(date).is_some()
            || date == b"date".as_slice() && reference == b"reference".as_slice())
}

/// Writes the first thing that is wrong with a record that is not a valid line.
pub fn write_line_fault<W: fmt::Write>(f: &mut fmt::Formatter<W>, row: &ByteRecord) -> fmt::Result {
    let count = row.len();
    if has_open_quote(row) {
        f.write_str(OPEN_QUOTE)
    } else if count == 1 {
        write_one(
            f,
            "it has 1 field, a line of a statement has 5: {}",
            &HEADER,
        )
    } else if count != 5 {
        write_two(
            f,
            "it has {} fields, a line of a statement has 5: {}",
            &count,
            &HEADER,
        )
    } else {
        write_fields_fault(f, row, 0)
    }
}
