// Warnings about accepted records that may not mean what was intended.

use crate::excerpt::Excerpt;
use crate::fields::text_at;
use csv::ByteRecord;
use day_sheet::{Verb, field_bytes, form_of};
use std::fmt;

/// How an accepted record may not mean what was intended.
#[derive(Clone, Copy)]
pub enum Caution<'a> {
    /// This payee of the general fund differs from the firm only in letter case or blanks.
    NotFirm(Excerpt<'a>),
    /// This payee has a word for cash in it.
    LikeCash(Excerpt<'a>),
    /// The record that begins on the line `before` proposes another payment with this number.
    SameNumber { before: u64, number: Excerpt<'a> },
    /// A single double quote stands in a field that is in double quotes: the field with this number, from 1, is read as
    /// this.
    LoneQuote(usize, Excerpt<'a>),
    /// The field with this number, from 1, is in single quotes, which are read as part of it.
    SingleQuotes(usize, Excerpt<'a>),
}

// The state of reading a record's bytes.
#[derive(Clone, Copy)]
enum Reading {
    // At the start of a field.
    Start,
    // In a field without quotes.
    Bare,
    // In a field in double quotes.
    Quoted,
    // After a double quote in a quoted field, which ends the field or is the first of two.
    Closing,
}

// Returns the place of the first field in double quotes that contains a single one. The record is at the start of the
// bytes.
fn place_of_lone_quote(bytes: &[u8]) -> Option<usize> {
    let mut reading = Reading::Start;
    let mut place = 0usize;
    for byte in bytes {
        reading = match (reading, *byte) {
            (Reading::Start, b'"') | (Reading::Closing, b'"') => Reading::Quoted,
            (Reading::Quoted, b'"') => Reading::Closing,
            (Reading::Quoted, _) => Reading::Quoted,
            (Reading::Start | Reading::Bare | Reading::Closing, b',') => {
                place = place.saturating_add(1);
                Reading::Start
            }
            (Reading::Start | Reading::Bare | Reading::Closing, b'\n' | b'\r') => return None,
            (Reading::Closing, _) => return Some(place),
            (Reading::Start | Reading::Bare, _) => Reading::Bare,
        };
    }
    None
}

// Returns the place of the first field in single quotes.
fn place_in_single_quotes(row: &ByteRecord) -> Option<usize> {
    for place in 0..row.len() {
        let field = field_bytes(row, place);
        if field.len() > 1 && field.starts_with(b"'") && field.ends_with(b"'") {
            return Some(place);
        }
    }
    None
}

// Whether a record proposes a payment.
fn is_proposing(row: &ByteRecord) -> bool {
    matches!(form_of(row), Some(form) if form.verb == Verb::Propose)
}

// Whether a record proposes a payment from the general fund to a payee that is written almost like the firm.
fn is_almost_to_firm(row: &ByteRecord) -> bool {
    is_proposing(row)
        && field_bytes(row, 4) == b"general".as_slice()
        && field_bytes(row, 6)
            .trim_ascii()
            .eq_ignore_ascii_case(b"FIRM")
}

// Whether a word stands for cash.
fn is_cash(word: &[u8]) -> bool {
    word.eq_ignore_ascii_case(b"cash")
        || word.eq_ignore_ascii_case(b"atm")
        || word.eq_ignore_ascii_case(b"bearer")
}

// Whether a record proposes a payment to cash in other words. The word alone is refused.
fn is_to_cash(row: &ByteRecord) -> bool {
    if !is_proposing(row) {
        return false;
    }
    for word in field_bytes(row, 6).split(|byte| !byte.is_ascii_alphanumeric()) {
        if is_cash(word) {
            return true;
        }
    }
    false
}

/// Returns the number of the check or other instrument by which a record proposes a payment. None if it does not, or if
/// the instrument has no number.
pub fn payment_number(row: &ByteRecord) -> Option<&[u8]> {
    let number = field_bytes(row, 8);
    if is_proposing(row) && number.iter().any(|byte| byte.is_ascii_digit()) {
        Some(number)
    } else {
        None
    }
}

/// Returns the warning about a payment whose number the one that begins on the line `before` has too.
pub fn caution_on_number(row: &ByteRecord, before: u64) -> Caution<'_> {
    Caution::SameNumber {
        before,
        number: Excerpt::new(text_at(row, 8)),
    }
}

/// Returns the warning about an accepted record, which is at the start of these bytes.
pub fn caution_on<'a>(row: &'a ByteRecord, bytes: &[u8]) -> Option<Caution<'a>> {
    if is_almost_to_firm(row) {
        return Some(Caution::NotFirm(Excerpt::new(text_at(row, 6))));
    }
    if is_to_cash(row) {
        return Some(Caution::LikeCash(Excerpt::new(text_at(row, 6))));
    }
    if let Some(place) = place_of_lone_quote(bytes) {
        return Some(Caution::LoneQuote(place.saturating_add(1), Excerpt::new(text_at(row, place))));
    }
    let place = place_in_single_quotes(row)?;
    Some(Caution::SingleQuotes(place.saturating_add(1), Excerpt::new(text_at(row, place))))
}

impl fmt::Display for Caution<'_> {
    fn fmt<W: fmt::Write>(&self, f: &mut fmt::Formatter<W>) -> fmt::Result {
        match *self {
            Caution::NotFirm(payee) => write!(
                f,
                "{payee} is not FIRM, the firm: if the firm is meant, withdraw it, \
                and pay FIRM from a fee that was earned"
            ),
            Caution::LikeCash(payee) => write!(
                f,
                "{payee}: nobody is paid in cash from a trust account; name the person or the office"
            ),
            Caution::SameNumber { before, number } => write!(
                f,
                "the payment of line {before} has the number {number} too: look whether it is one check"
            ),
            Caution::LoneQuote(number, text) => write!(
                f,
                "field {number} is read as {text}: within double quotes write a double quote twice"
            ),
            Caution::SingleQuotes(number, text) => write!(
                f,
                "field {number} is read as {text}, with its single quotes: quotes around a field are double ones"
            ),
        }
    }
}
