// The fields of records, as remarks name them.

use csv::ByteRecord;
use day_sheet::{field_bytes, is_text};
use trust_base::Field;

/// The text of a field at a place, counted from 0. Empty if there is none, or it is not UTF-8.
pub fn text_at(row: &ByteRecord, place: usize) -> &str {
    match str::from_utf8(field_bytes(row, place)) {
        Ok(text) => text,
        Err(_) => "",
    }
}

/// The number of the first field that is not UTF-8, from 1; 0 if there is none.
pub fn first_not_text(row: &ByteRecord) -> usize {
    for place in 0..row.len() {
        if !is_text(field_bytes(row, place)) {
            return place + 1;
        }
    }
    0
}

/// Whether a field contains the end of a line.
pub fn has_line_end(bytes: &[u8]) -> bool {
    bytes.iter().any(|byte| *byte == b'\n' || *byte == b'\r')
}

/// Whether bytes are not UTF-8 text: they are not valid UTF-8, or they are UTF-16 or a workbook.
pub fn is_no_text(bytes: &[u8]) -> bool {
    str::from_utf8(bytes).is_err()
        || bytes.iter().any(|byte| *byte == 0)
        || bytes.starts_with(b"PK\x03\x04")
}

/// What is said of a field.
#[derive(Clone, Copy)]
pub struct FieldWords {
    /// Its place in the records that have it, counted from 0.
    pub place: usize,
    /// What it contains, as a noun.
    pub noun: &'static str,
    /// How it is written.
    pub form: &'static str,
}

const ENTRY: &str = "its four digits, from 0001";

const PERSON: &str = "1 to 32 of a to z, 0 to 9, . and -, as ada.chen, and not cashier";

const LABEL: &str = "1 to 80 bytes, no tab and no other control character";

const AMOUNT: &str = "dollars and cents as 1234.50, no $ and no comma, from 0.01 to 999999999.99";

const TO_CLIENT: &str =
    "dollars and cents as 1234.50, no $ and no comma, from 0.00 to 999999999.99";

/// The words for a field.
pub fn words_of(field: Field) -> FieldWords {
    let (place, noun, form) = match field {
        Field::Matter => (1, "matter", "its six digits, from 000001"),
        Field::Entry => (2, "entry", ENTRY),
        Field::Client => (3, "client", LABEL),
        Field::Person => (3, "person", PERSON),
        Field::Amount => (3, "amount", AMOUNT),
        Field::ToClient => (3, "amount", TO_CLIENT),
        Field::Lawyer => (4, "person", PERSON),
        Field::Role => (4, "role", "client or lawyer"),
        Field::Source => (4, "source", LABEL),
        Field::From => (4, "fund", "general, fee or claim"),
        Field::Claimant => (4, "claimant", LABEL),
        Field::Description => (5, "description", LABEL),
        Field::Of => (5, "entry", ENTRY),
        Field::Reason => (5, "reason", LABEL),
        Field::Payee => (6, "payee", LABEL),
        Field::Purpose => (7, "purpose", LABEL),
        Field::Instrument => (8, "instrument", LABEL),
        Field::Record | Field::Day | Field::Body | Field::On | Field::Header => {
            (0, "field", "it as docs/SHEET.md tells")
        }
    };
    FieldWords { place, noun, form }
}
