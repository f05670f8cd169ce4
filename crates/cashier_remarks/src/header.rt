// Remarks about a statement with another header.

use crate::fields::is_no_text;
use crate::line_fault::HEADER;
use crate::plain::Plain;
use csv::ByteRecord;
use day_sheet::{form_of, is_dismissal};
use std::fmt;

/// What is reported about a statement with another header.
#[derive(Clone, Copy)]
pub enum HeaderRemark<'a> {
    /// The first record, which begins on this line, is this.
    Other { line: u64, here: Plain<'a> },
    /// The record that begins on this line is one of a sheet.
    Sheet { line: u64 },
    /// The file is not text, or not in UTF-8: its first record, which begins on this line, is not.
    NotText { line: u64 },
    /// The file has no records.
    Empty,
}

/// Makes the remark about the first record of a statement, which is not a header. It begins on this line of the file,
/// and `rest` is the file from there.
pub fn remark_on_header<'a>(line: u64, rest: &'a [u8], row: &ByteRecord) -> HeaderRemark<'a> {
    let mut lines = rest.split(|byte| *byte == b'\n' || *byte == b'\r');
    let here = lines.next().unwrap_or(rest);
    if is_no_text(here) {
        HeaderRemark::NotText { line }
    } else if is_dismissal(row) || form_of(row).is_some() {
        HeaderRemark::Sheet { line }
    } else {
        HeaderRemark::Other {
            line,
            here: Plain::new(here),
        }
    }
}

impl fmt::Display for HeaderRemark<'_> {
    fn fmt<W: fmt::Write>(&self, f: &mut fmt::Formatter<W>) -> fmt::Result {
        match self {
            HeaderRemark::Other { line, here } => write!(
                f,
                "line {line}: the first line must be {HEADER}; here it is {here}; \
                bank-to-statement makes a statement of a bank's own file"
            ),
            HeaderRemark::Sheet { line } => write!(
                f,
                "line {line}: this is a record of a sheet, not of a statement: the command sheet takes it"
            ),
            HeaderRemark::NotText { line } => write!(
                f,
                "line {line}: this is no text in UTF-8: save the statement as CSV in UTF-8"
            ),
            HeaderRemark::Empty => write!(
                f,
                "the first line must be {HEADER}; here is none, the file is empty"
            ),
        }
    }
}
