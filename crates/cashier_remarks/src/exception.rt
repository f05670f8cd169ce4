// Remarks about the exceptions of a book.

use crate::line::LineRemark;
use crate::plain::Plain;
use std::fmt;
use trust_base::Line;

/// An exception, without its text, and why it is one, or that an import would accept it.
#[derive(Clone, Copy)]
pub struct ExceptionRemark<'a> {
    pub line: &'a Line,
    pub told: LineRemark<'a>,
}

// Writes a comma and a text, unless it is empty.
fn write_text<W: fmt::Write>(f: &mut fmt::Formatter<W>, text: &[u8]) -> fmt::Result {
    if text.is_empty() {
        return Ok(());
    }
    let text = Plain::new(text);
    write!(f, ", {text}")
}

impl fmt::Display for ExceptionRemark<'_> {
    fn fmt<W: fmt::Write>(&self, f: &mut fmt::Formatter<W>) -> fmt::Result {
        let (date, amount) = (self.line.date, self.line.amount);
        write!(f, "{date}")?;
        write_text(f, self.line.reference.as_slice())?;
        write_text(f, self.line.bank_ref.as_slice())?;
        write!(f, ", {amount}: ")?;
        self.told.fmt(f)
    }
}
