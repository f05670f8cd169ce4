// Remarks about the exceptions of a book.

use crate::item_remark::remark_on_exception;
use cashier_remarks::{ExceptionRemark, Remark, Remarks};
use firm_rows::Owner;
use trust_base::{Day, Line};
use trust_desk::{ImportStop, ItemWatch, NotApplied};

/// Reports why each exception of a book is one on a business day.
#[derive(Drop)]
pub struct ExceptionTelling<'a, M> {
    /// The business day.
    pub today: Day,
    /// Receives the remarks.
    pub remarks: &'a M,
}

// Returns the line that an exception is.
fn exception_in<'a>(told: &NotApplied<'a>) -> Option<&'a Line> {
    match *told {
        NotApplied::OfMatter { line, .. } => Some(&line.line),
        NotApplied::OfFirm { line, .. }
        | NotApplied::OfBalance { line, .. }
        | NotApplied::Stray { line }
        | NotApplied::WouldApply { line }
        | NotApplied::WouldRepeat { line } => Some(line),
        NotApplied::Unreadable => None,
    }
}

impl<M: Remarks> ItemWatch for ExceptionTelling<'_, M> {
    fn applied(&self, _number: u64, _owner: Owner, _line: &Line) {}

    fn not_applied(&self, _number: u64, told: &NotApplied<'_>) {
        let Some(line) = exception_in(told) else {
            return;
        };
        if let Some(told) = remark_on_exception(told, self.today) {
            let remark = ExceptionRemark { line, told };
            self.remarks.tell(&Remark::Exception(remark));
        }
    }

    fn ended(&self, _taken: u64, _end: &ImportStop) {}
}
