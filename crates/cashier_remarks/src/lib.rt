//! What standard error says of a run, in addition to its faults: of records of a day sheet, lines of a statement,
//! reports and books. Each kind of remark is an enum with a sentence for each case, and no case is left out.
//!
//! # What is promised
//!
//! No contract says what a remark is.
#![tactic(auto)]

mod book_remark;
mod caution;
mod check;
mod day_meant;
mod exception;
mod excerpt;
mod fields;
mod file_remark;
mod header;
mod line;
mod line_fault;
mod path_text;
mod plain;
mod record_fault;
mod reference;
mod refused;
mod remark;
mod remarks;
mod report_remark;
mod sentence;
mod sum_meant;
mod verbs;

pub use book_remark::BookRemark;
pub use caution::{Caution, caution_on, caution_on_number, payment_number};
pub use exception::ExceptionRemark;
pub use excerpt::Excerpt;
pub use file_remark::FileRemark;
pub use header::{HeaderRemark, remark_on_header};
pub use line::LineRemark;
pub use line_fault::has_open_quote;
pub use match_remarks::UnmatchedLine;
pub use path_text::is_printable;
pub use plain::Plain;
pub use reference::Reference;
pub use refused::RefusedRecord;
pub use remark::Remark;
pub use remarks::{AskedRemarks, NoRemarks, Remarks};
pub use report_remark::{DAYS_OUTSTANDING, ReportRemark};
