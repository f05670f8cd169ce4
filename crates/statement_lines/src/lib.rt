//! What the lines of a bank's own file show, and the deposits, payments and booked lines that they are compared with.
#![tactic(auto)]

mod book_entry;
mod booking;
mod exception_index;
mod index;
mod key;
mod known;
mod line_outcome;
mod lookup;
mod mark;
mod number;
mod records;
mod relation;
mod rows;
mod statement_line;
mod token;
mod writing;
mod written_day;

pub use book_entry::{BookEntry, EntryState, WaitingEntry};
pub use booking::{BookedLines, Booking};
pub use exception_index::ExceptionIndex;
pub use index::Index;
pub use key::text_key;
pub use known::{Held, Known};
pub use line_outcome::LineOutcome;
pub use lookup::Lookup;
pub use mark::{Mark, line_marks_of, marks_of};
pub use records::{Records, line_at, line_count, number_at, number_of, records_in};
pub use relation::Relation;
pub use statement_line::StatementLine;
pub use writing::write_statement;
