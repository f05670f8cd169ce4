//! The reports of a firm, each made of one state of any book by going over its rows one at a time, and what else is
//! read of a book at once: how many rows it has, whether they are sound, which of them can't be read, and what a
//! report's reader should know of them.
//!
//! # What is promised
//!
//! By public call, with the clauses of its contract in brackets.
//!
//! - `find_report`: over every book: the bytes of each report on a business day, as of a day and of a period, the
//!   packet of month's end among them, are those of the definition, of one state of the book's rows, and whether they
//!   may be told is found of the same rows (`told`); nothing changes, after a crash neither (`read`).
//! - `find_trail`: over every book: the bytes of the trail of a matter on a business day are those of the definition,
//!   of the acts of one state of the book; whether the matter was opened, and purged, is found of the same state
//!   (`told`); nothing changes, after a crash neither (`read`).
//! - `check`: over every book whose store can be read as rows, **sound or not: it finds no flaw exactly if the rows are
//!   those of a sound firm** (`sound`), and a flaw that it finds is there (`flaw`); there are as many matters, entries,
//!   movements, lines of the firm's own, exceptions and balances as it says (`counts`); the book stays as it is, after
//!   a crash too (`read`). An error wants no cause.
//! - `find_unread`: it reads, and any of its reads may fail: the book stays as it is, also after a crash if the store
//!   still serves (`reads`), as it does after an Ok (`serves`). No clause says what it finds.
//! - `tell_rows`, `tell_earlier`, `tell_outstanding`, `tell_waiting`, `tell_purged`, `tell_unread`: the book stays as it
//!   is, after a crash too. No clause says what is reported.
//!
//! A report keeps sums and what it prints; the reconciliation also keeps the payments issued and not voided by its day,
//! of which it lists those with another's instrument, and the balances dated by its day.
#![tactic(auto)]

mod business_day;
mod checking;
mod cleared_lines;
mod day_reports;
mod finding;
mod matter_acts;
mod matter_trail;
mod month;
mod outstanding;
mod purged;
mod report;
mod text_sink;
mod trail_sink;
mod unread;
mod unread_acts;
mod watching;

pub use checking::{Checked, RowCounts, check};
pub use cleared_lines::{ClearedLines, tell_earlier, tell_rows};
pub use day_reports::Limits;
pub use finding::{FoundReport, find_report};
pub use firm_audit::{Flaw, TrailCounts, TrailFlaw, TrailFound};
pub use matter_trail::{MatterTrail, find_trail};
pub use outstanding::{tell_outstanding, tell_waiting};
pub use purged::{WantedRecords, tell_purged};
pub use report::{DayReport, PeriodReport, Report, TodayReport};
pub use unread::{Unread, find_unread};
pub use unread_acts::tell_unread;
pub use watching::{
    ActWatch, AppliedLine, ClearedLine, EarlierWatch, PaymentWatch, PurgedWatch, RowWatch,
};
