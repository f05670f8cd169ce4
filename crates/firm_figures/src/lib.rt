//! A firm's figures as of a day and the lists that go with them, its journal, its trial balance and its retention list.
//! Each is built from rows that arrive one at a time. That what is built of a firm's rows is what the definitions say,
//! and what is always true of it, is told by the laws of `figure_laws`, which has no part in a run.
//!
//! # What is promised
//!
//! By public call, with the clauses of its contract in brackets.
//!
//! - `ReconciliationSink`: of rows, movements, lines, exceptions and balances, given one by one, `finish` gives the ten
//!   figures and the six lists of a day, or None if no closing balance of the day is kept. A refused row leaves the
//!   sink as it was.
//! - `Issued`, `OpeningLine`: payments by an instrument that another has, by one stable sort and a look at the
//!   neighbours; openings that differ from the latest closing before them, by a search among the closings of the day.
//! - `JournalSink`: the movements in the order of acceptance, each with the sum so far.
//! - `TrialSink`: the open matters with their ledgers, the firm's own balance, and TOTAL.
//! - `RetentionSink`: the closed matters with the day until which their records are kept.
//! - `ClientsSink`: the clients' ledgers as of a day, with their clients, in 128 bits.
//! - `is_in_transit`, `is_outstanding`, `added`: whether an entry waits for the bank as of a day, as the reconciliation
//!   has it; a sum in 128 bits.
//! - `is_head_purged_after`, `is_head_purged_at`: whether a matter was purged that was closed after a day, or was open
//!   as of it.
#![tactic(auto)]

mod clients_sink;
mod day_lists;
mod figures;
mod heads;
mod journal_sink;
mod reconciliation;
mod retention_sink;
mod trial_sink;

pub use clients_sink::{ClientLine, ClientList, ClientsSink};
pub use day_lists::{
    EntryLine, Issued, OpeningLine, ReconciliationLists, is_in_transit, is_outstanding,
};
pub use figures::{ReconciliationFigures, added};
pub use firm_rows::Owner;
pub use heads::{is_head_purged_after, is_head_purged_at};
pub use journal_sink::{JournalLine, JournalSink};
pub use reconciliation::{Reconciliation, ReconciliationSink};
pub use retention_sink::{RetentionLine, RetentionSink};
pub use trial_sink::{TrialBalance, TrialLine, TrialSink};
