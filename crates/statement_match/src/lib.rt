//! Finds the entries that the lines of a bank's own file belong to, if the bank's words leave no doubt.
//!
//! # What is promised
//!
//! By public call, with the clauses of its contract in brackets.
//!
//! - `match_statement`: over every book: of a statement whose references may be empty, the statement that an import
//!   takes, and the records that are left with their reasons and candidates, are those of the definition, by the firm's
//!   rows on that day (`matched`); the book stays as it is, after a crash too (`read`).
//! - `laws` `what_is_sure_is_filled`: a line without a reference is filled exactly with the entry of which it is sure
//!   (`filled`), and nothing else is written of such a line (`written`). It is sure if it is not in the book already
//!   and not doubled; no line of the book has its day and bank reference; it fits that entry and no other; no other
//!   open line fits the entry, and no record has the entry's reference. An entry and a line fit only if the bank's
//!   words show a number (or the reference) that the book has for it, beside the amount and the days. That the line is
//!   an exception under some reference plays no part.
//! - `laws` `two_alike_are_left`: neither a line that two entries fit, nor one that fits an entry which another open
//!   line fits, is ever filled.
//! - `laws` `only_references_change`, `none_is_named_twice`: what is written are the lines with a reference as they
//!   are, and those without one that are sure of an entry, each with the reference of that entry and else as it is, in
//!   order; no reference with which a line is filled is that of another line that is written: of every sound firm whose
//!   matters have numbers that a matter may have (`over_firms`), and wherever no two waiting entries have one reference
//!   (`held`).
//! - `laws` `filled_waits`, `filled_entries_wait`: a line is filled with a deposit that is held or a payment that is
//!   issued: never `FIRM`, a balance or a return.
//! - `laws` `more_only_takes_away`, `other_matters_only_take_away`: other matters' rows can only take a filling away.
//! - `laws` `what_is_written_is_read`, `lines_are_written`: the text that is written reads back, field by field, as the
//!   header and the records that are written (`records`), and an import reads the items of these (`items`); its lines
//!   are those that the rule writes, if the reference of each entry that waits is one that a record can have.
#![tactic(auto)]

mod candidate;
mod day_sums;
mod entry_index;
mod grounds;
mod knowing;
pub mod laws;
mod matched;
mod misfit;
mod named_exception;
mod own_lines;
mod reason;
mod rule;
mod sharers;
mod unmatched;

pub use candidate::{Candidate, Candidates};
pub use matched::{Matched, match_statement};
pub use misfit::Misfit;
pub use named_exception::{NamedException, NamedExceptions};
pub use reason::UnmatchedReason;
pub use sharers::Sharers;
pub use statement_lines::{
    Booking, EntryState, Held, LineOutcome, Relation, StatementLine, WaitingEntry,
};
pub use unmatched::{Unmatched, UnmatchedRecord};
