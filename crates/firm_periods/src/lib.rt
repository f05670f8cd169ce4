//! The journals of receipts and of disbursements of a period, and what waits for the bank as of a day: movements with
//! their names. Also a client's statement of account for a period.
//!
//! # What is promised
//!
//! By public call, with the clauses of its contract in brackets.
//!
//! - `NamedSink`; `laws` `named_are_kept`: of a firm's rows and lines, given one by one, `finish` gives what the `Pick`
//!   names, by day, and its sum; whether a purge may have cut the list. A refused row leaves the sink as it was.
//! - `ApprovalsSink`; `laws` `approvals_are_kept`: of a firm's acts and rows, given one by one, `finish` gives the
//!   payments that were issued in the period, by the day of issue, each with the caller whose act approved it, or none
//!   if no act says who did; whether a purge may have cut the list. A refused act or row leaves the sink as it was.
//! - `laws` `periods_agree`: in every sound firm the receipts and the disbursements of a period add up to the change of
//!   the journal over it (`change`); the movements of an entry are its events (`moves`); of every firm, what waits adds
//!   up to the reconciliation's IN TRANSIT and to minus its OUTSTANDING (`waits`).
//! - `laws` `listed_once`: in every sound firm each movement of the journal is named once, under its entry or as the
//!   firm's own, and nothing else is.
//! - `laws` `each_stands_in_one`: **each movement of a period stands in its receipts or in its disbursements, once**,
//!   and nothing else does.
//! - `laws` `names_are_of_their_matter`: in every sound firm each line names the client of its matter.
//! - `laws` `purging_changes_no_period`: in every sound firm a purge changes nothing of the receipts, the disbursements
//!   and the approvals of a period if no purged matter was open in it, nor of what waits as of a day if none was open
//!   then (`periods`, `approvals`, `waiting`).
//! - `is_head_purged_within`: whether a matter was purged that was open in a period.
//! - `account_of`; `laws` `accounts_agree`: a matter's statement of account for a period. It closes with the ledger as
//!   of its last day (`closing`), with which the next period opens (`next`), has the movements of each entry in their
//!   own order (`order`), and in a sound firm no balance on it is below zero (`covered`). Of a whole matter it is that
//!   of the rows (`whole`).
//! - `laws` `closings_are_clients`: the accounts of all clients for a period close with the ledgers in the list of the
//!   clients of its last day (`lines`), and with the firm's own lines add up to its TOTAL (`total`).
#![tactic(auto)]

mod account;
mod approvals_sink;
pub mod laws;
mod month_sink;
mod moved;
mod named_sink;
mod purged;

pub use account::{Account, AccountLine, account_of};
pub use approvals_sink::{ApprovalsSink, IssuedPayment};
pub use month_sink::{MonthParts, MonthSink};
pub use moved::{Cause, MoveNames, Moved, NamedMove};
pub use named_sink::{NamedList, NamedSink, Pick};
pub use purged::is_head_purged_within;
