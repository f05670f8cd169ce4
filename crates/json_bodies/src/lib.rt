//! The JSON bodies of answers: of a matter, of an entry as it was made and in its current state, of all entries of a
//! matter, of its acts, and of an import; of the matters that a caller is shown and what waits in them; of exceptions,
//! each with its reason; and of the records that a match leaves.
//!
//! A matter is listed for a caller exactly if the caller's look at it is answered, so the lists have no policy of their
//! own.
//!
//! # What is promised
//!
//! By public call, with the clauses of its contract in brackets. A body is `serde_json`'s compact text of its object.
//!
//! - `matter_body`, `receipt_body`, `entry_body`, `purge_body`, `import_body`; `laws` `bodies_read_back`: the bytes of
//!   each accepted answer are the text of its object, by definition, and read back as that object (counts below 2^64).
//!   A refusal's JSON is a definition of its own; that it reads back is not proved.
//! - `entries_body`: the same of all entries, in order, for all rows of which the matter has all entries loaded.
//! - `acts_body`: the same of all acts of a matter, in the order of acceptance, for every list of acts.
//! - `is_shown`: whether a caller's look at a matter is answered, of whatever rows the matter is a part.
//! - `matters_body`, `waiting_body`: of any book whose store works and stands for a sound firm, the bytes are the text
//!   of the list, which is a definition over the firm's rows (`told`). Nothing changes, whatever the book holds
//!   (`read`). For a matter in the list of matters no entry is loaded.
//! - `exceptions`: of any such book its exceptions, in their order (`found`); nothing changes (`read`).
//! - `reasons_body`: of any such book the bytes are the text of the exceptions in their order, each with its fields and
//!   its reason: a name and at most one number or word more, by a definition over the firm's rows (`told`). Nothing
//!   changes, whatever the book holds (`read`).
//! - `unmatched_body`: the bytes are the text of the records that a match leaves, in their order, each with its number,
//!   its line and its reason: a name, with its numbers and with what the record may be; and of the counts; by a
//!   definition over what the match found.
//! - `laws` `persons_lists_are_own`: **two firms that agree on the matters in which a person has a seat list the same
//!   bytes for the person**. `listed_is_shown`: a matter is listed exactly if it was opened and a look at it is
//!   answered. `nothing_purged`: a purged matter is listed for nobody. `cashiers_list_is_trial`: the open matters of
//!   the cashier's list, with their ledgers, are the lines of the trial balance. `looks_are_alike`: a look is answered
//!   alike on every day.
#![tactic(auto)]

mod acts;
mod bodies;
mod exception_list;
pub mod laws;
mod listed;
mod lists;
mod reasons;
mod shown;
mod to_json;
mod unmatched;

pub use acts::acts_body;
pub use bodies::{ImportReply, entry_body, import_body, matter_body, purge_body, receipt_body};
pub use exception_list::{exceptions, reasons_body};
pub use listed::entries_body;
pub use lists::{matters_body, waiting_body};
pub use shown::is_shown;
pub use unmatched::unmatched_body;
