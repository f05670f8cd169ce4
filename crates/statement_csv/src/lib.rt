//! The items of a bank statement, read record by record.
//!
//! # What is promised
//!
//! By public call, with the clauses of its contract in brackets.
//!
//! - `Lines::next`: the items of a statement in order and then none, by the records that `csv` reads from the file's
//!   bytes, however the reads are cut (`next`, `course`, `stays_ended`); no item of a file with another header, and a
//!   bad header only of such a file (`next`, `header`); the same fault from then on (`fault`, `again`). Of a reader
//!   made by `Lines::of_whole`: every item stands within the first 4,194,304 bytes (`front`), the limit's fault comes
//!   only beyond them and the end only within them (`limit`, `within`).
//! - `laws` `references`: a text names an entry exactly if it is that entry's reference, `M`, the six digits of the
//!   matter, `-` and the four digits of the entry (`text`, `found`).
#![tactic(auto)]

mod item;
pub mod laws;

pub use item::{Item, Lines, ReadFault, Whole, field, item_of_line, line_of_texts, read_item};
