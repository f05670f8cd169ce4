//! The rows of a book's tables, as columns: writes them, all or nothing. What queries show of them is in the
//! definitions. Nothing here knows what a column means.
//!
//! # What is promised
//!
//! By public call, with the clauses of its contract in brackets.
//!
//! - the statements, `write`: each changes its table as said, and no other. A list of them is one transaction: all are
//!   done, or, at an error, none. A crash may leave what it might have left before, or all of them done; after an Ok of
//!   a settled database only the latter (`written`, `none`, `settled`, `crash`). After an Ok the connection is open
//!   (`serves`), and one that was shut leaves nothing new (`opened`). The version that the tables say stays, and the
//!   database lists what it holds (`written`).
#![tactic(auto)]

pub mod columns;
pub mod statements;

pub use columns::{
    ActColumns, BalanceColumns, EntryColumns, ExceptionColumns, FirmLineColumns, HeadColumns,
    LeftColumns, MatterDay, MovementColumns, SeatColumns, SeatName, TotalsColumns,
};
pub use statements::{SqlStatement, write};
