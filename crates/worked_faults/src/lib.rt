//! Tests of what no case can show, since it takes clients, clocks, books or rows of the test's own, all in memory.
//!
//! Clients are served in virtual time. A book in memory answers on several days as the program does over a file. A book
//! refuses a write, a reader and a writer fail. Calls that the program does not make are made: of figures of rows in
//! memory, of a run, of the items of a statement, of a book in a database in memory, and of what is left of a fee. The
//! book, the reader and the writer that fail are for other tests too.
#![tactic(auto)]

#[cfg(test)]
mod answers;
#[cfg(test)]
mod books;
#[cfg(test)]
mod calls;
#[cfg(test)]
mod clients;
#[cfg(test)]
mod connections;
#[cfg(test)]
mod days;
#[cfg(test)]
mod figures;
#[cfg(test)]
mod messages;
#[cfg(test)]
mod refused;
mod refusing;
mod trial;

pub use refusing::RefusingBook;
pub use trial::{TrialReader, TrialWriter};
