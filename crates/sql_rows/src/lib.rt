//! The firm whose rows a book's tables stand for: definitions, laws over them, and the columns of each kind of row.
//! Balances, movements, lines of the firm, exceptions, acts, dismissals, seats, entries and heads with their totals are
//! written as columns and read back from them. Invalid columns are never guessed at: reading them returns `Store`, or
//! `Memory` if memory runs out before the invalid one is reached.
//!
//! # What is promised
//!
//! By public call, with the clauses of its contract in brackets.
//!
//! - `seat_columns`, `movement_columns`, `exception_columns`, `balance_columns`, `act_columns`, `entry_columns`,
//!   `head_columns`, `totals_columns`: the columns of a value; of a head, with its kept totals, or its last day and
//!   these totals alone.
//! - the readers of seats, heads, movements, firm lines, exceptions, balances, acts and dismissals: what is read has
//!   exactly these columns (`ok`), and the columns of a value give it back, or the answer is Memory, if memory is taken
//!   (`back`): so Store comes only of columns that stand for nothing. Movements and balances take no memory, and
//!   columns that stand for none are Store (`store`). Memory comes only of the columns of a seat of the matter, of
//!   those of a head that was not purged, of those of a firm line or exception whose day, amount and first text are of
//!   their form, of those of an act whose matter, entry, day and caller are, and of those of a dismissal whose line's
//!   date, reference and amount are, and all columns but the line (`memory`); any others that stand for nothing are
//!   Store.
//! - `dismissal_columns`, `dismissal_text`: a dismissal is a row of the trail with matter 0, its line one text.
//! - `totals_of`: the kept totals of a head, each in the range that a matter has (`ok`, `small`); columns of such
//!   totals give them back (`back`), any others are Store (`store`).
//! - `entry_of`: an entry with its number and what is left of it: written again it has exactly these columns, every one
//!   compared (`ok`), and what is left is in range (`small`); the columns of an entry give it back, or the answer is
//!   Memory (`back`). Memory comes only of columns of an entry of that matter (`memory`), so any others that stand for
//!   nothing are Store.
//!
//! - `laws` `empty_tables_stand`: tables without rows stand for the firm without rows, which is sound.
//! - `laws` `entries_read_back`: an entry that is read back from its columns is, by the definitions, the one that was
//!   written, with its number and what is left of it.
//! - `laws` `dismissals_read_back`: a dismissal that is read back from its columns is, by the definitions, the one that
//!   was written, with its whole line.
//! - `laws` `scripts_are_meant`: if the tables stand for the rows of a sound firm, and a change of whatever kind fits
//!   it, the statements of that change, done in turn, leave tables that stand for the firm after the change, its acts
//!   and dismissals among the rest, and that firm is sound (`line_scripts_are_meant` says it of lines of the firm's
//!   own, balances, strays, repeats and dismissals).
//!
//! These are definitions and laws alone: the firm of any tables, when tables stand for the rows of a sound firm, what a
//! crash may leave of them, and what a change writes into them. Tables with a row of the trail that no act has, a day
//! that is none or a name that is none, stand for no firm.
#![tactic(auto)]

mod act;
mod codes;
mod column;
mod dismissal;
mod entry;
pub mod laws;
mod lines;
mod matter;

pub use act::{act_columns, act_of};
pub use dismissal::{dismissal_columns, dismissal_of, dismissal_text, is_dismissal};
pub use entry::{entry_columns, entry_of};
pub use lines::{
    balance_columns, balance_of, exception_columns, exception_of, firm_line_of, kind_column,
    movement_columns, movement_of,
};
pub use matter::{head_columns, head_of, seat_columns, seat_of, totals_columns, totals_of};
