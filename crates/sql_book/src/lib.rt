//! The book on disk: a firm's rows in the tables of a connection. Each change is written as one script of SQL
//! statements in one transaction, all or nothing, even after a crash. No transaction may be open before a write.
//!
//! The promises of a write hold if the store is clean when it ends (what was read is what had been written), and if
//! the tables stood for a firm that its change fits. A write returns `Memory` if memory runs out, here or in the
//! store, and `Store` for any other fault. A connection that is still open after an error has changed nothing; one
//! that the error closed may have written all of the change.
//!
//! # What is promised
//!
//! By public call, with the clauses of its contract in brackets.
//!
//! If the tables stand for the rows of a sound firm, and what was read is what had been written (of a read that answers
//! Ok, and of a write whose change fits the firm):
//!
//! - `SqlBook`'s writes of a line: the change by a line that matches nothing, comes again, is the firm's own, is a
//!   balance, or is dismissed: its row of the trail is written in the transaction that takes it out of the exceptions.
//!   After an Ok the tables stand for the firm after that change, which is sound, and it is settled; at an error, if
//!   the connection still serves, nothing has changed; a crash leaves what it might have left before, or the whole
//!   change (`written`).
//! - `write_change`: the same of each change of a matter, whether a line of the bank made it or not: the head with its
//!   totals, a seat given or taken, an entry with what is left of it and of the one that it names, what was moved, a
//!   purge, and the act that the change is remembered by (`written`).
//!
//! - `SqlBook` as a `Book`: all that the trait promises, over every store of `sqlite`: its firm is the one for whose
//!   rows the tables stand; it is clean if what was read is what had been written and the connection serves, and sure
//!   if the first holds; it stands if the tables stand for the rows of a sound firm, in its layout, and say this
//!   version; it can be read (`readable`) if they stand for records, in its layout, and say this version; a crash
//!   leaves the firms of the tables that the store may then hold, and it lasts if each of these is a book that stands.
//!   Between its calls no transaction is open.
//! - `each_readable_act` of a `SqlBook`, whatever rows its trail holds: the sink takes the act that each row shows, but
//!   for those that are told, and these stand for no act (`read` of `sql_reads::each_readable_act`; no clause of the
//!   trait says it, since such tables stand for no firm). So it is with `unread_dismissals` and the rows with matter 0.
//! - `SqlBook::make`: a book without rows in an empty database: it serves, stands, lasts, is settled on the firm
//!   without rows, and has refused nothing (`made`, `none_refused`); what is not empty is NotABook and given back as it
//!   was (`not_empty`, `told`); all of it or nothing, also over a crash (`kept`, `crash`, `crash_at_fault`).
//! - `SqlBook::adopt`: the book that a database holds, which serves and is settled: one of this version in its layout,
//!   with the tables that were there; or one of version 1, whose rows were moved into the tables of this version, which
//!   stand for the firm for which those stood; or one of this version that had no trail, with an empty one, which
//!   stands for the firm for which its other tables stood, with no acts and no dismissals. It does not test whether the
//!   rows stand for a firm; if they do, and the firm is sound, the book stands and lasts (`taken`). It writes only if
//!   the book is of version 1 or has no trail, all of it or nothing, also over a crash (`kept`, `crash`,
//!   `crash_at_fault`); NotABook only of a database that holds none of these (`not_a_book`).
//! - `SqlBook::version`: the version that its tables say, if they say one and no more, else Store (`is`); nothing is
//!   written (`kept`, `settled`, `crash`), and an answer of Store is counted (`count`).
//! - `laws` `stops_leave_books`, `stops_are_taken`: take a book that lasts, any stop, and the files opened again. The
//!   connection then holds a book, so `adopt` does not answer NotABook; it stands for the rows of a sound firm, among
//!   those that a crash might have left; and the book that is taken stands, lasts, and is settled. So every promise of
//!   a call holds in the next run without a premise of its own; joined with the call's clause `crash`, it holds of the
//!   rows before the call or after it, and of those after it if the call was acknowledged.
//! - `laws` `stops_in_making_leave_books`: what a stop in `make` leaves is what was there, or a book without rows,
//!   which is taken.
//! - `laws` `stops_in_moving_leave_books`, `books_are_taken`: take a database of version 1 whose tables stood for a
//!   sound firm, any stop while it is being taken, and the files opened again. The connection then holds that database,
//!   or a book of this version that stands for the same firm, so `adopt` does not answer NotABook; and the book that is
//!   taken, of either version, with the trail or without, stands for that firm, lasts, and is settled.
//! - `laws` `stops_in_extending_leave_books`: the same of a book of this version without the trail: the connection then
//!   holds it, or one with the trail that stands for the same firm.
//! - `SqlBook::release`: the connection as it is, with no transaction open.
//!
//! The program uses it with `--db` (`system_store`).
#![tactic(auto)]

mod book;
mod changes;
pub mod laws;

pub use book::SqlBook;
pub use sql_making::OpenFault;
