//! The books in the system's files, each in a database that any SQLite tool opens.
//!
//! # What is promised
//!
//! By public call, with the clauses of its contract in brackets.
//!
//! - `system_store::book_at`, `copied`: for whatever the files at a path hold when they are opened: the book that they
//!   hold is taken, and one is made only if they hold no table; it serves if what was read is what had been written
//!   (`had`). A connection whose log was copied has its database in the database file alone, both with its log and
//!   without it, as the file reads now and after a crash (`copied`); what it saw was committed, and the database lists
//!   what it holds (`settled`).
//! - `system_store::SystemStores` as `Stores`: of files of which nothing is known, `finds` says what `book_at` does,
//!   and `puts` only that there are files to which a book was put back: that they are its connection's is said of
//!   `copied`. That these two are what it calls, each once, and that nothing else is done to a book's files, no clause
//!   says.
//! - `system_store::laws` `put_books_are_found`, `stopped_books_are_found`, `stopped_moves_are_found`,
//!   `stopped_extensions_are_found`: for two runs over one path. If the first put its book back, the second finds the
//!   same rows, in a book that stands, lasts and is settled. If the first was broken off, at whatever moment, the
//!   second finds a book that stands for rows which a crash might have left then. If that was while a database of
//!   version 1, or one of this version without the trail, was being taken, whose tables stood for a sound firm, the
//!   second finds a book that stands for the same firm (of a store that numbers its trees, as that of each connection
//!   does). The premise is that the second run's files hold what the first left there. No clause can say what a file of
//!   the system holds, so the cases (`cases/books-in-files.txt`, `cases/taken-books.txt`, `cases/version-1.txt`) and
//!   `tools/book-file` open such files.
//! - `system_store::laws` `accepted_is_spent_after_stops`: take an ask that makes an entry and was accepted in a run
//!   before a stop, or a line of the bank that names an entry and was applied in it. Sent again in a run after the
//!   stop, it changes nothing, whatever was run between the two, and it is a repeat as long as the matter is not
//!   purged. The premise is that the book was settled on the rows of the run before, as it is after each
//!   acknowledgement.
#![tactic(auto)]

pub mod laws;
mod system_stores;

pub use system_stores::{FileWith, SystemFile, SystemStores, book_at, copied};
