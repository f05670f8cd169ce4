//! The cashier's program. It runs a day sheet or a stream of messages from standard input, imports or matches a bank's
//! statement from a file, or prints a report to standard output. Or it serves the clients of a port, and prints how
//! each one's stream ended.
//!
//! # What is promised
//!
//! By public call, with the clauses of its contract in brackets.
//!
//! - `run_sheet`: over every book: what is written is the lines of the records that `csv` reads from the sheet's bytes,
//!   each by the firm's step on the record, however the reads are cut, and the firm afterwards is the one that these
//!   records leave; `Done` if each was accepted, `Refused` if one was not or the sheet is too large. At `WriteFault`
//!   the lines before and a proper prefix of that record's line were written; at `Store` and `NoMemory` whole lines; at
//!   `ReadFault` nothing (`ends`, `unread`). Suppose that the store served as the sheet began, and a crash would then
//!   have left only the rows of that moment. A crash now leaves the rows after some first records, whose lines are at
//!   the beginning of what was written, or the rows with the next record too, even if a fault has shut the store. At
//!   `Done` and `Refused` these are all the records. At another end the only whole line after theirs is that of a
//!   refusal, and of the next record's own line there is at most a part. So each line that was written as accepted is
//!   of a record that a crash leaves done (`crash`). Whatever the sheet's bytes are, the trail is kept by the run
//!   (`trail`) and in what a crash leaves of it (`left`), as `trails_are_kept` of `desk_trail` says it.
//! - `run_import`: over every book: one line, the counts of the items that the statement's bytes have, or its refusal;
//!   a prefix of it if a write failed, nothing if a read failed; a statement whose file says a length above 4,194,304
//!   bytes is refused, and nothing of it applied; if it ends early, the first items stay applied (`ends`). A crash may
//!   leave what it might have left before, or the rows after some prefix of the items; if neither the store nor memory
//!   ended it and its line was written, a settled book is settled (`crash`).
//! - `run_match`: over every book: the statement of the file's bytes over the book's firm on that day
//!   (`statement_match`'s definition), which an import takes, or the line of its refusal, which is that of an import of
//!   the same bytes by the cashier; a prefix of it if a write failed, nothing if the file was not opened or a read
//!   failed; a statement whose file says a length above 4,194,304 bytes is refused. It is `Done` only if no record has
//!   to be looked at, and the firm stays (`ends`); `StoreFault` only if a call of the book answered Store (`kept`). A
//!   crash may leave what it might have left before, or these same rows (`crash`). No clause says what is reported of
//!   the records.
//! - `run_report`: over every book: the cashier asks for the report, the firm's step gives the reply, and what is
//!   written is its text alone or its refusal's line; the outcome is that of the reply, as `StoreFault` for Store, or
//!   `OutputFault` if a write failed and a proper prefix was written (`ends`); `StoreFault` only if a call of the book
//!   answered Store (`kept`). A crash may leave what it might have left before, or these same rows (`crash`).
//! - `run_check`: over every book whose store's rows can be read, sound or not: **if it ends by `Done`, they are those
//!   of a sound firm, and `SOUND` was printed with their counts, matters and entries among them; if it ends by
//!   `Refused`, the flaw that was printed is there**, so that the firm is not sound, or it was a row that the book
//!   refused to read, together with the others and alone: it counted both faults (`sound`). So over a book that answers
//!   no row is said to be unreadable. The firm stays; what was found was printed, or the line of the fault, or a proper
//!   prefix of it if a write failed, and the outcome is that (`ends`). A book that stood for a sound firm still does
//!   (`kept`). If the store still serves, as it does after `Done` (`serves`), a crash may leave what it might have left
//!   before, or these same rows (`crash`). No clause says that the book refuses only what is wrong, nor what standard
//!   error says.
//! - `run_serve`: over every book, clock and network: the port could not be had, and nothing was served or written
//!   (`NetworkFault`); or its clients were served in turn, each over the firm that the one before left, with what a
//!   stream promises of its messages, replies and rows, the replies sent to that client, and a line for each client was
//!   written: `Done` if all were served, however their streams ended, `NetworkFault` if an accept was refused before,
//!   `OutputFault` if a proper prefix of the lines was written (`ends`). Never `StoreFault` (`store`), since what the
//!   store refused was answered to its message; a book that stood for a sound firm stands for one afterwards (`kept`).
//!   Of each client in turn: its answers, and with them what a crash leaves of its messages, as `serve_stream` says it
//!   (`crash`).
//! - `own_records_alone`: a law: the lines that a sheet prints at the records that name a matter depend on that
//!   matter's rows and on these records alone, if none of them was stopped.
//! - `run_called`: the sheet is run, the statement imported or matched, the stream or the clients of a port served, the
//!   report printed, or the book checked, if the words of the command line mean it, with what `run_sheet`,
//!   `run_import`, `run_match`, `portal_http::serve_stream`, `run_serve`, `run_report` and `run_check` promise, and
//!   with the length that opening the file gave; a stream goes by its end alone, and clients by that of serving;
//!   neither ever ends by `StoreFault`; what a crash leaves of the run is what these calls say of it, with the same
//!   text on standard output (`ran`). If the words mean nothing, nothing is read or written (`unread`, `unwritten`);
//!   standard input is read only if they mean a sheet or a stream (`input`). That is for every store of books
//!   (`Stores`). If the words name no path by `--db`, the run is over a `PlainBook` without rows, and the firm that is
//!   left is sound. If they name one, either no book could be opened there, and nothing was read or written
//!   (`StoreFault`, or `MemoryFault`); or a book was opened that the store finds there (`finds`) and that serves; no
//!   other is opened, before or after, since `Stores::at` takes the store, and the run has it once. Then what is said
//!   of the run holds if the book stood and its store is clean at the end (of a crash: even if a fault has shut the
//!   store), and the firm that is left is sound. **The trail is kept by every run** (`trail`), and in what a crash
//!   leaves of one that ends at its first fault (`stopped`). **If the words mean a check, what it printed is true of
//!   the rows, as `run_check` says it, whatever the store kept that can be read as rows** (`checked`). The book that
//!   the run left was put back (`puts`); if that failed and the run had ended by no fault, the outcome is one of these
//!   two (`ran`).
//! - `exit_of`: the exit status of each outcome.
#![tactic(auto)]

mod applied_lines;
mod beginning;
mod check;
mod exception_telling;
mod file_line;
mod file_records;
mod file_telling;
mod folder;
mod item_remark;
mod kept;
pub mod laws;
mod match_telling;
mod matching;
mod notice;
mod outcome;
mod program;
mod read_bytes;
mod report;
mod report_telling;
mod sheet;
mod sheet_telling;
mod sighting;
mod statement;
mod statement_telling;
mod system;

pub use cashier_remarks::{
    AskedRemarks, BookRemark, Caution, ExceptionRemark, Excerpt, FileRemark, HeaderRemark,
    LineRemark, NoRemarks, Plain, Reference, RefusedRecord, Remark, Remarks, ReportRemark,
    UnmatchedLine,
};
pub use check::{CheckFound, run_check};
pub use folder::{Folder, Opened, Presence};
pub use matching::run_match;
pub use notice::{InputSource, Notice, bare_notice_of, notice_of};
pub use outcome::{Outcome, exit_of};
pub use portal_http::{AcceptFault, ClientListener, Connection, Network};
pub use program::{Surroundings, run_called, run_serve};
pub use report::run_report;
pub use sheet::{SheetEnd, run_sheet};
pub use statement::run_import;
pub use system::run_on_system;
