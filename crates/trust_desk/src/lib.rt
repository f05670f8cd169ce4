//! The desk of the firm: it answers what callers ask about matters and of the firm, and imports what the bank sends,
//! over any book.
//!
//! # What is promised
//!
//! By public call, with the clauses of its contract in brackets.
//!
//! - within the crate `answer_report`: of the cashier's request: NoStatement exactly if the report wants a closing
//!   balance of its day and none is kept, else PeriodPurged exactly if a matter has been purged whose records it wants,
//!   else the text; nothing changes, after a crash neither (`IsAnswered`, `report_for`).
//! - `Desk::answer`: over every book: reply and rows are those of the firm's step; or the store or memory stopped it,
//!   which the reply says with the status 503, and nothing changed, except that the first items of an import may have
//!   been applied (`step` of `replied`). The rows and acts of every matter that it does not concern stay (`others`);
//!   the reply is that of the matter's own machine (`own`). The book still stands for a sound firm, and an answer of
//!   Store comes only if a call of the book answered Store, even if a fault has shut its store, in the call or before
//!   (`kept` of `replied`). **A crash may leave what it might have left before, or the rows with the ask's change; of
//!   an import, the rows after some prefix of its items; and after each answer but Store and Memory a settled book is
//!   settled on the rows after the step** (`crash` of `replied`; of an import if the store served as it began). Of a
//!   request to import the length, the header and the caller are tested, in this order, before anything of it is
//!   applied.
//! - `Desk::answer`, of reports: an ask for a matter's ledger card is answered by the card of the matter's rows, as
//!   plain text, or by the first refusal whose condition holds. A request for a report on the firm, for one as of a
//!   day or of a period, or for a reconciliation, is answered by exactly the text of the definition, of the firm's
//!   rows, or by the first of NotAllowed, NoStatement (of a reconciliation and of month's end) and PeriodPurged that
//!   holds. Store or Memory may stop each of them instead. None of them changes anything, and these requests name no
//!   matter (by the same clauses). That the card's matter is read whole is the contract of a private function.
//! - `Desk::answer`, of acts: who asks for a matter's acts is refused as who asks for the matter, and else answered in
//!   JSON by exactly the body of the matter's acts (`acts_for`). This names the matter, and is answered by its own
//!   machine, which knows its rows and its acts; nothing changes (by the same clauses).
//! - `Desk::answer_beside`: the same as `replied`. No clause says what it keeps of the rows.
//! - `Desk::match_statement`: over every book: a statement whose references may be empty is refused as an import of it
//!   would be, or becomes the statement for the import and the records that are left, as the definition gives them for
//!   the day and the firm's rows (`matched`); the firm stays as it is (`same`), also after a crash (`crash`).
//! - `Desk::check`, `find_unread`, `tell_rows`, `tell_earlier`, `tell_outstanding`, `tell_waiting`, `tell_purged`,
//!   `tell_unread`: what `book_reports` promises of the same names, of the desk's book.
//! - `Desk::tell_exceptions`: the book stays as it is, after a crash too (`read`). No clause says what is reported.
//! - `Desk::apply_line`: an item of a statement, a matter's line, one of the firm's own, or a balance, is a step of the
//!   definition and is counted as it says, or nothing changed (`step`, `err`). A matter that the item does not name
//!   does not change (`others`), and of the one that it names it leaves the rows that the matter's own machine leaves
//!   (`own`). A crash may leave what it might have left before, or the rows with the item's change, and after an Ok a
//!   settled book is settled on these (`crash`); the book as above (`kept`).
//! - within the crate `apply_item` (`IsAppliedBeside`), by which `apply_line` and `import` both go: the same, if the
//!   firm's own ledger that an import keeps, where it does, is the book's, which it then is again (`kept`).
//! - `Desk::import`: the first items of the file were applied, one after the other, and counted, and all of them if it
//!   ends by `Done`, however the reads are cut. The firm is sound after each of them, and each matter's rows are those
//!   that its own machine leaves after the lines among them that name it (`front` of `imported`; it is tested that each
//!   is applied before the next is read). A matter that no item names does not change (`others`). Of `imported`,
//!   `header`, `limit` and `within` say when the other ends come. If the store served as it began, a crash may leave
//!   what it might have left before, or the rows after some prefix of the items, and a settled book is settled if
//!   neither the store nor memory ended it (`crash`). What it counted are the first items even if a fault has shut the
//!   store (`shut`). The book as above.
//! - `Desk::run`: the same of a list of requests, imports among them, and the firm is sound after each (`run`, `own`).
//!   All were answered (`done`), or memory ran out first (`memory`): then the replies are those to the first requests,
//!   and the rest was not begun. If the store served as it began: if no reply is Store or Memory, a settled book is
//!   settled on the rows that the run leaves; if at most the last is, a crash may leave what it might have left before,
//!   or the rows after some prefix of the requests, with a part of the next (`crash`). The replies before the first
//!   that is Store or Memory are those of a run, even if a fault has shut the store (`shut`). Nothing is said of a
//!   crash after requests that followed a fault.
//! - `Desk::answer`, of lists: a caller's matters, and what waits in them, are answered in JSON by exactly the body of
//!   the definition, of the firm's rows. Nothing changes, and these requests name no matter (by the same clauses).
//!
//! A firm's acts are part of its rows: an accepted ask that changes a matter, and an applied line that names an entry,
//! leave the act that they are remembered by, and a purge takes those of its matter (`after_ask`, `after_told`). So are
//! its dismissals: a line that is dismissed is kept behind those that are there, with the business day
//! (`after_dismissing`).
//!
//! The laws of its runs are in the crate `desk_laws`, and those of the acts in `desk_trail`.
#![tactic(auto)]

mod acts;
mod desk;
mod exceptions;
mod explaining;
mod importing;
mod matching;
mod reading;
mod requests;
mod watching;

pub use book_reports::{
    ActWatch, AppliedLine, Checked, ClearedLine, ClearedLines, DayReport, EarlierWatch, Flaw,
    PaymentWatch, PeriodReport, PurgedWatch, Report, RowCounts, RowWatch, TodayReport, TrailCounts,
    TrailFlaw, TrailFound, Unread, WantedRecords,
};
pub use desk::Desk;
pub use importing::{Counted, ImportEnd, ImportStop};
pub use json_bodies::{ImportReply, entry_body, import_body, matter_body, receipt_body};
pub use requests::{Body, CallerList, End, MatchText, Reply, Request, RunEnd};
pub use statement_match::Matched;
pub use trust_base::OwnedBytes;
pub use watching::{At, ItemWatch, NoWatch, NotApplied};
