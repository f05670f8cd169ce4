//! The desk: takes requests and returns replies, over any book.

ghost use Rattle.std.specs.Prelude.{◌≡◌, ℕ, IfOk, length, take, ◌<◌, ◌∷◌, [], false};
ghost use Rattle.firm_rows.specs.Firm.{Firm, of};
ghost use Rattle.trust_desk.specs.Plan.{IsBodyOf};
ghost use Rattle.trust_desk.specs.Crashes.{AreNoFaults, AreNoFaultsButLast, IsImport, IsMade, IsMadeInRun, MayLeave, before_fault};
ghost use Rattle.trust_desk.specs.Counts.{counted_reply, counted_replies};
ghost use Rattle.trust_desk.specs.FirmStep.{Steps, RunsSoundly, IsUnstopped, firm_step};
ghost use Rattle.trust_desk.specs.ImportStep.{import_refusal, imported};
ghost use Rattle.trust_desk.specs.Heard.{Asks, Dismisses, Heard, OfItems, OfMatter, OnlyShown, OnlyTold, heard, kind_of};
ghost use Rattle.trust_desk.specs.ListStep.{list_body, list_for, reasons_for};
ghost use Rattle.trust_store.specs.Calls.{IsRead};
ghost use Rattle.trust_desk.specs.Isolation.{IsOwn, KeepsOthers};
ghost use Rattle.trust_desk.specs.Replies.{is_fault_reply};
ghost use Rattle.trust_desk.specs.ReportStep.{report_for, trail_for};
ghost use Rattle.trust_desk.specs.Answered.{IfServed, IsAnswered, IsReplied};
ghost use Rattle.trust_desk.specs.Calls.{Counts, KeepsBook};

use crate::acts::answer_acts;
use crate::exceptions::dismiss;
use crate::importing::{ImportEnd, ImportStop};
use crate::requests::{
    Body, CallerList, End, MatchText, Reply, Request, RunEnd, check_import, is_not_of_firm,
    tell_report, tell_trail,
};
use crate::watching::NoWatch;
use book_reports::{ClearedLines, Report, find_report, find_trail};
use json_bodies::{
    entries_body, entry_body, import_body, matter_body, matters_body, purge_body, reasons_body,
    receipt_body, waiting_body,
};
use std::alloc::{AllocError, Global};
use std::marker::Model;
use trust_base::{Day, Line, MatterNo, OwnedBytes, Refusal, Rule, StoreFault};
use trust_matter::{Ask, Caller, Edit, Matter, decide};
use trust_reports::laws::whole_account_is_of_rows;
use trust_reports::{account_text, ledger_card};
use trust_store::Book;

// Writes the text for the reply to an ask, by the matter with the ask's change made. The entry that the ask names is
// loaded or does not exist; if it does not, the text is empty. All are loaded where the text is made of all.
fn body_after(
    alloc: Global,
    no: MatterNo,
    matter: &Matter,
    ask: &Ask,
) -> Result<Vec<u8>, AllocError>
    ensures { IfOk result (λ bytes. IsBodyOf no ask.now matter.now bytes.items) }
{
    match ask {
        Ask::OpenMatter(_) | Ask::AddSeat(_) | Ask::DropSeat(_) | Ask::CloseMatter | Ask::Show => {
            matter_body(alloc, no, matter)
        }
        Ask::Purge => purge_body(alloc, no, matter),
        Ask::ShowEntries => entries_body(alloc, no, matter),
        Ask::Accounting => {
            let mut card = Vec::new(alloc);
            ledger_card(no, matter, &mut card)?;
            Ok(card)
        }
        Ask::Account(period) => {
            let mut account = Vec::new(alloc);
            account_text(alloc, no, matter, *period, &mut account)?;
            whole_account_is_of_rows();
            Ok(account)
        }
        // An ask that makes an entry is answered with it as it was made, also when it comes again.
        Ask::Deposit(_) | Ask::Propose(_) | Ask::EarnFee(_) | Ask::RaiseClaim(_) => {
            match matter.kept_under(ask.number()) {
                Some(kept) => receipt_body(alloc, no, kept.number, &kept.entry),
                None => Ok(Vec::new(alloc)),
            }
        }
        Ask::CancelDeposit(_)
        | Ask::Approve(_)
        | Ask::Decline(_)
        | Ask::Withdraw(_)
        | Ask::VoidPayment(_)
        | Ask::Offer(_)
        | Ask::Accept(_)
        | Ask::Award(_)
        | Ask::ShowEntry(_) => match matter.kept_under(ask.number()) {
            Some(kept) => entry_body(alloc, no, kept.number, &kept.entry, kept.left),
            None => Ok(Vec::new(alloc)),
        },
    }
}

// Decides an ask of a caller about a matter, and writes its change. The reply is made before anything is written.
fn answer_ask<B: Book>(
    alloc: Global,
    book: &mut B,
    no: MatterNo,
    caller: &Caller,
    ask: &Ask,
    day: Day,
) -> Result<Reply, Refusal>
    ensures { (h : Heard) → kind_of h ≡ OfMatter no caller.now ask.now
        → IsAnswered day h result (B.seen book.old) (B.seen book.new) }
{
    let read = if ask.is_whole() {
        book.matter(alloc, no)
    } else {
        book.matter_for(alloc, no, ask.number(), ask.fund_number())
    };
    let mut matter = read?;
    let change = decide(&matter, caller, ask, day)?;
    matter.apply(&change)?;
    let text = OwnedBytes::new(body_after(alloc, no, &matter, ask)?);
    let reply = Reply {
        // 201 if something is made, which a repeat does not do.
        status: match change.edit() {
            Edit::Open(_) | Edit::Append(_) => 201,
            _ => 200,
        },
        body: if ask.is_text() {
            Body::Text(text)
        } else {
            Body::Json(text)
        },
    };
    book.write_change(alloc, no, &change)?;
    Ok(reply)
}

// Returns the body of a caller's list.
//
// Returns `Store` if the book's store failed, and `Memory` if memory ran out.
fn find_list<B: Book>(
    alloc: Global,
    book: &mut B,
    caller: &Caller,
    list: CallerList,
) -> Result<Vec<u8>, StoreFault>
    ensures told { (B.seen book.new).clean → (B.seen book.old).stands
        → IfOk result (λ text. text.items ≡ list_body list caller.now (B.seen book.old).firm) }
    ensures read { IsRead result (B.seen book.old) (B.seen book.new) }
{
    match list {
        CallerList::Matters => matters_body(alloc, book, caller),
        CallerList::Waiting => waiting_body(alloc, book, caller),
    }
}

/// Answers requests over a book. Contracts see it as the book.
///
/// The trial balance of an empty book:
///
///     let mut desk = Desk::new(PlainBook::new(alloc));
///     let trial = Report::Today(TodayReport::Trial);
///     let reply = desk.answer(alloc, &Request::Report(Caller::Cashier, trial), today);
#[derive(Drop)]
pub struct Desk<B: Book> {
    pub(crate) book: B,
}

impl<B: Book> Model for Desk<B> {
    ghost Value = { B };

    ghost view = { λ d. d.book };
}

impl<B: Book> Desk<B> {
    /// Makes a desk over a book.
    pub fn new(book: B) -> Desk<B>
        ensures { result ≡ book }
    {
        Desk { book }
    }

    /// Returns the book.
    pub fn into_book(self) -> B
        ensures { result ≡ self }
    {
        let Desk { book } = self;
        book
    }

    /// Answers one request on a business day. If the reply is `Store` or `Memory`, nothing has changed, except that the
    /// first items of an import may have been applied.
    pub fn answer(&mut self, alloc: Global, request: &Request, day: Day) -> Reply
        ensures replied { IsReplied day (Asks request.now) result (B.seen self.old) (B.seen self.new) }

        // No other matter changes, and each is answered by its own machine.
        ensures others { IfServed (B.seen self.old) (B.seen self.new)
            (λ before after. KeepsOthers before (Asks request.now) after) }
        ensures own { IfServed (B.seen self.old) (B.seen self.new) (λ before after. is_fault_reply result ≡ false
            → (m : ℕ) → IsOwn m day before (Asks request.now ∷ []) (result ∷ []) after) }
    {
        let mut lines = ClearedLines::none(alloc);
        self.answer_beside(alloc, request, day, &mut lines)
    }

    /// Answers one request as `answer` does. What the rows of a trial balance or a reconciliation show beside it is
    /// kept in `lines`, which no other request changes. Memory that runs out for it alone does not end the report.
    pub fn answer_beside(
        &mut self,
        alloc: Global,
        request: &Request,
        day: Day,
        lines: &mut ClearedLines,
    ) -> Reply
        ensures { IsReplied day (Asks request.now) result (B.seen self.old) (B.seen self.new) }
    {
        let answered = match request {
            Request::Matter { no, caller, ask } => {
                answer_ask(alloc, &mut self.book, *no, caller, ask, day)
            }
            Request::Import { caller, statement } => {
                self.answer_import(alloc, day, caller, statement.as_slice())
            }
            Request::Dismiss { caller, line } => self.answer_dismiss(alloc, day, caller, line),
            Request::Match {
                caller,
                statement,
                text,
            } => self.answer_match(alloc, caller, statement, *text, day),
            Request::Report(caller, report) => {
                self.answer_report(alloc, caller, *report, day, lines)
            }
            Request::Trail(caller, no) => self.answer_trail(alloc, caller, *no, day),
            Request::Acts(caller, no) => answer_acts(alloc, &mut self.book, *no, caller, day),
            Request::Listed(caller, list) => self.answer_list(alloc, caller, *list),
            Request::Reasons(caller) => self.answer_reasons(alloc, caller, day),
        };
        answered.unwrap_or_else(Reply::refused)
    }

    // Answers with a report of the firm on a business day, or says why it is refused. Nothing changes.
    fn answer_report(
        &mut self,
        alloc: Global,
        caller: &Caller,
        report: Report,
        day: Day,
        lines: &mut ClearedLines,
    ) -> Result<Reply, Refusal>
        ensures { (h : Heard) → kind_of h ≡ OnlyTold (report_for caller.now report)
            → IsAnswered day h result (B.seen self.old) (B.seen self.new) }
    {
        if is_not_of_firm(caller) {
            return Err(Refusal::NotAllowed(Rule::Firm));
        }
        let found = find_report(alloc, &mut self.book, report, day, lines)?;
        tell_report(found)
    }

    // Answers with the trail of a matter on a business day, or says why it is refused. Nothing changes.
    fn answer_trail(
        &mut self,
        alloc: Global,
        caller: &Caller,
        no: MatterNo,
        day: Day,
    ) -> Result<Reply, Refusal>
        ensures { (h : Heard) → kind_of h ≡ OnlyTold (trail_for caller.now no)
            → IsAnswered day h result (B.seen self.old) (B.seen self.new) }
    {
        if is_not_of_firm(caller) {
            return Err(Refusal::NotAllowed(Rule::Firm));
        }
        let trail = find_trail(alloc, &mut self.book, no, day)?;
        tell_trail(trail)
    }

    // Answers with a list of the matters that a caller may see. Nothing changes.
    fn answer_list(
        &mut self,
        alloc: Global,
        caller: &Caller,
        list: CallerList,
    ) -> Result<Reply, Refusal>
        ensures { (day : ℕ) (h : Heard) → kind_of h ≡ OnlyShown (list_for caller.now list)
            → IsAnswered day h result (B.seen self.old) (B.seen self.new) }
    {
        let text = find_list(alloc, &mut self.book, caller, list)?;
        Ok(Reply {
            status: 200,
            body: Body::Json(OwnedBytes::new(text)),
        })
    }

    // Answers with the exceptions on a business day, each with its reason, or says why it is refused. Nothing changes.
    fn answer_reasons(&mut self, alloc: Global, caller: &Caller, day: Day) -> Result<Reply, Refusal>
        ensures { (h : Heard) → kind_of h ≡ OnlyShown (reasons_for caller.now)
            → IsAnswered day h result (B.seen self.old) (B.seen self.new) }
    {
        if is_not_of_firm(caller) {
            return Err(Refusal::NotAllowed(Rule::Firm));
        }
        let text = reasons_body(alloc, &mut self.book, day)?;
        Ok(Reply {
            status: 200,
            body: Body::Json(OwnedBytes::new(text)),
        })
    }

    // Dismisses a line from the exceptions.
    fn answer_dismiss(
        &mut self,
        alloc: Global,
        day: Day,
        caller: &Caller,
        line: &Line,
    ) -> Result<Reply, Refusal>
        ensures { (h : Heard) → kind_of h ≡ Dismisses caller.now line.now
            → IsAnswered day h result (B.seen self.old) (B.seen self.new) }
    {
        dismiss(alloc, &mut self.book, day, caller, line)
    }

    // Imports a statement.
    fn answer_import(
        &mut self,
        alloc: Global,
        day: Day,
        caller: &Caller,
        bytes: &[u8],
    ) -> Result<Reply, Refusal>
        ensures { (h : Heard)
            → kind_of h ≡ OfItems (import_refusal caller.now bytes.now) (imported caller.now bytes.now)
            → IsAnswered day h result (B.seen self.old) (B.seen self.new) }
    {
        check_import(alloc, caller, bytes)?;
        let ImportEnd { reply, end } = self.import(alloc, bytes, day, &NoWatch);
        match end {
            ImportStop::Done => {
                let text = import_body(alloc, &reply)?;
                Ok(Reply {
                    status: 200,
                    body: Body::Json(OwnedBytes::new(text)),
                })
            }
            ImportStop::Refused(refusal) => Err(refusal),
            // Bytes in memory that are not too long can only end early if memory runs out.
            ImportStop::Limit | ImportStop::ReadFault => Err(Refusal::Memory),
        }
    }

    /// Answers requests in order on a business day, until there is no memory for another reply. The requests after the
    /// last reply were then not begun.
    pub fn run(&mut self, alloc: Global, requests: &[Request], day: Day) -> RunEnd

        // The replies are those to the first requests, and the firm is sound after each of them.
        ensures run { (B.seen self.new).clean → (B.seen self.old).stands
            → RunsSoundly day (B.seen self.old).firm
            (heard (take (length result.replies.items) requests.now)) result.replies.items (B.seen self.new).firm }
        ensures done { result.end ≡ End.Done → length result.replies.items ≡ length requests.now }
        ensures memory { result.end ≡ End.Memory → length result.replies.items < length requests.now }
        ensures own { (B.seen self.new).clean → (B.seen self.old).stands → (m : ℕ)
            → IsUnstopped m (heard (take (length result.replies.items) requests.now)) result.replies.items
            → IsOwn m day (B.seen self.old).firm
            (heard (take (length result.replies.items) requests.now)) result.replies.items (B.seen self.new).firm }

        // Replies are `Store` only if calls of the book returned `Store`.
        ensures kept { KeepsBook (Counts (counted_replies result.replies.items))
            (B.seen self.old) (B.seen self.new) }

        // If the store was clean when the run began, and no reply except the last is `Store` or `Memory`, a crash may
        // leave what it might have left before, or the rows after some first requests, with a part of the next one. If
        // no reply at all is either, a settled book is still settled.
        ensures crash { (B.seen self.new).sure → (B.seen self.old).clean → (B.seen self.old).stands
            → AreNoFaultsButLast result.replies.items → MayLeave (AreNoFaults result.replies.items)
            (IsMadeInRun day (B.seen self.old).firm (heard (take (length result.replies.items) requests.now)))
            (B.seen self.old).firm (B.seen self.new).firm (B.seen self.old) (B.seen self.new) }

        // The replies before the first `Store` or `Memory` are those of a run, even if a fault has shut the store
        // since.
        ensures shut { (B.seen self.new).sure → (B.seen self.old).clean → (B.seen self.old).stands → (mid : Firm)
            × RunsSoundly day (B.seen self.old).firm
            (heard (take (length (before_fault result.replies.items)) requests.now))
            (before_fault result.replies.items) mid }
    {
        let mut replies = Vec::new(alloc);
        for request in requests {
            if replies.reserve(1).is_err() {
                return RunEnd {
                    replies,
                    end: End::Memory,
                };
            }
            let reply = self.answer(alloc, request, day);
            replies.push(reply).unwrap();
        }
        RunEnd {
            replies,
            end: End::Done,
        }
    }
}
