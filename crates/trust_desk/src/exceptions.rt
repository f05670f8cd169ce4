//! How an exception of a book is dismissed.

ghost use Rattle.std.specs.Prelude.{◌≡◌, ◌||◌, IfOk, false};
ghost use Rattle.trust_base.specs.LineOrder.{is_same_line};
ghost use Rattle.trust_store.specs.Calls.{IsRead};
ghost use Rattle.trust_desk.specs.Calls.{Counts, KeepsBook};
ghost use Rattle.trust_desk.specs.Dismissing.{EndsDismiss, after_dismissing, is_exception};
ghost use Rattle.trust_desk.specs.Counts.{counted_end};
ghost use Rattle.trust_desk.specs.Replies.{is_fault_reply};
ghost use Rattle.trust_desk.specs.Crashes.{MayLeaveChange, is_fault_end};

use crate::requests::{Body, Reply, is_not_of_firm};
use firm_rows::RowSink;
use std::alloc::{AllocError, Global};
use trust_base::{Day, Line, OwnedBytes, Refusal, Rule, StoreFault};
use trust_matter::Caller;
use trust_store::Book;

// Searches for a line among those that it receives.
#[derive(Drop)]
struct LineSearch<'a> {
    line: &'a Line,
    is_found: bool,
}

impl RowSink<Line> for LineSearch<'_> {
    ghost taken = { λ s line. record s { is_found = s.is_found || is_same_line line s.line.now } };

    fn take(&mut self, line: &Line) -> Result<(), AllocError> {
        self.is_found = self.is_found || line.compare(self.line).is_eq();
        Ok(())
    }
}

// Whether a line is one of a book's exceptions.
fn is_exception<B: Book>(book: &mut B, line: &Line) -> Result<bool, StoreFault>
    ensures found { (B.seen book.new).clean → (B.seen book.old).stands
        → IfOk result (λ is. is ≡ is_exception line.now (B.seen book.old).firm.exceptions) }
    ensures read { IsRead result (B.seen book.old) (B.seen book.new) }
{
    let mut search = LineSearch {
        line,
        is_found: false,
    };
    book.each_exception(&mut search)?;
    Ok(search.is_found)
}

/// Dismisses a line from the exceptions of a book on a business day: it is not an exception any more, and is kept among
/// the dismissals, with the day. Nothing else changes.
///
/// Refuses a caller who is not the cashier (`NotAllowed`), and a line that is not an exception (`NoEntry`). Returns
/// `Store` or `Memory` if the book failed or memory ran out. On an error nothing has changed.
pub(crate) fn dismiss<B: Book>(
    alloc: Global,
    book: &mut B,
    day: Day,
    caller: &Caller,
    line: &Line,
) -> Result<Reply, Refusal>
    ensures end { (B.seen book.new).clean → (B.seen book.old).stands
        → EndsDismiss day caller.now line.now (B.seen book.old).firm (B.seen book.new).firm result }
    ensures ok { IfOk result (λ reply. is_fault_reply reply ≡ false) }
    ensures kept { KeepsBook (Counts (counted_end result)) (B.seen book.old) (B.seen book.new) }
    ensures crash { (B.seen book.new).sure → (B.seen book.old).stands → MayLeaveChange
        (is_fault_end result ≡ false) (B.seen book.old).firm
        (after_dismissing day caller.now line.now (B.seen book.old).firm) (B.seen book.old) (B.seen book.new) }
{
    if is_not_of_firm(caller) {
        return Err(Refusal::NotAllowed(Rule::Firm));
    }
    if !is_exception(book, line)? {
        return Err(Refusal::NoEntry);
    }
    let text = Vec::from_slice(alloc, b"{\"dismissed\":1}")?;
    book.dismiss(alloc, day, line)?;
    Ok(Reply {
        status: 200,
        body: Body::Json(OwnedBytes::new(text)),
    })
}
