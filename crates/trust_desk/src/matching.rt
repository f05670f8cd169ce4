//! Matches statements whose references may be empty against the book.

ghost use Rattle.std.specs.Prelude.{◌≡◌, false};
ghost use Rattle.trust_desk.specs.Answered.{IsAnswered};
ghost use Rattle.trust_desk.specs.Calls.{Counts, KeepsBook};
ghost use Rattle.trust_desk.specs.Counts.{counted_end};
ghost use Rattle.trust_desk.specs.Crashes.{MayLeaveChange, is_fault_end};
ghost use Rattle.trust_desk.specs.Heard.{Heard, OnlyShown, OnlyTold, kind_of, match_kind};
ghost use Rattle.trust_desk.specs.MatchStep.{IsMatched, statement_for, unmatched_for};

use crate::desk::Desk;
use crate::requests::{Body, MatchText, Reply, check_import};
use json_bodies::unmatched_body;
use statement_match::{Matched, match_statement};
use std::alloc::Global;
use trust_base::{Day, OwnedBytes, Refusal};
use trust_matter::Caller;
use trust_store::Book;

impl<B: Book> Desk<B> {
    /// Matches a statement whose references may be empty against the book on a business day. The book is unchanged.
    ///
    /// Refused exactly as an import of the same bytes by the same caller: for more than 4,194,304 bytes (`TooLarge`),
    /// for another header (`BadField`), or because the caller is not the cashier (`NotAllowed`). Returns `Store` if the
    /// book's store failed, and `Memory` if memory ran out.
    pub fn match_statement(
        &mut self,
        alloc: Global,
        caller: &Caller,
        statement: &[u8],
        day: Day,
    ) -> Result<Matched, Refusal>
        ensures matched { (B.seen self.new).clean → (B.seen self.old).stands
            → IsMatched day (B.seen self.old).firm caller.now statement.now result }
        ensures same { (B.seen self.new).clean → (B.seen self.old).stands
            → (B.seen self.new).firm ≡ (B.seen self.old).firm }

        // The result is `Store` only if a call of the book returned `Store`.
        ensures kept { KeepsBook (Counts (counted_end result)) (B.seen self.old) (B.seen self.new) }

        // A crash may leave what it might have left before, or the rows as they are.
        ensures crash { (B.seen self.new).sure → (B.seen self.old).stands
            → MayLeaveChange (is_fault_end result ≡ false) (B.seen self.old).firm (B.seen self.old).firm
            (B.seen self.old) (B.seen self.new) }
    {
        check_import(alloc, caller, statement)?;
        let matched = match_statement(alloc, day, &mut self.book, statement)?;
        Ok(matched)
    }

    // Answers with the statement for the import, or says why it is refused. Nothing changes.
    fn answer_statement(
        &mut self,
        alloc: Global,
        caller: &Caller,
        statement: &OwnedBytes,
        day: Day,
    ) -> Result<Reply, Refusal>
        ensures { (h : Heard) → kind_of h ≡ OnlyTold (statement_for caller.now statement.now)
            → IsAnswered day h result (B.seen self.old) (B.seen self.new) }
    {
        let matched = self.match_statement(alloc, caller, statement.as_slice(), day)?;
        let Matched {
            statement,
            unmatched: _unmatched,
        } = matched;
        Ok(Reply {
            status: 200,
            body: Body::Text(OwnedBytes::new(statement)),
        })
    }

    // Answers with the records that a match leaves, or says why it is refused. Nothing changes.
    fn answer_unmatched(
        &mut self,
        alloc: Global,
        caller: &Caller,
        statement: &OwnedBytes,
        day: Day,
    ) -> Result<Reply, Refusal>
        ensures { (h : Heard) → kind_of h ≡ OnlyShown (unmatched_for caller.now statement.now)
            → IsAnswered day h result (B.seen self.old) (B.seen self.new) }
    {
        let matched = self.match_statement(alloc, caller, statement.as_slice(), day)?;
        let body = unmatched_body(alloc, &matched.unmatched)?;
        Ok(Reply {
            status: 200,
            body: Body::Json(OwnedBytes::new(body)),
        })
    }

    /// Answers with what is asked of a matched statement, or says why it is refused. Nothing changes.
    pub(crate) fn answer_match(
        &mut self,
        alloc: Global,
        caller: &Caller,
        statement: &OwnedBytes,
        text: MatchText,
        day: Day,
    ) -> Result<Reply, Refusal>
        ensures { (h : Heard) → kind_of h ≡ match_kind text caller.now statement.now
            → IsAnswered day h result (B.seen self.old) (B.seen self.new) }
    {
        match text {
            MatchText::Statement => self.answer_statement(alloc, caller, statement, day),
            MatchText::Unmatched => self.answer_unmatched(alloc, caller, statement, day),
        }
    }
}
