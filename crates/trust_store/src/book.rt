// The trait of all books.

ghost use Rattle.std.specs.Prelude.{◌≡◌, ℕ, [], None, IfOk, IsOk};
ghost use Rattle.matter_parts.specs.declared.edit.Edit.TheVariants.{Nothing};
ghost use Rattle.matter_parts.specs.Parts.{IsWhole};
ghost use Rattle.firm_rows.specs.Countable.{IsRowInRange, IsMovementInRange, IsFirmLineInRange, IsLineInRange, IsBalanceInRange, IsActInRange, IsDismissalInRange};
ghost use Rattle.firm_rows.specs.Firm.{Firm, of, opened_matters};
ghost use Rattle.firm_rows.specs.FirmChange.{OfMatter, Unmatched, Dismissed, FitsFirm, by_line, by_firm_line, by_balance};
ghost use Rattle.firm_rows.specs.FirmLines.{kept_balance};
ghost use Rattle.firm_rows.specs.FirmSound.{IsVerdictOn, IsFirmVerdict, IsBalanceVerdict};
ghost use Rattle.firm_rows.specs.Handing.{AreHanded};
ghost use Rattle.trust_store.specs.Calls.{IsRead, IsWrite, IsWriteIf};
ghost use Rattle.trust_store.specs.Kept.{AreKeptWhole, firm_of_all};
ghost use Rattle.trust_store.specs.MatterActs.{acts_in};
ghost use Rattle.trust_store.specs.Named.{IsPartFor};

use crate::all_rows::AllRows;
use crate::unread_act::UnreadAct;
use firm_rows::{
    BalanceKind, BalanceRow, Dismissal, FirmLedger, FirmLine, MatterAct, MatterRowSink, Movement,
    RowSink, Verdict,
};
use std::alloc::Global;
use trust_base::{Day, EntryNo, Line, MatterNo, StoreFault};
use trust_matter::{BankLine, Change, LineVerdict, Matter};

/// The rows of a firm, however they are stored.
///
/// The promises of a call hold if two things are so. The store is clean when the call ends: it works, and whatever it
/// read is what was written. And the store stood for a sound firm when the call began. A call returns `Store` if the
/// store refused something or had an invalid row, and `Memory` if memory ran out. On an error it has changed nothing.
///
/// A bank line that matches nothing is recorded and dismissed:
///
///     let mut book = PlainBook::new(alloc);
///     book.write_stray(alloc, &line)?;    // it is an exception
///     book.each_exception(&mut list)?;    // and the list is handed it
///     book.dismiss(alloc, day, &line)?;   // now it is none, and is among the dismissals
pub trait Book {
    ghost use Rattle.trust_store.specs.Seen.{Seen};

    /// What is seen of it: its firm, whether its store works, and what a crash may leave.
    ghost seen: { Self → Seen };

    /// Returns a matter with all its entries in order. If it was never opened, it has no rows.
    fn matter(&mut self, alloc: Global, matter: MatterNo) -> Result<Matter, StoreFault>
        ensures whole { (seen self.new).clean → (seen self.old).stands
            → IfOk result (λ part. IsWhole part (of matter (seen self.old).firm)) }
        ensures read { IsRead result (seen self.old) (seen self.new) };

    /// Returns a matter with its head, seats and totals, and only the named entries and those that they draw on.
    fn matter_for(
        &mut self,
        alloc: Global,
        matter: MatterNo,
        entry: Option<EntryNo>,
        other: Option<EntryNo>,
    ) -> Result<Matter, StoreFault>
        ensures found { (seen self.new).clean → (seen self.old).stands
            → IfOk result (λ part. IsPartFor (of matter (seen self.old).firm) entry other part) }
        ensures read { IsRead result (seen self.old) (seen self.new) };

    /// Returns the numbers of all matters that were opened, also those that were purged since, in ascending order.
    fn opened_matters(&mut self, alloc: Global) -> Result<Vec<MatterNo>, StoreFault>
        ensures found { (seen self.new).clean → (seen self.old).stands
            → IfOk result (λ numbers. numbers.items ≡ opened_matters (seen self.old).firm) }
        ensures read { IsRead result (seen self.old) (seen self.new) };

    /// Returns the firm's own ledger: its lines in the order of acceptance.
    fn firm(&mut self, alloc: Global) -> Result<FirmLedger, StoreFault>
        ensures found { (seen self.new).clean → (seen self.old).stands
            → IfOk result (λ ledger. ledger ≡ (seen self.old).firm.firm_lines) }
        ensures read { IsRead result (seen self.old) (seen self.new) };

    /// Returns the opening or closing balance of a day, in cents. None if there is no such balance.
    fn balance(&mut self, kind: BalanceKind, day: Day) -> Result<Option<i64>, StoreFault>
        ensures found { (seen self.new).clean → (seen self.old).stands
            → IfOk result (λ kept. kept ≡ kept_balance kind day (seen self.old).firm.balances) }
        ensures read { IsRead result (seen self.old) (seen self.new) };

    /// Returns all rows, each matter with all its entries, by number. They need not be those of a sound firm, but each
    /// matter is complete and sound: one that is not makes the call return `Store`.
    fn all_rows(&mut self, alloc: Global) -> Result<AllRows, StoreFault>
        ensures found { (seen self.new).clean → (seen self.old).readable
            → IfOk result (λ rows. firm_of_all rows ≡ (seen self.old).firm) }
        ensures whole { (seen self.new).clean → (seen self.old).readable
            → IfOk result (λ rows. AreKeptWhole rows.matters.items) }
        ensures read { IsRead result (seen self.old) (seen self.new) };

    /// Passes each row to the sink, sorted by matter, and within a matter the head, then the seats by person, then the
    /// entries by number. Stops if the sink runs out of memory.
    fn each_row<S: MatterRowSink>(&mut self, sink: &mut S) -> Result<(), StoreFault>
        ensures handed { (seen self.new).clean → (seen self.old).stands
            → AreHanded S.taken IsRowInRange (seen self.old).firm.rows result sink.old sink.new }
        ensures read { IsRead result (seen self.old) (seen self.new) };

    /// Passes each movement to the sink, in the order of acceptance. Stops if the sink runs out of memory.
    fn each_movement<S: RowSink<Movement>>(&mut self, sink: &mut S) -> Result<(), StoreFault>
        ensures handed { (seen self.new).clean → (seen self.old).stands
            → AreHanded S.taken IsMovementInRange (seen self.old).firm.movements result sink.old sink.new }
        ensures read { IsRead result (seen self.old) (seen self.new) };

    /// Passes each line of the firm's own to the sink, in the order of acceptance. Stops if the sink runs out of
    /// memory.
    fn each_firm_line<S: RowSink<FirmLine>>(&mut self, sink: &mut S) -> Result<(), StoreFault>
        ensures handed { (seen self.new).clean → (seen self.old).stands
            → AreHanded S.taken IsFirmLineInRange (seen self.old).firm.firm_lines result sink.old sink.new }
        ensures read { IsRead result (seen self.old) (seen self.new) };

    /// Passes each exception to the sink, sorted by day, reference, bank's reference, amount as a number, then text.
    /// Stops if the sink runs out of memory.
    fn each_exception<S: RowSink<Line>>(&mut self, sink: &mut S) -> Result<(), StoreFault>
        ensures handed { (seen self.new).clean → (seen self.old).stands
            → AreHanded S.taken IsLineInRange (seen self.old).firm.exceptions result sink.old sink.new }
        ensures read { IsRead result (seen self.old) (seen self.new) };

    /// Passes each balance to the sink, openings before closings, each by day. Stops if the sink runs out of memory.
    fn each_balance<S: RowSink<BalanceRow>>(&mut self, sink: &mut S) -> Result<(), StoreFault>
        ensures handed { (seen self.new).clean → (seen self.old).stands
            → AreHanded S.taken IsBalanceInRange (seen self.old).firm.balances result sink.old sink.new }
        ensures read { IsRead result (seen self.old) (seen self.new) };

    /// Passes each act to the sink, in the order of acceptance. Stops if the sink runs out of memory.
    fn each_act<S: RowSink<MatterAct>>(&mut self, sink: &mut S) -> Result<(), StoreFault>
        ensures handed { (seen self.new).clean → (seen self.old).stands
            → AreHanded S.taken IsActInRange (seen self.old).firm.acts result sink.old sink.new }
        ensures read { IsRead result (seen self.old) (seen self.new) };

    /// Passes each act of one matter to the sink, in the order of acceptance. Reads no other matter's acts. Stops if
    /// the sink runs out of memory.
    fn each_act_of<S: RowSink<MatterAct>>(
        &mut self,
        matter: MatterNo,
        sink: &mut S,
    ) -> Result<(), StoreFault>
        ensures handed { (seen self.new).clean → (seen self.old).stands
            → AreHanded S.taken IsActInRange (acts_in matter (seen self.old).firm.acts)
            result sink.old sink.new }
        ensures read { IsRead result (seen self.old) (seen self.new) };

    /// Passes each act that can be read to the sink, in the order of acceptance, and returns the rows that stand for
    /// none, in that order: none of a book that stands for a sound firm. Stops if the sink runs out of memory.
    fn each_readable_act<S: RowSink<MatterAct>>(
        &mut self,
        alloc: Global,
        sink: &mut S,
    ) -> Result<Vec<UnreadAct>, StoreFault>
        ensures handed { (seen self.new).clean → (seen self.old).stands
            → AreHanded S.taken IsActInRange (seen self.old).firm.acts result sink.old sink.new }
        ensures whole { (seen self.new).clean → (seen self.old).stands
            → IfOk result (λ unread. unread.items ≡ []) }
        ensures read { IsRead result (seen self.old) (seen self.new) };

    /// Returns the rows of the trail that lie among the dismissals and have not what each dismissal has, by their
    /// numbers there, in the order of acceptance, from 1: none of a book that stands for a sound firm.
    fn unread_dismissals(&mut self, alloc: Global) -> Result<Vec<u64>, StoreFault>
        ensures whole { (seen self.new).clean → (seen self.old).stands
            → IfOk result (λ unread. unread.items ≡ []) }
        ensures read { IsRead result (seen self.old) (seen self.new) };

    /// Passes each dismissal to the sink, in the order of acceptance. Stops if the sink runs out of memory.
    fn each_dismissal<S: RowSink<Dismissal>>(&mut self, sink: &mut S) -> Result<(), StoreFault>
        ensures handed { (seen self.new).clean → (seen self.old).stands
            → AreHanded S.taken IsDismissalInRange (seen self.old).firm.dismissals result sink.old sink.new }
        ensures read { IsRead result (seen self.old) (seen self.new) };

    /// Makes one change of a matter, with the act that it is remembered by, or none if it is refused. It must be a
    /// change of the matter's rows as they are now. A change of nothing is never refused.
    fn write_change(
        &mut self,
        alloc: Global,
        matter: MatterNo,
        change: &Change,
    ) -> Result<(), StoreFault>
        requires { (seen self.old).clean → (seen self.old).stands
            → FitsFirm (seen self.old).firm (OfMatter matter None change.now) }
        ensures written { IsWrite (OfMatter matter None change.now) result (seen self.old) (seen self.new) }
        ensures nothing { change.now.edit ≡ Nothing → IsOk result };

    /// Writes the verdict on a bank line that names an entry. An applied line changes the entry's matter. An applied or
    /// repeated line is no exception from then on; an unmatched one becomes an exception. The verdict must be that on
    /// this line, from the matter's rows as they are now. This is one write: if it is refused, nothing has changed.
    fn write_line(
        &mut self,
        alloc: Global,
        line: &BankLine,
        verdict: &LineVerdict,
    ) -> Result<(), StoreFault>
        requires { (seen self.old).clean → (seen self.old).stands
            → IsVerdictOn (seen self.old).firm line.now verdict.now }
        ensures written { IsWrite (by_line line.now verdict.now) result (seen self.old) (seen self.new) };

    /// Writes the verdict on a line of the firm's own. An applied line is added to the firm's ledger, with what it
    /// moves. An applied or repeated line is no exception from then on; any other becomes an exception. This is one
    /// write. Its promises hold if the verdict is that on this line, from the ledger as it is now.
    fn write_firm(&mut self, alloc: Global, line: &Line, verdict: Verdict) -> Result<(), StoreFault>
        ensures written { IsWriteIf ((seen self.old).clean → IsFirmVerdict (seen self.old).firm line.now verdict)
            (by_firm_line line.now verdict) result (seen self.old) (seen self.new) };

    /// Writes the verdict on an opening or closing balance. An applied balance is stored. An applied or repeated one is
    /// no exception from then on; any other becomes an exception. The verdict must be that on this line, from the
    /// balance now on file for its kind and day. This is one write.
    fn write_balance(
        &mut self,
        alloc: Global,
        kind: BalanceKind,
        line: &Line,
        verdict: Verdict,
    ) -> Result<(), StoreFault>
        requires { (seen self.old).clean → (seen self.old).stands
            → IsBalanceVerdict (seen self.old).firm kind line.now verdict }
        ensures written { IsWrite (by_balance kind line.now verdict) result (seen self.old) (seen self.new) };

    /// Adds a whole line to the exceptions. If the same line is already there, nothing changes.
    fn write_stray(&mut self, alloc: Global, line: &Line) -> Result<(), StoreFault>
        ensures written { IsWrite (Unmatched line.now) result (seen self.old) (seen self.new) };

    /// Removes a whole line from the exceptions, and adds it to the dismissals with the business day, whether or not it
    /// was an exception. Nothing else changes. This is one write.
    fn dismiss(&mut self, alloc: Global, day: Day, line: &Line) -> Result<(), StoreFault>
        ensures written { IsWrite (Dismissed day line.now) result (seen self.old) (seen self.new) };
}
