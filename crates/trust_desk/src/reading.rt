//! What is read of the desk's book beside its requests: the calls of `book_reports`, over the book that the desk keeps.

ghost use Rattle.std.specs.Prelude.{◌≡◌, ◌↔◌, IfOk, IfSome, None, OnOk};
ghost use Rattle.std.specs.Result.{result_err};
ghost use Rattle.firm_audit.specs.Flaws.{IsFlawOf};
ghost use Rattle.firm_audit.specs.Trails.{IsTrailFound};
ghost use Rattle.firm_rows.specs.FirmSound.{FirmSound};
ghost use Rattle.book_reports.specs.Checking.{AreCountsOf, AreReads, IsRefusedAlone};
ghost use Rattle.trust_store.specs.Calls.{IsRead};

use crate::desk::Desk;
use book_reports::{
    ActWatch, AppliedLine, Checked, EarlierWatch, PaymentWatch, PurgedWatch, RowWatch, Unread,
    WantedRecords, check, find_unread, tell_earlier, tell_outstanding, tell_purged, tell_rows,
    tell_unread, tell_waiting,
};
use std::alloc::Global;
use trust_base::{Day, MatterNo, StoreFault};
use trust_store::Book;

impl<B: Book> Desk<B> {
    /// Reads all rows of the book, and returns how many there are and what is not sound in them, or whether the trail
    /// fits them, as `book_reports::check`, with its errors. The book is unchanged.
    pub fn check(&mut self, alloc: Global) -> Result<Checked, StoreFault>
        ensures sound { (B.seen self.new).clean → (B.seen self.old).readable
            → IfOk result (λ c. result_err c.found ≡ None ↔ FirmSound (B.seen self.old).firm) }
        ensures flaw { (B.seen self.new).clean → (B.seen self.old).readable
            → IfOk result (λ c. IfSome (result_err c.found) (IsFlawOf (B.seen self.old).firm)) }
        ensures counts { (B.seen self.new).clean → (B.seen self.old).readable
            → IfOk result (λ c. AreCountsOf (B.seen self.old).firm c.counts) }
        ensures trail { (B.seen self.new).clean → (B.seen self.old).readable
            → IfOk result (λ c. IfOk c.found (IsTrailFound (B.seen self.old).firm)) }
        ensures read { IsRead result (B.seen self.old) (B.seen self.new) }
    {
        check(alloc, &mut self.book)
    }

    /// Returns which part of the book can't be read on a business day, after `check` returned `Store`, as
    /// `book_reports::find_unread`, with its errors. The book is unchanged.
    pub fn find_unread(&mut self, alloc: Global, day: Day) -> Result<Unread, StoreFault>
        ensures reads { AreReads (B.seen self.old) (B.seen self.new) }
        ensures refused { IfOk result (IsRefusedAlone (B.seen self.old) (B.seen self.new)) }
        ensures serves { (B.seen self.new).sure → OnOk result (B.seen self.new).clean }
    {
        find_unread(alloc, &mut self.book, day)
    }

    /// Reports to `watch` what a reader of a day's report should know of the book's rows, as
    /// `book_reports::tell_rows`, with its errors. The book is unchanged. A trial balance and a reconciliation show it
    /// with the rows that they read (`answer_beside`).
    pub fn tell_rows<V: RowWatch>(
        &mut self,
        alloc: Global,
        day: Day,
        watch: &V,
    ) -> Result<(), StoreFault>
        ensures { IsRead result (B.seen self.old) (B.seen self.new) }
    {
        tell_rows(alloc, &mut self.book, day, watch)
    }

    /// Reports to `watch` which of the lines that an import applied an earlier import applied to something else, as
    /// `book_reports::tell_earlier`, with its errors. The book is unchanged.
    pub fn tell_earlier<V: EarlierWatch>(
        &mut self,
        alloc: Global,
        applied: Vec<AppliedLine>,
        watch: &V,
    ) -> Result<(), StoreFault>
        ensures { AreReads (B.seen self.old) (B.seen self.new) }
    {
        tell_earlier(alloc, &mut self.book, applied, watch)
    }

    /// Reports to `watch` the payments of a matter that were issued and that no line of the bank has cleared, as
    /// `book_reports::tell_outstanding`, with its errors. The book is unchanged.
    pub fn tell_outstanding<V: PaymentWatch>(
        &mut self,
        alloc: Global,
        no: MatterNo,
        watch: &V,
    ) -> Result<(), StoreFault>
        ensures { IsRead result (B.seen self.old) (B.seen self.new) }
    {
        tell_outstanding(alloc, &mut self.book, no, watch)
    }

    /// Reports to `watch` the payments of all matters that were issued and that no line of the bank has cleared, as
    /// `book_reports::tell_waiting`, with its errors. The book is unchanged.
    pub fn tell_waiting<V: PaymentWatch>(
        &mut self,
        alloc: Global,
        watch: &V,
    ) -> Result<(), StoreFault>
        ensures { IsRead result (B.seen self.old) (B.seen self.new) }
    {
        tell_waiting(alloc, &mut self.book, watch)
    }

    /// Reports to `watch` the purged matters whose records a report wants, as `book_reports::tell_purged`, with its
    /// errors. The book is unchanged.
    pub fn tell_purged<V: PurgedWatch>(
        &mut self,
        alloc: Global,
        wanted: WantedRecords,
        watch: &V,
    ) -> Result<(), StoreFault>
        ensures { IsRead result (B.seen self.old) (B.seen self.new) }
    {
        tell_purged(alloc, &mut self.book, wanted, watch)
    }

    /// Reports to `watch` the rows of the trail that stand for no act, as `book_reports::tell_unread`, with its errors.
    /// The book is unchanged.
    pub fn tell_unread<V: ActWatch>(&mut self, alloc: Global, watch: &V) -> Result<(), StoreFault>
        ensures { IsRead result (B.seen self.old) (B.seen self.new) }
    {
        tell_unread(alloc, &mut self.book, watch)
    }
}
