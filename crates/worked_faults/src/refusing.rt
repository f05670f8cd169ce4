// A book for tests that refuses a write.

ghost use Rattle.std.specs.Prelude.{◌≡◌, ◌==◌, ◌-◌};
ghost use Rattle.trust_store.specs.Books.{counted_fault};

use firm_rows::{
    BalanceKind, BalanceRow, Dismissal, FirmLedger, FirmLine, MatterAct, MatterRowSink, Movement,
    RowSink, Verdict,
};
use std::alloc::Global;
use trust_base::{Day, EntryNo, Line, MatterNo, StoreFault};
use trust_matter::{BankLine, Change, Edit, LineVerdict, Matter};
use trust_store::{AllRows, Book, UnreadAct};

/// A book for tests. Its nth write returns `Store`; every other call goes to the inner book. A change of nothing is not
/// a write. A bank line is one, even if it is a repeat or matches nothing.
#[derive(Drop)]
pub struct RefusingBook<B: Book> {
    inner: B,
    writes_left: u64,
    refusals: u64,
}

impl<B: Book> RefusingBook<B> {
    /// A book that refuses the nth write, or none if `nth` is 0.
    pub fn new(inner: B, nth: u64) -> RefusingBook<B>
        ensures { result ≡ record { inner = inner; writes_left = nth; refusals = 0 } }
    {
        RefusingBook {
            inner,
            writes_left: nth,
            refusals: 0,
        }
    }
}

impl<B: Book> Book for RefusingBook<B> {
    ghost seen = { λ b. record {
      firm = (B.seen b.inner).firm;
      clean = (B.seen b.inner).clean;
      sure = (B.seen b.inner).sure;
      stands = (B.seen b.inner).stands;
      readable = (B.seen b.inner).readable;
      lasts = (B.seen b.inner).lasts;
      leaves = (B.seen b.inner).leaves;
      refusals = b.refusals;
      sound = (B.seen b.inner).sound;
      clean_is_sure = (B.seen b.inner).clean_is_sure;
    } };

    fn matter(&mut self, alloc: Global, matter: MatterNo) -> Result<Matter, StoreFault> {
        match self.inner.matter(alloc, matter) {
            Ok(found) => Ok(found),
            Err(fault) => Err(told(&mut self.refusals, fault)),
        }
    }

    fn matter_for(
        &mut self,
        alloc: Global,
        matter: MatterNo,
        entry: Option<EntryNo>,
        other: Option<EntryNo>,
    ) -> Result<Matter, StoreFault> {
        match self.inner.matter_for(alloc, matter, entry, other) {
            Ok(found) => Ok(found),
            Err(fault) => Err(told(&mut self.refusals, fault)),
        }
    }

    fn opened_matters(&mut self, alloc: Global) -> Result<Vec<MatterNo>, StoreFault> {
        match self.inner.opened_matters(alloc) {
            Ok(found) => Ok(found),
            Err(fault) => Err(told(&mut self.refusals, fault)),
        }
    }

    fn firm(&mut self, alloc: Global) -> Result<FirmLedger, StoreFault> {
        match self.inner.firm(alloc) {
            Ok(found) => Ok(found),
            Err(fault) => Err(told(&mut self.refusals, fault)),
        }
    }

    fn balance(&mut self, kind: BalanceKind, day: Day) -> Result<Option<i64>, StoreFault> {
        match self.inner.balance(kind, day) {
            Ok(found) => Ok(found),
            Err(fault) => Err(told(&mut self.refusals, fault)),
        }
    }

    fn all_rows(&mut self, alloc: Global) -> Result<AllRows, StoreFault> {
        match self.inner.all_rows(alloc) {
            Ok(found) => Ok(found),
            Err(fault) => Err(told(&mut self.refusals, fault)),
        }
    }

    fn each_row<S: MatterRowSink>(&mut self, sink: &mut S) -> Result<(), StoreFault> {
        match self.inner.each_row(sink) {
            Ok(()) => Ok(()),
            Err(fault) => Err(told(&mut self.refusals, fault)),
        }
    }

    fn each_movement<S: RowSink<Movement>>(&mut self, sink: &mut S) -> Result<(), StoreFault> {
        match self.inner.each_movement(sink) {
            Ok(()) => Ok(()),
            Err(fault) => Err(told(&mut self.refusals, fault)),
        }
    }

    fn each_firm_line<S: RowSink<FirmLine>>(&mut self, sink: &mut S) -> Result<(), StoreFault> {
        match self.inner.each_firm_line(sink) {
            Ok(()) => Ok(()),
            Err(fault) => Err(told(&mut self.refusals, fault)),
        }
    }

    fn each_exception<S: RowSink<Line>>(&mut self, sink: &mut S) -> Result<(), StoreFault> {
        match self.inner.each_exception(sink) {
            Ok(()) => Ok(()),
            Err(fault) => Err(told(&mut self.refusals, fault)),
        }
    }

    fn each_balance<S: RowSink<BalanceRow>>(&mut self, sink: &mut S) -> Result<(), StoreFault> {
        match self.inner.each_balance(sink) {
            Ok(()) => Ok(()),
            Err(fault) => Err(told(&mut self.refusals, fault)),
        }
    }

    fn each_act<S: RowSink<MatterAct>>(&mut self, sink: &mut S) -> Result<(), StoreFault> {
        match self.inner.each_act(sink) {
            Ok(()) => Ok(()),
            Err(fault) => Err(told(&mut self.refusals, fault)),
        }
    }

    fn each_act_of<S: RowSink<MatterAct>>(
        &mut self,
        matter: MatterNo,
        sink: &mut S,
    ) -> Result<(), StoreFault> {
        match self.inner.each_act_of(matter, sink) {
            Ok(()) => Ok(()),
            Err(fault) => Err(told(&mut self.refusals, fault)),
        }
    }

    fn each_readable_act<S: RowSink<MatterAct>>(
        &mut self,
        alloc: Global,
        sink: &mut S,
    ) -> Result<Vec<UnreadAct>, StoreFault> {
        match self.inner.each_readable_act(alloc, sink) {
            Ok(unread) => Ok(unread),
            Err(fault) => Err(told(&mut self.refusals, fault)),
        }
    }

    fn unread_dismissals(&mut self, alloc: Global) -> Result<Vec<u64>, StoreFault> {
        match self.inner.unread_dismissals(alloc) {
            Ok(unread) => Ok(unread),
            Err(fault) => Err(told(&mut self.refusals, fault)),
        }
    }

    fn each_dismissal<S: RowSink<Dismissal>>(&mut self, sink: &mut S) -> Result<(), StoreFault> {
        match self.inner.each_dismissal(sink) {
            Ok(()) => Ok(()),
            Err(fault) => Err(told(&mut self.refusals, fault)),
        }
    }

    fn write_change(
        &mut self,
        alloc: Global,
        matter: MatterNo,
        change: &Change,
    ) -> Result<(), StoreFault> {
        if let Edit::Nothing = change.edit() {
            return Ok(());
        }
        if is_refused(&mut self.writes_left) {
            return Err(told(&mut self.refusals, StoreFault::Store));
        }
        match self.inner.write_change(alloc, matter, change) {
            Ok(()) => Ok(()),
            Err(fault) => Err(told(&mut self.refusals, fault)),
        }
    }

    fn write_line(
        &mut self,
        alloc: Global,
        line: &BankLine,
        verdict: &LineVerdict,
    ) -> Result<(), StoreFault> {
        if is_refused(&mut self.writes_left) {
            return Err(told(&mut self.refusals, StoreFault::Store));
        }
        match self.inner.write_line(alloc, line, verdict) {
            Ok(()) => Ok(()),
            Err(fault) => Err(told(&mut self.refusals, fault)),
        }
    }

    fn write_firm(
        &mut self,
        alloc: Global,
        line: &Line,
        verdict: Verdict,
    ) -> Result<(), StoreFault> {
        if is_refused(&mut self.writes_left) {
            return Err(told(&mut self.refusals, StoreFault::Store));
        }
        match self.inner.write_firm(alloc, line, verdict) {
            Ok(()) => Ok(()),
            Err(fault) => Err(told(&mut self.refusals, fault)),
        }
    }

    fn write_balance(
        &mut self,
        alloc: Global,
        kind: BalanceKind,
        line: &Line,
        verdict: Verdict,
    ) -> Result<(), StoreFault> {
        if is_refused(&mut self.writes_left) {
            return Err(told(&mut self.refusals, StoreFault::Store));
        }
        match self.inner.write_balance(alloc, kind, line, verdict) {
            Ok(()) => Ok(()),
            Err(fault) => Err(told(&mut self.refusals, fault)),
        }
    }

    fn write_stray(&mut self, alloc: Global, line: &Line) -> Result<(), StoreFault> {
        if is_refused(&mut self.writes_left) {
            return Err(told(&mut self.refusals, StoreFault::Store));
        }
        match self.inner.write_stray(alloc, line) {
            Ok(()) => Ok(()),
            Err(fault) => Err(told(&mut self.refusals, fault)),
        }
    }

    fn dismiss(&mut self, alloc: Global, day: Day, line: &Line) -> Result<(), StoreFault> {
        if is_refused(&mut self.writes_left) {
            return Err(told(&mut self.refusals, StoreFault::Store));
        }
        match self.inner.dismiss(alloc, day, line) {
            Ok(()) => Ok(()),
            Err(fault) => Err(told(&mut self.refusals, fault)),
        }
    }
}

// Whether this write is to be refused, given how many are left up to that one.
fn is_refused(writes_left: &mut u64) -> bool
    ensures refused { result ≡ (writes_left.old == 1) }
    ensures counted { writes_left.new ≡ writes_left.old - 1 }
{
    let refused = *writes_left == 1;
    *writes_left = writes_left.saturating_sub(1);
    refused
}

// Counts a fault that is returned.
fn told(refusals: &mut u64, fault: StoreFault) -> StoreFault
    ensures same { result ≡ fault }
    ensures count { refusals.new ≡ counted_fault fault refusals.old }
{
    if fault == StoreFault::Store {
        *refusals = refusals.saturating_add(1);
    }
    fault
}
