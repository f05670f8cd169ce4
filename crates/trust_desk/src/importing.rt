//! Imports statements of the bank, item by item.

ghost use Rattle.std.specs.Prelude.{◌≡◌, ◌-◌, ◌^◌, ℕ, IfOk, IfSome, IsOk, OnErr, None, Some, false, option_map};
ghost use Rattle.std.specs.Io.KnownBytes.{Keeps};
ghost use Rattle.trust_base.specs.declared.refusal.Field.TheVariants as field;
ghost use Rattle.trust_base.specs.declared.refusal.Refusal.TheVariants as refusal;
ghost use Rattle.statement_csv.specs.Items.{items};
ghost use Rattle.statement_csv.specs.Limits.{IsTooLong, IsWithin};
ghost use Rattle.statement_csv.specs.Reading.{LacksHeader};
ghost use Rattle.firm_rows.specs.Firm.{Firm};
ghost use Rattle.firm_rows.specs.FirmLines.{firm_verdict};
ghost use Rattle.trust_store.specs.Books.{counted};
ghost use Rattle.trust_desk.specs.Calls.{Counts, KeepsBook};
ghost use Rattle.trust_desk.specs.Crashes.{IsAfterFirst, MayLeave, MayLeaveChange, is_stopped};
ghost use Rattle.trust_desk.specs.Imports.{AreBelow, Imports, IsStop, KeepsAllUnnamed, LeavesOwnItem, counted_stop, stop_at};
ghost use Rattle.trust_desk.specs.Applied.{IsImported, IsItemApplied};
ghost use Rattle.trust_desk.specs.Beside.{IsAppliedBeside, lines_after};
ghost use Rattle.trust_desk.specs.ItemStep.{KeepsUnnamed, after_item, balance_item, count_item, counted_by, counted_of, counted_verdict};

use crate::desk::Desk;
use crate::watching::{At, ItemWatch, NoWatch, NotApplied};
use firm_rows::{
    BalanceKind, FirmLedger, FirmLine, Owner, Verdict, decide_balance, decide_firm_line,
};
use json_bodies::ImportReply;
use statement_csv::{Item, Lines, ReadFault, Whole};
use std::alloc::Global;
use std::io::Read;
use std::marker::Brand;
use trust_base::{Day, Field, Line, Refusal, StoreFault};
use trust_matter::{BankLine, LineVerdict, Matter, decide_line};
use trust_store::Book;

/// How an item of a statement is counted.
#[derive(Clone, Copy, PartialEq, Eq, Debug)]
pub enum Counted {
    /// A line that cleared its entry or was added to the firm's ledger, or a balance that is now on file.
    Applied,
    /// A repeat: a line that came again.
    Repeated,
    /// A line that matches nothing and is now an exception.
    Exception,
    /// A record that is not a valid line.
    Unreadable,
}

/// How an import of a statement ended.
#[derive(Drop)]
pub enum ImportStop {
    /// Every item was handled.
    Done,
    /// The header was another one (`BadField`), the store failed (`Store`), or memory ran out (`Memory`).
    Refused(Refusal),
    /// The statement has more than 4,194,304 bytes.
    Limit,
    /// A read failed.
    ReadFault,
}

/// The counts of the first items of a statement, and how the import ended. The items after them were not begun.
#[derive(Drop)]
pub struct ImportEnd {
    pub reply: ImportReply,
    pub end: ImportStop,
}

/// How a line of the firm's own, or a balance, with this verdict is counted.
pub(crate) fn counted_by(verdict: Verdict) -> Counted
    ensures { result ≡ counted_by verdict }
{
    match verdict {
        Verdict::Applied => Counted::Applied,
        Verdict::Repeat => Counted::Repeated,
        Verdict::Unmatched => Counted::Exception,
    }
}

// Reports a line that was applied. A balance is not reported.
fn tell_of_applied<V: ItemWatch>(at: &At<'_, V>, item: &Item, counted: Counted) {
    if counted != Counted::Applied {
        return;
    }
    match item {
        Item::OfMatter(line) => {
            let owner = Owner::Matter {
                matter: line.matter,
                entry: line.entry,
            };
            at.watch.applied(at.number, owner, &line.line)
        }
        Item::OfFirm(line) => at.watch.applied(at.number, Owner::Firm, line),
        Item::Opening(_) | Item::Closing(_) | Item::Stray(_) | Item::Unreadable(_) => (),
    }
}

/// How a line that names an entry is counted, with this verdict. Reports it if it is an exception.
pub(crate) fn counted_line<V: ItemWatch>(
    at: &At<'_, V>,
    line: &BankLine,
    matter: &Matter,
    verdict: &LineVerdict,
) -> Counted
    ensures { result ≡ counted_verdict verdict.now }
{
    match verdict {
        LineVerdict::Applied(_) => Counted::Applied,
        LineVerdict::Repeat => Counted::Repeated,
        LineVerdict::Unmatched(reason) => {
            at.tell(&NotApplied::OfMatter {
                line,
                matter,
                reason: *reason,
            });
            Counted::Exception
        }
    }
}

// The firm's own ledger after a line with this verdict. None if memory ran out.
fn ledger_with(mut ledger: FirmLedger, line: &Line, verdict: Verdict) -> Option<FirmLedger>
    requires { (today : ℕ) × (verdict ≡ firm_verdict ledger line.now today) }
    ensures { IfSome result (λ lines. lines ≡ lines_after line.now verdict ledger) }
{
    match verdict {
        Verdict::Applied => match FirmLine::of(line) {
            Ok(added) => match ledger.add(added) {
                Ok(()) => Some(ledger),
                Err(_) => None,
            },
            Err(_) => None,
        },
        Verdict::Repeat | Verdict::Unmatched => Some(ledger),
    }
}

/// Reports a line of the firm's own, if it is an exception.
pub(crate) fn tell_of_firm_line<V: ItemWatch>(
    at: &At<'_, V>,
    line: &Line,
    ledger: &FirmLedger,
    verdict: Verdict,
) {
    if let Verdict::Unmatched = verdict {
        at.tell(&NotApplied::OfFirm { line, ledger });
    }
}

/// Reports a balance, if it is an exception.
pub(crate) fn tell_of_balance<V: ItemWatch>(
    at: &At<'_, V>,
    kind: BalanceKind,
    line: &Line,
    kept: Option<i64>,
    verdict: Verdict,
) {
    if let Verdict::Unmatched = verdict {
        at.tell(&NotApplied::OfBalance { kind, line, kept });
    }
}

// Applies one item of a statement on a business day. A line that names an entry clears it, one of the firm's own is
// added to its ledger, and a balance is put on file; or else the item is a repeat or becomes an exception. A stray
// line always becomes an exception. A record that is not a line changes nothing. On an error nothing has changed.
// Exceptions and records that are not lines are reported to the watcher afterwards.
//
// `own` is the firm's own ledger, if an earlier item of the import read it.
fn apply_item<B: Book, V: ItemWatch>(
    alloc: Global,
    book: &mut B,
    own: &mut Option<FirmLedger>,
    item: &Item,
    day: Day,
    at: &At<'_, V>,
) -> Result<Counted, StoreFault>
    ensures { IsAppliedBeside day item.now result
        (B.seen book.old) own.old (B.seen book.new) own.new }
{
    match item {
        Item::OfMatter(line) => {
            let matter = book.matter_for(alloc, line.matter, Some(line.entry), None)?;
            // Entries are numbered from 1.
            prove!(line.entry.get() > 0);
            let verdict = decide_line(&matter, line, day)?;
            book.write_line(alloc, line, &verdict)?;
            Ok(counted_line(at, line, &matter, &verdict))
        }
        Item::OfFirm(line) => apply_firm_line(alloc, book, own, line, day, at),
        Item::Opening(line) => apply_balance(alloc, book, BalanceKind::Opening, line, day, at),
        Item::Closing(line) => apply_balance(alloc, book, BalanceKind::Closing, line, day, at),
        Item::Stray(line) => {
            book.write_stray(alloc, line)?;
            at.tell(&NotApplied::Stray { line });
            Ok(Counted::Exception)
        }
        Item::Unreadable(_) => {
            at.tell(&NotApplied::Unreadable);
            Ok(Counted::Unreadable)
        }
    }
}

// Applies a line of the firm's own. Its ledger is read unless an earlier item read it.
fn apply_firm_line<B: Book, V: ItemWatch>(
    alloc: Global,
    book: &mut B,
    own: &mut Option<FirmLedger>,
    line: &Line,
    day: Day,
    at: &At<'_, V>,
) -> Result<Counted, StoreFault>
    ensures { IsAppliedBeside day (Item.OfFirm line.now)
        result (B.seen book.old) own.old (B.seen book.new) own.new }
{
    match own.take() {
        Some(ledger) => add_firm_line(alloc, book, own, ledger, line, day, at),
        None => {
            let ledger = book.firm(alloc)?;
            add_firm_line(alloc, book, own, ledger, line, day, at)
        }
    }
}

// The same, by the firm's ledger, which then is that of `own`.
fn add_firm_line<B: Book, V: ItemWatch>(
    alloc: Global,
    book: &mut B,
    own: &mut Option<FirmLedger>,
    ledger: FirmLedger,
    line: &Line,
    day: Day,
    at: &At<'_, V>,
) -> Result<Counted, StoreFault>
    requires { own.old ≡ None }
    ensures { IsAppliedBeside day (Item.OfFirm line.now)
        result (B.seen book.old) (Some ledger) (B.seen book.new) own.new }
{
    let verdict = decide_firm_line(&ledger, line, day);
    book.write_firm(alloc, line, verdict)?;
    tell_of_firm_line(at, line, &ledger, verdict);
    *own = ledger_with(ledger, line, verdict);
    Ok(counted_by(verdict))
}

// Applies an opening or a closing balance.
fn apply_balance<B: Book, V: ItemWatch>(
    alloc: Global,
    book: &mut B,
    kind: BalanceKind,
    line: &Line,
    day: Day,
    at: &At<'_, V>,
) -> Result<Counted, StoreFault>
    ensures { IsItemApplied day
        (balance_item kind line.now) result (B.seen book.old) (B.seen book.new) }
{
    let kept = book.balance(kind, line.date)?;
    let verdict = decide_balance(kept, line, day);
    book.write_balance(alloc, kind, line, verdict)?;
    tell_of_balance(at, kind, line, kept, verdict);
    Ok(counted_by(verdict))
}

// How an import ends for a fault of the reading.
fn stop_at(fault: ReadFault) -> ImportStop
    ensures { result ≡ stop_at fault }
{
    match fault {
        ReadFault::BadHeader => ImportStop::Refused(Refusal::BadField(Field::Header)),
        ReadFault::Limit => ImportStop::Limit,
        ReadFault::Reader => ImportStop::ReadFault,
        ReadFault::Memory => ImportStop::Refused(Refusal::Memory),
    }
}

// Counts an item. A closing balance that is on file now has its day told.
fn count(reply: &mut ImportReply, item: &Item, counted: Counted)
    requires room { AreBelow (2 ^ 64 - 1) reply.old }
    ensures { reply.new ≡ count_item item.now counted reply.old }
{
    let closing = match item {
        Item::Closing(line) => Some(line.date),
        _ => None,
    };
    match counted {
        Counted::Applied => {
            reply.applied += 1;
            reply.statement = closing.or(reply.statement);
        }
        Counted::Repeated => {
            reply.repeated += 1;
            reply.statement = closing.or(reply.statement);
        }
        Counted::Exception => reply.exceptions += 1,
        Counted::Unreadable => reply.unreadable += 1,
    }
}

// Applies the items of a statement, with a type `K` by which a proof names the statement's bytes.
fn import_whole<B: Book, R: Read + Drop, V: ItemWatch, K: Whole>(
    alloc: Global,
    book: &mut B,
    reader: R,
    day: Day,
    watch: &V,
) -> ImportEnd
    requires whole { Keeps K.bytes (R.remaining reader) }
    ensures { IsImported day
        (option_map items (R.remaining reader)) K.bytes result (B.seen book.old) (B.seen book.new) }
{
    let mut lines = Lines::<R, K>::of_whole(alloc, reader);
    let mut reply = ImportReply {
        applied: 0,
        repeated: 0,
        exceptions: 0,
        unreadable: 0,
        statement: None,
    };
    let mut own = None;
    // No statement has this many items. The bound keeps the counts from overflowing.
    for turn in 0..u64::MAX {
        let number = turn.saturating_add(1);
        let at = At { number, watch };
        let item = match lines.next() {
            Ok(Some(item)) => item,
            Ok(None) => {
                let end = ImportStop::Done;
                return ImportEnd { reply, end };
            }
            Err(fault) => {
                let end = stop_at(fault);
                return ImportEnd { reply, end };
            }
        };
        let counted = match apply_item(alloc, book, &mut own, &item, day, &at) {
            Ok(counted) => counted,
            Err(fault) => {
                let end = ImportStop::Refused(fault.into());
                return ImportEnd { reply, end };
            }
        };
        count(&mut reply, &item, counted);
        tell_of_applied(&at, &item, counted);
    }
    let end = ImportStop::Refused(Refusal::Memory);
    ImportEnd { reply, end }
}

impl<B: Book> Desk<B> {
    /// Applies one item of a statement on a business day, as an import does. A line that names an entry clears it or
    /// takes it back, one of the firm's own is added to its ledger, and a balance is put on file; or else the item is a
    /// repeat or becomes an exception. A stray line always becomes an exception. A record that is not a line changes
    /// nothing. On an error nothing has changed.
    pub fn apply_line(
        &mut self,
        alloc: Global,
        item: &Item,
        day: Day,
    ) -> Result<Counted, StoreFault>
        ensures step { (B.seen self.new).clean → (B.seen self.old).stands
            → IfOk result (λ c. (c ≡ counted_of day (B.seen self.old).firm item.now)
            × ((B.seen self.new).firm ≡ after_item day (B.seen self.old).firm item.now)) }
        ensures err { (B.seen self.new).clean → (B.seen self.old).stands
            → OnErr result ((B.seen self.new).firm ≡ (B.seen self.old).firm) }

        // Each matter is affected only by a line that names it, and then as by its own machine.
        ensures own { (B.seen self.new).clean → (B.seen self.old).stands
            → IfOk result (λ _. LeavesOwnItem day (B.seen self.old).firm item.now (B.seen self.new).firm) }
        ensures others { (B.seen self.new).clean → (B.seen self.old).stands
            → KeepsUnnamed (B.seen self.old).firm item.now (B.seen self.new).firm }

        // The result is `Store` only if a call of the book returned `Store`.
        ensures kept { KeepsBook (Counts (counted result)) (B.seen self.old) (B.seen self.new) }

        // A crash may leave what it might have left before, or the rows with the item's change. If the result is `Ok`
        // and the book was settled, it can leave only the latter.
        ensures crash { (B.seen self.new).sure → (B.seen self.old).stands
            → MayLeaveChange (IsOk result) (B.seen self.old).firm (after_item day (B.seen self.old).firm item.now)
            (B.seen self.old) (B.seen self.new) }
    {
        let at = At {
            number: 1,
            watch: &NoWatch,
        };
        let mut own = None;
        apply_item(alloc, &mut self.book, &mut own, item, day, &at)
    }

    /// Applies the items of a statement on a business day, each before the next is read, until the statement ends or a
    /// fault occurs. The items so far then stay applied, and no other is begun. `watch` is told of each line that was
    /// applied, of each item that is an exception or not a line, and of the end; the contract does not say what it is
    /// told.
    ///
    /// The contract does not say that `ReadFault` and `Memory` occur only if a read failed or memory ran out, because
    /// `csv` promises nothing about its reader after an error.
    pub fn import<R: Read + Drop, V: ItemWatch>(
        &mut self,
        alloc: Global,
        reader: R,
        day: Day,
        watch: &V,
    ) -> ImportEnd

        // Some first items are applied and counted, the firm is sound after each, and the end is for a reason. A crash
        // may leave what it might have left before, or the rows after some first items.
        ensures imported { IsImported day (option_map items (R.remaining reader)) (R.remaining reader) result
            (B.seen self.old) (B.seen self.new) }

        // Each matter is affected only by the items that name it.
        ensures others { (B.seen self.new).clean → (B.seen self.old).stands
            → KeepsAllUnnamed (option_map items (R.remaining reader)) (B.seen self.old).firm (B.seen self.new).firm }
    {
        let ended = import_whole::<B, R, V, Brand>(alloc, &mut self.book, reader, day, watch);
        let counts = &ended.reply;
        let accepted = counts.applied.saturating_add(counts.repeated);
        let others = counts.exceptions.saturating_add(counts.unreadable);
        watch.ended(accepted.saturating_add(others), &ended.end);
        ended
    }
}
