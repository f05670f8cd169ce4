// All exceptions of a book, each with its reason, made of one state of the book.

ghost use Rattle.std.specs.Prelude.{◌≡◌, ◌++◌, ◌∷◌, [], IfOk, OnOk};
ghost use Rattle.json_bodies.specs.Json.{day_value, value_tokens};
ghost use Rattle.trust_store.specs.Calls.{IsRead};
ghost use Rattle.json_bodies.specs.Reasons.{after_reason, before_reason, exception_object, item_reason, reason_value, reasons_body};

use crate::reasons::{
    write_balance_reason, write_matter_reason, write_named, write_own_reason, write_sum,
};
use firm_rows::{BalanceKind, FirmLedger, RowSink};
use json::Writer;
use statement_csv::{Item, item_of_line};
use std::alloc::{AllocError, Global};
use std::marker::Model;
use trust_base::{BankText, Day, Line, LineText, StoreFault};
use trust_store::Book;

// Collects the exceptions that it receives.
//
// Contracts see it as the list of them.
#[derive(Drop)]
struct ExceptionList {
    lines: Vec<Line>,
}

impl Model for ExceptionList {
    ghost use Rattle.std.specs.Prelude.{List};
    ghost use Rattle.trust_base.specs.declared.line.Line.{Line};

    ghost Value = { List Line };

    ghost view = { λ list. list.lines.items };
}

impl ExceptionList {
    // An empty list.
    fn new(alloc: Global) -> ExceptionList
        ensures { result ≡ [] }
    {
        ExceptionList {
            lines: Vec::new(alloc),
        }
    }

    // The lines.
    fn into_lines(self) -> Vec<Line>
        ensures { result.items ≡ self }
    {
        self.lines
    }
}

impl RowSink<Line> for ExceptionList {
    ghost taken = { λ lines line. lines ++ line ∷ [] };

    fn take(&mut self, line: &Line) -> Result<(), AllocError> {
        self.lines.push(line.copied()?)?;
        Ok(())
    }
}

/// The exceptions of a book, in their order.
///
/// Returns `Store` if the book's store failed, and `Memory` if memory ran out.
pub fn exceptions<B: Book>(alloc: Global, book: &mut B) -> Result<Vec<Line>, StoreFault>
    ensures found { (B.seen book.new).clean → (B.seen book.old).stands
        → IfOk result (λ lines. lines.items ≡ (B.seen book.old).firm.exceptions) }
    ensures read { IsRead result (B.seen book.old) (B.seen book.new) }
{
    let mut list = ExceptionList::new(alloc);
    book.each_exception(&mut list)?;
    Ok(list.into_lines())
}

// Writes the reason of an item, given the firm's own ledger.
fn write_item_reason<B: Book>(
    alloc: Global,
    book: &mut B,
    out: &mut Writer,
    item: &Item,
    ledger: &FirmLedger,
    today: Day,
) -> Result<(), StoreFault>
    ensures before { out.new.before ≡ out.old.before }
    ensures told { (B.seen book.new).clean → (B.seen book.old).stands
        → ledger.now ≡ (B.seen book.old).firm.firm_lines → OnOk result (out.new.tokens
        ≡ out.old.tokens ++ value_tokens (reason_value (item_reason today (B.seen book.old).firm item.now))) }
    ensures read { ((B.seen book.old).sure → (B.seen book.old).clean)
        → IsRead result (B.seen book.old) (B.seen book.new) }
{
    match item {
        Item::Opening(line) => {
            let kept = book.balance(BalanceKind::Opening, line.date)?;
            write_balance_reason(alloc, out, kept, line, today)?;
            Ok(())
        }
        Item::Closing(line) => {
            let kept = book.balance(BalanceKind::Closing, line.date)?;
            write_balance_reason(alloc, out, kept, line, today)?;
            Ok(())
        }
        Item::OfMatter(line) => {
            let matter = book.matter_for(alloc, line.matter, Some(line.entry), None)?;
            prove!(line.entry.get() > 0);
            write_matter_reason(alloc, out, &matter, line, today)?;
            Ok(())
        }
        Item::OfFirm(line) => {
            write_own_reason(alloc, out, ledger, line, today)?;
            Ok(())
        }
        // An unreadable record is never stored as an exception.
        Item::Stray(_) | Item::Unreadable(_) => {
            write_named(out, "Stray")?;
            Ok(())
        }
    }
}

#[tactic(auto, using(crate::proofs::TextFacts::line_texts))]
fn bank_text(text: &BankText) -> &str
    ensures { result.now ≡ text.now }
{
    let Ok(text) = str::from_utf8(text.as_slice()) else {
        unreachable!()
    };
    text
}

#[tactic(auto, using(crate::proofs::TextFacts::line_texts))]
fn line_text(text: &LineText) -> &str
    ensures { result.now ≡ text.now }
{
    let Ok(text) = str::from_utf8(text.as_slice()) else {
        unreachable!()
    };
    text
}

// Writes a day as a text.
fn write_day(alloc: Global, out: &mut Writer, day: Day) -> Result<(), AllocError>
    ensures before { out.new.before ≡ out.old.before }
    ensures tokens { OnOk result (out.new.tokens ≡ out.old.tokens ++ value_tokens (day_value day)) }
{
    out.string(format!(in alloc; "{day}")?.as_str())
}

// Writes what stands before the reason of an exception.
fn write_before(alloc: Global, out: &mut Writer, line: &Line) -> Result<(), AllocError>
    ensures before { out.new.before ≡ out.old.before }
    ensures tokens { OnOk result (out.new.tokens ≡ out.old.tokens ++ before_reason line.now) }
{
    out.begin_object()?;
    out.key("amount")?;
    write_sum(alloc, out, line.amount.get() as i128)?;
    out.key("bank_ref")?;
    out.string(bank_text(&line.bank_ref))?;
    out.key("date")?;
    write_day(alloc, out, line.date)?;
    out.key("reason")?;
    Ok(())
}

// Writes what stands after the reason of an exception.
fn write_after(out: &mut Writer, line: &Line) -> Result<(), AllocError>
    ensures before { out.new.before ≡ out.old.before }
    ensures tokens { OnOk result (out.new.tokens ≡ out.old.tokens ++ after_reason line.now) }
{
    out.key("reference")?;
    out.string(bank_text(&line.reference))?;
    out.key("text")?;
    out.string(line_text(&line.text))?;
    out.end_object()?;
    Ok(())
}

// Writes an exception with its reason.
fn write_exception<B: Book>(
    alloc: Global,
    book: &mut B,
    out: &mut Writer,
    line: &Line,
    ledger: &FirmLedger,
    today: Day,
) -> Result<(), StoreFault>
    ensures before { out.new.before ≡ out.old.before }
    ensures told { (B.seen book.new).clean → (B.seen book.old).stands
        → ledger.now ≡ (B.seen book.old).firm.firm_lines → OnOk result (out.new.tokens
        ≡ out.old.tokens ++ value_tokens (exception_object today (B.seen book.old).firm line.now)) }
    ensures read { ((B.seen book.old).sure → (B.seen book.old).clean)
        → IsRead result (B.seen book.old) (B.seen book.new) }
{
    let item = item_of_line(line.copied()?, 1);
    write_before(alloc, out, line)?;
    write_item_reason(alloc, book, out, &item, ledger, today)?;
    write_after(out, line)?;
    Ok(())
}

/// The body that lists the exceptions of a book in their order, each with what an import on a business day would do
/// with it: a name, and at most one number or word more.
///
/// Returns `Store` if the book's store failed, and `Memory` if memory ran out.
pub fn reasons_body<B: Book>(alloc: Global, book: &mut B, today: Day) -> Result<Vec<u8>, StoreFault>
    ensures told { (B.seen book.new).clean → (B.seen book.old).stands
        → IfOk result (λ text. text.items ≡ reasons_body today (B.seen book.old).firm) }
    ensures read { IsRead result (B.seen book.old) (B.seen book.new) }
{
    let lines = exceptions(alloc, book)?;
    let ledger = book.firm(alloc)?;
    let mut out = Writer::new(Vec::with_capacity(alloc, 256)?);
    out.begin_object()?;
    out.key("exceptions")?;
    out.begin_array()?;
    'each: for line in &lines {
        write_exception(alloc, book, &mut out, line, &ledger, today)?;
    }
    out.end_array()?;
    out.end_object()?;
    Ok(out.into_inner())
}
