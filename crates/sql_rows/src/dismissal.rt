// The columns of a dismissal: written, and read back. The line is one text.

ghost use Rattle.std.specs.Prelude.{◌≡◌, ◌≢◌, ◌≤◌, ◌++◌, ◌∷◌, ℕ, ℤ, pos, List, length, IsTrue, IsFalse, IfOk, IfErr};
ghost use Rattle.std.specs.Prelude.{OnOk};
ghost use Rattle.std.specs.List.{prefix_len};
ghost use Rattle.trust_values.specs.Limits.{IsBankAmount, IsDay};
ghost use Rattle.trust_values.specs.Texts.{day_text, signed_text};
ghost use Rattle.trust_base.specs.declared.line.Line.{Line as BankLine};
ghost use Rattle.firm_rows.specs.declared.dismissal.Dismissal.{Dismissal as TakenOut};
ghost use Rattle.sql_tables.specs.Given.{act_given};
ghost use Rattle.sql_rows.specs.Columns.{GivesBack, IsBankLine};
ghost use Rattle.sql_rows.specs.Dismissals.{BeginsDismissal, BeginsLineText, IsDismissal, IsField, after_tab};
ghost use Rattle.sql_rows.specs.Dismissals.{before_tab, dismissal_columns, dismissal_row, is_plain, line_column, tab};

use crate::codes::DISMISSED_DEED;
use crate::column::{bank_text_in, day_in, line_text_in};
use firm_rows::Dismissal;
use sql_tables::ActColumns;
use std::alloc::{AllocError, Global};
use trust_base::{BankAmount, Day, Line, StoreFault};

/// Returns the text of a dismissed line: its date, its reference, the bank's own reference and its amount, each with a
/// tab behind it, and its text. The only error is out of memory.
pub fn dismissal_text(alloc: Global, line: &Line) -> Result<Vec<u8>, AllocError>
    ensures text { IfOk result (λ text. text.items ≡ line_column line.now) }
    ensures form { IfOk result (λ _. IsBankLine line.now) }
{
    let mut text = Vec::new(alloc);
    line.date.write_to(&mut text)?;
    push_field(&mut text, line.reference.as_slice())?;
    push_field(&mut text, line.bank_ref.as_slice())?;
    text.push(b'\t')?;
    line.amount.write_to(&mut text)?;
    push_field(&mut text, line.text.as_slice())?;
    has_form(line);
    Ok(text)
}

// Appends a tab, and a field behind it.
fn push_field(text: &mut Vec<u8>, field: &[u8]) -> Result<(), AllocError>
    ensures ok { OnOk result (text.new.items ≡ text.old.items ++ tab ∷ field.now) }
{
    text.push(b'\t')?;
    text.extend_from_slice(field)
}

// The values of a line always have the form of their types.
fn has_form(line: &Line)
    ensures { IsBankLine line.now }
{
    let _date = line.date.get();
    let _reference = line.reference.as_slice();
    let _bank_ref = line.bank_ref.as_slice();
    let _amount = line.amount.get();
    let _text = line.text.as_slice();
}

/// Returns the columns of a dismissal on a day, given the text of its line: matter 0 and entry 0, for it is of no
/// matter, the day, code 20, `cashier`, the text, and 0.
pub fn dismissal_columns(day: Day, text: &[u8]) -> ActColumns<'_>
    ensures { act_given result ≡ dismissal_row day text.now }
{
    ActColumns {
        matter: 0,
        entry: 0,
        day: day.get() as i64,
        deed: DISMISSED_DEED,
        caller: b"cashier",
        text,
        number: 0,
    }
}

// How many bytes come before the first tab.
fn field_length(text: &[u8]) -> usize
    ensures value { result ≡ prefix_len is_plain text.now }
    ensures bound { result ≤ length text.now }
{
    text.iter().take_while(|byte| **byte != b'\t').count()
}

// Parts a text at its first tab. Returns `Store` if it has none.
fn field_in(text: &[u8]) -> Result<(&[u8], &[u8]), StoreFault>
    ensures before { IfOk result (λ r. r.0.now ≡ before_tab text.now) }
    ensures after { IfOk result (λ r. r.1.now ≡ after_tab text.now) }
    ensures joined { IfOk result (λ r. r.0.now ++ tab ∷ r.1.now ≡ text.now) }
    ensures none { IfErr result (λ e. (e ≡ StoreFault.Store) × IsField text.now) }
{
    let length = field_length(text);
    if length == text.len() {
        return Err(StoreFault::Store);
    }
    Ok((&text[..length], &text[length + 1..]))
}

// Reads the date of a line. Returns `Store` for any other text.
fn date_in(text: &[u8]) -> Result<Day, StoreFault>
    ensures ok { IfOk result (λ d. day_text d ≡ text.now) }
    ensures form { IfOk result IsDay }
    ensures none { IfErr result (λ e. (e ≡ StoreFault.Store) × ((d : ℕ) → IsDay d → day_text d ≢ text.now)) }
{
    let day = Day::read(text).ok_or(StoreFault::Store)?;
    let _in_range = day.get();
    Ok(day)
}

// Reads the amount of a line. Returns `Store` for any other text.
fn amount_in(text: &[u8]) -> Result<BankAmount, StoreFault>
    ensures ok { IfOk result (λ a. signed_text a ≡ text.now) }
    ensures form { IfOk result IsBankAmount }
    ensures none { IfErr result (λ e. (e ≡ StoreFault.Store)
        × ((a : ℤ) → IsBankAmount a → signed_text a ≢ text.now)) }
{
    let amount = BankAmount::read(text).ok_or(StoreFault::Store)?;
    let _in_range = amount.get();
    Ok(amount)
}

// Reads a line from its text, copying its texts. Returns `Store` for a text of no line, or `Memory` if memory runs out
// before the invalid field is reached. `Memory` is possible only if date, reference and amount are valid.
fn line_in(alloc: Global, text: &[u8]) -> Result<Line, StoreFault>
    ensures ok { IfOk result (λ l. line_column l ≡ text.now) }
    ensures form { IfOk result IsBankLine }
    ensures back { (l : BankLine) → IsBankLine l → line_column l ≡ text.now → GivesBack l result }
    ensures memory { IfErr result (λ e. e ≡ StoreFault.Memory → BeginsLineText text.now) }
{
    let (date, rest) = field_in(text)?;
    let (reference, rest) = field_in(rest)?;
    let (bank_ref, rest) = field_in(rest)?;
    let (amount, words) = field_in(rest)?;
    let date = date_in(date)?;
    let amount = amount_in(amount)?;
    let line = Line {
        date,
        reference: bank_text_in(alloc, reference)?,
        bank_ref: bank_text_in(alloc, bank_ref)?,
        amount,
        text: line_text_in(alloc, words)?,
    };
    has_form(&line);
    Ok(line)
}

/// Whether the columns that each dismissal has alike are as a dismissal has them: all but its day and its text.
pub fn is_dismissal(columns: ActColumns<'_>) -> bool
    ensures yes { IsTrue result → (day : ℕ) → pos day ≡ columns.entry.day
        → act_given columns.entry ≡ dismissal_row day columns.entry.text.now }
    ensures no { IsFalse result → (day : ℕ) (text : List ℕ) → dismissal_row day text ≢ act_given columns.entry }
{
    columns.matter == 0
        && columns.entry == 0
        && columns.deed == DISMISSED_DEED
        && columns.caller == b"cashier".as_slice()
        && columns.number == 0
}

/// Reads a dismissal from its columns, copying the texts of its line. Returns `Store` for columns of no dismissal, or
/// `Memory` if memory runs out before the invalid field of the line is reached. `Memory` is possible only if all
/// columns but the text are valid, and of the line the date, the reference and the amount.
pub fn dismissal_of(alloc: Global, columns: ActColumns<'_>) -> Result<Dismissal, StoreFault>
    ensures ok { IfOk result (λ d. dismissal_columns d ≡ act_given columns.entry) }
    ensures form { IfOk result IsDismissal }
    ensures back { (d : TakenOut) → IsDismissal d → dismissal_columns d ≡ act_given columns.entry → GivesBack d result }
    ensures memory { IfErr result (λ e. e ≡ StoreFault.Memory → BeginsDismissal (act_given columns.entry)) }
{
    if !is_dismissal(columns) {
        return Err(StoreFault::Store);
    }
    let day = day_in(columns.day)?;
    let line = line_in(alloc, columns.text)?;
    Ok(Dismissal { day, line })
}
