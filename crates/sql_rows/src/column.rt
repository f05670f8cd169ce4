// Reads the values of single columns.

ghost use Rattle.std.specs.Prelude.{◌≡◌, ◌≤◌, ◌↔◌, ℕ, pos, Ok, IfOk, IfErr};
ghost use Rattle.trust_values.specs.Limits.{IsDay, IsMatterNo, IsEntryNo, IsAmount, IsAmountOrZero};
ghost use Rattle.trust_base.specs.BankTexts.{IsBankText, IsLineText};
ghost use Rattle.trust_base.specs.Names.{IsLabel, IsPerson};

use std::alloc::Global;
use trust_base::{
    BankText, Cents, CentsOrZero, Day, EntryNo, Label, LineText, MatterNo, PersonId, StoreFault,
};

/// Reads a day, written year * 10000 + month * 100 + day of the month. Returns `Store` if the calendar does not have
/// it.
#[tactic(auto, unfolding(trust_values::specs::Limits::IsDay))]
pub(crate) fn day_in(column: i64) -> Result<Day, StoreFault>
    ensures ok { IfOk result (λ d. pos d ≡ column) }
    ensures form { IfOk result IsDay }
    ensures back { (d : ℕ) → IsDay d → pos d ≡ column → result ≡ Ok d }
    ensures store { IfErr result (λ e. e ≡ StoreFault.Store) }
{
    if column < 0 || column > 99_999_999 {
        return Err(StoreFault::Store);
    }
    Day::from_number(column as u32).ok_or(StoreFault::Store)
}

/// Reads the number of a matter. Returns `Store` for any other number.
pub(crate) fn matter_no_in(column: i64) -> Result<MatterNo, StoreFault>
    ensures ok { IfOk result (λ m. pos m ≡ column) }
    ensures form { IfOk result IsMatterNo }
    ensures back { (m : ℕ) → IsMatterNo m → pos m ≡ column → result ≡ Ok m }
    ensures store { IfErr result (λ e. e ≡ StoreFault.Store) }
{
    let number = number_in(column, 99_999_999)?;
    MatterNo::from_number(number as u32).ok_or(StoreFault::Store)
}

/// Reads the number of an entry. Returns `Store` for any other number.
pub(crate) fn entry_no_in(column: i64) -> Result<EntryNo, StoreFault>
    ensures ok { IfOk result (λ n. pos n ≡ column) }
    ensures form { IfOk result IsEntryNo }
    ensures back { (n : ℕ) → IsEntryNo n → pos n ≡ column → result ≡ Ok n }
    ensures store { IfErr result (λ e. e ≡ StoreFault.Store) }
{
    let number = number_in(column, 9_999)?;
    EntryNo::from_number(number as u16).ok_or(StoreFault::Store)
}

/// Reads a number from 0 to `most`. Returns `Store` for any other.
pub(crate) fn number_in(column: i64, most: u64) -> Result<u64, StoreFault>
    ensures ok { IfOk result (λ n. pos n ≡ column) }
    ensures most { IfOk result (λ n. n ≤ most) }
    ensures back { (n : ℕ) → n ≤ most → pos n ≡ column → result ≡ Ok n }
    ensures store { IfErr result (λ e. e ≡ StoreFault.Store) }
{
    if column < 0 {
        return Err(StoreFault::Store);
    }
    let number = column as u64;
    if number > most {
        return Err(StoreFault::Store);
    }
    Ok(number)
}

/// Reads an amount in cents. Returns `Store` for any other number.
pub(crate) fn amount_in(column: i64) -> Result<Cents, StoreFault>
    ensures ok { IfOk result (λ a. pos a ≡ column) }
    ensures form { IfOk result IsAmount }
    ensures back { (a : ℕ) → IsAmount a → pos a ≡ column → result ≡ Ok a }
    ensures store { IfErr result (λ e. e ≡ StoreFault.Store) }
{
    let cents = number_in(column, u64::MAX)?;
    Cents::from_number(cents).ok_or(StoreFault::Store)
}

/// Reads an amount in cents that may be 0. Returns `Store` for any other number.
pub(crate) fn part_in(column: i64) -> Result<CentsOrZero, StoreFault>
    ensures ok { IfOk result (λ a. pos a ≡ column) }
    ensures form { IfOk result IsAmountOrZero }
    ensures back { (a : ℕ) → IsAmountOrZero a → pos a ≡ column → result ≡ Ok a }
    ensures store { IfErr result (λ e. e ≡ StoreFault.Store) }
{
    let cents = number_in(column, u64::MAX)?;
    CentsOrZero::from_number(cents).ok_or(StoreFault::Store)
}

/// Reads a short text of the bank. Returns `Store` for invalid bytes, and `Memory` if memory runs out for valid ones.
pub(crate) fn bank_text_in(alloc: Global, column: &[u8]) -> Result<BankText, StoreFault>
    ensures ok { IfOk result (λ t. t ≡ column.now) }
    ensures form { IfOk result IsBankText }
    ensures err { IfErr result (λ e. e ≡ StoreFault.Memory ↔ IsBankText column.now) }
{
    let text = BankText::read(alloc, column)?;
    text.ok_or(StoreFault::Store)
}

/// Reads the text of a bank line. Returns `Store` for invalid bytes, and `Memory` if memory runs out for valid ones.
pub(crate) fn line_text_in(alloc: Global, column: &[u8]) -> Result<LineText, StoreFault>
    ensures ok { IfOk result (λ t. t ≡ column.now) }
    ensures err { IfErr result (λ e. e ≡ StoreFault.Memory ↔ IsLineText column.now) }
{
    let text = LineText::read(alloc, column)?;
    text.ok_or(StoreFault::Store)
}

/// Reads a label. Returns `Store` for invalid bytes, and `Memory` if memory runs out for valid ones.
pub(crate) fn label_in(alloc: Global, column: &[u8]) -> Result<Label, StoreFault>
    ensures ok { IfOk result (λ t. t ≡ column.now) }
    ensures form { IfOk result IsLabel }
    ensures err { IfErr result (λ e. e ≡ StoreFault.Memory ↔ IsLabel column.now) }
{
    let text = Label::read(alloc, column)?;
    text.ok_or(StoreFault::Store)
}

/// Reads a person's name. Returns `Store` for invalid bytes, and `Memory` if memory runs out for valid ones.
pub(crate) fn person_in(alloc: Global, column: &[u8]) -> Result<PersonId, StoreFault>
    ensures ok { IfOk result (λ t. t ≡ column.now) }
    ensures form { IfOk result IsPerson }
    ensures err { IfErr result (λ e. e ≡ StoreFault.Memory ↔ IsPerson column.now) }
{
    let text = PersonId::read(alloc, column)?;
    text.ok_or(StoreFault::Store)
}
