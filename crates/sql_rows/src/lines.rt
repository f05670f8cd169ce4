// The columns of what the bank reported and of what came of it: an opening or closing balance, a line of the firm's own
// ledger, a line that matched nothing, and a movement of the journal.

ghost use Rattle.std.specs.Prelude.{◌≡◌, ℕ, pos, Ok, IfOk, IfErr};
ghost use Rattle.trust_values.specs.Limits.{IsDay, IsBankAmount};
ghost use Rattle.trust_base.specs.declared.line.Line.{Line as BankLine};
ghost use Rattle.firm_rows.specs.declared.ledger.FirmLine.{FirmLine as OwnLine};
ghost use Rattle.firm_rows.specs.declared.ledger.BalanceRow.{BalanceRow as Balance};
ghost use Rattle.firm_rows.specs.declared.movement.Owner.{Owner as MovedBy};
ghost use Rattle.firm_rows.specs.declared.movement.Movement.{Movement as Moved};
ghost use Rattle.sql_tables.specs.Given.{balance_given, exception_given, firm_line_given, movement_given};
ghost use Rattle.sql_rows.specs.Columns.{kind_column, balance_columns, exception_columns, firm_line_columns};
ghost use Rattle.sql_rows.specs.Columns.{matter_column, entry_column, movement_columns, IsOwner};
ghost use Rattle.sql_rows.specs.Columns.{IsBankLine, IsFirmLine, BeginsLine, GivesBack};

use crate::codes::{CLOSING_BALANCE, OPENING_BALANCE};
use crate::column::{bank_text_in, day_in, entry_no_in, line_text_in, matter_no_in};
use firm_rows::{BalanceKind, BalanceRow, FirmLine, Movement, Owner};
use sql_tables::{BalanceColumns, ExceptionColumns, FirmLineColumns, MovementColumns};
use std::alloc::Global;
use trust_base::{BankAmount, Day, Line, StoreFault};

// Reads the day and the amount of a line or balance.
fn dated_amount(day: i64, amount: i64) -> Result<(Day, BankAmount), StoreFault>
    ensures ok { IfOk result (λ r. (pos r.0 ≡ day) × (r.1 ≡ amount)) }
    ensures form { IfOk result (λ r. IsDay r.0 × IsBankAmount r.1) }
    ensures back { (d : ℕ) → IsDay d → IsBankAmount amount → pos d ≡ day → result ≡ Ok (d, amount) }
    ensures store { IfErr result (λ e. e ≡ StoreFault.Store) }
{
    let day = day_in(day)?;
    let amount = BankAmount::from_number(amount).ok_or(StoreFault::Store)?;
    Ok((day, amount))
}

/// Returns the code of a kind of balance: 1 for opening and 2 for closing.
pub fn kind_column(kind: BalanceKind) -> i64
    ensures { result ≡ kind_column kind }
{
    match kind {
        BalanceKind::Opening => OPENING_BALANCE,
        BalanceKind::Closing => CLOSING_BALANCE,
    }
}

/// Returns the columns of a balance: its kind (1 for opening, 2 for closing), its day and its amount in cents.
pub fn balance_columns(balance: BalanceRow) -> BalanceColumns
    ensures { balance_given result ≡ balance_columns balance }
{
    BalanceColumns {
        kind: kind_column(balance.kind),
        day: balance.day.get() as i64,
        amount: balance.amount.get(),
    }
}

/// Reads a balance from its columns. Returns `Store` for columns of no balance.
pub fn balance_of(columns: BalanceColumns) -> Result<BalanceRow, StoreFault>
    ensures ok { IfOk result (λ b. balance_columns b ≡ balance_given columns) }
    ensures back { (b : Balance) → IsDay b.day → IsBankAmount b.amount → balance_columns b ≡ balance_given columns
        → result ≡ Ok b }
    ensures store { IfErr result (λ e. e ≡ StoreFault.Store) }
{
    let kind = match columns.kind {
        OPENING_BALANCE => BalanceKind::Opening,
        CLOSING_BALANCE => BalanceKind::Closing,
        _ => return Err(StoreFault::Store),
    };
    let (day, amount) = dated_amount(columns.day, columns.amount)?;
    Ok(BalanceRow { kind, day, amount })
}

/// Reads a line of the firm from its columns, copying the texts. Returns `Store` for columns of no line, or `Memory`
/// if memory runs out before the invalid column is reached. `Memory` is possible only if day, amount and the bank's
/// reference are valid.
pub fn firm_line_of(alloc: Global, columns: FirmLineColumns<'_>) -> Result<FirmLine, StoreFault>
    ensures ok { IfOk result (λ l. firm_line_columns l ≡ firm_line_given columns.entry) }
    ensures back { (l : OwnLine) → IsFirmLine l → firm_line_columns l ≡ firm_line_given columns.entry
        → GivesBack l result }
    ensures memory { IfErr result (λ e. e ≡ StoreFault.Memory
        → BeginsLine columns.entry.day columns.entry.amount columns.entry.bank_ref.now) }
{
    let (date, amount) = dated_amount(columns.day, columns.amount)?;
    Ok(FirmLine {
        date,
        bank_ref: bank_text_in(alloc, columns.bank_ref)?,
        amount,
        text: line_text_in(alloc, columns.text)?,
    })
}

/// Returns the columns of a bank line that matched nothing: its date, its reference, the bank's own reference, its
/// amount in cents and its text.
pub fn exception_columns(line: &Line) -> ExceptionColumns<'_>
    ensures { exception_given result ≡ exception_columns line.now }
{
    ExceptionColumns {
        day: line.date.get() as i64,
        reference: line.reference.as_slice(),
        bank_ref: line.bank_ref.as_slice(),
        amount: line.amount.get(),
        text: line.text.as_slice(),
    }
}

/// Reads a bank line from its columns, copying the texts. Returns `Store` for columns of no line, or `Memory` if
/// memory runs out before the invalid column is reached. `Memory` is possible only if day, amount and reference are
/// valid.
pub fn exception_of(alloc: Global, columns: ExceptionColumns<'_>) -> Result<Line, StoreFault>
    ensures ok { IfOk result (λ l. exception_columns l ≡ exception_given columns.entry) }
    ensures back { (l : BankLine) → IsBankLine l → exception_columns l ≡ exception_given columns.entry
        → GivesBack l result }
    ensures memory { IfErr result (λ e. e ≡ StoreFault.Memory
        → BeginsLine columns.entry.day columns.entry.amount columns.entry.reference.now) }
{
    let (date, amount) = dated_amount(columns.day, columns.amount)?;
    Ok(Line {
        date,
        reference: bank_text_in(alloc, columns.reference)?,
        bank_ref: bank_text_in(alloc, columns.bank_ref)?,
        amount,
        text: line_text_in(alloc, columns.text)?,
    })
}

// The number of the matter, or 0 for the firm's own.
fn matter_column(owner: Owner) -> i64
    ensures { result ≡ matter_column owner }
{
    match owner {
        Owner::Matter { matter, .. } => matter.get() as i64,
        Owner::Firm => 0,
    }
}

// The number of the entry, or 0 for the firm's own.
fn entry_column(owner: Owner) -> i64
    ensures { result ≡ entry_column owner }
{
    match owner {
        Owner::Matter { entry, .. } => entry.get() as i64,
        Owner::Firm => 0,
    }
}

/// Returns the columns of a movement: its matter and its entry (both 0 for the firm's own), its day by the books and
/// its amount in cents.
pub fn movement_columns(movement: Movement) -> MovementColumns
    ensures { movement_given result ≡ movement_columns movement }
{
    MovementColumns {
        matter: matter_column(movement.owner),
        entry: entry_column(movement.owner),
        day: movement.day.get() as i64,
        amount: movement.amount,
    }
}

// Reads whose the money was.
fn owner_in(matter: i64, entry: i64) -> Result<Owner, StoreFault>
    ensures matter { IfOk result (λ o. matter_column o ≡ matter) }
    ensures entry { IfOk result (λ o. entry_column o ≡ entry) }
    ensures back { (o : MovedBy) → IsOwner o → matter_column o ≡ matter → entry_column o ≡ entry
        → result ≡ Ok o }
    ensures store { IfErr result (λ e. e ≡ StoreFault.Store) }
{
    if matter == 0 && entry == 0 {
        return Ok(Owner::Firm);
    }
    let matter = matter_no_in(matter)?;
    let entry = entry_no_in(entry)?;
    Ok(Owner::Matter { matter, entry })
}

/// Reads a movement from its columns. Returns `Store` for columns of no movement.
pub fn movement_of(columns: MovementColumns) -> Result<Movement, StoreFault>
    ensures ok { IfOk result (λ v. movement_columns v ≡ movement_given columns) }
    ensures back { (v : Moved) → IsOwner v.owner → IsDay v.day → movement_columns v ≡ movement_given columns
        → result ≡ Ok v }
    ensures store { IfErr result (λ e. e ≡ StoreFault.Store) }
{
    let owner = owner_in(columns.matter, columns.entry)?;
    let day = day_in(columns.day)?;
    Ok(Movement {
        owner,
        day,
        amount: columns.amount,
    })
}
