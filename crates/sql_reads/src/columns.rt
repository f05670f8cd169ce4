// The columns that a query selects, and how they are read from its row, one value or all. Returns `Store` if a value
// does not have its column's type.

ghost use Rattle.std.specs.Prelude.{◌≡◌, ◌≢◌, ◌∷◌, ℤ, ℕ, pos, List, IfOk, IfErr};
ghost use Rattle.sqlite_value.specs.declared.value.Value.TheVariants.{Int, Null, Text};
ghost use Rattle.sqlite_value.specs.Order.{column};
ghost use Rattle.sql_tables.specs.Rows as table;
ghost use Rattle.sql_tables.specs.Given.{head_given, seat_given, entry_given, movement_given, firm_line_given};
ghost use Rattle.sql_tables.specs.Given.{exception_given, balance_given, act_given};

use sql_tables::{
    ActColumns, BalanceColumns, EntryColumns, ExceptionColumns, FirmLineColumns, HeadColumns,
    MovementColumns, SeatColumns, TotalsColumns,
};
use sqlite::Row;
use sqlite_value::value::ValueRef;
use trust_base::StoreFault;

// Selects the columns of a head, in the order in which `head_in` reads them; the query goes on with the text.
macro_rules! select_head {
    ($text:literal) => {
        concat!(
            "SELECT client, opened, closed, last, entries, held, available, disputed, fees, claims, pending, purged",
            $text
        )
    };
}

pub(crate) use select_head;

// Selects the columns of an entry, in the order in which `entry_in` reads them; the query goes on with the text.
macro_rules! select_entry {
    ($text:literal) => {
        concat!(
            "SELECT no, kind, day, amount, state, fund, of_no, text_a, text_b, text_c, ",
            "day_done, day_undone, day_bank, bank_ref, part, left_now",
            $text
        )
    };
}

pub(crate) use select_entry;

/// Returns the number in a column of a row. Returns `Store` for any other value.
pub(crate) fn number_at(row: &Row, at: usize) -> Result<i64, StoreFault>
    ensures ok { IfOk result (λ n. column row.now at ≡ Int n) }
    ensures store { IfErr result (λ e. e ≡ StoreFault.Store) }
    ensures none { IfErr result (λ e. (n : ℤ) → column row.now at ≢ Int n) }
{
    match row.get_ref(at) {
        Ok(ValueRef::Int(number)) => Ok(number),
        _ => Err(StoreFault::Store),
    }
}

/// Returns the bytes of the text in a column of a row. Returns `Store` for any other value.
pub(crate) fn text_at(row: &Row, at: usize) -> Result<&[u8], StoreFault>
    ensures ok { IfOk result (λ t. column row.now at ≡ Text t.now) }
    ensures store { IfErr result (λ e. e ≡ StoreFault.Store) }
    ensures none { IfErr result (λ e. (t : List ℕ) → column row.now at ≢ Text t) }
{
    match row.get_ref(at) {
        Ok(ValueRef::Text(bytes)) => Ok(bytes),
        _ => Err(StoreFault::Store),
    }
}

/// Reads the columns of a seat of a matter, borrowing its text from the row.
pub(crate) fn seat_in(matter: i64, row: &Row) -> Result<SeatColumns<'_>, StoreFault>
    ensures ok { IfOk result (λ c. seat_given c ≡ table.seat_in (Int (pos 0) ∷ Int matter ∷ row.now)) }
    ensures store { IfErr result (λ e. e ≡ StoreFault.Store) }
    ensures none { IfErr result (λ e. (s : table.Seat) → row.now ≢ table.seat_shown s) }
{
    Ok(SeatColumns {
        matter,
        person: text_at(row, 0)?,
        role: number_at(row, 1)?,
    })
}

// Reads the columns of a head that have its last day and its totals.
fn totals_in(no: i64, row: &Row) -> Result<TotalsColumns, StoreFault>
    ensures last { IfOk result (λ t. column row.now 3 ≡ Int t.last) }
    ensures counts { IfOk result (λ t. (column row.now 4 ≡ Int t.entries) × (column row.now 10 ≡ Int t.pending)) }
    ensures money { IfOk result (λ t. (column row.now 5 ≡ Int t.held) × (column row.now 6 ≡ Int t.available)
        × (column row.now 7 ≡ Int t.disputed)) }
    ensures earned { IfOk result (λ t. (column row.now 8 ≡ Int t.fees) × (column row.now 9 ≡ Int t.claims)) }
    ensures store { IfErr result (λ e. e ≡ StoreFault.Store) }
    ensures none { IfErr result (λ e. (h : table.Head) → row.now ≢ table.head_shown h) }
{
    Ok(TotalsColumns {
        no,
        last: number_at(row, 3)?,
        entries: number_at(row, 4)?,
        held: number_at(row, 5)?,
        available: number_at(row, 6)?,
        disputed: number_at(row, 7)?,
        fees: number_at(row, 8)?,
        claims: number_at(row, 9)?,
        pending: number_at(row, 10)?,
    })
}

/// Reads the columns of the head of this number, borrowing its text from the row.
pub(crate) fn head_in(no: i64, row: &Row) -> Result<HeadColumns<'_>, StoreFault>
    ensures ok { IfOk result (λ c. head_given c ≡ table.head_in (Int no ∷ Null ∷ row.now)) }
    ensures store { IfErr result (λ e. e ≡ StoreFault.Store) }
    ensures none { IfErr result (λ e. (h : table.Head) → row.now ≢ table.head_shown h) }
{
    let totals = totals_in(no, row)?;
    Ok(HeadColumns {
        no,
        client: text_at(row, 0)?,
        opened: number_at(row, 1)?,
        closed: number_at(row, 2)?,
        last: totals.last,
        entries: totals.entries,
        held: totals.held,
        available: totals.available,
        disputed: totals.disputed,
        fees: totals.fees,
        claims: totals.claims,
        pending: totals.pending,
        purged: number_at(row, 11)?,
    })
}

/// Reads the columns of an entry of a matter, whose number comes first, borrowing its texts from the row.
pub(crate) fn entry_in(matter: i64, row: &Row) -> Result<EntryColumns<'_>, StoreFault>
    ensures ok { IfOk result (λ c. entry_given c ≡ table.entry_in (Int (pos 0) ∷ Int matter ∷ row.now)) }
    ensures store { IfErr result (λ e. e ≡ StoreFault.Store) }
    ensures none { IfErr result (λ e. (e : table.Entry) → row.now ≢ table.numbered_shown e) }
{
    Ok(EntryColumns {
        matter,
        no: number_at(row, 0)?,
        kind: number_at(row, 1)?,
        day: number_at(row, 2)?,
        amount: number_at(row, 3)?,
        state: number_at(row, 4)?,
        fund: number_at(row, 5)?,
        of_no: number_at(row, 6)?,
        text_a: text_at(row, 7)?,
        text_b: text_at(row, 8)?,
        text_c: text_at(row, 9)?,
        day_done: number_at(row, 10)?,
        day_undone: number_at(row, 11)?,
        day_bank: number_at(row, 12)?,
        bank_ref: text_at(row, 13)?,
        part: number_at(row, 14)?,
        left_now: number_at(row, 15)?,
    })
}

/// Reads the columns of a movement.
pub(crate) fn movement_in(row: &Row) -> Result<MovementColumns, StoreFault>
    ensures { IfOk result (λ c. movement_given c ≡ table.movement_in (Int (pos 0) ∷ Null ∷ row.now)) }
{
    Ok(MovementColumns {
        matter: number_at(row, 0)?,
        entry: number_at(row, 1)?,
        day: number_at(row, 2)?,
        amount: number_at(row, 3)?,
    })
}

/// Reads the columns of an act, borrowing its texts from the row.
pub(crate) fn act_in(row: &Row) -> Result<ActColumns<'_>, StoreFault>
    ensures ok { IfOk result (λ c. act_given c ≡ table.act_in (Int (pos 0) ∷ Null ∷ row.now)) }
    ensures store { IfErr result (λ e. e ≡ StoreFault.Store) }
    ensures none { IfErr result (λ e. (x : table.Act) → row.now ≢ table.act_values x) }
{
    Ok(ActColumns {
        matter: number_at(row, 0)?,
        entry: number_at(row, 1)?,
        day: number_at(row, 2)?,
        deed: number_at(row, 3)?,
        caller: text_at(row, 4)?,
        text: text_at(row, 5)?,
        number: number_at(row, 6)?,
    })
}

/// Reads the columns of a line of the firm's own, borrowing its texts from the row.
pub(crate) fn firm_line_in(row: &Row) -> Result<FirmLineColumns<'_>, StoreFault>
    ensures ok { IfOk result (λ c. firm_line_given c ≡ table.firm_line_in (Int (pos 0) ∷ Null ∷ row.now)) }
    ensures store { IfErr result (λ e. e ≡ StoreFault.Store) }
    ensures none { IfErr result (λ e. (l : table.FirmLine) → row.now ≢ table.firm_line_values l) }
{
    Ok(FirmLineColumns {
        day: number_at(row, 0)?,
        bank_ref: text_at(row, 1)?,
        amount: number_at(row, 2)?,
        text: text_at(row, 3)?,
    })
}

/// Reads the columns of an exception, borrowing its texts from the row.
pub(crate) fn exception_in(row: &Row) -> Result<ExceptionColumns<'_>, StoreFault>
    ensures { IfOk result (λ c. exception_given c ≡ table.exception_in (Int (pos 0) ∷ row.now)) }
{
    Ok(ExceptionColumns {
        day: number_at(row, 0)?,
        reference: text_at(row, 1)?,
        bank_ref: text_at(row, 2)?,
        amount: number_at(row, 3)?,
        text: text_at(row, 4)?,
    })
}

/// Reads the columns of a balance.
pub(crate) fn balance_in(row: &Row) -> Result<BalanceColumns, StoreFault>
    ensures { IfOk result (λ c. balance_given c ≡ table.balance_in (Int (pos 0) ∷ row.now)) }
{
    Ok(BalanceColumns {
        kind: number_at(row, 0)?,
        day: number_at(row, 1)?,
        amount: number_at(row, 2)?,
    })
}
