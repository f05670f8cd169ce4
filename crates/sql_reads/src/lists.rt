// The lists of the firm: the movements of the journal, the lines of the firm's own ledger, the bank lines that matched
// nothing, the balances that the bank reported, the acts and the dismissals. Each is passed to a sink one row at a
// time; the ledger is also read at once, and a single balance by its kind and day.

ghost use Rattle.std.specs.Prelude.{◌≡◌, ◌≢◌, ℤ, ◌+ℤ◌, Err, false, List, [], ◌∷◌, ◌++◌, map, IsTrue, IsFalse};
ghost use Rattle.std.specs.Prelude.{IfOk, IfErr, OnOk};
ghost use Rattle.std.specs.List.{AllByRecursion};
ghost use Rattle.sqlite_value.specs.declared.value.Value.TheVariants.{Int};
ghost use Rattle.sqlite_value.specs.Order.{Row as Shows, column};
ghost use Rattle.sqlite.specs.Held.{state};
ghost use Rattle.sqlite.specs.State.{HasCleanDisk, Shown};
ghost use Rattle.trust_base.specs.Limits.{IsBankAmount};
ghost use Rattle.firm_rows.specs.Countable.{IsActInRange};
ghost use Rattle.firm_rows.specs.FirmLines.{IsOwnBalance, balance_of, kept_balance};
ghost use Rattle.firm_rows.specs.Handing.{AreHanded};
ghost use Rattle.trust_store.specs.MatterActs.{acts_in};
ghost use Rattle.sql_schema.specs.declared.layout.Layout.{Layout};
ghost use Rattle.sql_tables.specs.Reading.{IsSelect, LeavesAll};
ghost use Rattle.sql_tables.specs.Rows.{Act as ActRow, FirmLine as LineRow, act_values, firm_line_values};
ghost use Rattle.sql_tables.specs.Standing.{Stands};
ghost use Rattle.sql_tables.specs.Texts.{act_scan_text, dismissal_scan_text};
ghost use Rattle.sql_rows.specs.Meaning.{IsWrittenAct, act_from, firm_line_from};
ghost use Rattle.sql_rows.specs.Standing.{StandsSound, firm_in};
ghost use Rattle.sql_reads.specs.Fed.{IsListOf};
ghost use Rattle.sql_reads.specs.Shown.{act_at};
ghost use Rattle.sql_reads.specs.Unread.{AreNoDismissals, AreRead, IsLikeDismissal, NamesMatter, StandsForNoDismissal};
ghost use Rattle.sql_reads.specs.Unread.{StandsForNone};

use crate::columns::{act_in, balance_in, exception_in, firm_line_in, movement_in, number_at};
use crate::query::{RowTaking, hand_rows, rows_of};
use firm_rows::{
    BalanceKind, BalanceRow, Countable, Dismissal, FirmLedger, FirmLine, MAX_OWN, MatterAct,
    Movement, RowSink,
};
use sql_rows::{
    act_of, balance_of, dismissal_of, exception_of, firm_line_of, is_dismissal, kind_column,
    movement_of,
};
use sqlite::{Alter, Connection, Row};
use sqlite_value::value::ValueRef;
use std::alloc::Global;
use std::marker::PhantomData;
use trust_base::{BankAmount, Day, Line, MatterNo, StoreFault};
use trust_store::UnreadAct;

// The lines of the firm's own, in order of acceptance.
const FIRM_LINES: &str = "SELECT day, bank_ref, amount, text FROM firm_line ORDER BY seq";

// The acts, in order of acceptance.
const ACTS: &str =
    "SELECT matter, entry, day, deed, caller, text, number FROM trail WHERE matter <> 0 ORDER BY seq";

// The acts of a matter, in order of acceptance.
const ACTS_OF: &str =
    "SELECT matter, entry, day, deed, caller, text, number FROM trail WHERE matter = ?1 ORDER BY seq";

// The dismissals, in order of acceptance: the rows of the trail that are of no matter.
const DISMISSALS: &str =
    "SELECT matter, entry, day, deed, caller, text, number FROM trail WHERE matter = 0 ORDER BY seq";

/// A kind of row that the firm has a list of.
pub trait Listed: Countable + Drop {
    ghost use Rattle.std.specs.Prelude.{List};
    ghost use Rattle.sqlite_value.specs.Order.{Row};
    ghost use Rattle.firm_rows.specs.Firm.{Firm};

    /// What a row of the tables shows.
    ghost shown: { Row → Self };

    /// The firm's list.
    ghost list: { Firm → List Self };

    /// The SELECT that returns the rows of the list. It is the same over any store `S`, which only its promise names.
    fn select<S: Alter>() -> &'static str
        ensures select { IsSelect result.now }
        ensures list { IsListOf S.Store shown result.now list };

    /// Reads a row of that SELECT. Returns `Store` if it stands for none, and `Memory` if memory runs out.
    fn read(alloc: Global, row: &Row) -> Result<Self, StoreFault>
        ensures { IfOk result (λ r. r ≡ shown row.now) };
}

impl Listed for Movement {
    ghost use Rattle.sql_reads.specs.Shown.{movement_at};

    ghost shown = { movement_at };

    ghost list = { λ firm. firm.movements };

    fn select<S: Alter>() -> &'static str {
        "SELECT matter, entry, day, amount FROM journal ORDER BY seq"
    }

    fn read(_alloc: Global, row: &Row) -> Result<Movement, StoreFault> {
        movement_of(movement_in(row)?)
    }
}

impl Listed for FirmLine {
    ghost use Rattle.sql_reads.specs.Shown.{firm_line_at};

    ghost shown = { firm_line_at };

    ghost list = { λ firm. firm.firm_lines };

    fn select<S: Alter>() -> &'static str {
        FIRM_LINES
    }

    fn read(alloc: Global, row: &Row) -> Result<FirmLine, StoreFault> {
        firm_line_of(alloc, firm_line_in(row)?)
    }
}

impl Listed for Line {
    ghost use Rattle.sql_reads.specs.Shown.{exception_at};

    ghost shown = { exception_at };

    ghost list = { λ firm. firm.exceptions };

    fn select<S: Alter>() -> &'static str {
        "SELECT day, reference, bank_ref, amount, text FROM exception ORDER BY day, reference, \
         bank_ref, amount, text, rowid"
    }

    fn read(alloc: Global, row: &Row) -> Result<Line, StoreFault> {
        exception_of(alloc, exception_in(row)?)
    }
}

impl Listed for BalanceRow {
    ghost use Rattle.sql_reads.specs.Shown.{balance_at};

    ghost shown = { balance_at };

    ghost list = { λ firm. firm.balances };

    fn select<S: Alter>() -> &'static str {
        "SELECT kind, day, amount FROM balance ORDER BY kind, day, rowid"
    }

    fn read(_alloc: Global, row: &Row) -> Result<BalanceRow, StoreFault> {
        balance_of(balance_in(row)?)
    }
}

// Reads the act of a row. Returns `Store` if the row stands for none.
fn act_shown(alloc: Global, row: &Row) -> Result<MatterAct, StoreFault>
    ensures ok { IfOk result (λ a. a ≡ act_at row.now) }
    ensures none { result ≡ Err StoreFault.Store → StandsForNone row.now }
{
    act_of(alloc, act_in(row)?)
}

impl Listed for MatterAct {
    ghost shown = { act_at };

    ghost list = { λ firm. firm.acts };

    fn select<S: Alter>() -> &'static str {
        ACTS
    }

    fn read(alloc: Global, row: &Row) -> Result<MatterAct, StoreFault> {
        act_shown(alloc, row)
    }
}

// The rows of the trail that are of no matter.
impl Listed for Dismissal {
    ghost use Rattle.sql_reads.specs.Shown.{dismissal_at};

    ghost shown = { dismissal_at };

    ghost list = { λ firm. firm.dismissals };

    fn select<S: Alter>() -> &'static str {
        DISMISSALS
    }

    fn read(alloc: Global, row: &Row) -> Result<Dismissal, StoreFault> {
        dismissal_of(alloc, act_in(row)?)
    }
}

// Takes the rows of a list, each read as what it shows.
#[derive(Drop)]
struct Stored<T> {
    alloc: Global,
    of: PhantomData<T>,
}

impl<T> Stored<T> {
    fn new(alloc: Global) -> Stored<T> {
        Stored {
            alloc,
            of: PhantomData,
        }
    }
}

impl<T: Listed, K: RowSink<T>> RowTaking<K> for Stored<T> {
    ghost taken = { λ _ sink row. K.taken sink (T.shown row) };

    ghost fits = { λ _ row. T.IsInRange (T.shown row) };

    fn take(&self, row: &Row, sink: &mut K) -> Result<(), StoreFault> {
        let shown = T::read(self.alloc, row)?;
        shown.show_range();
        sink.take(&shown)?;
        Ok(())
    }
}

/// Passes each row of one kind to the sink: movements, lines of the firm's own, acts and dismissals in order of
/// acceptance; exceptions by day, reference, the bank's reference, amount (as a number) and text; balances with
/// openings before closings, each by day. Stops with `Memory` if memory runs out, and with `Store` at a row that is
/// invalid or past the 2^64 - 1st; the sink keeps those before it. Holds one row at a time.
pub fn each_listed<S: Alter, T: Listed, K: RowSink<T>>(
    conn: &mut Connection<S>,
    alloc: Global,
    sink: &mut K,
) -> Result<(), StoreFault>
    requires { conn.old.in_transaction ≡ false }
    ensures mode { conn.new.in_transaction ≡ false }
    ensures handed { (l : Layout) → HasCleanDisk (state S.Store conn.new) → Stands l (state S.Store conn.old).now
        → AreHanded K.taken T.IsInRange (T.list (firm_in l (state S.Store conn.old).now.trees))
        result sink.old sink.new }
    ensures left { LeavesAll result (state S.Store conn.old) (state S.Store conn.new) }
{
    let stored: Stored<T> = Stored::new(alloc);
    hand_rows(conn, T::select::<S>(), &[], &stored, sink).and(Ok(()))
}

/// Passes each act of a matter to the sink, in order of acceptance. No other row of the trail is looked at. Stops with
/// `Memory` if memory runs out, and with `Store` at a row of the matter's that is invalid or past the 2^64 - 1st; the
/// sink keeps those before it. Holds one row at a time.
pub fn each_act_of<S: Alter, K: RowSink<MatterAct>>(
    conn: &mut Connection<S>,
    alloc: Global,
    matter: MatterNo,
    sink: &mut K,
) -> Result<(), StoreFault>
    requires { conn.old.in_transaction ≡ false }
    ensures mode { conn.new.in_transaction ≡ false }
    ensures handed { (l : Layout) → HasCleanDisk (state S.Store conn.new) → StandsSound l (state S.Store conn.old).now
        → AreHanded K.taken IsActInRange (acts_in matter (firm_in l (state S.Store conn.old).now.trees).acts)
        result sink.old sink.new }
    ensures left { LeavesAll result (state S.Store conn.old) (state S.Store conn.new) }
{
    let key = [ValueRef::Int(matter.get() as i64)];
    let stored: Stored<MatterAct> = Stored::new(alloc);
    hand_rows(conn, ACTS_OF, &key, &stored, sink).and(Ok(()))
}

// The matter that a row of the trail names. None if it names none that there may be.
fn matter_named(row: &Row) -> Option<MatterNo>
    ensures { NamesMatter row.now result }
{
    let number = number_at(row, 0).ok()?;
    if number < 0 || number > 99_999_999 {
        return None;
    }
    MatterNo::from_number(number as u32)
}

// Passes the act of each row to the sink, and returns the rows that stand for none.
fn hand_readable<K: RowSink<MatterAct>>(
    alloc: Global,
    rows: &[Row],
    sink: &mut K,
) -> Result<Vec<UnreadAct>, StoreFault>
    ensures read { IfOk result (λ unread. AreRead K.taken 1 rows.now unread.items sink.old sink.new) }
    ensures handed { (xs : List ActRow) → rows.now ≡ map act_values xs → AllByRecursion IsWrittenAct xs
        → AreHanded K.taken IsActInRange (map act_from xs) result sink.old sink.new }
{
    let mut unread = Vec::new(alloc);
    let mut number: u64 = 0;
    'each: for row in rows {
        number = number.saturating_add(1);
        let found = match act_shown(alloc, row) {
            Ok(act) => act,
            Err(StoreFault::Store) => {
                let matter = matter_named(row);
                unread.push(UnreadAct { number, matter })?;
                continue;
            }
            Err(StoreFault::Memory) => return Err(StoreFault::Memory),
        };
        sink.take(&found)?;
    }
    Ok(unread)
}

/// Passes each act that can be read to the sink, in order of acceptance, and returns the rows that stand for none, in
/// that order. Returns `Memory` if memory runs out; the sink keeps the acts before. Holds all rows of acts at once.
pub fn each_readable_act<S: Alter, K: RowSink<MatterAct>>(
    conn: &mut Connection<S>,
    alloc: Global,
    sink: &mut K,
) -> Result<Vec<UnreadAct>, StoreFault>
    requires { conn.old.in_transaction ≡ false }
    ensures mode { conn.new.in_transaction ≡ false }
    ensures handed { (l : Layout) → HasCleanDisk (state S.Store conn.new) → StandsSound l (state S.Store conn.old).now
        → AreHanded K.taken IsActInRange (firm_in l (state S.Store conn.old).now.trees).acts
        result sink.old sink.new }
    ensures whole { (l : Layout) → HasCleanDisk (state S.Store conn.new) → StandsSound l (state S.Store conn.old).now
        → IfOk result (λ unread. unread.items ≡ []) }
    ensures read { HasCleanDisk (state S.Store conn.new) → IfOk result (λ unread. (rows : List Shows)
        × Shown act_scan_text [] (state S.Store conn.old) (state S.Store conn.new) rows
        × AreRead K.taken 1 rows unread.items sink.old sink.new) }
    ensures left { LeavesAll result (state S.Store conn.old) (state S.Store conn.new) }
{
    let rows = rows_of(conn, ACTS, &[])?;
    hand_readable(alloc, &rows, sink)
}

// Whether a row has what each dismissal has. Only its day and its text may then be those of none.
#[tactic(auto, using(crate::proofs::NoDismissals::like_one))]
fn is_like_dismissal(row: &Row) -> bool
    ensures yes { IsTrue result → IsLikeDismissal row.now }
    ensures no { IsFalse result → StandsForNoDismissal row.now }
{
    match act_in(row) {
        Ok(columns) => is_dismissal(columns),
        Err(_) => false,
    }
}

// Returns the numbers of the rows that have not what each dismissal has. The only error is out of memory.
fn numbers_of_none(alloc: Global, rows: &[Row]) -> Result<Vec<u64>, StoreFault>
    ensures { IfOk result (λ unread. AreNoDismissals 1 rows.now unread.items) }
{
    let mut unread = Vec::new(alloc);
    let mut place: u64 = 0;
    'each: for row in rows {
        place = place.saturating_add(1);
        if is_like_dismissal(row) {
            continue;
        }
        unread.push(place)?;
    }
    Ok(unread)
}

/// Returns the rows of the trail that are of no matter and have not what each dismissal has: by their numbers among the
/// dismissals, in order of acceptance, from 1. A row that has a dismissal's columns but for its day and its text is not
/// among them. Returns `Memory` if memory runs out. Holds all rows of dismissals at once.
pub fn unread_dismissals<S: Alter>(
    conn: &mut Connection<S>,
    alloc: Global,
) -> Result<Vec<u64>, StoreFault>
    requires { conn.old.in_transaction ≡ false }
    ensures mode { conn.new.in_transaction ≡ false }
    ensures whole { (l : Layout) → HasCleanDisk (state S.Store conn.new) → StandsSound l (state S.Store conn.old).now
        → IfOk result (λ unread. unread.items ≡ []) }
    ensures read { HasCleanDisk (state S.Store conn.new) → IfOk result (λ unread. (rows : List Shows)
        × Shown dismissal_scan_text [] (state S.Store conn.old) (state S.Store conn.new) rows
        × AreNoDismissals 1 rows unread.items) }
    ensures left { LeavesAll result (state S.Store conn.old) (state S.Store conn.new) }
{
    let rows = rows_of(conn, DISMISSALS, &[])?;
    numbers_of_none(alloc, &rows)
}

// Adds a line. Returns `Store` if the lines would add up to a balance that the firm may not have, and never else.
fn add_within(ledger: &mut FirmLedger, line: FirmLine) -> Result<(), StoreFault>
    ensures added { OnOk result (ledger.new ≡ ledger.old ++ line ∷ []) }
    ensures outside { result ≡ Err StoreFault.Store → ¬ IsOwnBalance (balance_of ledger.old +ℤ line.amount) }
{
    let balance = ledger.balance() + line.amount.get();
    if balance < 0 || balance > MAX_OWN as i64 {
        return Err(StoreFault::Store);
    }
    ledger.add(line)?;
    Ok(())
}

// Reads the ledger from its rows. Returns `Store` if they add up to a balance that the firm may not have.
fn ledger_of(alloc: Global, rows: &[Row]) -> Result<FirmLedger, StoreFault>
    ensures { IfOk result (λ ledger. (xs : List LineRow) → rows.now ≡ map firm_line_values xs
        → ledger ≡ map firm_line_from xs) }
{
    let mut ledger = FirmLedger::new(alloc);
    'each: for row in rows {
        let line = firm_line_of(alloc, firm_line_in(row)?)?;
        add_within(&mut ledger, line)?;
    }
    Ok(ledger)
}

/// Returns the firm's own ledger, its lines in order of acceptance. Returns `Store` if they add up to a balance that
/// the firm may not have.
pub fn firm_ledger<S: Alter>(
    conn: &mut Connection<S>,
    alloc: Global,
) -> Result<FirmLedger, StoreFault>
    requires { conn.old.in_transaction ≡ false }
    ensures mode { conn.new.in_transaction ≡ false }
    ensures found { (l : Layout) → HasCleanDisk (state S.Store conn.new) → StandsSound l (state S.Store conn.old).now
        → IfOk result (λ ledger. ledger ≡ (firm_in l (state S.Store conn.old).now.trees).firm_lines) }
    ensures left { LeavesAll result (state S.Store conn.old) (state S.Store conn.new) }
{
    let rows = rows_of(conn, FIRM_LINES, &[])?;
    ledger_of(alloc, &rows)
}

// Reads the amount of a bank line from a column. Returns `Store` if no bank line can have it.
fn amount_at(row: &Row, at: usize) -> Result<i64, StoreFault>
    ensures ok { IfOk result (λ n. (column row.now at ≡ Int n) × IsBankAmount n) }
    ensures none { IfErr result (λ e. (n : ℤ) → IsBankAmount n → column row.now at ≢ Int n) }
{
    let cents = number_at(row, at)?;
    match BankAmount::from_number(cents) {
        Some(amount) => Ok(amount.get()),
        None => Err(StoreFault::Store),
    }
}

/// Returns the balance of a kind and day in cents, or `None` if none is stored. Returns `Store` for an amount that no
/// bank line can have.
pub fn balance_at<S: Alter>(
    conn: &mut Connection<S>,
    kind: BalanceKind,
    day: Day,
) -> Result<Option<i64>, StoreFault>
    requires { conn.old.in_transaction ≡ false }
    ensures mode { conn.new.in_transaction ≡ false }
    ensures found { (l : Layout) → HasCleanDisk (state S.Store conn.new) → StandsSound l (state S.Store conn.old).now
        → IfOk result (λ kept. kept ≡ kept_balance kind day (firm_in l (state S.Store conn.old).now.trees).balances) }
    ensures left { LeavesAll result (state S.Store conn.old) (state S.Store conn.new) }
{
    let rows = rows_of(
        conn,
        "SELECT amount FROM balance WHERE kind = ?1 AND day = ?2 ORDER BY rowid",
        &[
            ValueRef::Int(kind_column(kind)),
            ValueRef::Int(day.get() as i64),
        ],
    )?;
    match rows.first() {
        None => Ok(None),
        Some(row) => Ok(Some(amount_at(row, 0)?)),
    }
}
