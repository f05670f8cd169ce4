//! SQL statements that write, alone and as a list in one transaction.

ghost use Rattle.std.specs.Prelude.{◌≡◌, ◌≢◌, false, [], OnOk, OnErr, IsTrue};
ghost use Rattle.sqlite.specs.Held.{state};
ghost use Rattle.sqlite.specs.Effect.{Database};
ghost use Rattle.sqlite.specs.State.{HasCleanDisk};
ghost use Rattle.sql_schema.specs.declared.layout.Layout.{Layout};
ghost use Rattle.sql_tables.specs.Reading.{LeavesOnly};
ghost use Rattle.sql_tables.specs.Script.{call_of, IsSettled, Written};
ghost use Rattle.sql_tables.specs.Performing.{IsPerformed};
ghost use Rattle.sql_tables.specs.Standing.{Stands};

use crate::columns::{
    ActColumns, BalanceColumns, EntryColumns, ExceptionColumns, FirmLineColumns, HeadColumns,
    LeftColumns, MatterDay, MovementColumns, SeatColumns, SeatName, TotalsColumns,
};
use sqlite::{Alter, Connection, Error, Transaction};
use sqlite_value::value::ValueRef;

/// An SQL statement that writes. Each variant says what its table holds afterwards.
#[derive(Clone, Copy)]
pub enum SqlStatement<'a> {
    /// This head, replacing the one that has its number, if any.
    Head(HeadColumns<'a>),
    /// The head of that number with this last day and these totals, if it exists.
    Totals(TotalsColumns),
    /// The head of that matter, closed on this day, if it exists.
    Closed(MatterDay),
    /// The head of that matter, purged on this day and so without its client, if it exists.
    Purged(MatterDay),
    /// This seat, after the others.
    Seat(SeatColumns<'a>),
    /// No seat of this person in this matter.
    SeatGone(SeatName<'a>),
    /// This entry, replacing the one that has its number in its matter, if any.
    Entry(EntryColumns<'a>),
    /// The entry of that number of that matter, with this left of it, if it exists.
    Left(LeftColumns),
    /// This movement, after the others.
    Movement(MovementColumns),
    /// This line of the firm's own ledger, after the others.
    FirmLine(FirmLineColumns<'a>),
    /// This exception, after the others, unless it is already among them.
    Exception(ExceptionColumns<'a>),
    /// No exception equal to this line.
    ExceptionGone(ExceptionColumns<'a>),
    /// This balance, after the others. It is an error if one of its kind and day is already stored.
    Balance(BalanceColumns),
    /// No seat of this matter.
    SeatsGone(i64),
    /// No entry of this matter.
    EntriesGone(i64),
    /// No movement of this matter.
    MovementsGone(i64),
    /// This act, after the others.
    Act(ActColumns<'a>),
    /// No act of this matter.
    ActsGone(i64),
}

// Executes an SQL text with these values, each after its kind.
macro_rules! execute {
    ($tx:ident, $text:literal, $($kind:ident $value:expr),*) => {
        $tx.execute($text, &[$(ValueRef::$kind($value)),*])
    };
}

// Runs one SQL statement.
fn perform<S: Alter>(
    tx: &mut Transaction<'_, S>,
    statement: SqlStatement<'_>,
) -> Result<usize, Error>
    ensures same_reference { tx.new.conn.ghost_name ≡ tx.old.conn.ghost_name }
    ensures ran { IsPerformed (call_of statement.entry).text (call_of statement.entry).params result
        (state S.Store tx.old.conn.now) (state S.Store tx.new.conn.now) }
{
    match statement {
        SqlStatement::Head(h) => execute![tx,
            "INSERT OR REPLACE INTO matter_v2 (no, client, opened, closed, last, entries, held, available, disputed, \
             fees, claims, pending, purged) VALUES (?1, ?2, ?3, ?4, ?5, ?6, ?7, ?8, ?9, ?10, ?11, ?12, ?13)",
            Int h.no, Text h.client, Int h.opened, Int h.closed, Int h.last, Int h.entries, Int h.held,
            Int h.available, Int h.disputed, Int h.fees, Int h.claims, Int h.pending, Int h.purged],
        SqlStatement::Totals(t) => execute![tx,
            "UPDATE matter_v2 SET last = ?2, entries = ?3, held = ?4, available = ?5, disputed = ?6, fees = ?7, \
             claims = ?8, pending = ?9 WHERE no = ?1",
            Int t.no, Int t.last, Int t.entries, Int t.held, Int t.available, Int t.disputed, Int t.fees,
            Int t.claims, Int t.pending],
        SqlStatement::Closed(c) => execute![tx,
            "UPDATE matter_v2 SET closed = ?2 WHERE no = ?1", Int c.matter, Int c.day],
        SqlStatement::Purged(p) => execute![tx,
            "UPDATE matter_v2 SET client = '', purged = ?2 WHERE no = ?1", Int p.matter, Int p.day],
        SqlStatement::Seat(s) => execute![tx,
            "INSERT INTO seat_v2 (matter, person, role) VALUES (?1, ?2, ?3)",
            Int s.matter, Text s.person, Int s.role],
        SqlStatement::SeatGone(s) => execute![tx,
            "DELETE FROM seat_v2 WHERE matter = ?1 AND person = ?2", Int s.matter, Text s.person],
        SqlStatement::Entry(e) => execute![tx,
            "INSERT OR REPLACE INTO entry_v2 (matter, no, kind, day, amount, state, fund, of_no, text_a, text_b, \
             text_c, day_done, day_undone, day_bank, bank_ref, part, left_now) VALUES (?1, ?2, ?3, ?4, ?5, ?6, ?7, \
             ?8, ?9, ?10, ?11, ?12, ?13, ?14, ?15, ?16, ?17)",
            Int e.matter, Int e.no, Int e.kind, Int e.day, Int e.amount, Int e.state, Int e.fund, Int e.of_no,
            Text e.text_a, Text e.text_b, Text e.text_c, Int e.day_done, Int e.day_undone, Int e.day_bank,
            Text e.bank_ref, Int e.part, Int e.left_now],
        SqlStatement::Left(e) => execute![tx,
            "UPDATE entry_v2 SET left_now = ?3 WHERE matter = ?1 AND no = ?2",
            Int e.matter, Int e.no, Int e.left_now],
        SqlStatement::Movement(m) => execute![tx,
            "INSERT INTO journal (matter, entry, day, amount) VALUES (?1, ?2, ?3, ?4)",
            Int m.matter, Int m.entry, Int m.day, Int m.amount],
        SqlStatement::FirmLine(f) => execute![tx,
            "INSERT INTO firm_line (day, bank_ref, amount, text) VALUES (?1, ?2, ?3, ?4)",
            Int f.day, Text f.bank_ref, Int f.amount, Text f.text],
        SqlStatement::Exception(e) => execute![tx,
            "INSERT OR IGNORE INTO exception (day, reference, bank_ref, amount, text) VALUES (?1, ?2, ?3, ?4, ?5)",
            Int e.day, Text e.reference, Text e.bank_ref, Int e.amount, Text e.text],
        SqlStatement::ExceptionGone(e) => execute![tx,
            "DELETE FROM exception WHERE day = ?1 AND reference = ?2 AND bank_ref = ?3 AND amount = ?4 AND text = ?5",
            Int e.day, Text e.reference, Text e.bank_ref, Int e.amount, Text e.text],
        SqlStatement::Balance(b) => execute![tx,
            "INSERT INTO balance (kind, day, amount) VALUES (?1, ?2, ?3)", Int b.kind, Int b.day, Int b.amount],
        SqlStatement::SeatsGone(matter) =>
            execute![tx, "DELETE FROM seat_v2 WHERE matter = ?1", Int matter],
        SqlStatement::EntriesGone(matter) =>
            execute![tx, "DELETE FROM entry_v2 WHERE matter = ?1", Int matter],
        SqlStatement::MovementsGone(matter) =>
            execute![tx, "DELETE FROM journal WHERE matter = ?1", Int matter],
        SqlStatement::Act(a) => execute![tx,
            "INSERT INTO trail (matter, entry, day, deed, caller, text, number) VALUES (?1, ?2, ?3, ?4, ?5, ?6, ?7)",
            Int a.matter, Int a.entry, Int a.day, Int a.deed, Text a.caller, Text a.text, Int a.number],
        SqlStatement::ActsGone(matter) =>
            execute![tx, "DELETE FROM trail WHERE matter = ?1", Int matter],
    }
}

/// Runs SQL statements in one transaction: all or nothing, even after a crash. No transaction may be open.
///
/// If the tables stand in a layout and `write` returns `Ok`, each SQL statement has made its change in turn, the
/// tables stand, and a crash leaves nothing else. After `Ok` the connection is open. The commit is the last call of
/// the store. After an error, a connection that is still open is unchanged; if the error closed it, a crash may leave
/// the rows before the change or after it.
pub fn write<S: Alter>(conn: &mut Connection<S>, script: &[SqlStatement<'_>]) -> Result<(), Error>
    requires { (state S.Store conn.old).in_transaction ≡ false }
    ensures outside { (state S.Store conn.new).in_transaction ≡ false }
    ensures written { (l : Layout) → HasCleanDisk (state S.Store conn.new) → Stands l (state S.Store conn.old).now
        → OnOk result (Written l script.now (state S.Store conn.old).now (state S.Store conn.new).now) }
    ensures settled { HasCleanDisk (state S.Store conn.new) → OnOk result (IsSettled (state S.Store conn.new)) }
    ensures serves { HasCleanDisk (state S.Store conn.new) → OnOk result (IsTrue (state S.Store conn.new).is_open) }
    ensures was_open { HasCleanDisk (state S.Store conn.new)
        → IsTrue (state S.Store conn.new).is_open → IsTrue (state S.Store conn.old).is_open }
    ensures none { HasCleanDisk (state S.Store conn.new) → IsTrue (state S.Store conn.new).is_open
        → OnErr result (((state S.Store conn.new).now ≡ (state S.Store conn.old).now)
        × ((state S.Store conn.new).committed ≡ (state S.Store conn.old).committed)) }
    ensures was_clean { HasCleanDisk (state S.Store conn.new) → HasCleanDisk (state S.Store conn.old) }

    // A connection that was already closed leaves nothing new.
    ensures opened { HasCleanDisk (state S.Store conn.new) → script.now ≢ []
        → LeavesOnly (state S.Store conn.old) (state S.Store conn.new)
        (λ _. IsTrue (state S.Store conn.old).is_open) }
    ensures crash { (l : Layout) → HasCleanDisk (state S.Store conn.new) → Stands l (state S.Store conn.old).now
        → LeavesOnly (state S.Store conn.old) (state S.Store conn.new)
        (λ trees. (db : Database) × Written l script.now (state S.Store conn.old).now db × (trees ≡ db.trees)) }
{
    // Outside a transaction, what is seen is what was committed, so going back to the commit changes nothing.
    let _settled = conn.is_autocommit();
    let mut tx = conn.transaction();
    'each: for statement in script {
        perform(&mut tx, *statement)?;
    }
    tx.commit()
}
