// Runs the queries: their rows all at once, or passed to a sink one after the other. And why one failed.

ghost use Rattle.std.specs.Prelude.{◌≡◌, ◌↔◌, false, IfOk, IfErr, OnOk, OnErr};
ghost use Rattle.sqlite.specs.declared.error.ErrorCode.TheVariants.{OutOfMemory};
ghost use Rattle.sqlite.specs.Held.{state};
ghost use Rattle.sqlite.specs.State.{HasCleanDisk, Shown};
ghost use Rattle.sqlite.specs.Values.{bound};
ghost use Rattle.sql_tables.specs.Reading.{IsSelect, LeavesAll};
ghost use Rattle.sql_reads.specs.Causes.{IsCaused};
ghost use Rattle.sql_reads.specs.Fed.{IsFed};

use sqlite::{Alter, Connection, Error, ErrorCode, Row};
use sqlite_value::value::ValueRef;
use trust_base::StoreFault;

/// Converts an error of the connection: `Memory` if it ran out of memory, otherwise `Store`.
pub fn fault_of(error: Error) -> StoreFault
    ensures { result ≡ StoreFault.Memory ↔ error ≡ Error.SqliteFailure OutOfMemory }
{
    match error {
        Error::SqliteFailure(ErrorCode::OutOfMemory) => StoreFault::Memory,
        _ => StoreFault::Store,
    }
}

/// Runs a SELECT, and returns its rows, with one value for each column that it names, all in memory at once. It changes
/// nothing, not even what a crash may leave; if it returns `Ok`, the connection is open. Fails if memory runs out, the
/// store fails or a step limit is reached.
pub(crate) fn rows_of<S: Alter>(
    conn: &mut Connection<S>,
    sql: &str,
    params: &[ValueRef<'_>],
) -> Result<Vec<Row>, StoreFault>
    requires mode { conn.old.in_transaction ≡ false }
    requires select { IsSelect sql.now }
    ensures mode { conn.new.in_transaction ≡ false }
    ensures shown { HasCleanDisk (state S.Store conn.new)
        → IfOk result (λ rows. Shown sql.now (bound params.now) (state S.Store conn.old) (state S.Store conn.new)
        rows.items) }
    ensures cause { HasCleanDisk (state S.Store conn.new)
        → IfErr result (IsCaused sql.now (bound params.now) (state S.Store conn.old) (state S.Store conn.new)) }
    ensures left { LeavesAll result (state S.Store conn.old) (state S.Store conn.new) }
{
    // For the proof.
    let _settled = conn.is_autocommit();
    match conn.query_all(sql, params) {
        Ok(rows) => Ok(rows),
        Err(error) => Err(fault_of(error)),
    }
}

/// How a sink takes the rows of a query, one after the other.
pub trait RowTaking<K> {
    ghost use Rattle.sqlite_value.specs.Order.{Row};

    /// The sink after it took a row.
    ghost taken: { Self → K → Row → K };

    /// What is known of a row that was taken.
    ghost fits: { Self → Row → Type 0 };

    /// Takes a row. An error leaves the sink as it was.
    fn take(&self, row: &Row, sink: &mut K) -> Result<(), StoreFault>
        ensures ok { OnOk result (sink.new ≡ taken self.now sink.old row.now) }
        ensures fit { OnOk result (fits self.now row.now) }
        ensures err { OnErr result (sink.new ≡ sink.old) };
}

/// Passes the rows of a SELECT to a sink, one after the other, while the connection lends them, and returns how many
/// there are. Stops at a row that the sink refuses.
pub(crate) fn hand_rows<S: Alter, K, T: RowTaking<K>>(
    conn: &mut Connection<S>,
    sql: &str,
    params: &[ValueRef<'_>],
    taking: &T,
    sink: &mut K,
) -> Result<u64, StoreFault>
    requires mode { conn.old.in_transaction ≡ false }
    requires select { IsSelect sql.now }
    ensures mode { conn.new.in_transaction ≡ false }
    ensures handed { HasCleanDisk (state S.Store conn.new)
        → IsFed (T.taken taking.now) (T.fits taking.now) sql.now (bound params.now)
        (state S.Store conn.old) (state S.Store conn.new) result sink.old sink.new }
    ensures left { LeavesAll result (state S.Store conn.old) (state S.Store conn.new) }
{
    // For the proof.
    let _settled = conn.is_autocommit();
    let mut rows = match conn.query(sql, params) {
        Ok(rows) => rows,
        Err(error) => return Err(fault_of(error)),
    };
    'rows: for count in 0..u64::MAX {
        let row = match rows.next() {
            Ok(Some(row)) => row,
            Ok(None) => return Ok(count),
            Err(error) => return Err(fault_of(error)),
        };
        taking.take(row, sink)?;
    }
    Err(StoreFault::Store)
}
