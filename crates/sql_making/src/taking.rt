// Taking a database that holds a book.

ghost use Rattle.std.specs.Prelude.{◌≡◌, ◌≢◌, ◌↔◌, ◌⊎◌, ℤ, false, [], ◌∷◌, Some, IfOk, IfErr, OnOk, OnErr, IsTrue};
ghost use Rattle.std.specs.List.Sorted.{IsPermutation};
ghost use Rattle.sqlite_value.specs.declared.value.Value.{Value};
ghost use Rattle.sqlite_value.specs.declared.value.Value.TheVariants.{Int};
ghost use Rattle.sqlite.specs.Effect.{IsDatabase};
ghost use Rattle.sqlite.specs.Held.{state};
ghost use Rattle.sqlite.specs.State.{HasCleanDisk, Survives};
ghost use Rattle.sql_making.specs.Books.{versions_in, IsBook, HasFailed};
ghost use Rattle.sql_making.specs.Bare.{IsBareBook, IsExtended, AreExtended};
ghost use Rattle.sql_making.specs.Then.{numbered_versions, HasVersions, IsLook, IsOldBook, IsMoved, AreMoved};
ghost use Rattle.sql_schema.specs.Bare.{bare_schema};
ghost use Rattle.sql_schema.specs.declared.layout.Layout.{Layout as AnyLayout};
ghost use Rattle.sql_schema.specs.Old.{old_schema, version_then};
ghost use Rattle.sql_schema.specs.Schema.{book_schema};
ghost use Rattle.sql_tables.specs.Reading.{IsKept};
ghost use Rattle.sql_tables.specs.Script.{IsSettled};

use crate::creating::VERSION;
use crate::scripts::{Script, run};
use sql_schema::{BookTables, Layout, book_tables};
use sqlite::{Alter, Connection, Error, ErrorCode, Row};
use sqlite_value::value::ValueRef;

/// Why a book cannot be made in a database, or taken from one.
#[derive(Clone, Copy, Debug, thiserror::Error)]
pub enum OpenFault {
    /// The database failed.
    #[error("the database failed")]
    Store,
    /// Out of memory.
    #[error("memory ran out")]
    Memory,
    /// The database is empty or holds something else.
    #[error("the database holds no book")]
    NotABook,
}

pub(crate) fn fault(error: Error) -> OpenFault
    ensures memory { (result ≡ OpenFault.Memory) ↔ (error ≡ Error.SqliteFailure ErrorCode.OutOfMemory) }
    ensures book { result ≢ OpenFault.NotABook }
{
    match error {
        Error::SqliteFailure(ErrorCode::OutOfMemory) => OpenFault::Memory,
        _ => OpenFault::Store,
    }
}

// Returns the version if the rows are a single one with a single number.
fn one_version(rows: &[Row]) -> Option<i64>
    ensures { (v : ℤ) → (result ≡ Some v) ↔ ((id : Value) × (rows.now ≡ (id ∷ Int v ∷ []) ∷ [])) }
{
    let [row] = rows else {
        return None;
    };
    if row.column_count() != 2 {
        return None;
    }
    match row.get_ref(1) {
        Ok(ValueRef::Int(version)) => Some(version),
        _ => None,
    }
}

// Returns the number of the row if it is the only one, has a number and holds version 1.
fn old_number(rows: &[Row]) -> Option<i64>
    ensures { (id : ℤ) → (result ≡ Some id) ↔ (rows.now ≡ (Int id ∷ Int version_then ∷ []) ∷ []) }
{
    let [row] = rows else {
        return None;
    };
    if row.column_count() != 2 {
        return None;
    }
    match (row.get_ref(0), row.get_ref(1)) {
        (Ok(ValueRef::Int(number)), Ok(ValueRef::Int(1))) => Some(number),
        _ => None,
    }
}

// Returns the rows of the version table, with their numbers.
fn version_rows<S: Alter>(conn: &mut Connection<S>) -> Result<Vec<Row>, Error>
    requires { conn.old.in_transaction ≡ false }
    ensures mode { conn.new.in_transaction ≡ false }
    ensures serves { HasCleanDisk (state S.Store conn.new) → OnOk result (IsTrue (state S.Store conn.new).is_open) }
    ensures rows { HasCleanDisk (state S.Store conn.new) → HasVersions (state S.Store conn.old).now.schema
        → IfOk result (λ rows.
        IsPermutation (numbered_versions (state S.Store conn.old).now.trees) rows.items) }
    ensures look { HasCleanDisk (state S.Store conn.new) → HasVersions (state S.Store conn.old).now.schema
        → IsLook result (state S.Store conn.old) (state S.Store conn.new) }
    ensures kept { HasCleanDisk (state S.Store conn.new) → IsTrue (state S.Store conn.new).is_open
        → IsKept (state S.Store conn.old) (state S.Store conn.new) }
    ensures crash { Survives (state S.Store conn.old) (state S.Store conn.new) (λ _. ⊥) }
{
    // Outside a transaction, what is seen is what was committed, so going back to the commit changes nothing.
    let _settled = conn.is_autocommit();
    conn.query_all("SELECT rowid, version FROM book ORDER BY rowid", &[])
}

// Whether the database holds a book of version 1. The clause requires its schema.
fn is_old_book<S: Alter>(conn: &mut Connection<S>) -> Result<bool, Error>
    requires { conn.old.in_transaction ≡ false }
    ensures mode { conn.new.in_transaction ≡ false }
    ensures serves { HasCleanDisk (state S.Store conn.new) → OnOk result (IsTrue (state S.Store conn.new).is_open) }
    ensures is { HasCleanDisk (state S.Store conn.new) → (state S.Store conn.old).now.schema ≡ old_schema
        → IfOk result (λ b. IsTrue b ↔ IsOldBook (state S.Store conn.old).now) }
    ensures look { HasCleanDisk (state S.Store conn.new) → HasVersions (state S.Store conn.old).now.schema
        → IsLook result (state S.Store conn.old) (state S.Store conn.new) }
    ensures kept { HasCleanDisk (state S.Store conn.new) → IsTrue (state S.Store conn.new).is_open
        → IsKept (state S.Store conn.old) (state S.Store conn.new) }
    ensures crash { Survives (state S.Store conn.old) (state S.Store conn.new) (λ _. ⊥) }
{
    let rows = version_rows(conn)?;
    Ok(old_number(rows.as_slice()).is_some())
}

// Whether the database holds a book of this version without the trail. The clause requires its schema.
fn is_bare_book<S: Alter>(conn: &mut Connection<S>) -> Result<bool, Error>
    requires { conn.old.in_transaction ≡ false }
    ensures mode { conn.new.in_transaction ≡ false }
    ensures serves { HasCleanDisk (state S.Store conn.new) → OnOk result (IsTrue (state S.Store conn.new).is_open) }
    ensures is { (l : AnyLayout) → HasCleanDisk (state S.Store conn.new)
        → (state S.Store conn.old).now.schema ≡ bare_schema l
        → IfOk result (λ b. IsTrue b ↔ IsBareBook l (state S.Store conn.old).now) }
    ensures look { HasCleanDisk (state S.Store conn.new) → HasVersions (state S.Store conn.old).now.schema
        → IsLook result (state S.Store conn.old) (state S.Store conn.new) }
    ensures kept { HasCleanDisk (state S.Store conn.new) → IsTrue (state S.Store conn.new).is_open
        → IsKept (state S.Store conn.old) (state S.Store conn.new) }
    ensures crash { Survives (state S.Store conn.old) (state S.Store conn.new) (λ _. ⊥) }
{
    let rows = version_rows(conn)?;
    let version = one_version(rows.as_slice());
    Ok(version == Some(VERSION))
}

/// Returns the version, if the version table holds exactly one. Its clauses require a book's schema. Fails if memory
/// runs out, the store fails or the connection has a step limit. No transaction may be open.
pub fn version_of<S: Alter>(conn: &mut Connection<S>) -> Result<Option<i64>, Error>
    requires { conn.old.in_transaction ≡ false }
    ensures mode { conn.new.in_transaction ≡ false }
    ensures serves { HasCleanDisk (state S.Store conn.new) → OnOk result (IsTrue (state S.Store conn.new).is_open) }
    ensures is { (l : Layout) → HasCleanDisk (state S.Store conn.new)
        → (state S.Store conn.old).now.schema ≡ book_schema l
        → IfOk result (λ o. (v : ℤ)
        → (o ≡ Some v) ↔ (versions_in l (state S.Store conn.old).now.trees ≡ Int v ∷ [])) }
    ensures settled { (l : Layout) → HasCleanDisk (state S.Store conn.new)
        → (state S.Store conn.old).now.schema ≡ book_schema l
        → OnOk result (IsSettled (state S.Store conn.new)
        × IsKept (state S.Store conn.old) (state S.Store conn.new)) }
    ensures told { (l : Layout) → HasCleanDisk (state S.Store conn.new)
        → (state S.Store conn.old).now.schema ≡ book_schema l
        → IfErr result (λ e. (e ≡ Error.SqliteFailure ErrorCode.OutOfMemory)
        ⊎ HasFailed (state S.Store conn.old) (state S.Store conn.new)) }
    ensures kept { HasCleanDisk (state S.Store conn.new) → IsTrue (state S.Store conn.new).is_open
        → IsKept (state S.Store conn.old) (state S.Store conn.new) }
    ensures crash { Survives (state S.Store conn.old) (state S.Store conn.new) (λ _. ⊥) }
{
    let rows = version_rows(conn)?;
    Ok(one_version(rows.as_slice()))
}

/// Returns the layout of the book that the database holds. A book of this version is taken as it is, or, if it has no
/// trail, first given one, which has no row; a book of version 1 is first moved. Either is done in one transaction: all
/// or nothing. No transaction may be open.
///
/// Returns `NotABook` if the database holds none of these. After that, or after another fault on a connection that
/// stays open, the database is unchanged. If nothing has to be moved or added, `Store` means that the store failed or
/// the connection has a step limit. A crash leaves what was there, or the book with its rows moved or its trail added.
pub fn adopt<S: Alter>(conn: &mut Connection<S>) -> Result<Layout, OpenFault>
    requires { conn.old.in_transaction ≡ false }
    ensures mode { conn.new.in_transaction ≡ false }
    ensures serves { HasCleanDisk (state S.Store conn.new) → OnOk result (IsTrue (state S.Store conn.new).is_open) }
    ensures taken { HasCleanDisk (state S.Store conn.new)
        → IfOk result (λ l. IsBook l (state S.Store conn.new).now × IsSettled (state S.Store conn.new)
        × (IsKept (state S.Store conn.old) (state S.Store conn.new)
        ⊎ (((l ≡ Layout.Moved) × IsOldBook (state S.Store conn.old).now
        × IsMoved (state S.Store conn.old).now (state S.Store conn.new).now)
        ⊎ (IsBareBook l (state S.Store conn.old).now
        × IsExtended l (state S.Store conn.old).now (state S.Store conn.new).now)))) }
    ensures listed { HasCleanDisk (state S.Store conn.new)
        → IfOk result (λ _. IsDatabase (state S.Store conn.new).now) }
    ensures refused { HasCleanDisk (state S.Store conn.new)
        → IfErr result (λ e. e ≡ OpenFault.NotABook
        → (¬ IsOldBook (state S.Store conn.old).now) × ((l : Layout) → ¬ IsBook l (state S.Store conn.old).now)
        × ((l : Layout) → ¬ IsBareBook l (state S.Store conn.old).now)) }
    ensures store { HasCleanDisk (state S.Store conn.new) → (¬ IsOldBook (state S.Store conn.old).now)
        → ((l : Layout) → ¬ IsBareBook l (state S.Store conn.old).now)
        → IfErr result (λ e. e ≡ OpenFault.Store → HasFailed (state S.Store conn.old) (state S.Store conn.new)) }
    ensures kept { HasCleanDisk (state S.Store conn.new) → IsTrue (state S.Store conn.new).is_open
        → OnErr result (IsKept (state S.Store conn.old) (state S.Store conn.new)) }
    ensures crash { Survives (state S.Store conn.old) (state S.Store conn.new)
        (λ trees. (IsOldBook (state S.Store conn.old).now × AreMoved (state S.Store conn.old).now trees)
        ⊎ ((l : Layout) × IsBareBook l (state S.Store conn.old).now
        × AreExtended l (state S.Store conn.old).now trees)) }
{
    match book_tables(conn.schema()) {
        // The query has a meaning only under such a schema.
        Some(BookTables::Now(layout)) => match version_of(conn) {
            Ok(version) if version == Some(VERSION) => Ok(layout),
            Ok(_) => Err(OpenFault::NotABook),
            Err(error) => Err(fault(error)),
        },
        Some(BookTables::Old) => match is_old_book(conn) {
            Ok(true) => match run(conn, Script::Move) {
                Ok(()) => Ok(Layout::Moved),
                Err(error) => Err(fault(error)),
            },
            Ok(false) => Err(OpenFault::NotABook),
            Err(error) => Err(fault(error)),
        },
        Some(BookTables::Bare(layout)) => match is_bare_book(conn) {
            Ok(true) => match run(conn, Script::Extend) {
                Ok(()) => Ok(layout),
                Err(error) => Err(fault(error)),
            },
            Ok(false) => Err(OpenFault::NotABook),
            Err(error) => Err(fault(error)),
        },
        None => Err(OpenFault::NotABook),
    }
}
