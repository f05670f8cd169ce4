//! Making a book's tables.

ghost use Rattle.std.specs.Prelude.{◌≡◌, ◌≢◌, false, Err, IfErr, OnOk, OnErr, IsTrue};
ghost use Rattle.sqlite.specs.Held.{state};
ghost use Rattle.sqlite.specs.State.{HasCleanDisk, Survives};
ghost use Rattle.sql_making.specs.Books.{no_schema, IsBook, IsNewBook, AreNewBook};
ghost use Rattle.sql_schema.specs.declared.layout.Layout.TheVariants.{Made};
ghost use Rattle.sql_tables.specs.Reading.{IsKept};
ghost use Rattle.sql_tables.specs.Script.{IsSettled};
ghost use Rattle.sql_tables.specs.Standing.{Stands};

use crate::scripts::{Script, run};
use crate::taking::{OpenFault, fault};
use sqlite::{Alter, Connection};
use sqlite_schema::schema::Schema;

fn is_no_schema(schema: &Schema) -> bool
    ensures sound { IsTrue result → schema.now ≡ no_schema }
    ensures complete { schema.now ≡ no_schema → IsTrue result }
{
    schema.tables.is_empty() && schema.indexes.is_empty() && schema.views.is_empty()
}

/// Creates the tables of this version in an empty database, in one transaction: all or none, even after a crash. No
/// transaction may be open.
///
/// Returns `NotABook` exactly if the database is not empty, and leaves it unchanged: beside another table, index or
/// view the new tables would lie elsewhere. After another fault, a connection that stays open sees what it saw
/// before.
pub fn make<S: Alter>(conn: &mut Connection<S>) -> Result<(), OpenFault>
    requires { conn.old.in_transaction ≡ false }
    ensures mode { conn.new.in_transaction ≡ false }
    ensures serves { HasCleanDisk (state S.Store conn.new) → OnOk result (IsTrue (state S.Store conn.new).is_open) }
    ensures made { HasCleanDisk (state S.Store conn.new) → OnOk result (IsNewBook (state S.Store conn.new).now) }
    ensures book { HasCleanDisk (state S.Store conn.new) → OnOk result (IsBook Made (state S.Store conn.new).now) }
    ensures stands { HasCleanDisk (state S.Store conn.new) → OnOk result (Stands Made (state S.Store conn.new).now) }
    ensures was_open { HasCleanDisk (state S.Store conn.new) → OnOk result (IsTrue (state S.Store conn.old).is_open) }
    ensures settled { HasCleanDisk (state S.Store conn.new) → OnOk result (IsSettled (state S.Store conn.new)) }
    ensures empty { OnOk result ((state S.Store conn.old).now.schema ≡ no_schema) }
    ensures not_empty { (state S.Store conn.old).now.schema ≢ no_schema → result ≡ Err OpenFault.NotABook }
    ensures refused { IfErr result (λ e. e ≡ OpenFault.NotABook
        → ((state S.Store conn.old).now.schema ≢ no_schema) × (conn.new ≡ conn.old)) }
    ensures kept { HasCleanDisk (state S.Store conn.new) → IsTrue (state S.Store conn.new).is_open
        → OnErr result (IsKept (state S.Store conn.old) (state S.Store conn.new)) }
    ensures crash { Survives (state S.Store conn.old) (state S.Store conn.new) AreNewBook }
{
    if !is_no_schema(conn.schema()) {
        return Err(OpenFault::NotABook);
    }
    match run(conn, Script::Create) {
        Ok(()) => Ok(()),
        Err(error) => Err(fault(error)),
    }
}
