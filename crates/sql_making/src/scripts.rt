// The scripts that make a book's tables, each in one transaction.

ghost use Rattle.std.specs.Prelude.{◌≡◌, false, OnOk, OnErr, IsTrue};
ghost use Rattle.sqlite.specs.Held.{state};
ghost use Rattle.sqlite.specs.State.{HasCleanDisk, KeepsCommit, Survives};
ghost use Rattle.sql_making.specs.Scripts.{Makes, MayMake};
ghost use Rattle.sql_tables.specs.Reading.{IsKept};
ghost use Rattle.sql_tables.specs.Script.{IsSettled};

use crate::copying::COPYING;
use crate::creating::CREATING;
use crate::extending::EXTENDING;
use sqlite::{Alter, Connection, Error, Transaction};

/// What makes the tables of this version.
#[derive(Clone, Copy)]
pub enum Script {
    /// In an empty database.
    Create,
    /// From the tables of version 1, whose rows it moves.
    Move,
    /// From the tables of this version without the trail, which it adds.
    Extend,
}

fn execute<S: Alter>(tx: &mut Transaction<'_, S>, script: Script) -> Result<(), Error>
    ensures same_reference { tx.new.conn.ghost_name ≡ tx.old.conn.ghost_name }
    ensures made { HasCleanDisk (state S.Store tx.new.conn.now)
        → OnOk result (Makes script (state S.Store tx.old.conn.now).now (state S.Store tx.new.conn.now).now) }
    ensures inside { HasCleanDisk (state S.Store tx.new.conn.now)
        → OnOk result ((state S.Store tx.new.conn.now).in_transaction
        ≡ (state S.Store tx.old.conn.now).in_transaction) }
    ensures kept { HasCleanDisk (state S.Store tx.new.conn.now)
        → KeepsCommit (state S.Store tx.old.conn.now) (state S.Store tx.new.conn.now) }
    ensures crash { Survives (state S.Store tx.old.conn.now) (state S.Store tx.new.conn.now) (λ _. ⊥) }
{
    match script {
        Script::Create => tx.execute_batch(CREATING),
        Script::Move => tx.execute_batch(COPYING),
        Script::Extend => tx.execute_batch(EXTENDING),
    }
}

/// Runs a script in one transaction: all of it or nothing.
pub(crate) fn run<S: Alter>(conn: &mut Connection<S>, script: Script) -> Result<(), Error>
    requires { conn.old.in_transaction ≡ false }
    ensures mode { conn.new.in_transaction ≡ false }
    ensures serves { HasCleanDisk (state S.Store conn.new) → OnOk result (IsTrue (state S.Store conn.new).is_open) }
    ensures made { HasCleanDisk (state S.Store conn.new)
        → OnOk result (Makes script (state S.Store conn.old).now (state S.Store conn.new).now) }
    ensures was_open { HasCleanDisk (state S.Store conn.new) → OnOk result (IsTrue (state S.Store conn.old).is_open) }
    ensures settled { HasCleanDisk (state S.Store conn.new) → OnOk result (IsSettled (state S.Store conn.new)) }
    ensures neither { HasCleanDisk (state S.Store conn.new) → IsTrue (state S.Store conn.new).is_open
        → OnErr result (IsKept (state S.Store conn.old) (state S.Store conn.new)) }
    ensures crash { Survives (state S.Store conn.old) (state S.Store conn.new)
        (MayMake script (state S.Store conn.old).now) }
{
    // Outside a transaction, what is seen is what was committed, so going back to the commit changes nothing.
    let _settled = conn.is_autocommit();
    let mut tx = conn.transaction();
    execute(&mut tx, script)?;
    tx.commit()
}
