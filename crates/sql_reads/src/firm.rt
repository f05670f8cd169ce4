// All rows of a firm at once, sound or not.

ghost use Rattle.std.specs.Prelude.{◌≡◌, ◌++◌, ◌∷◌, [], false, IfOk};
ghost use Rattle.sqlite.specs.Held.{state};
ghost use Rattle.sqlite.specs.State.{HasCleanDisk};
ghost use Rattle.firm_rows.specs.Firm.{empty_firm};
ghost use Rattle.sql_schema.specs.declared.layout.Layout.{Layout};
ghost use Rattle.trust_store.specs.Kept.{AreKeptWhole, firm_of_all};
ghost use Rattle.sql_tables.specs.Lists.{lists_in};
ghost use Rattle.sql_tables.specs.Reading.{LeavesAll};
ghost use Rattle.sql_tables.specs.Standing.{Stands};
ghost use Rattle.sql_rows.specs.Meaning.{matters_from};
ghost use Rattle.sql_rows.specs.Standing.{firm_in};
ghost use Rattle.sql_reads.specs.Parts.{without_matters};

use crate::lists::each_listed;
use crate::matter::{opened_matters, whole_matter};
use firm_rows::{BalanceRow, Dismissal, FirmLine, MatterAct, Movement, Owner, RowSink};
use sqlite::{Alter, Connection};
use std::alloc::{AllocError, Global};
use std::marker::Model;
use trust_base::{Line, StoreFault};
use trust_store::{AllRows, KeptMatter};

// Reads each matter that has a head, by number. Returns `Store` if one is not whole or not sound.
#[tactic(auto, using(crate::proofs::AllMatters::whole_more))]
fn all_matters<S: Alter>(
    conn: &mut Connection<S>,
    alloc: Global,
) -> Result<Vec<KeptMatter>, StoreFault>
    requires { conn.old.in_transaction ≡ false }
    ensures mode { conn.new.in_transaction ≡ false }
    ensures read { (l : Layout) → HasCleanDisk (state S.Store conn.new) → Stands l (state S.Store conn.old).now
        → IfOk result (λ matters. matters.items ≡ matters_from (lists_in l (state S.Store conn.old).now.trees)) }
    ensures whole { (l : Layout) → HasCleanDisk (state S.Store conn.new) → Stands l (state S.Store conn.old).now
        → IfOk result (λ matters. AreKeptWhole matters.items) }
    ensures left { LeavesAll result (state S.Store conn.old) (state S.Store conn.new) }
{
    let numbers = opened_matters(conn, alloc)?;
    let mut matters = Vec::new(alloc);
    'each: for number in &numbers {
        let matter = whole_matter(conn, alloc, *number)?;
        matters.push(KeptMatter {
            number: *number,
            matter,
        })?;
    }
    Ok(matters)
}

// Keeps the movements, the lines of the firm's own, the exceptions, the balances, the acts and the dismissals that are
// passed to it.
//
// Contracts see it as the firm that has only these rows.
#[derive(Drop)]
struct RowLists {
    movements: Vec<Movement>,
    firm_lines: Vec<FirmLine>,
    exceptions: Vec<Line>,
    balances: Vec<BalanceRow>,
    acts: Vec<MatterAct>,
    dismissals: Vec<Dismissal>,
}

impl Model for RowLists {
    ghost use Rattle.std.specs.Prelude.{[]};
    ghost use Rattle.firm_rows.specs.Firm.{Firm, with_trail};
    ghost use Rattle.trust_store.specs.Kept.{firm_of};

    ghost Value = { Firm };

    ghost view = { λ l. with_trail l.acts.items l.dismissals.items
        (firm_of [] l.movements.items l.firm_lines.items l.exceptions.items l.balances.items) };
}

impl RowLists {
    // Creates empty lists. Does not allocate.
    fn new(alloc: Global) -> RowLists
        ensures { result ≡ empty_firm }
    {
        RowLists {
            movements: Vec::new(alloc),
            firm_lines: Vec::new(alloc),
            exceptions: Vec::new(alloc),
            balances: Vec::new(alloc),
            acts: Vec::new(alloc),
            dismissals: Vec::new(alloc),
        }
    }
}

impl RowSink<Movement> for RowLists {
    ghost taken = { λ lists movement. record lists { movements = lists.movements ++ movement ∷ [] } };

    fn take(&mut self, movement: &Movement) -> Result<(), AllocError> {
        let owner: Owner = movement.owner;
        self.movements.push(Movement { owner, ..*movement })?;
        Ok(())
    }
}

impl RowSink<Line> for RowLists {
    ghost taken = { λ lists line. record lists { exceptions = lists.exceptions ++ line ∷ [] } };

    fn take(&mut self, line: &Line) -> Result<(), AllocError> {
        self.exceptions.push(line.copied()?)?;
        Ok(())
    }
}

impl RowSink<BalanceRow> for RowLists {
    ghost taken = { λ lists row. record lists { balances = lists.balances ++ row ∷ [] } };

    fn take(&mut self, row: &BalanceRow) -> Result<(), AllocError> {
        self.balances.push(*row)?;
        Ok(())
    }
}

impl RowSink<FirmLine> for RowLists {
    ghost taken = { λ lists line. record lists { firm_lines = lists.firm_lines ++ line ∷ [] } };

    fn take(&mut self, line: &FirmLine) -> Result<(), AllocError> {
        self.firm_lines.push(line.copied()?)?;
        Ok(())
    }
}

impl RowSink<MatterAct> for RowLists {
    ghost taken = { λ lists act. record lists { acts = lists.acts ++ act ∷ [] } };

    fn take(&mut self, act: &MatterAct) -> Result<(), AllocError> {
        self.acts.push(act.copied()?)?;
        Ok(())
    }
}

impl RowSink<Dismissal> for RowLists {
    ghost taken = { λ lists dismissal. record lists { dismissals = lists.dismissals ++ dismissal ∷ [] } };

    fn take(&mut self, dismissal: &Dismissal) -> Result<(), AllocError> {
        self.dismissals.push(dismissal.copied()?)?;
        Ok(())
    }
}

// Reads the lists of the firm: all but the rows of its matters.
fn all_others<S: Alter>(conn: &mut Connection<S>, alloc: Global) -> Result<RowLists, StoreFault>
    requires { conn.old.in_transaction ≡ false }
    ensures mode { conn.new.in_transaction ≡ false }
    ensures read { (l : Layout) → HasCleanDisk (state S.Store conn.new) → Stands l (state S.Store conn.old).now
        → IfOk result (λ lists. lists ≡ without_matters (firm_in l (state S.Store conn.old).now.trees)) }
    ensures left { LeavesAll result (state S.Store conn.old) (state S.Store conn.new) }
{
    let mut lists = RowLists::new(alloc);
    each_listed::<S, Movement, RowLists>(conn, alloc, &mut lists)?;
    each_listed::<S, FirmLine, RowLists>(conn, alloc, &mut lists)?;
    each_listed::<S, Line, RowLists>(conn, alloc, &mut lists)?;
    each_listed::<S, BalanceRow, RowLists>(conn, alloc, &mut lists)?;
    each_listed::<S, MatterAct, RowLists>(conn, alloc, &mut lists)?;
    each_listed::<S, Dismissal, RowLists>(conn, alloc, &mut lists)?;
    Ok(lists)
}

/// Reads all rows of the firm at once: each matter that has a head with all its entries, by number; the movements, the
/// lines of the firm's own, the acts and the dismissals, in order of acceptance; the exceptions and the balances, in
/// their own order. The firm need not be sound, but each matter must be: returns `Store` for a matter that is not whole
/// and sound, and for a row that stands for nothing.
pub fn all_rows<S: Alter>(conn: &mut Connection<S>, alloc: Global) -> Result<AllRows, StoreFault>
    requires { conn.old.in_transaction ≡ false }
    ensures mode { conn.new.in_transaction ≡ false }
    ensures read { (l : Layout) → HasCleanDisk (state S.Store conn.new) → Stands l (state S.Store conn.old).now
        → IfOk result (λ rows. firm_of_all rows ≡ firm_in l (state S.Store conn.old).now.trees) }
    ensures whole { (l : Layout) → HasCleanDisk (state S.Store conn.new) → Stands l (state S.Store conn.old).now
        → IfOk result (λ rows. AreKeptWhole rows.matters.items) }
    ensures left { LeavesAll result (state S.Store conn.old) (state S.Store conn.new) }
{
    let matters = all_matters(conn, alloc)?;
    let others = all_others(conn, alloc)?;
    Ok(AllRows {
        matters,
        movements: others.movements,
        firm_lines: others.firm_lines,
        exceptions: others.exceptions,
        balances: others.balances,
        acts: others.acts,
        dismissals: others.dismissals,
    })
}
