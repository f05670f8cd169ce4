// Whether the journal fits the matters.

ghost use Rattle.std.specs.Prelude.{◌≡◌, ◌↔◌, List, true, None, IfOk, IfSome, IsTrue, is_some};
ghost use Rattle.std.specs.List.{AllByRecursion};
ghost use Rattle.matter_rows.specs.Rows.{entry_at};
ghost use Rattle.trust_base.specs.declared.line.Line.{Line};
ghost use Rattle.firm_rows.specs.declared.ledger.BalanceRow.{BalanceRow};
ghost use Rattle.firm_rows.specs.declared.ledger.FirmLine.{FirmLine};
ghost use Rattle.trust_store.specs.Kept.{Ascends, IsKeptWhole, AreKeptWhole, firm_of, rows_in};
ghost use Rattle.firm_audit.specs.Audited.{moved_of, IsJournal, IsOwned, IsJournalOf};
ghost use Rattle.firm_audit.specs.Flaws.{IsFlawOf, IsJournalFlawAmong, IsStray};

use crate::Flaw;
use crate::matter_journal::matter_flaw;
use firm_rows::{Movement, Owner};
use std::alloc::{AllocError, Global};
use trust_base::{EntryNo, MatterNo};
use trust_store::{KeptMatter, matter_place};

// Whether the matter has an entry with this number.
fn has_entry(matters: &[KeptMatter], matter: MatterNo, entry: EntryNo) -> bool
    requires { Ascends matters.now }
    ensures { IsTrue result ↔ is_some (entry_at (rows_in matter matters.now).entries entry) ≡ true }
{
    match matter_place(matters, matter) {
        Ok(place) => entry.get() as usize <= matters[place].matter.kept().len(),
        Err(_) => false,
    }
}

// Whether the owner is the firm, or an entry that exists.
fn is_owner(matters: &[KeptMatter], owner: &Owner) -> bool
    requires { Ascends matters.now }
    ensures { IsTrue result ↔ IsOwned matters.now owner.now }
{
    match owner {
        Owner::Matter { matter, entry } => has_entry(matters, *matter, *entry),
        Owner::Firm => true,
    }
}

// The position of the first movement that belongs to no entry, counted from 1.
fn unowned(matters: &[KeptMatter], movements: &[Movement]) -> Option<u64>
    requires { Ascends matters.now }
    ensures none { result ≡ None → AllByRecursion (λ v. IsOwned matters.now v.owner) movements.now }
    ensures some { IfSome result (IsStray (λ m. rows_in m matters.now) movements.now) }
{
    let mut place = 0;
    for movement in movements {
        place += 1;
        if !is_owner(matters, &movement.owner) {
            return Some(place);
        }
    }
    None
}

// The first flaw in any matter's movements.
fn first_flaw(
    alloc: Global,
    matters: &[KeptMatter],
    movements: &[Movement],
) -> Result<Option<Flaw>, AllocError>
    requires { AllByRecursion IsKeptWhole matters.now }
    ensures sound { IfOk result
        (λ found. found ≡ None → AllByRecursion (λ k. IsJournal k (moved_of k.number movements.now)) matters.now) }
    ensures flaw { IfOk result (λ found. IfSome found (IsJournalFlawAmong matters.now movements.now)) }
{
    for kept in matters {
        let found = matter_flaw(alloc, kept, movements)?;
        if found.is_some() {
            return Ok(found);
        }
    }
    Ok(None)
}

/// The first flaw in the movements, given the matters. Whatever the other rows are, it is one of the firm.
pub(crate) fn journal_flaw(
    alloc: Global,
    matters: &[KeptMatter],
    movements: &[Movement],
) -> Result<Option<Flaw>, AllocError>
    requires { AreKeptWhole matters.now }
    ensures sound { IfOk result (λ found. found ≡ None → IsJournalOf matters.now movements.now) }
    ensures flaw { (own : List FirmLine) (exceptions : List Line) (balances : List BalanceRow)
        → IfOk result (λ found. IfSome found (IsFlawOf (firm_of matters.now movements.now own exceptions balances))) }
{
    if let Some(place) = unowned(matters, movements) {
        return Ok(Some(Flaw::Movement(place)));
    }
    first_flaw(alloc, matters, movements)
}
