// The columns of an act of a matter: written, and read back.

ghost use Rattle.std.specs.Prelude.{◌≡◌, ℕ, Option, Ok, IfOk, IfErr, IfSome};
ghost use Rattle.trust_values.specs.Limits.{IsEntryNo};
ghost use Rattle.trust_base.specs.Names.{IsPerson};
ghost use Rattle.matter_rows.specs.declared.act.Caller.{Caller as By};
ghost use Rattle.matter_rows.specs.declared.act.Deed.{Deed as Done};
ghost use Rattle.firm_rows.specs.declared.matter_act.MatterAct.{MatterAct as Remembered};
ghost use Rattle.sql_tables.specs.Given.{act_given};
ghost use Rattle.sql_rows.specs.Acts.{act_entry_column, caller_column, deed_column, text_column, number_column};
ghost use Rattle.sql_rows.specs.Acts.{act_columns, IsCaller, IsDeed, IsAct, BeginsAct};
ghost use Rattle.sql_rows.specs.Columns.{GivesBack};
ghost use Rattle.sql_rows.specs.Meaning.{deed_from};

use crate::codes::{
    ACCEPTED_DEED, APPROVED_DEED, AWARDED_DEED, CANCELLED_DEED, CLAIMED_DEED, CLEARED_DEED,
    CLOSED_DEED, DECLINED_DEED, DEPOSITED_DEED, DISPUTED_DEED, EARNED_DEED, OFFERED_DEED,
    OPENED_DEED, PROPOSED_DEED, RETURNED_DEED, SEATED_DEED, UNSEATED_DEED, VOIDED_DEED,
    WITHDRAWN_DEED,
};
use crate::column::{day_in, entry_no_in, matter_no_in, part_in, person_in};
use crate::matter::{role_column, role_in};
use firm_rows::MatterAct;
use matter_rows::{Act, Caller, Deed, Seat};
use sql_tables::ActColumns;
use std::alloc::Global;
use trust_base::{EntryNo, MatterNo, StoreFault};

// The number of the entry, or 0.
fn act_entry_column(entry: Option<EntryNo>) -> i64
    ensures { result ≡ act_entry_column entry }
{
    match entry {
        None => 0,
        Some(number) => number.get() as i64,
    }
}

// `cashier`, or the person's name.
fn caller_column(caller: &Caller) -> &[u8]
    ensures { result.now ≡ caller_column caller.now }
{
    match caller {
        Caller::Cashier => b"cashier",
        Caller::Person(person) => person.as_slice(),
    }
}

// The code of a deed.
fn deed_column(deed: &Deed) -> i64
    ensures { result ≡ deed_column deed.now }
{
    match deed {
        Deed::Opened(_) => OPENED_DEED,
        Deed::Seated(_) => SEATED_DEED,
        Deed::Unseated(_) => UNSEATED_DEED,
        Deed::Closed => CLOSED_DEED,
        Deed::Deposited => DEPOSITED_DEED,
        Deed::Cancelled => CANCELLED_DEED,
        Deed::Cleared => CLEARED_DEED,
        Deed::Returned => RETURNED_DEED,
        Deed::Proposed => PROPOSED_DEED,
        Deed::Approved => APPROVED_DEED,
        Deed::Declined => DECLINED_DEED,
        Deed::Withdrawn => WITHDRAWN_DEED,
        Deed::Voided => VOIDED_DEED,
        Deed::Earned => EARNED_DEED,
        Deed::Disputed => DISPUTED_DEED,
        Deed::Claimed => CLAIMED_DEED,
        Deed::Offered(_) => OFFERED_DEED,
        Deed::Accepted => ACCEPTED_DEED,
        Deed::Awarded => AWARDED_DEED,
    }
}

// The person whom a deed names, or nothing; and the code of a seat's role, or the part that was offered in cents, or 0.
fn named_by(deed: &Deed) -> (&[u8], i64)
    ensures text { result.0.now ≡ text_column deed.now }
    ensures number { result.1 ≡ number_column deed.now }
{
    match deed {
        Deed::Opened(lawyer) => (lawyer.as_slice(), 0),
        Deed::Seated(seat) => (seat.person.as_slice(), role_column(seat.role)),
        Deed::Unseated(person) => (person.as_slice(), 0),
        Deed::Offered(part) => (b"", part.get() as i64),
        Deed::Closed
        | Deed::Deposited
        | Deed::Cancelled
        | Deed::Cleared
        | Deed::Returned
        | Deed::Proposed
        | Deed::Approved
        | Deed::Declined
        | Deed::Withdrawn
        | Deed::Voided
        | Deed::Earned
        | Deed::Disputed
        | Deed::Claimed
        | Deed::Accepted
        | Deed::Awarded => (b"", 0),
    }
}

/// Returns the columns of an act of a matter: the number of its entry (0 if it is of none), its day, the code of what
/// was done (from 1 to 19, in the order of `Deed`'s variants), who did it (`cashier`, or the person's name), the person
/// whom that names (empty if none), and the role of a seat or the part in cents that was offered (0 of other deeds).
pub fn act_columns(matter: MatterNo, act: &Act) -> ActColumns<'_>
    ensures { act_given result ≡ act_columns (record { matter = matter; act = act.now }) }
{
    let (text, number) = named_by(&act.deed);
    ActColumns {
        matter: matter.get() as i64,
        entry: act_entry_column(act.entry),
        day: act.day.get() as i64,
        deed: deed_column(&act.deed),
        caller: caller_column(&act.caller),
        text,
        number,
    }
}

// Reads the number of the entry, if the act is of one.
fn act_entry_in(column: i64) -> Result<Option<EntryNo>, StoreFault>
    ensures ok { IfOk result (λ n. act_entry_column n ≡ column) }
    ensures form { IfOk result (λ n. IfSome n IsEntryNo) }
    ensures back { (n : Option ℕ) → IfSome n IsEntryNo → act_entry_column n ≡ column → result ≡ Ok n }
    ensures store { IfErr result (λ e. e ≡ StoreFault.Store) }
{
    if column == 0 {
        return Ok(None);
    }
    let number = entry_no_in(column)?;
    Ok(Some(number))
}

// Reads who did it, copying the name.
fn caller_in(alloc: Global, column: &[u8]) -> Result<Caller, StoreFault>
    ensures ok { IfOk result (λ c. caller_column c ≡ column.now) }
    ensures form { IfOk result IsCaller }
    ensures back { (c : By) → IsCaller c → caller_column c ≡ column.now → GivesBack c result }
    ensures memory { IfErr result (λ e. e ≡ StoreFault.Memory → IsPerson column.now) }
{
    if column == b"cashier".as_slice() {
        return Ok(Caller::Cashier);
    }
    let person = person_in(alloc, column)?;
    Ok(Caller::Person(person))
}

// Reads the deed of a code, with as much of the text and of the number as such a deed has.
#[tactic(auto, unfolding(crate::specs::Meaning::deed_from))]
fn deed_by(alloc: Global, code: i64, text: &[u8], number: i64) -> Result<Deed, StoreFault>
    ensures ok { IfOk result (λ d. d ≡ deed_from code text.now number) }
    ensures code { IfOk result (λ d. deed_column d ≡ code) }
    ensures form { IfOk result IsDeed }
    ensures err { (d : Done) → IsDeed d → deed_column d ≡ code → text_column d ≡ text.now → number_column d ≡ number
        → IfErr result (λ e. e ≡ StoreFault.Memory) }
{
    match code {
        OPENED_DEED => Ok(Deed::Opened(person_in(alloc, text)?)),
        SEATED_DEED => {
            let role = role_in(number)?;
            let person = person_in(alloc, text)?;
            Ok(Deed::Seated(Seat { person, role }))
        }
        UNSEATED_DEED => Ok(Deed::Unseated(person_in(alloc, text)?)),
        CLOSED_DEED => Ok(Deed::Closed),
        DEPOSITED_DEED => Ok(Deed::Deposited),
        CANCELLED_DEED => Ok(Deed::Cancelled),
        CLEARED_DEED => Ok(Deed::Cleared),
        RETURNED_DEED => Ok(Deed::Returned),
        PROPOSED_DEED => Ok(Deed::Proposed),
        APPROVED_DEED => Ok(Deed::Approved),
        DECLINED_DEED => Ok(Deed::Declined),
        WITHDRAWN_DEED => Ok(Deed::Withdrawn),
        VOIDED_DEED => Ok(Deed::Voided),
        EARNED_DEED => Ok(Deed::Earned),
        DISPUTED_DEED => Ok(Deed::Disputed),
        CLAIMED_DEED => Ok(Deed::Claimed),
        OFFERED_DEED => Ok(Deed::Offered(part_in(number)?)),
        ACCEPTED_DEED => Ok(Deed::Accepted),
        AWARDED_DEED => Ok(Deed::Awarded),
        _ => Err(StoreFault::Store),
    }
}

// Reads a deed from its columns, copying the name.
fn deed_in(alloc: Global, code: i64, text: &[u8], number: i64) -> Result<Deed, StoreFault>
    ensures code { IfOk result (λ d. deed_column d ≡ code) }
    ensures text { IfOk result (λ d. text_column d ≡ text.now) }
    ensures number { IfOk result (λ d. number_column d ≡ number) }
    ensures form { IfOk result IsDeed }
    ensures back { (d : Done) → IsDeed d → deed_column d ≡ code → text_column d ≡ text.now → number_column d ≡ number
        → GivesBack d result }
{
    let deed = deed_by(alloc, code, text, number)?;
    // What such a deed does not use is empty.
    let (named, counted) = named_by(&deed);
    if named != text || counted != number {
        return Err(StoreFault::Store);
    }
    Ok(deed)
}

/// Reads an act of a matter from its columns, copying the names. Returns `Store` for columns of no act, or `Memory` if
/// memory runs out before the invalid column is reached. `Memory` is possible only if the matter, the entry, the day
/// and the caller are valid.
#[tactic(auto, using(crate::proofs::Acts::is_named))]
pub fn act_of(alloc: Global, columns: ActColumns<'_>) -> Result<MatterAct, StoreFault>
    ensures ok { IfOk result (λ a. act_columns a ≡ act_given columns.entry) }
    ensures form { IfOk result IsAct }
    ensures back { (a : Remembered) → IsAct a → act_columns a ≡ act_given columns.entry → GivesBack a result }
    ensures memory { IfErr result (λ e. e ≡ StoreFault.Memory → BeginsAct (act_given columns.entry)) }
{
    let matter = matter_no_in(columns.matter)?;
    let entry = act_entry_in(columns.entry)?;
    let day = day_in(columns.day)?;
    let caller = caller_in(alloc, columns.caller)?;
    let deed = deed_in(alloc, columns.deed, columns.text, columns.number)?;
    let act = Act {
        entry,
        day,
        caller,
        deed,
    };
    Ok(MatterAct { matter, act })
}
