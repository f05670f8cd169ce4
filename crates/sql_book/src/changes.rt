// The SQL statements that a change writes: of a matter, first those to the head, then what the edit writes, then the
// act.

ghost use Rattle.std.specs.Prelude.{◌≡◌, ◌≤◌, [], ◌∷◌, ◌++◌, pos, None, Some, map, IfOk, IfSome};
ghost use Rattle.std.specs.Option.{option_copied};
ghost use Rattle.trust_values.specs.Limits.{IsEntryNo};
ghost use Rattle.matter_rows.specs.declared.limits.TheConstants.{MAX_TOTAL};
ghost use Rattle.matter_parts.specs.declared.edit.Edit.TheVariants as edit;
ghost use Rattle.firm_rows.specs.Firm.{own_movement};
ghost use Rattle.firm_rows.specs.FirmChange.{OfMatter};
ghost use Rattle.firm_rows.specs.FirmLines.{as_firm_line};
ghost use Rattle.sql_tables.specs.Given.{firm_line_given, movement_given};
ghost use Rattle.sql_rows.specs.Acts.{IsCaller, IsDeed};
ghost use Rattle.sql_rows.specs.Columns.{firm_line_columns, movement_columns};
ghost use Rattle.sql_rows.specs.Scripts.{IsTyped, IsTypedAct, IsTypedEdit};
ghost use Rattle.sql_rows.specs.Steps.{ActsGone, AddMovement, EntriesGone, MovementsGone, SeatsGone, SetPurged, step_of, act_steps, movement_steps, matter_steps};

use firm_rows::{Movement, Owner};
use matter_parts::{Change, Edit, Left, Opening};
use matter_rows::{Act, Caller, Deed, EntryMovement};
use sql_rows::{
    act_columns, entry_columns, head_columns, movement_columns, seat_columns, totals_columns,
};
use sql_tables::{
    FirmLineColumns, LeftColumns, MatterDay, MovementColumns, SeatName, SqlStatement,
};
use std::alloc::{AllocError, Global};
use trust_base::{Day, EntryNo, Line, MatterNo, PersonId};

// The seat of a person in a matter.
fn seat_name(matter: MatterNo, person: &PersonId) -> SeatName<'_>
    ensures matter { result.matter ≡ pos matter }
    ensures person { result.person.now ≡ person.now }
{
    SeatName {
        matter: matter.get() as i64,
        person: person.as_slice(),
    }
}

// A day to set in the head of a matter.
fn day_columns(matter: MatterNo, day: Day) -> MatterDay
    ensures matter { result.matter ≡ pos matter }
    ensures day { result.day ≡ pos day }
{
    MatterDay {
        matter: matter.get() as i64,
        day: day.get() as i64,
    }
}

// The matter and number of an entry, and what is left of it.
fn left_columns(matter: MatterNo, named: Left) -> LeftColumns
    requires { named.left ≤ MAX_TOTAL }
    ensures matter { result.matter ≡ pos matter }
    ensures no { result.no ≡ pos named.number }
    ensures left { result.left_now ≡ pos named.left }
{
    LeftColumns {
        matter: matter.get() as i64,
        no: named.number.get() as i64,
        left_now: named.left as i64,
    }
}

// The columns of the movement of an entry of a matter.
fn entry_moved(matter: MatterNo, moved: EntryMovement) -> MovementColumns
    ensures { movement_steps matter (Some moved) ≡ AddMovement (movement_given result) ∷ [] }
{
    movement_columns(Movement {
        owner: Owner::Matter {
            matter,
            entry: moved.entry,
        },
        day: moved.day,
        amount: moved.amount,
    })
}

// Ends the script of a change of a matter with the act that the change is remembered by, if there is one.
fn with_act<'a>(
    script: Vec<SqlStatement<'a>>,
    matter: MatterNo,
    act: Option<&'a Act>,
) -> Result<Vec<SqlStatement<'a>>, AllocError>
    ensures { IfOk result (λ whole.
        map step_of whole.items ≡ map step_of script.entry.items ++ act_steps matter (option_copied act.entry)) }
{
    let mut script = script;
    if let Some(act) = act {
        script.push(SqlStatement::Act(act_columns(matter, act)))?;
    }
    Ok(script)
}

// The script of a purge: of the matter's rows only the head stays.
fn purge_script<'a>(
    alloc: Global,
    matter: MatterNo,
    day: Day,
    totals: SqlStatement<'a>,
) -> Result<Vec<SqlStatement<'a>>, AllocError>
    ensures { IfOk result (λ script. map step_of script.items ≡ SetPurged (pos matter) (pos day)
        ∷ step_of totals.entry ∷ SeatsGone (pos matter) ∷ EntriesGone (pos matter) ∷ MovementsGone (pos matter)
        ∷ ActsGone (pos matter) ∷ []) }
{
    let script = [
        SqlStatement::Purged(day_columns(matter, day)),
        totals,
        SqlStatement::SeatsGone(matter.get() as i64),
        SqlStatement::EntriesGone(matter.get() as i64),
        SqlStatement::MovementsGone(matter.get() as i64),
        SqlStatement::ActsGone(matter.get() as i64),
    ];
    Vec::from_slice(alloc, &script)
}

#[tactic(auto, unfolding(trust_values::specs::Limits::IsDay))]
fn day_is_typed(day: Day)
    ensures { 1 ≤ day }
{}

fn entry_is_typed(entry: Option<EntryNo>)
    ensures { IfSome entry IsEntryNo }
{
    match entry {
        None => {}
        Some(number) => {
            let _number = number.get();
        }
    }
}

fn caller_is_typed(caller: &Caller)
    ensures { IsCaller caller.now }
{
    match caller {
        Caller::Cashier => {}
        Caller::Person(name) => {
            let _text = name.as_slice();
        }
    }
}

fn deed_is_typed(deed: &Deed)
    ensures { IsDeed deed.now }
{
    match deed {
        Deed::Opened(lawyer) => {
            let _text = lawyer.as_slice();
        }
        Deed::Seated(seat) => {
            let _text = seat.person.as_slice();
        }
        Deed::Unseated(person) => {
            let _text = person.as_slice();
        }
        Deed::Offered(part) => {
            let _cents = part.get();
        }
        Deed::Closed
        | Deed::Deposited
        | Deed::Cancelled
        | Deed::Cleared
        | Deed::Returned
        | Deed::Proposed
        | Deed::Approved
        | Deed::Declined
        | Deed::Withdrawn
        | Deed::Voided
        | Deed::Earned
        | Deed::Disputed
        | Deed::Claimed
        | Deed::Accepted
        | Deed::Awarded => {}
    }
}

fn act_is_typed(matter: MatterNo, act: Option<&Act>)
    ensures { IsTypedAct matter (option_copied act.entry) }
{
    let Some(act) = act else {
        return;
    };
    let _number = matter.get();
    let _day = act.day.get();
    entry_is_typed(act.entry);
    caller_is_typed(&act.caller);
    deed_is_typed(&act.deed);
}

fn opening_is_typed(opening: &Opening)
    ensures { IsTypedEdit (edit.Open opening.now) }
{
    match opening.head.closed {
        None => {}
        Some(day) => day_is_typed(day),
    }
}

/// The script of a change by its edit, and what the types of its days, numbers and names say. For an entry that is
/// added or replaces the one with its number: the totals, the entry, and, if there are any, what is left of the entry
/// that it names, its movement, and the act.
pub(crate) fn edit_script<'a>(
    alloc: Global,
    matter: MatterNo,
    change: &'a Change,
) -> Result<Vec<SqlStatement<'a>>, AllocError>
    ensures steps { IfOk result (λ script.
        map step_of script.items ≡ matter_steps matter change.now change.now.edit) }
    ensures typed { IfOk result (λ _. IsTyped (OfMatter matter None change.now)) }
{
    act_is_typed(matter, change.act());
    let moves = change.moves();
    let totals = SqlStatement::Totals(totals_columns(matter, change.last(), moves.figures));
    match change.edit() {
        Edit::Nothing => Vec::from_slice(alloc, &[]),
        Edit::Open(opening) => {
            opening_is_typed(opening);
            let head = SqlStatement::Head(head_columns(matter, &opening.head, moves.figures));
            let seat = SqlStatement::Seat(seat_columns(matter, &opening.seat));
            let script = Vec::from_slice(alloc, &[head, seat])?;
            with_act(script, matter, change.act())
        }
        Edit::Seat(seat) => {
            let added = SqlStatement::Seat(seat_columns(matter, seat));
            let script = Vec::from_slice(alloc, &[totals, added])?;
            with_act(script, matter, change.act())
        }
        Edit::Unseat(person) => {
            let gone = SqlStatement::SeatGone(seat_name(matter, person));
            let script = Vec::from_slice(alloc, &[totals, gone])?;
            with_act(script, matter, change.act())
        }
        Edit::Close(day) => {
            day_is_typed(*day);
            let closed = SqlStatement::Closed(day_columns(matter, *day));
            let script = Vec::from_slice(alloc, &[closed, totals])?;
            with_act(script, matter, change.act())
        }
        Edit::Purge(day) => {
            day_is_typed(*day);
            purge_script(alloc, matter, *day, totals)
        }
        Edit::Append(written) | Edit::Exchange(written) => {
            let entry = entry_columns(matter, written.number, moves.left, &written.entry);
            let mut script = Vec::from_slice(alloc, &[totals, SqlStatement::Entry(entry)])?;
            if let Some(other) = moves.other {
                script.push(SqlStatement::Left(left_columns(matter, other)))?;
            }
            if let Some(moved) = change.movement() {
                script.push(SqlStatement::Movement(entry_moved(matter, moved)))?;
            }
            with_act(script, matter, change.act())
        }
    }
}

/// The columns of a line in the firm's own ledger.
pub(crate) fn kept_columns(line: &Line) -> FirmLineColumns<'_>
    ensures { firm_line_given result ≡ firm_line_columns (as_firm_line line.now) }
{
    FirmLineColumns {
        day: line.date.get() as i64,
        bank_ref: line.bank_ref.as_slice(),
        amount: line.amount.get(),
        text: line.text.as_slice(),
    }
}

/// The columns of the movement of a line of the firm's own.
pub(crate) fn moved_columns(line: &Line) -> MovementColumns
    ensures { movement_given result ≡ movement_columns (own_movement (as_firm_line line.now)) }
{
    movement_columns(Movement {
        owner: Owner::Firm,
        day: line.date,
        amount: line.amount.get(),
    })
}
