// The columns of a matter's head with its totals, and of a seat.

ghost use Rattle.std.specs.Prelude.{◌≡◌, ℕ, pos, Option, Ok, IfOk, IfErr, IfSome};
ghost use Rattle.sql_tables.specs.Given.{head_given, seat_given};
ghost use Rattle.trust_values.specs.Limits.{IsDay};
ghost use Rattle.trust_base.specs.Names.{IsLabel, IsPerson};
ghost use Rattle.matter_rows.specs.declared.head.Head.{Head as Kept};
ghost use Rattle.matter_rows.specs.declared.head.Holder.{Holder as Held};
ghost use Rattle.matter_rows.specs.declared.seat.Role.{Role as Standing};
ghost use Rattle.matter_rows.specs.declared.seat.Seat.{Seat as Taken};
ghost use Rattle.sql_rows.specs.Columns.{GivesBack, HasSeat, role_column, seat_columns};
ghost use Rattle.sql_rows.specs.Heads.{client_column, purged_column, closed_column, head_columns, totals_columns};
ghost use Rattle.sql_rows.specs.Heads.{HasHead, HasTotals, IsHolder, IsHead, HasClientsHead};
ghost use Rattle.matter_parts.specs.declared.figures.Figures.{Figures as Totals};
ghost use Rattle.matter_parts.specs.Parts.{AreSmall};

use crate::codes::{CLIENT_ROLE, LAWYER_ROLE};
use crate::column::{day_in, label_in, number_in, person_in};
use matter_parts::Figures;
use matter_rows::{Head, Holder, MAX_TOTAL, Role, Seat};
use sql_tables::{HeadColumns, SeatColumns, TotalsColumns};
use std::alloc::Global;
use trust_base::{Day, MAX_ENTRY, MatterNo, StoreFault};

// The client's name, or nothing after a purge.
fn client_column(holder: &Holder) -> &[u8]
    ensures { result.now ≡ client_column holder.now }
{
    match holder {
        Holder::Client(client) => client.as_slice(),
        Holder::Purged(_) => b"",
    }
}

// The day of the purge, or 0.
fn purged_column(holder: &Holder) -> i64
    ensures { result ≡ purged_column holder.now }
{
    match holder {
        Holder::Client(_) => 0,
        Holder::Purged(day) => day.get() as i64,
    }
}

// The day of closing, or 0.
fn closed_column(closed: Option<Day>) -> i64
    ensures { result ≡ closed_column closed }
{
    match closed {
        None => 0,
        Some(day) => day.get() as i64,
    }
}

/// Returns the columns of the head of a matter: its number, its client (empty after a purge), its days (0 if missing)
/// and its totals in cents.
pub fn head_columns(matter: MatterNo, head: &Head, figures: Figures) -> HeadColumns<'_>
    requires { AreSmall figures }
    ensures { head_given result ≡ head_columns matter head.now figures }
{
    let totals = totals_columns(matter, head.last, figures);
    HeadColumns {
        no: totals.no,
        client: client_column(&head.holder),
        opened: head.opened.get() as i64,
        closed: closed_column(head.closed),
        last: totals.last,
        entries: totals.entries,
        held: totals.held,
        available: totals.available,
        disputed: totals.disputed,
        fees: totals.fees,
        claims: totals.claims,
        pending: totals.pending,
        purged: purged_column(&head.holder),
    }
}

/// Returns the columns of a matter's head that each change of it sets: its last day, and its totals in cents.
pub fn totals_columns(matter: MatterNo, last: Day, figures: Figures) -> TotalsColumns
    requires { AreSmall figures }
    ensures { result ≡ totals_columns matter last figures }
{
    TotalsColumns {
        no: matter.get() as i64,
        last: last.get() as i64,
        entries: figures.entries as i64,
        held: figures.held as i64,
        available: figures.available as i64,
        disputed: figures.disputed as i64,
        fees: figures.fees as i64,
        claims: figures.claims as i64,
        pending: figures.pending as i64,
    }
}

// Reads the client, or the day of the purge.
#[tactic(auto, unfolding(trust_values::specs::Limits::IsDay))]
fn holder_in(alloc: Global, client: &[u8], purged: i64) -> Result<Holder, StoreFault>
    ensures client { IfOk result (λ h. client_column h ≡ client.now) }
    ensures purged { IfOk result (λ h. purged_column h ≡ purged) }
    ensures form { IfOk result IsHolder }
    ensures back { (h : Held) → IsHolder h → client_column h ≡ client.now → purged_column h ≡ purged
        → GivesBack h result }
    ensures memory { IfErr result (λ e. e ≡ StoreFault.Memory → IsLabel client.now × (purged ≡ pos 0)) }
{
    if purged == 0 {
        return Ok(Holder::Client(label_in(alloc, client)?));
    }
    if !client.is_empty() {
        return Err(StoreFault::Store);
    }
    let day = day_in(purged)?;
    Ok(Holder::Purged(day))
}

// Reads the day of closing, if there is one.
#[tactic(auto, unfolding(trust_values::specs::Limits::IsDay))]
fn closed_in(column: i64) -> Result<Option<Day>, StoreFault>
    ensures ok { IfOk result (λ c. closed_column c ≡ column) }
    ensures form { IfOk result (λ c. IfSome c IsDay) }
    ensures back { (c : Option ℕ) → IfSome c IsDay → closed_column c ≡ column → result ≡ Ok c }
    ensures store { IfErr result (λ e. e ≡ StoreFault.Store) }
{
    if column == 0 {
        return Ok(None);
    }
    let day = day_in(column)?;
    Ok(Some(day))
}

/// Reads a head from its columns, copying the client; its totals are not read. Returns `Store` for columns of no
/// head. `Memory`, if memory runs out, is possible only for the valid columns of a head that was not purged.
pub fn head_of(alloc: Global, columns: HeadColumns<'_>) -> Result<Head, StoreFault>
    ensures ok { IfOk result (λ h. HasHead h (head_given columns.entry)) }
    ensures form { IfOk result IsHead }
    ensures back { (h : Kept) → IsHead h → HasHead h (head_given columns.entry) → GivesBack h result }
    ensures memory { IfErr result (λ e. e ≡ StoreFault.Memory → HasClientsHead (head_given columns.entry)) }
{
    let opened = day_in(columns.opened)?;
    let last = day_in(columns.last)?;
    let closed = closed_in(columns.closed)?;
    let holder = holder_in(alloc, columns.client, columns.purged)?;
    Ok(Head {
        holder,
        opened,
        closed,
        last,
    })
}

/// Reads the totals from the columns of a head; the rest is not read. Returns `Store` for values that no matter can
/// have, such as too many entries or a total above what that many can add up to.
pub fn totals_of(columns: HeadColumns<'_>) -> Result<Figures, StoreFault>
    ensures ok { IfOk result (λ f. HasTotals f (head_given columns.entry)) }
    ensures small { IfOk result AreSmall }
    ensures back { (f : Totals) → AreSmall f → HasTotals f (head_given columns.entry) → result ≡ Ok f }
    ensures store { IfErr result (λ e. e ≡ StoreFault.Store) }
{
    let entries = number_in(columns.entries, MAX_ENTRY as u64)?;
    let pending = number_in(columns.pending, MAX_TOTAL)?;
    let held = number_in(columns.held, MAX_TOTAL)?;
    let available = number_in(columns.available, MAX_TOTAL)?;
    let disputed = number_in(columns.disputed, MAX_TOTAL)?;
    let fees = number_in(columns.fees, MAX_TOTAL)?;
    let claims = number_in(columns.claims, MAX_TOTAL)?;
    Ok(Figures {
        entries,
        pending,
        held,
        available,
        disputed,
        fees,
        claims,
    })
}

/// The code of a role: 1 for a client, 2 for a lawyer.
pub(crate) fn role_column(role: Role) -> i64
    ensures { result ≡ role_column role }
{
    match role {
        Role::Client => CLIENT_ROLE,
        Role::Lawyer => LAWYER_ROLE,
    }
}

/// Reads a role from its code. Returns `Store` for any other number.
pub(crate) fn role_in(column: i64) -> Result<Role, StoreFault>
    ensures ok { IfOk result (λ r. role_column r ≡ column) }
    ensures back { (r : Standing) → role_column r ≡ column → result ≡ Ok r }
    ensures store { IfErr result (λ e. e ≡ StoreFault.Store) }
{
    match column {
        CLIENT_ROLE => Ok(Role::Client),
        LAWYER_ROLE => Ok(Role::Lawyer),
        _ => Err(StoreFault::Store),
    }
}

/// Returns the columns of a seat of a matter: the person, and the role (1 for a client, 2 for a lawyer).
pub fn seat_columns(matter: MatterNo, seat: &Seat) -> SeatColumns<'_>
    ensures { seat_given result ≡ seat_columns matter seat.now }
{
    SeatColumns {
        matter: matter.get() as i64,
        person: seat.person.as_slice(),
        role: role_column(seat.role),
    }
}

/// Reads a seat of a matter from its columns, copying the person. Returns `Store` for columns of no seat, and
/// `Memory` if memory runs out for those of one.
pub fn seat_of(
    alloc: Global,
    matter: MatterNo,
    columns: SeatColumns<'_>,
) -> Result<Seat, StoreFault>
    ensures ok { IfOk result (λ s. seat_columns matter s ≡ seat_given columns.entry) }
    ensures back { (s : Taken) → IsPerson s.person → seat_columns matter s ≡ seat_given columns.entry
        → GivesBack s result }
    ensures memory { IfErr result (λ e. e ≡ StoreFault.Memory → HasSeat matter (seat_given columns.entry)) }
{
    if columns.matter != matter.get() as i64 {
        return Err(StoreFault::Store);
    }
    let role = role_in(columns.role)?;
    let person = person_in(alloc, columns.person)?;
    Ok(Seat { person, role })
}
