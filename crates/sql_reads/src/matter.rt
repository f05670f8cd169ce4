// Matters: one with all its entries, or with the named ones; and all of them, one after the other, each with its rows.

ghost use Rattle.std.specs.Prelude.{◌≡◌, ◌+◌, false, pos, List, map, find, Some, option_map, IfOk};
ghost use Rattle.std.specs.Option.{option_copied};
ghost use Rattle.sqlite_value.specs.declared.value.Value.TheVariants.{Int};
ghost use Rattle.sqlite_value.specs.Order.{column};
ghost use Rattle.sqlite.specs.Held.{state};
ghost use Rattle.sqlite.specs.State.{HasCleanDisk};
ghost use Rattle.matter_rows.specs.Shares.{number_or_none};
ghost use Rattle.matter_parts.specs.Parts.{IsWhole, kept_in};
ghost use Rattle.matter_parts.specs.Audit.{IsSoundWhole};
ghost use Rattle.firm_rows.specs.Countable.{IsRowInRange};
ghost use Rattle.firm_rows.specs.Firm.{of, opened_matters};
ghost use Rattle.firm_rows.specs.Handing.{AreHanded};
ghost use Rattle.trust_store.specs.Named.{IsPartFor};
ghost use Rattle.sql_schema.specs.declared.layout.Layout.{Layout};
ghost use Rattle.sql_tables.specs.Lists.{lists_in};
ghost use Rattle.sql_tables.specs.Reading.{LeavesAll};
ghost use Rattle.sql_tables.specs.Rows.{Head as HeadRow, Seat as ShownSeat, Entry as ShownEntry};
ghost use Rattle.sql_tables.specs.Rows.{heads_in, head_shown, is_past, no_shown, numbered_shown, seat_shown};
ghost use Rattle.sql_tables.specs.Standing.{Stands};
ghost use Rattle.sql_rows.specs.Meaning.{kept_from, seat_from};
ghost use Rattle.sql_rows.specs.Standing.{StandsSound, firm_in};
ghost use Rattle.sql_reads.specs.Fed.{AreCounted};
ghost use Rattle.sql_reads.specs.Parts.{drawn_by, part_at, part_of};
ghost use Rattle.sql_reads.specs.Parts.{with_totals_at, with_totals_from};
ghost use Rattle.sql_reads.specs.Shown.{AreNumbersOf, kept_at, numbered_from, rows_at, seat_at};

use crate::columns::{entry_in, head_in, number_at, seat_in, select_entry, select_head};
use crate::query::{RowTaking, hand_rows, rows_of};
use firm_rows::{MatterRow, MatterRowSink};
use matter_parts::{Figures, Kept, Matter, is_sound_whole};
use matter_rows::{Head, Seat};
use sql_rows::{entry_of, head_of, seat_of, totals_of};
use sqlite::{Alter, Connection, Row};
use sqlite_value::value::ValueRef;
use std::alloc::Global;
use trust_base::{EntryNo, MatterNo, StoreFault};

// The head of a matter, with its totals.
const HEAD: &str = select_head!(" FROM matter_v2 WHERE no = ?1 ORDER BY rowid");

// The head of the first matter after a number, and its number.
const NEXT_HEAD: &str = select_head!(", no FROM matter_v2 WHERE no > ?1 ORDER BY no LIMIT 1");

// The seats of a matter, by person.
const SEATS: &str = "SELECT person, role FROM seat_v2 WHERE matter = ?1 ORDER BY person, rowid";

// The entries of a matter, by number.
const ENTRIES: &str = select_entry!(" FROM entry_v2 WHERE matter = ?1 ORDER BY no, rowid");

// An entry of a matter.
const ENTRY: &str = select_entry!(" FROM entry_v2 WHERE matter = ?1 AND no = ?2 ORDER BY rowid");

// The head of a matter, and its stored totals.
struct HeadWithTotals {
    head: Head,
    figures: Figures,
}

// Written by hand, so that a function that holds one makes one call at each exit.
impl Drop for HeadWithTotals {
    fn drop(self) {
        let HeadWithTotals {
            head: _head,
            figures: _,
        } = self;
    }
}

impl HeadWithTotals {
    // Builds the matter of this head.
    fn into_matter(self, seats: Vec<Seat>, kept: Vec<Kept>) -> Result<Matter, StoreFault>
        ensures { IfOk result (λ part. part ≡ part_of (Some self) seats.items kept.items) }
    {
        let HeadWithTotals { head, figures } = self;
        Matter::of_part(Some(head), seats, figures, kept)
    }
}

// Reads a seat of a matter from a row.
fn read_seat(alloc: Global, matter: MatterNo, row: &Row) -> Result<Seat, StoreFault>
    ensures { IfOk result (λ s. s ≡ seat_at matter row.now) }
{
    let columns = seat_in(matter.get() as i64, row)?;
    seat_of(alloc, matter, columns)
}

// Reads the seats of a matter from their rows.
fn read_seats(alloc: Global, matter: MatterNo, rows: &[Row]) -> Result<Vec<Seat>, StoreFault>
    ensures { IfOk result (λ seats. (xs : List ShownSeat) → rows.now ≡ map seat_shown xs
        → seats.items ≡ map seat_from xs) }
{
    let mut seats = Vec::new(alloc);
    'each: for row in rows {
        let seat = read_seat(alloc, matter, row)?;
        seats.push(seat)?;
    }
    Ok(seats)
}

// Reads a head with its totals from a row.
fn read_head(alloc: Global, matter: MatterNo, row: &Row) -> Result<HeadWithTotals, StoreFault>
    ensures { IfOk result (λ h. (x : HeadRow) → row.now ≡ head_shown x → h ≡ with_totals_from x) }
{
    let columns = head_in(matter.get() as i64, row)?;
    let figures = totals_of(columns)?;
    let head = head_of(alloc, columns)?;
    Ok(HeadWithTotals { head, figures })
}

// Reads an entry of a matter from a row.
fn read_entry(alloc: Global, matter: MatterNo, row: &Row) -> Result<Kept, StoreFault>
    ensures { IfOk result (λ k. k ≡ kept_at matter row.now) }
{
    let columns = entry_in(matter.get() as i64, row)?;
    entry_of(alloc, matter, columns)
}

// Reads entries of a matter from their rows.
fn read_entries(alloc: Global, matter: MatterNo, rows: &[Row]) -> Result<Vec<Kept>, StoreFault>
    ensures { IfOk result (λ kept. (xs : List ShownEntry) → rows.now ≡ map numbered_shown xs
        → kept.items ≡ map kept_from xs) }
{
    let mut kept = Vec::new(alloc);
    'each: for row in rows {
        let entry = read_entry(alloc, matter, row)?;
        kept.push(entry)?;
    }
    Ok(kept)
}

// Returns the head of a matter with its totals, or `None` if it was never opened.
fn opened_head<S: Alter>(
    conn: &mut Connection<S>,
    alloc: Global,
    matter: MatterNo,
) -> Result<Option<HeadWithTotals>, StoreFault>
    requires { conn.old.in_transaction ≡ false }
    ensures mode { conn.new.in_transaction ≡ false }
    ensures found { (l : Layout) → HasCleanDisk (state S.Store conn.new) → Stands l (state S.Store conn.old).now
        → IfOk result (λ h. h ≡ with_totals_at matter (lists_in l (state S.Store conn.old).now.trees)) }
    ensures left { LeavesAll result (state S.Store conn.old) (state S.Store conn.new) }
{
    let rows = rows_of(conn, HEAD, &[ValueRef::Int(matter.get() as i64)])?;
    match rows.first() {
        None => Ok(None),
        Some(row) => Ok(Some(read_head(alloc, matter, row)?)),
    }
}

// Returns the seats of a matter, by person in byte order.
fn seats_of_matter<S: Alter>(
    conn: &mut Connection<S>,
    alloc: Global,
    matter: MatterNo,
) -> Result<Vec<Seat>, StoreFault>
    requires { conn.old.in_transaction ≡ false }
    ensures mode { conn.new.in_transaction ≡ false }
    ensures found { (l : Layout) → HasCleanDisk (state S.Store conn.new) → Stands l (state S.Store conn.old).now
        → IfOk result (λ seats. seats.items ≡ (part_at matter (lists_in l (state S.Store conn.old).now.trees)).seats) }
    ensures left { LeavesAll result (state S.Store conn.old) (state S.Store conn.new) }
{
    let rows = rows_of(conn, SEATS, &[ValueRef::Int(matter.get() as i64)])?;
    read_seats(alloc, matter, &rows)
}

// Returns the head of a matter with its totals, or `None` if it was never opened, and its seats, by person in byte
// order.
fn head_and_seats<S: Alter>(
    conn: &mut Connection<S>,
    alloc: Global,
    matter: MatterNo,
) -> Result<(Option<HeadWithTotals>, Vec<Seat>), StoreFault>
    requires { conn.old.in_transaction ≡ false }
    ensures mode { conn.new.in_transaction ≡ false }
    ensures head { (l : Layout) → HasCleanDisk (state S.Store conn.new) → Stands l (state S.Store conn.old).now
        → IfOk result (λ r. r.0 ≡ with_totals_at matter (lists_in l (state S.Store conn.old).now.trees)) }
    ensures seats { (l : Layout) → HasCleanDisk (state S.Store conn.new) → Stands l (state S.Store conn.old).now
        → IfOk result (λ r. r.1.items
        ≡ (part_at matter (lists_in l (state S.Store conn.old).now.trees)).seats) }
    ensures left { LeavesAll result (state S.Store conn.old) (state S.Store conn.new) }
{
    let opened = opened_head(conn, alloc, matter)?;
    let seats = seats_of_matter(conn, alloc, matter)?;
    Ok((opened, seats))
}

// Returns the entries of a matter by number, each with what is left of it.
fn entries_of<S: Alter>(
    conn: &mut Connection<S>,
    alloc: Global,
    matter: MatterNo,
) -> Result<Vec<Kept>, StoreFault>
    requires { conn.old.in_transaction ≡ false }
    ensures mode { conn.new.in_transaction ≡ false }
    ensures found { (l : Layout) → HasCleanDisk (state S.Store conn.new) → Stands l (state S.Store conn.old).now
        → IfOk result (λ kept. kept.items ≡ (part_at matter (lists_in l (state S.Store conn.old).now.trees)).kept) }
    ensures left { LeavesAll result (state S.Store conn.old) (state S.Store conn.new) }
{
    let rows = rows_of(conn, ENTRIES, &[ValueRef::Int(matter.get() as i64)])?;
    read_entries(alloc, matter, &rows)
}

// Returns the entry of this number, if it is kept.
fn found(kept: &[Kept], number: EntryNo) -> Option<&Kept>
    ensures { option_copied result ≡ kept_in kept.now number }
{
    let number = number.get();
    kept.iter().find(|k| k.number.get() == number)
}

// Returns the number of the entry that the named one draws on, if one is named, is kept, and draws on one.
fn drawn_on(kept: &[Kept], named: Option<EntryNo>) -> Option<EntryNo>
    ensures { number_or_none result ≡ drawn_by kept.now named }
{
    found(kept, named?)?.entry.target()
}

// Builds the matter from what was read; without a head its totals are zero.
fn matter_of(
    opened: Option<HeadWithTotals>,
    seats: Vec<Seat>,
    kept: Vec<Kept>,
) -> Result<Matter, StoreFault>
    ensures { IfOk result (λ part. part ≡ part_of opened seats.items kept.items) }
{
    match opened {
        None => Matter::of_part(None, seats, Figures::none(), kept),
        Some(opened) => opened.into_matter(seats, kept),
    }
}

/// Returns a matter with its totals and all its entries in order; without any row if it was never opened. Whatever
/// the tables hold, the result is whole and sound. Returns `Store` for rows that are not, for totals that are not
/// those of the rows, and for an entry whose number or amount left is not what the rows make it.
pub fn whole_matter<S: Alter>(
    conn: &mut Connection<S>,
    alloc: Global,
    matter: MatterNo,
) -> Result<Matter, StoreFault>
    requires { conn.old.in_transaction ≡ false }
    ensures mode { conn.new.in_transaction ≡ false }
    // The matter is what the tables hold of it.
    ensures read { (l : Layout) → HasCleanDisk (state S.Store conn.new) → Stands l (state S.Store conn.old).now
        → IfOk result (λ part. part ≡ part_at matter (lists_in l (state S.Store conn.old).now.trees)) }
    // It is sound: if the rows are not, none of them is returned.
    ensures audited { IfOk result IsSoundWhole }
    ensures found { (l : Layout) → HasCleanDisk (state S.Store conn.new) → StandsSound l (state S.Store conn.old).now
        → IfOk result (λ part. IsWhole part (of matter (firm_in l (state S.Store conn.old).now.trees))) }
    ensures left { LeavesAll result (state S.Store conn.old) (state S.Store conn.new) }
{
    let (opened, seats) = head_and_seats(conn, alloc, matter)?;
    let kept = entries_of(conn, alloc, matter)?;
    let found = matter_of(opened, seats, kept)?;
    if !is_sound_whole(alloc, &found)? {
        return Err(StoreFault::Store);
    }
    Ok(found)
}

/// Returns a matter with its head, seats and totals, the named entries and those that they draw on; without any row
/// if it was never opened. Reads no other entries, so at most four. Returns `Store` if the totals, or what is left of
/// an entry that it reads, are values that no matter can have.
pub fn matter_for<S: Alter>(
    conn: &mut Connection<S>,
    alloc: Global,
    matter: MatterNo,
    entry: Option<EntryNo>,
    other: Option<EntryNo>,
) -> Result<Matter, StoreFault>
    requires { conn.old.in_transaction ≡ false }
    ensures mode { conn.new.in_transaction ≡ false }
    ensures found { (l : Layout) → HasCleanDisk (state S.Store conn.new) → StandsSound l (state S.Store conn.old).now
        → IfOk result (λ part. IsPartFor (of matter (firm_in l (state S.Store conn.old).now.trees)) entry other part) }
    ensures left { LeavesAll result (state S.Store conn.old) (state S.Store conn.new) }
{
    let (opened, seats) = head_and_seats(conn, alloc, matter)?;
    let Some(opened) = opened else {
        return Ok(Matter::unopened(alloc));
    };
    // The named entries, and then those that they draw on.
    let mut kept = Vec::new(alloc);
    'turns: for turn in 0..4usize {
        let wanted = match turn {
            0 => entry,
            1 => other,
            2 => drawn_on(&kept, entry),
            _ => drawn_on(&kept, other),
        };
        let Some(number) = wanted else {
            continue;
        };
        if found(&kept, number).is_some() {
            continue;
        }
        let key = [
            ValueRef::Int(matter.get() as i64),
            ValueRef::Int(number.get() as i64),
        ];
        let rows = rows_of(conn, ENTRY, &key)?;
        let Some(row) = rows.first() else {
            continue;
        };
        let columns = entry_in(matter.get() as i64, row)?;
        kept.push(entry_of(alloc, matter, columns)?)?;
    }
    opened.into_matter(seats, kept)
}

// Reads the number of a head from a column. Returns `Store` if no matter can have it.
fn matter_at(row: &Row, at: usize) -> Result<MatterNo, StoreFault>
    ensures { IfOk result (λ m. column row.now at ≡ Int (pos m)) }
{
    let number = number_at(row, at)?;
    if number < 0 || number > 99_999_999 {
        return Err(StoreFault::Store);
    }
    MatterNo::from_number(number as u32).ok_or(StoreFault::Store)
}

// Reads the numbers of rows that have one each.
fn numbers_in(alloc: Global, rows: &[Row]) -> Result<Vec<MatterNo>, StoreFault>
    ensures { IfOk result (λ numbers. (hs : List HeadRow) → rows.now ≡ map no_shown hs
        → AreNumbersOf hs numbers.items) }
{
    let mut numbers = Vec::new(alloc);
    'each: for row in rows {
        let number = matter_at(row, 0)?;
        numbers.push(number)?;
    }
    Ok(numbers)
}

/// Returns the numbers of all matters that have a head, in ascending order. Returns `Store` for a number that no matter
/// can have. Looks at no other rows, and at no more of a head.
pub fn opened_matters<S: Alter>(
    conn: &mut Connection<S>,
    alloc: Global,
) -> Result<Vec<MatterNo>, StoreFault>
    requires { conn.old.in_transaction ≡ false }
    ensures mode { conn.new.in_transaction ≡ false }
    ensures read { (l : Layout) → HasCleanDisk (state S.Store conn.new) → Stands l (state S.Store conn.old).now
        → IfOk result (λ numbers. AreNumbersOf (heads_in l (state S.Store conn.old).now.trees) numbers.items) }
    ensures found { (l : Layout) → HasCleanDisk (state S.Store conn.new) → Stands l (state S.Store conn.old).now
        → IfOk result (λ numbers. numbers.items ≡ opened_matters (firm_in l (state S.Store conn.old).now.trees)) }
    ensures left { LeavesAll result (state S.Store conn.old) (state S.Store conn.new) }
{
    let rows = rows_of(conn, "SELECT no FROM matter_v2 ORDER BY no", &[])?;
    numbers_in(alloc, &rows)
}

// Takes the rows of a matter's seats.
#[derive(Drop)]
struct SeatTaking {
    alloc: Global,
    matter: MatterNo,
}

impl<K: MatterRowSink> RowTaking<K> for SeatTaking {
    ghost use Rattle.firm_rows.specs.Firm.{SeatRow};
    ghost use Rattle.sql_reads.specs.Shown.{seat_at};

    ghost taken = { λ t sink row. K.taken sink (t.matter, SeatRow (seat_at t.matter row)) };

    ghost fits = { λ _ _. Unit {0} };

    fn take(&self, row: &Row, sink: &mut K) -> Result<(), StoreFault> {
        let seat = read_seat(self.alloc, self.matter, row)?;
        sink.matter_row(self.matter, MatterRow::Seat(&seat))?;
        Ok(())
    }
}

// Takes the rows of a matter's entries.
#[derive(Drop)]
struct EntryTaking {
    alloc: Global,
    matter: MatterNo,
}

impl<K: MatterRowSink> RowTaking<K> for EntryTaking {
    ghost use Rattle.firm_rows.specs.Firm.{EntryRow};
    ghost use Rattle.sql_reads.specs.Shown.{kept_at};

    ghost taken = { λ t sink row.
        K.taken sink (t.matter, EntryRow (kept_at t.matter row).number (kept_at t.matter row).entry) };

    ghost fits = { λ _ _. Unit {0} };

    fn take(&self, row: &Row, sink: &mut K) -> Result<(), StoreFault> {
        // The entry ends before the answer is looked at, so that there is one exit that drops it.
        let told = {
            let kept = read_entry(self.alloc, self.matter, row)?;
            sink.matter_row(self.matter, MatterRow::Entry(kept.number, &kept.entry))
        };
        told?;
        Ok(())
    }
}

// Returns how many rows a matter has: its head, its seats and its entries. Returns `Store` for 2^64 or more.
fn row_count(seats: u64, entries: u64) -> Result<u64, StoreFault>
    ensures { IfOk result (λ n. n ≡ seats + entries + 1) }
{
    let others = seats.checked_add(entries).ok_or(StoreFault::Store)?;
    others.checked_add(1).ok_or(StoreFault::Store)
}

// Returns the first head behind a number, and its number, or `None` behind the last.
fn next_head<S: Alter>(
    conn: &mut Connection<S>,
    alloc: Global,
    after: i64,
) -> Result<Option<(MatterNo, Head)>, StoreFault>
    requires { conn.old.in_transaction ≡ false }
    ensures mode { conn.new.in_transaction ≡ false }
    ensures found { (l : Layout) → HasCleanDisk (state S.Store conn.new) → Stands l (state S.Store conn.old).now
        → IfOk result (λ next. next
        ≡ option_map numbered_from (find (is_past after) (heads_in l (state S.Store conn.old).now.trees))) }
    ensures left { LeavesAll result (state S.Store conn.old) (state S.Store conn.new) }
{
    let rows = rows_of(conn, NEXT_HEAD, &[ValueRef::Int(after)])?;
    let Some(row) = rows.first() else {
        return Ok(None);
    };
    let matter = matter_at(row, 12)?;
    let columns = head_in(matter.get() as i64, row)?;
    Ok(Some((matter, head_of(alloc, columns)?)))
}

// Passes the rows of a matter to the sink: its head, its seats and its entries. Returns how many they are.
fn hand_matter<S: Alter, K: MatterRowSink>(
    conn: &mut Connection<S>,
    alloc: Global,
    matter: MatterNo,
    head: &Head,
    sink: &mut K,
) -> Result<u64, StoreFault>
    requires { conn.old.in_transaction ≡ false }
    ensures mode { conn.new.in_transaction ≡ false }
    ensures handed { (l : Layout) → HasCleanDisk (state S.Store conn.new) → Stands l (state S.Store conn.old).now
        → AreCounted K.taken (rows_at (lists_in l (state S.Store conn.old).now.trees) (matter, head.now))
        result sink.old sink.new }
    ensures left { LeavesAll result (state S.Store conn.old) (state S.Store conn.new) }
{
    sink.matter_row(matter, MatterRow::Head(head))?;
    let key = [ValueRef::Int(matter.get() as i64)];
    let seats = hand_rows(conn, SEATS, &key, &SeatTaking { alloc, matter }, sink)?;
    let entries = hand_rows(conn, ENTRIES, &key, &EntryTaking { alloc, matter }, sink)?;
    row_count(seats, entries)
}

// Returns `Store` if there is a head of the least number, which no matter has: the walk over the heads starts after it.
fn refuse_least<S: Alter>(conn: &mut Connection<S>) -> Result<(), StoreFault>
    requires { conn.old.in_transaction ≡ false }
    ensures mode { conn.new.in_transaction ≡ false }
    ensures left { LeavesAll result (state S.Store conn.old) (state S.Store conn.new) }
{
    let heads = rows_of(conn, HEAD, &[ValueRef::Int(i64::MIN)])?;
    if !heads.is_empty() {
        return Err(StoreFault::Store);
    }
    Ok(())
}

/// Passes each row of each matter to the sink: matters by number, and in each the head, the seats by person and the
/// entries by number. Stops with `Memory` if memory runs out, and with `Store` at a row that is invalid or past the
/// 2^64 - 1st; the sink keeps the rows before it. Holds one row at a time, so memory does not grow with their number.
pub fn each_row<S: Alter, K: MatterRowSink>(
    conn: &mut Connection<S>,
    alloc: Global,
    sink: &mut K,
) -> Result<(), StoreFault>
    requires { conn.old.in_transaction ≡ false }
    ensures mode { conn.new.in_transaction ≡ false }
    ensures handed { (l : Layout) → HasCleanDisk (state S.Store conn.new) → StandsSound l (state S.Store conn.old).now
        → AreHanded K.taken IsRowInRange (firm_in l (state S.Store conn.old).now.trees).rows
        result sink.old sink.new }
    ensures left { LeavesAll result (state S.Store conn.old) (state S.Store conn.new) }
{
    refuse_least(conn)?;
    let mut after = i64::MIN;
    let mut count: u64 = 0;
    'matters: for _ in 0..u64::MAX {
        let Some(next) = next_head(conn, alloc, after)? else {
            return Ok(());
        };
        let (matter, head) = next;
        let rows = hand_matter(conn, alloc, matter, &head, sink)?;
        count = count.checked_add(rows).ok_or(StoreFault::Store)?;
        after = matter.get() as i64;
    }
    Err(StoreFault::Store)
}
