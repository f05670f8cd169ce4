// Remarks about rows that are not sound.

use sql_schema::{
    ACT_TABLE, BALANCE_TABLE, ENTRY_TABLE, EXCEPTION_TABLE, FIRM_LINE_TABLE, JOURNAL_TABLE,
    MATTER_TABLE, SEAT_TABLE,
};
use std::fmt;
use trust_base::MatterNo;
use trust_desk::{Flaw, TrailFlaw, Unread};

// Writes that a matter is not the whole of sound rows, though each of them can be read.
fn write_unsound<W: fmt::Write>(f: &mut fmt::Formatter<W>, matter: MatterNo) -> fmt::Result {
    write!(
        f,
        "matter {matter} ({MATTER_TABLE}, {SEAT_TABLE}, {ENTRY_TABLE}): \
        its totals or entries are not those of sound rows"
    )
}

/// Writes what is not sound in rows, with the names of their tables.
pub fn write_flaw<W: fmt::Write>(f: &mut fmt::Formatter<W>, flaw: &Flaw) -> fmt::Result {
    match flaw {
        Flaw::Matter(matter) => write_unsound(f, *matter),
        Flaw::Entry { matter, entry } => write!(
            f,
            "entry {entry} of matter {matter} ({ENTRY_TABLE}, {JOURNAL_TABLE}): \
            the journal does not have what it moved"
        ),
        Flaw::Journal(matter) => write!(
            f,
            "matter {matter} ({JOURNAL_TABLE}): \
            its movements fall below zero, go back in time or do not add up to its ledger"
        ),
        Flaw::Movement(number) => write!(f, "row {number} of {JOURNAL_TABLE}: it is of no entry"),
        Flaw::OwnMovements => write!(
            f,
            "the firm's own money ({JOURNAL_TABLE}, {FIRM_LINE_TABLE}): \
            its movements are not the lines of its own ledger"
        ),
        Flaw::FirmLine(number) => write!(
            f,
            "row {number} of {FIRM_LINE_TABLE}: with it the firm's own money is outside 0.00 to 500.00"
        ),
        Flaw::Exception(number) => write_unsorted(f, *number, EXCEPTION_TABLE),
        Flaw::Balance(number) => write_unsorted(f, *number, BALANCE_TABLE),
    }
}

/// Writes where the trail does not fit the rows, with the names of their tables.
pub fn write_trail_flaw<W: fmt::Write>(f: &mut fmt::Formatter<W>, flaw: &TrailFlaw) -> fmt::Result {
    match flaw {
        TrailFlaw::Matter(matter) => write!(
            f,
            "matter {matter} ({ACT_TABLE}): its acts make other records than it has; \
            or it has acts and no records; \
            or it is older than its acts, and one was never its caller's to do"
        ),
        TrailFlaw::Act { matter, act } => write!(
            f,
            "act {act} of matter {matter} ({ACT_TABLE}): \
            by the matter's records it does not follow from the acts before it"
        ),
        TrailFlaw::Entry { matter, entry } => write!(
            f,
            "entry {entry} of matter {matter} ({ACT_TABLE}, {ENTRY_TABLE}): \
            its approvals are not the one of its issue, or there is no such entry"
        ),
    }
}

// Writes that the row with this number, from 1, does not sort after the one before.
fn write_unsorted<W: fmt::Write>(
    f: &mut fmt::Formatter<W>,
    number: u64,
    table: &str,
) -> fmt::Result {
    write!(
        f,
        "row {number} of {table}: it is not behind the one before"
    )
}

// Writes that the row with this number, from 1, can't be read.
fn write_unread_row<W: fmt::Write>(
    f: &mut fmt::Formatter<W>,
    number: u64,
    table: &str,
) -> fmt::Result {
    write!(f, "row {number} of {table} can't be read")
}

/// Writes which row can't be read, with the name of its table.
pub fn write_unread<W: fmt::Write>(f: &mut fmt::Formatter<W>, unread: &Unread) -> fmt::Result {
    match unread {
        Unread::Matter(matter) => write_unsound(f, *matter),
        Unread::Head(None) => write!(f, "the first row of {MATTER_TABLE} can't be read"),
        Unread::Head(Some(matter)) => write!(
            f,
            "the row of {MATTER_TABLE} behind matter {matter} can't be read"
        ),
        Unread::Seat(matter) => write!(f, "a row of {SEAT_TABLE} of matter {matter} can't be read"),
        Unread::Entry {
            matter,
            after: None,
        } => write!(
            f,
            "the first row of {ENTRY_TABLE} of matter {matter} can't be read"
        ),
        Unread::Entry {
            matter,
            after: Some(entry),
        } => write!(
            f,
            "the row of {ENTRY_TABLE} behind entry {entry} of matter {matter} can't be read"
        ),
        Unread::Movement(number) => write_unread_row(f, *number, JOURNAL_TABLE),
        Unread::FirmLine(number) => write_unread_row(f, *number, FIRM_LINE_TABLE),
        Unread::Exception(number) => write_unread_row(f, *number, EXCEPTION_TABLE),
        Unread::Balance(number) => write_unread_row(f, *number, BALANCE_TABLE),
        Unread::Act(number) => write_unread_row(f, *number, ACT_TABLE),
        Unread::Dismissal(number) => {
            write!(f, "dismissal {number} of {ACT_TABLE} can't be read")
        }
        Unread::Elsewhere => f.write_str("the rows can't be read together"),
    }
}
