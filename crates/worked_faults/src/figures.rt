// The figures and lists of rows in memory, asked by one call each.

use crate::answers::{Answers, ask};
use crate::messages::HISTORY;
use figure_laws::{journal_list, reconcile_at, retention_list, trial_balance};
use firm_rows::MatterRow;
use std::alloc::Global;
use trust_base::{Day, MatterNo};
use trust_desk::Desk;
use trust_matter::Head;
use trust_store::{AllRows, Book, PlainBook};

// The rows of a firm with one matter: a cleared deposit of 500.00 and a payment of 100.00 that the bank has not paid
// yet; a line of the firm's own, an exception, and both balances of the day.
fn all_rows(alloc: Global, day: Day) -> Option<AllRows> {
    let mut desk = Desk::new(PlainBook::new(alloc));
    let mut answers = Answers::new(alloc);
    ask(alloc, &mut desk, day, &[HISTORY], &mut answers);
    let mut book = desk.into_book();
    book.all_rows(alloc).ok()
}

// Rows of matters, as they are handed.
type Rows<'a> = &'a [(MatterNo, MatterRow<'a>)];

// The closing balance, what is outstanding, the adjusted balance, the journal and the gap, in cents.
fn reconciled(alloc: Global, day: Day, rows: Rows<'_>, all: &AllRows) -> Option<[i128; 5]> {
    let figures = reconcile_at(
        alloc,
        day,
        rows,
        &all.movements,
        &all.firm_lines,
        &all.exceptions,
        &all.balances,
    )
    .ok()??
    .figures;
    Some([
        figures.closing as i128,
        figures.outstanding,
        figures.adjusted,
        figures.journal,
        figures.gap,
    ])
}

// The trial balance's TOTAL and the last sum of the journal, in cents, and how many lines the journal has.
fn listed(alloc: Global, rows: Rows<'_>, all: &AllRows) -> Option<(i128, i128, usize)> {
    let total = trial_balance(alloc, rows, &all.firm_lines).ok()?.total;
    let journal = journal_list(alloc, &all.movements).ok()?;
    Some((total, journal.last()?.sum, journal.len()))
}

// How many matters are kept of a firm whose only matter is closed on a day.
fn kept(alloc: Global, day: Day, number: MatterNo, head: &Head) -> Option<usize> {
    let mut closed = head.copied().ok()?;
    closed.closed = Some(day);
    let retained = retention_list(alloc, day, &[(number, MatterRow::Head(&closed))]).ok()?;
    Some(retained.len())
}

// What is told of the rows of a firm with one matter that has a deposit and a payment.
fn told(alloc: Global, day: Day, all: &AllRows) -> Option<([i128; 5], (i128, i128, usize), usize)> {
    let [one] = all.matters.as_slice() else {
        return None;
    };
    let (Some(head), [deposit, payment]) = (one.matter.head(), one.matter.kept()) else {
        return None;
    };
    let rows = [
        (one.number, MatterRow::Head(head)),
        (one.number, MatterRow::Entry(deposit.number, &deposit.entry)),
        (one.number, MatterRow::Entry(payment.number, &payment.entry)),
    ];
    Some((
        reconciled(alloc, day, &rows, all)?,
        listed(alloc, &rows, all)?,
        kept(alloc, day, one.number, head)?,
    ))
}

#[test]
fn figures_of_rows_in_memory(rt: HostRuntime) {
    let day = Day::read(b"2024-02-01").expect(&rt, "a day");
    let all = all_rows(rt.alloc(), day).expect(&rt, "rows");
    let wanted = (
        [68_800, 10_000, 58_800, 41_000, 137_800],
        (41_000, 41_000, 3),
        1,
    );
    assert_eq!(rt; told(rt.alloc(), day, &all), Some(wanted));
}
