// Calls of a book and of a matter's rows that the program does not make.

use crate::answers::{Answers, ask_each};
use crate::messages::{BOOK, CLEAR, FEE, OPEN};
use matter_parts::fee_left;
use sql_book::SqlBook;
use sqlite::Connection;
use std::alloc::Global;
use trust_base::{Day, EntryNo, MatterNo};
use trust_desk::Desk;
use trust_store::{Book, PlainBook};

// The version of the tables of a new book in a database in memory.
fn version_of_new(alloc: Global) -> Option<i64> {
    let conn = Connection::open_in_memory(alloc).ok()?;
    let mut book = SqlBook::make(alloc, conn).ok()?;
    book.version().ok()
}

#[test]
fn a_new_book_has_tables_of_version_2(rt: HostRuntime) {
    assert_eq!(rt; version_of_new(rt.alloc()), Some(2));
}

// What is left of an entry of matter 000001, in cents, if it is a fee; the fee of 100.00 is its second entry.
fn left_of(alloc: Global, day: Day, entry: u16) -> Option<u64> {
    let mut desk = Desk::new(PlainBook::new(alloc));
    let mut answers = Answers::new(alloc);
    ask_each(
        alloc,
        &mut desk,
        day,
        &[OPEN, BOOK, CLEAR, FEE],
        &mut answers,
    );
    let mut book = desk.into_book();
    let matter = book.matter(alloc, MatterNo::from_number(1)?).ok()?;
    let number = EntryNo::from_number(entry)?;
    if !matter.holds(number) {
        return None;
    }
    fee_left(&matter, number)
}

#[test]
fn what_is_left_of_a_fee_is_the_fee_until_something_is_paid_of_it(rt: HostRuntime) {
    let day = Day::read(b"2024-02-01").expect(&rt, "a day");
    assert_eq!(rt; left_of(rt.alloc(), day, 2), Some(10_000));
    assert_eq!(rt; left_of(rt.alloc(), day, 1), None);
}
