// A book that refuses a write, and a reader and a writer that fail, under messages of one matter.

use crate::answers::{Answers, Asks, ask};
use crate::messages::{APPROVE, BOOK, CLEAR, OPEN, PROPOSE, SHOW, SHOWING};
use crate::refusing::RefusingBook;
use crate::trial::{TrialReader, TrialWriter};
use portal_http::{StreamEnd, serve_stream};
use std::alloc::Global;
use trust_base::Day;
use trust_desk::Desk;
use trust_store::{Book, PlainBook};

// The approval is the fifth write.
const BEFORE: Asks<'_> = &[&[OPEN, BOOK, CLEAR, PROPOSE]];

const APPROVING: Asks<'_> = &[&[APPROVE]];

const BEHIND: Asks<'_> = &[&[SHOW, APPROVE, SHOW], SHOWING];

// How many of the answers to an approval say that something was not accepted, and what is answered behind it.
fn answers_behind<B: Book>(
    alloc: Global,
    desk: &mut Desk<B>,
    day: Day,
    asks: Asks<'_>,
) -> (u64, Vec<u8>) {
    let mut first = Answers::new(alloc);
    ask(alloc, desk, day, BEFORE, &mut first);
    ask(alloc, desk, day, asks, &mut first);
    let mut behind = Answers::new(alloc);
    ask(alloc, desk, day, BEHIND, &mut behind);
    (first.refusals, behind.bytes)
}

#[test]
fn an_approval_that_the_book_refuses_is_accepted_when_it_is_sent_again(rt: HostRuntime) {
    let alloc = rt.alloc();
    let day = Day::read(b"2024-02-01").expect(&rt, "a day");
    let mut refusing = Desk::new(RefusingBook::new(PlainBook::new(alloc), 5));
    let (refusals, answers) = answers_behind(alloc, &mut refusing, day, APPROVING);
    assert_eq!(rt; refusals, 1);
    let mut plain = Desk::new(PlainBook::new(alloc));
    let (none, wanted) = answers_behind(alloc, &mut plain, day, &[]);
    assert_eq!(rt; none, 0);
    assert!(rt; answers == wanted);
}

// How a stream of two messages ends and what is written, with the first reads and the first writes alone.
fn served(alloc: Global, day: Day, reads: u64, writes: u64) -> (StreamEnd, Vec<u8>) {
    let mut desk = Desk::new(PlainBook::new(alloc));
    let mut writer = TrialWriter::new(alloc, 40, writes);
    let reader = TrialReader::new(TWO, 50, reads);
    let end = serve_stream(alloc, reader, &mut writer, &mut desk, day);
    (end, writer.written)
}

const TWO: &[u8] = b"GET /matters/000001 HTTP/1.1\r\nx-caller: cashier\r\n\r\n\
        GET /firm/exceptions HTTP/1.1\r\nx-caller: cashier\r\n\r\n";

#[test]
fn a_stream_is_read_and_written_until_a_call_fails(rt: HostRuntime) {
    let alloc = rt.alloc();
    let day = Day::read(b"2024-02-01").expect(&rt, "a day");
    let (end, whole) = served(alloc, day, 100, 100);
    assert!(rt; matches!(end, StreamEnd::Ended));
    let (end, one) = served(alloc, day, 2, 100);
    assert!(rt; matches!(end, StreamEnd::ReadFault));
    assert!(rt; !one.is_empty() && one.len() < whole.len() && whole.starts_with(&one));
    let (end, part) = served(alloc, day, 100, 1);
    assert!(rt; matches!(end, StreamEnd::WriteFault));
    assert!(rt; part.len() == 40 && whole.starts_with(&part));
}
