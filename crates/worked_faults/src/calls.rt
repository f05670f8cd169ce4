// Calls of a desk that the program does not make: a run of requests, and one item of a statement.

use crate::answers::{Answers, Asks, ask, ask_each};
use crate::messages::{
    APPROVE, BOOK, BOOK_OTHER, CARD, CARD_OTHER, CHARGE, CLEAR, CLEAR_BOTH, CLEAR_OTHER,
    EXCEPTIONS, JOURNAL, OPEN, OPEN_OTHER, PROPOSE, SHOW, TRIAL_BALANCE,
};
use portal_http::{Input, Next, Routes, bytes_of, read_message, request_of, write_reply};
use statement_csv::Lines;
use std::alloc::Global;
use trust_base::Day;
use trust_desk::{Counted, Desk, Reply, Request};
use trust_store::PlainBook;

// Messages of two matters, some of them refused.
const MIXED: &[&str] = &[
    OPEN_OTHER,
    PROPOSE,
    OPEN,
    BOOK_OTHER,
    PROPOSE,
    CLEAR_OTHER,
    BOOK,
    OPEN_OTHER,
    CLEAR_BOTH,
    CHARGE,
    PROPOSE,
    APPROVE,
    SHOW,
    CARD,
    CARD_OTHER,
    JOURNAL,
    TRIAL_BALANCE,
    EXCEPTIONS,
];

fn request(alloc: Global, routes: &Routes, message: &str) -> Option<Request> {
    let mut input = Input::new(alloc, message.as_bytes());
    match read_message(&mut input) {
        Ok(Next::Message(message)) => request_of(alloc, routes, &message).ok(),
        _ => None,
    }
}

// Returns the requests of messages.
fn requests(alloc: Global, routes: &Routes, messages: &[&str]) -> Option<Vec<Request>> {
    let mut requests = Vec::new(alloc);
    for message in messages {
        let request = request(alloc, routes, message)?;
        requests.push(request).ok()?;
    }
    Some(requests)
}

// Whether the bytes of replies are these, those of all and those of each.
fn are_bytes(alloc: Global, replies: &[Reply], wanted: &[u8]) -> bool {
    let mut all = Vec::new(alloc);
    let mut rest = wanted;
    for reply in replies {
        let Ok(bytes) = bytes_of(alloc, reply) else {
            return false;
        };
        match rest.strip_prefix(bytes.as_slice()) {
            Some(more) if write_reply(reply, &mut all).is_ok() => rest = more,
            _ => return false,
        }
    }
    rest.is_empty() && all.as_slice() == wanted
}

// Whether a run of a stream's requests gives the replies of the stream.
fn runs_as_streamed(alloc: Global, day: Day, messages: &[&str]) -> Option<bool> {
    let routes = Routes::new(alloc).ok()?;
    let requests = requests(alloc, &routes, messages)?;
    let mut streamed = Answers::new(alloc);
    let mut first = Desk::new(PlainBook::new(alloc));
    ask_each(alloc, &mut first, day, messages, &mut streamed);
    let mut second = Desk::new(PlainBook::new(alloc));
    let ended = second.run(alloc, &requests, day);
    Some(are_bytes(alloc, ended.replies.as_slice(), streamed.bytes.as_slice()))
}

#[test]
fn a_run_of_a_streams_requests_gives_its_replies(rt: HostRuntime) {
    let day = Day::read(b"2024-02-01").expect(&rt, "a day");
    assert_eq!(rt; runs_as_streamed(rt.alloc(), day, MIXED), Some(true));
}

// A statement that clears two deposits, with a record that is no line between them; the first line comes again.
const STATEMENT: &[u8] = b"date,reference,bank_ref,amount,text\n\
        2024-02-01,M000001-0001,B1,500.00,\n\
        garbage\n\
        2024-02-01,M000002-0001,B1,200.00,\n\
        2024-02-01,M000001-0001,B1,500.00,\n";

// Whether the items are counted like this, each applied by a call of its own.
fn are_counted(alloc: Global, desk: &mut Desk<PlainBook>, day: Day, wanted: &[Counted]) -> bool {
    let mut lines = Lines::new(alloc, STATEMENT);
    for counted in wanted {
        let Ok(Some(item)) = lines.next() else {
            return false;
        };
        match desk.apply_line(alloc, &item, day) {
            Ok(found) if found == *counted => {}
            _ => return false,
        }
    }
    matches!(lines.next(), Ok(None))
}

#[test]
fn items_are_applied_one_by_one(rt: HostRuntime) {
    let day = Day::read(b"2024-02-01").expect(&rt, "a day");
    let mut desk = Desk::new(PlainBook::new(rt.alloc()));
    let mut answers = Answers::new(rt.alloc());
    let before: Asks<'_> = &[&[OPEN, BOOK, OPEN_OTHER, BOOK_OTHER]];
    ask(rt.alloc(), &mut desk, day, before, &mut answers);
    let wanted = [
        Counted::Applied,
        Counted::Unreadable,
        Counted::Applied,
        Counted::Repeated,
    ];
    assert!(rt; are_counted(rt.alloc(), &mut desk, day, &wanted));
    ask(rt.alloc(), &mut desk, day, &[&[SHOW]], &mut answers);
    assert!(rt; answers.bytes.ends_with(b"\"total\":\"500.00\"}"));
}
