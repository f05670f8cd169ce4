// Messages that are asked of a desk, and what it answers.

use portal_http::serve_stream;
use std::alloc::Global;
use trust_base::Day;
use trust_desk::Desk;
use trust_store::Book;

/// Messages in lists one after the other. Each is asked as a stream of its own.
pub(crate) type Asks<'a> = &'a [&'a [&'a str]];

/// What was answered, and how many answers say that something was not accepted.
#[derive(Drop)]
pub(crate) struct Answers {
    pub(crate) bytes: Vec<u8>,
    pub(crate) refusals: u64,
}

impl Answers {
    /// Nothing was asked yet.
    pub(crate) fn new(alloc: Global) -> Answers {
        Answers {
            bytes: Vec::new(alloc),
            refusals: 0,
        }
    }
}

/// Asks messages on a day, and adds their answers.
pub(crate) fn ask_each<B: Book>(
    alloc: Global,
    desk: &mut Desk<B>,
    day: Day,
    messages: &[&str],
    answers: &mut Answers,
) {
    for message in messages {
        let begin = answers.bytes.len();
        serve_stream(alloc, message.as_bytes(), &mut answers.bytes, desk, day);
        let answer = answers.bytes.get(begin..).unwrap_or(b"");
        if !answer.starts_with(b"HTTP/1.1 20") {
            answers.refusals = answers.refusals.saturating_add(1);
        }
    }
}

/// Does the same with the messages of several lists.
pub(crate) fn ask<B: Book>(
    alloc: Global,
    desk: &mut Desk<B>,
    day: Day,
    asks: Asks<'_>,
    answers: &mut Answers,
) {
    for messages in asks {
        ask_each(alloc, desk, day, messages, answers);
    }
}
