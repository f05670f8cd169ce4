// Serves a stream, and writes the bytes of answers.

ghost use Rattle.std.specs.Prelude.{◌≡◌, ◌≤◌, ◌<◌, ℕ, ◌++◌, length, take, IfOk, OnOk, OnErr};
ghost use Rattle.std.specs.Io.KnownBytes.{Appends};
ghost use Rattle.portal_http.specs.Answers.{head_text, kind_of, phrase_of, reply_bytes};
ghost use Rattle.portal_http.specs.Served.{Served};

use arrayvec::ArrayVec;
use byte_streams::{push_number, push_piece};
use portal_messages::{Input, Message, Next, Stop, read_message};
use portal_requests::{Routes, request_of};
use std::alloc::{AllocError, Global};
use std::io::{Read, Write};
use trust_base::{Day, Refusal, WriteFault, send};
use trust_desk::{Body, Desk, Reply};
use trust_store::Book;

// The head of an answer, kept on the stack.
type HeadText = ArrayVec<u8, 160>;

// The reason phrase of a status that replies use.
fn phrase(status: u16) -> &'static str
    ensures value { result.now ≡ phrase_of status }
    ensures bound { length result.now ≤ 20 }
{
    match status {
        200 => "OK",
        201 => "Created",
        400 => "Bad Request",
        401 => "Unauthorized",
        403 => "Forbidden",
        404 => "Not Found",
        405 => "Method Not Allowed",
        409 => "Conflict",
        410 => "Gone",
        411 => "Length Required",
        413 => "Payload Too Large",
        422 => "Unprocessable Entity",
        503 => "Service Unavailable",
        _ => "",
    }
}

// The media type of a body.
fn kind(body: &Body) -> &'static str
    ensures value { result.now ≡ kind_of body.now }
    ensures bound { length result.now ≤ 25 }
{
    match body {
        Body::Json(_) | Body::Refused(_) => "application/json",
        Body::Text(_) => "text/plain; charset=utf-8",
    }
}

// Builds the head of an answer with a body of this kind and size.
fn head(status: u16, kind: &str, size: usize) -> HeadText
    requires { length kind.now ≤ 25 }
    ensures { result.items ≡ head_text status kind.now size }
{
    let mut text = HeadText::new();
    push_piece(&mut text, b"HTTP/1.1 ");
    push_number(&mut text, status as u64);
    push_piece(&mut text, b" ");
    push_piece(&mut text, phrase(status).as_bytes());
    push_piece(&mut text, b"\r\ncontent-type: ");
    push_piece(&mut text, kind.as_bytes());
    push_piece(&mut text, b"\r\ncontent-length: ");
    push_number(&mut text, size as u64);
    push_piece(&mut text, b"\r\n\r\n");
    text
}

// Writes two texts, one after the other. After a fault only a prefix of them was written.
fn send_both<W: Write>(writer: &mut W, first: &[u8], second: &[u8]) -> Result<(), WriteFault>
    ensures ok { OnOk result (Appends (W.contents writer.old) (W.contents writer.new) (first.now ++ second.now)) }
    ensures err { OnErr result ((n : ℕ) × (n < length (first.now ++ second.now))
        × Appends (W.contents writer.old) (W.contents writer.new) (take n (first.now ++ second.now))) }
{
    match send(writer, first) {
        Ok(()) => send(writer, second),
        Err(fault) => Err(fault),
    }
}

/// Writes the bytes of a reply, as `bytes_of` returns them. After a fault only a prefix of them was written. Does not
/// allocate.
pub fn write_reply<W: Write>(reply: &Reply, writer: &mut W) -> Result<(), WriteFault>
    ensures ok { OnOk result (Appends (W.contents writer.old) (W.contents writer.new) (reply_bytes reply.now)) }
    ensures err { OnErr result ((n : ℕ) × (n < length (reply_bytes reply.now))
        × Appends (W.contents writer.old) (W.contents writer.new) (take n (reply_bytes reply.now))) }
{
    let kind = kind(&reply.body);
    match &reply.body {
        Body::Json(text) | Body::Text(text) => {
            let body = text.as_slice();
            send_both(
                writer,
                head(reply.status, kind, body.len()).as_slice(),
                body,
            )
        }
        Body::Refused(refusal) => {
            let text = refusal.json();
            let body = text.as_slice();
            send_both(
                writer,
                head(reply.status, kind, body.len()).as_slice(),
                body,
            )
        }
    }
}

// Joins two texts. Fails if memory runs out.
fn joined(alloc: Global, first: &[u8], second: &[u8]) -> Result<Vec<u8>, AllocError>
    ensures { IfOk result (λ bytes. bytes.items ≡ first.now ++ second.now) }
{
    let mut bytes = Vec::from_slice(alloc, first)?;
    bytes.extend_from_slice(second)?;
    Ok(bytes)
}

/// Returns the bytes of a reply: its status line, `content-type` and `content-length`, an empty line and its body
/// (RFC 9112). Fails if memory runs out.
pub fn bytes_of(alloc: Global, reply: &Reply) -> Result<Vec<u8>, AllocError>
    ensures { IfOk result (λ bytes. bytes.items ≡ reply_bytes reply.now) }
{
    let kind = kind(&reply.body);
    match &reply.body {
        Body::Json(text) | Body::Text(text) => {
            let body = text.as_slice();
            joined(alloc, head(reply.status, kind, body.len()).as_slice(), body)
        }
        Body::Refused(refusal) => {
            let text = refusal.json();
            let body = text.as_slice();
            joined(alloc, head(reply.status, kind, body.len()).as_slice(), body)
        }
    }
}

// The most messages of a stream that are answered.
const MAX_MESSAGES: usize = 1_000;

/// How a stream ended.
#[derive(Clone, Copy)]
pub enum StreamEnd {
    /// All messages were answered, and the stream ended after them.
    Ended,
    /// The bytes after the last message were not a valid message; an error response was sent.
    BadFraming,
    /// The 1,000th message was answered. The bytes after it were not looked at.
    Limit,
    /// A read failed or was interrupted. All messages before that were answered.
    ReadFault,
    /// A write failed or was interrupted. The message that was being answered was carried out.
    WriteFault,
    /// Out of memory for the routes or the next message; an error response was sent.
    NoMemory,
}

/// Serves a stream as `serve_stream` does, with these routes.
pub(crate) fn serve_routes<R: Read + Drop, W: Write, B: Book>(
    alloc: Global,
    reader: R,
    writer: &mut W,
    desk: &mut Desk<B>,
    routes: &Routes,
    day: Day,
) -> StreamEnd
    ensures { Served day (R.remaining reader)
        (W.contents writer.old) (B.seen desk.old) result (W.contents writer.new) (B.seen desk.new) }
{
    let mut input = Input::new(alloc, reader);
    for _ in 0..MAX_MESSAGES {
        let message = match read_message(&mut input) {
            Ok(Next::Message(message)) => message,
            Ok(Next::Ended) => return StreamEnd::Ended,
            Ok(Next::Framing(why)) => {
                return match write_reply(&Reply::refused(why), writer) {
                    Ok(()) => StreamEnd::BadFraming,
                    Err(_) => StreamEnd::WriteFault,
                };
            }
            Err(Stop::Reader) => return StreamEnd::ReadFault,
            Err(Stop::Memory) => {
                return match write_reply(&Reply::refused(Refusal::Memory), writer) {
                    Ok(()) => StreamEnd::NoMemory,
                    Err(_) => StreamEnd::WriteFault,
                };
            }
        };
        let reply = match request_of(alloc, routes, &message) {
            Ok(request) => desk.answer(alloc, &request, day),
            Err(why) => Reply::refused(why),
        };
        match write_reply(&reply, writer) {
            Ok(()) => (),
            Err(_) => return StreamEnd::WriteFault,
        }
    }
    StreamEnd::Limit
}

/// Serves a stream to its end: answers its messages one by one, in order, on a business day. Holds one message at a
/// time.
///
/// Writes the bytes of the replies to the stream's messages and then, if something follows that is not a message, of
/// the refusal, however the stream is cut into reads. If the book's store is clean when the call ends and the book
/// stood for a sound firm when it began, replies and rows are those of the firm's steps, one message after another.
/// The firm is sound after each, no ledger is ever below zero, and each matter is answered by its own machine.
///
/// If the store was clean when the call began and no reply except the last is `Store` or `Memory`, a crash after the
/// call may leave what it might have left before, or the rows after some first messages and a part of the next. If no
/// reply is either, a store that was clean is still clean, and a settled book is settled.
///
/// To answer the messages of a reader into a writer:
///
///     let end = serve_stream(alloc, messages, &mut answers, &mut desk, today);    // StreamEnd::Ended
pub fn serve_stream<R: Read + Drop, W: Write, B: Book>(
    alloc: Global,
    reader: R,
    writer: &mut W,
    desk: &mut Desk<B>,
    day: Day,
) -> StreamEnd
    ensures { Served day (R.remaining reader)
        (W.contents writer.old) (B.seen desk.old) result (W.contents writer.new) (B.seen desk.new) }
{
    match Routes::new(alloc) {
        Ok(routes) => serve_routes(alloc, reader, writer, desk, &routes, day),
        Err(_) => match write_reply(&Reply::refused(Refusal::Memory), writer) {
            Ok(()) => StreamEnd::NoMemory,
            Err(_) => StreamEnd::WriteFault,
        },
    }
}
