// A stream that is being read, what comes next in it, and what the fields of a head say of its body.

ghost use Rattle.std.specs.Prelude.{◌≡◌, ◌≤◌, ◌<◌, [], map, length, codes, All, true};
ghost use Rattle.std.specs.Prelude.{IfOk, IfErr, OnOk, MatchBool, MatchOption, None, Result, Some};
ghost use Rattle.std.specs.List.{list_all};
ghost use Rattle.std.specs.Str.{str_eq_ignore_ascii_case};
ghost use Rattle.std.specs.Io.KnownBytes.{IsAtEnd, Keeps};
ghost use Rattle.httparse.specs.Spans.{IsHeaderWithin, header_bytes, span_bytes};
ghost use Rattle.portal_messages.specs.Heads.{front_of, is_ended, is_line_byte};
ghost use Rattle.portal_messages.specs.Fields.{body_limit, body_size, path_of, size_of, values_of};
ghost use Rattle.portal_messages.specs.FieldPlaces.{IsFirstOf, pairs_from};
ghost use Rattle.portal_messages.specs.Inputs.{IsFramed, IsNext, stays};
ghost use Rattle.portal_messages.specs.Messages.{is_framing};
ghost use Rattle.portal_messages.specs.Sources.{unread};

use crate::message::{Message, Texts};
use httparse::Status;
use httparse::spans::{EMPTY_HEADER_SPAN, HeaderSpan, RequestSpans, Span, parse_request};
use std::alloc::{AllocError, Global};
use std::io::Read;
use std::marker::Model;
use std::mem;
use trust_base::{OwnedBytes, Refusal};

// The most bytes of a head.
const MAX_HEAD_BYTES: usize = 8_192;

// The most fields of a head.
const MAX_FIELDS: usize = 64;

const MAX_LENGTH_DIGITS: usize = 10;

const MAX_BODY_BYTES: u64 = 65_536;

const MAX_STATEMENT_BYTES: u64 = 4_194_304;

fn is_all_blank(bytes: &[u8]) -> bool
    ensures { result ≡ list_all is_line_byte bytes.now }
{
    bytes.iter().all(|b| *b == b'\r' || *b == b'\n')
}

// Whether there are only bytes of empty lines, at most as many as a head may have.
fn is_blank(bytes: &[u8]) -> bool
    ensures { result ≡ is_ended bytes.now }
{
    bytes.len() <= MAX_HEAD_BYTES && is_all_blank(bytes)
}

/// Returns the first bytes, at most as many as a head may have.
pub(crate) fn first_bytes(bytes: &[u8]) -> &[u8]
    ensures { result.now ≡ front_of bytes.now }
{
    let limit = bytes.len().min(MAX_HEAD_BYTES);
    &bytes[..limit]
}

/// The position of a field's value, and the index of the next field.
#[derive(Clone, Copy)]
pub(crate) struct FieldAt {
    pub(crate) value: Span,
    pub(crate) next: usize,
}

// Field names match without regard to the case of ASCII letters (RFC 9110, 5.1).
fn is_name(name: &[u8], other: &[u8]) -> bool
    ensures { result ≡ str_eq_ignore_ascii_case name.now other.now }
{
    name.eq_ignore_ascii_case(other)
}

// Finds the first field of a name, from an index on.
fn find_field(bytes: &[u8], fields: &[HeaderSpan], from: usize, name: &[u8]) -> Option<FieldAt>
    requires within { All (IsHeaderWithin (length bytes.now)) fields.now }
    requires from { from ≤ length fields.now }
    ensures { MatchOption result (values_of name.now (pairs_from bytes.now fields.now from) ≡ [])
        (IsFirstOf name.now bytes.now fields.now from) }
{
    for i in from..fields.len() {
        let field = fields[i];
        if is_name(name, field.name.of(bytes)) {
            return Some(FieldAt {
                value: field.value,
                next: i + 1,
            });
        }
    }
    None
}

// Returns the size that `Content-Length` gives, one to ten digits: 0 without one, `None` if there are two or more.
fn read_length(bytes: &[u8], fields: &[HeaderSpan]) -> Option<u64>
    requires { All (IsHeaderWithin (length bytes.now)) fields.now }
    ensures { result ≡ size_of (values_of (codes "content-length") (map (header_bytes bytes.now) fields.now)) }
{
    let Some(first) = find_field(bytes, fields, 0, b"content-length") else {
        return Some(0);
    };
    if find_field(bytes, fields, first.next, b"content-length").is_some() {
        return None;
    }
    let text = first.value.of(bytes);
    if text.is_empty() || text.len() > MAX_LENGTH_DIGITS {
        return None;
    }
    let mut value: u64 = 0;
    for digit in text {
        if *digit < b'0' || *digit > b'9' {
            return None;
        }
        value = value * 10 + (*digit - b'0') as u64;
    }
    Some(value)
}

/// Returns the path of a request target: everything before its first question mark.
pub fn path(target: &[u8]) -> &[u8]
    ensures { result.now ≡ path_of target.now }
{
    for i in 0..target.len() {
        if target[i] == b'?' {
            return &target[..i];
        }
    }
    target
}

// The most bytes of a body.
fn find_limit(method: &[u8], target: &[u8]) -> u64
    ensures value { result ≡ body_limit method.now target.now }
    ensures bound { result ≤ 4194304 }
{
    let path = path(target);
    let takes_statement = path == b"/firm/statements".as_slice()
        || path == b"/firm/statements/match".as_slice()
        || path == b"/firm/statements/unmatched".as_slice();
    if method == b"POST".as_slice() && takes_statement {
        MAX_STATEMENT_BYTES
    } else {
        MAX_BODY_BYTES
    }
}

// Returns the size of the body behind a head, or why it is not read: the head gives no valid size or more than one,
// names a coding, or gives a size above the limit.
fn read_size(
    bytes: &[u8],
    method: &[u8],
    target: &[u8],
    fields: &[HeaderSpan],
) -> Result<usize, Refusal>
    requires { All (IsHeaderWithin (length bytes.now)) fields.now }
    ensures value { result ≡ body_size method.now target.now (map (header_bytes bytes.now) fields.now) }
    ensures bound { IfOk result (λ size. size ≤ 4194304) }
    ensures framing { IfErr result (λ why. is_framing why ≡ true) }
{
    let Some(size) = read_length(bytes, fields) else {
        return Err(Refusal::BadMessage);
    };
    if find_field(bytes, fields, 0, b"transfer-encoding").is_some() {
        return Err(Refusal::LengthRequired);
    }
    if size > find_limit(method, target) {
        return Err(Refusal::TooLarge);
    }
    Ok(size as usize)
}

// Copies what a head says into a message, which has no body yet.
fn copy_head(
    alloc: Global,
    bytes: &[u8],
    method: &[u8],
    target: &[u8],
    fields: &[HeaderSpan],
) -> Result<Message, AllocError>
    requires { All (IsHeaderWithin (length bytes.now)) fields.now }
    ensures method { IfOk result (λ m. m.method ≡ method.now) }
    ensures target { IfOk result (λ m. m.target ≡ target.now) }
    ensures callers { IfOk result
        (λ m. m.callers ≡ values_of (codes "x-caller") (map (header_bytes bytes.now) fields.now)) }
{
    let mut callers = Texts::new(alloc);
    for field in fields {
        if is_name(b"x-caller", field.name.of(bytes)) {
            let value = Vec::from_slice(alloc, field.value.of(bytes))?;
            callers.push(OwnedBytes::new(value))?;
        }
    }
    let method = OwnedBytes::new(Vec::from_slice(alloc, method)?);
    let target = OwnedBytes::new(Vec::from_slice(alloc, target)?);
    Ok(Message {
        method,
        target,
        callers,
        body: OwnedBytes::new(Vec::new(alloc)),
    })
}

// The most bytes of one read.
const MAX_PART_BYTES: usize = 1_024;

/// What comes next in a stream.
#[derive(Drop)]
pub enum Next {
    /// A message.
    Message(Message),
    /// A clean end: at most 8,192 bytes are left, and all of them are of empty lines.
    Ended,
    /// Neither of these, refused with `BadMessage`, `LengthRequired` or `TooLarge`.
    Framing(Refusal),
}

/// Why it is not known what comes next.
#[derive(Clone, Copy, PartialEq, Eq, Debug)]
pub enum Stop {
    /// A read failed or was interrupted.
    Reader,
    /// Out of memory.
    Memory,
}

impl From<AllocError> for Stop {
    ghost use Rattle.portal_messages.specs.declared.input.Stop.TheVariants.{Memory as memory_stop};

    ghost from_gives = { λ _ stop. stop ≡ memory_stop };

    fn from(_: AllocError) -> Self {
        Stop::Memory
    }
}

// Why no message comes next, which is answered from then on.
#[derive(Clone, Copy)]
pub(crate) enum Last {
    Ended,
    Framing(Refusal),
    Stopped(Stop),
}

impl Last {
    ghost use Rattle.portal_messages.specs.Inputs.{answer_of};

    fn answer(&self) -> Result<Next, Stop>
        ensures value { result ≡ answer_of self.now }
        ensures stays { stays result ≡ Some result }
    {
        match self {
            Last::Ended => Ok(Next::Ended),
            Last::Framing(why) => Ok(Next::Framing(*why)),
            Last::Stopped(stop) => Err(*stop),
        }
    }
}

// No head, a bad length, or a cut body.
const BAD_MESSAGE: Last = Last::Framing(Refusal::BadMessage);

impl From<Stop> for Last {
    ghost use Rattle.portal_messages.specs.declared.input.Last.TheVariants.{Stopped as stopped};

    ghost from_gives = { λ stop last. last ≡ stopped stop };

    fn from(stop: Stop) -> Self {
        Last::Stopped(stop)
    }
}

impl From<AllocError> for Last {
    ghost use Rattle.portal_messages.specs.declared.input.Last.TheVariants.{Stopped as stopped};
    ghost use Rattle.portal_messages.specs.declared.input.Stop.TheVariants.{Memory as memory_stop};

    ghost from_gives = { λ _ last. last ≡ stopped memory_stop };

    fn from(_: AllocError) -> Self {
        Last::Stopped(Stop::Memory)
    }
}

// A reader, with the bytes that it gave and no message has used.
#[derive(Drop)]
pub(crate) struct Source<R> {
    pub(crate) reader: R,
    pub(crate) buffer: Vec<u8>,
}

impl<R: Read> Source<R> {
    ghost use Rattle.portal_messages.specs.Sources.{IsHeadNext, IsLast};
    ghost use Rattle.portal_messages.specs.declared.input.Next.TheVariants.{Message as next_message};

    // Reads until the buffer has `size` bytes, or to the end. The room for them is allocated at once, as one block.
    fn fill_to(&mut self, size: usize) -> Result<bool, Stop>
        requires { size ≤ 100000000 }
        ensures unread { OnOk result (Keeps (unread R.remaining self.old) (unread R.remaining self.new)) }
        ensures full { IfOk result (λ full. MatchBool full (size ≤ length self.new.buffer.items)
            ((length self.new.buffer.items < size) × IsAtEnd (R.remaining self.new.reader))) }
    {
        // With room for what the last read may add after them, reading never moves bytes.
        let room = (size + MAX_PART_BYTES).saturating_sub(self.buffer.len());
        self.buffer.reserve(room)?;
        let mut part = [0u8; MAX_PART_BYTES];
        for _ in 0..size + 1 {
            if self.buffer.len() >= size {
                return Ok(true);
            }
            match self.reader.read(&mut part) {
                Ok(0) => return Ok(false),
                Ok(n) => self.buffer.extend_from_slice(&part[..n])?,
                Err(_) => return Err(Stop::Reader),
            }
        }
        unreachable!()
    }

    // Finds the next head, with the positions of its parts, and reads no further than it must.
    fn next_head(&mut self, spans: &mut [HeaderSpan; MAX_FIELDS]) -> Result<RequestSpans, Last>
        requires { length spans.old ≡ 64 }
        ensures unread { OnOk result (Keeps (unread R.remaining self.old) (unread R.remaining self.new)) }
        ensures next { IsHeadNext (unread R.remaining self.old) self.new.buffer.items spans.new result }
    {
        // Each turn but the last adds a byte, and 8,193 bytes are always enough to decide.
        for _ in 0..8_194usize {
            let bytes = self.buffer.as_slice();
            let size = bytes.len();
            let mut at_end = Last::Ended;
            if !is_blank(bytes) {
                match parse_request(first_bytes(bytes), spans) {
                    Ok(Status::Complete(head)) => return Ok(head),
                    Ok(Status::Partial) => {
                        if size >= MAX_HEAD_BYTES {
                            return Err(BAD_MESSAGE);
                        }
                        at_end = BAD_MESSAGE;
                    }
                    Err(_) => return Err(BAD_MESSAGE),
                }
            }
            if !self.fill_to(size + 1)? {
                return Err(at_end);
            }
        }
        unreachable!()
    }

    // Reads the next message, and no further than it must. The head is judged and copied before the body is read.
    fn read_next(&mut self) -> Result<Message, Last>
        ensures message { IfOk result
            (λ m. IsNext (unread R.remaining self.old) (unread R.remaining self.new) (next_message m)) }
        ensures last { IfErr result (IsLast (unread R.remaining self.old)) }
    {
        let mut spans = [EMPTY_HEADER_SPAN; MAX_FIELDS];
        let head = self.next_head(&mut spans)?;
        let alloc = *self.buffer.allocator();
        let first = first_bytes(self.buffer.as_slice());
        let (method, target) = (head.method.of(first), head.path.of(first));
        let fields = &spans[..head.headers];
        let size = match read_size(first, method, target, fields) {
            Ok(size) => size,
            Err(why) => return Err(Last::Framing(why)),
        };
        let mut message = copy_head(alloc, first, method, target, fields)?;
        let end = head.len + size;
        if !self.fill_to(end)? {
            return Err(BAD_MESSAGE);
        }
        // The body stays in the memory that it was read into; only the bytes after it are copied.
        let rest = Vec::from_slice(alloc, self.buffer.as_slice().split_at(end).1)?;
        let mut body = mem::replace(&mut self.buffer, rest);
        body.rotate_left(head.len);
        body.truncate(size);
        message.body = OwnedBytes::new(body);
        Ok(message)
    }
}

/// A stream that is being read: its reader, and the bytes that were read and no message has used.
///
/// Contracts see the bytes that its reader has still to give and those that no message has used, if the reader's
/// bytes are known, and the last answer unless that was a message.
#[derive(Drop)]
pub struct Input<R: Read> {
    source: Source<R>,
    last: Option<Last>,
}

impl<R: Read> Model for Input<R> {
    ghost use Rattle.portal_messages.specs.Inputs.{Reading, last_answer};
    ghost use Rattle.portal_messages.specs.Sources.{unread};

    ghost Value = { Reading };

    ghost view = { λ a. record {
      coming = R.remaining a.source.reader;
      unread = unread R.remaining a.source;
      last = last_answer a.last;
    } };
}

impl<R: Read> Input<R> {
    /// A stream from which nothing was read yet. Does not allocate.
    pub fn new(alloc: Global, reader: R) -> Input<R>
        ensures coming { result.coming ≡ R.remaining reader }
        ensures unread { Keeps (R.remaining reader) result.unread }
        ensures fresh { result.last ≡ None }
    {
        Input {
            source: Source {
                reader,
                buffer: Vec::new(alloc),
            },
            last: None,
        }
    }
}

/// Reads what comes next in a stream, and no further than it must. After any answer but a message, it reads nothing
/// more and always returns the same answer.
///
/// Returns `Reader` if a read fails, and `Memory` if memory runs out; the bytes read by then are not used. A body has
/// up to 65,536 bytes, or 4,194,304 for `POST /firm/statements`, `/firm/statements/match` and
/// `/firm/statements/unmatched`. It is held once: the message keeps the memory that its bytes were read into,
/// allocated as soon as the head gives its size.
pub fn read_message<R: Read>(input: &mut Input<R>) -> Result<Next, Stop>
    ensures next { input.old.last ≡ None → IfOk result (IsNext input.old.unread input.new.unread) }
    ensures framing { input.old.last ≡ None → IfOk result IsFramed }
    ensures again { (answer : Result Next Stop) → input.old.last ≡ Some answer
        → (result ≡ answer) × (input.new ≡ input.old) }
    ensures last { input.new.last ≡ stays result }
{
    match input.last {
        None => (),
        Some(last) => return last.answer(),
    }
    match input.source.read_next() {
        Ok(message) => Ok(Next::Message(message)),
        Err(last) => {
            let answer = last.answer();
            input.last = Some(last);
            answer
        }
    }
}
