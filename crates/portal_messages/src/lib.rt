//! Reads the messages of a stream of bytes: HTTP/1.1 requests (RFC 9112), with heads as `httparse` reads them, one at
//! a time, however the stream is cut into reads.
//!
//! # What is promised
//!
//! By public call, with the clauses of its contract in brackets.
//!
//! - `read_message`: for a reader whose contract says its bytes, however the reads are cut: the next message, or the
//!   clean end, or the first framing fault, exactly as the definitions find them in the bytes that no message has used,
//!   and what is left after a message (`next`). After any answer that is no message the same one comes again, and
//!   nothing is read (`again`, `last`). Something that is no message is refused by BadMessage, LengthRequired or
//!   TooLarge, whatever the reader's contract says (`framing`).
//! - `laws` `one_reading`: a stream of bytes has one list of messages, and one end.
//! - `path`: what is before the first question mark of a request target.
#![tactic(auto)]

mod input;
pub mod laws;
mod message;

pub use input::{Input, Next, Stop, path, read_message};
pub use message::{Message, Texts};
