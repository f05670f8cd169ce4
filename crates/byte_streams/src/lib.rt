//! Bytes in and out: reading a whole input, writing to the end, owned bytes, and text built on the stack.
//!
//! # What is promised
//!
//! By public call, with the clauses of its contract in brackets.
//!
//! - `read_whole`: the whole input, or none exactly if it is longer than the limit, however the reads are cut
//!   (`bytes`).
//! - `send`: all bytes, or, at an error, a proper prefix of them (`ok`, `err`).
//! - `OwnedBytes`: holds the bytes that it was made from, and gives them back without taking memory.
//! - `push_piece`, `push_number`: append a text, or a number's digits, to a text on the stack.
#![tactic(auto)]

mod fixed;
mod input;
mod output;
mod owned_bytes;
mod stack;

pub use fixed::read_fixed;
pub use input::{InputFault, read_whole};
pub use output::{WriteFault, send};
pub use owned_bytes::OwnedBytes;
pub use stack::{push_number, push_piece};
