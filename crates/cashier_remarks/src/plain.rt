// Text from a bank, as remarks show it.

use crate::excerpt::Excerpt;
use std::fmt;

/// A text or its first part. It is unquoted if it is printable ASCII without spaces and quotes, and otherwise in double
/// quotes.
#[derive(Clone, Copy)]
pub struct Plain<'a> {
    excerpt: Excerpt<'a>,
    is_plain: bool,
}

fn is_plain(byte: u8) -> bool {
    byte > b' ' && byte < 0x7F && byte != b'"'
}

impl<'a> Plain<'a> {
    /// Makes it from bytes. Empty if they are not UTF-8.
    pub fn new(bytes: &'a [u8]) -> Plain<'a> {
        let text = match str::from_utf8(bytes) {
            Ok(text) => text,
            Err(_) => "",
        };
        Plain {
            excerpt: Excerpt::new(text),
            is_plain: bytes.iter().all(|byte| is_plain(*byte)),
        }
    }
}

impl fmt::Display for Plain<'_> {
    fn fmt<W: fmt::Write>(&self, f: &mut fmt::Formatter<W>) -> fmt::Result {
        if self.is_plain {
            self.excerpt.write_bare(f)
        } else {
            self.excerpt.fmt(f)
        }
    }
}
