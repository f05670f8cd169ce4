// Splits a text into tokens: runs of letters, in lower case, and runs of digits with the characters that join them.

ghost use Rattle.std.specs.Prelude.{◌≡◌, ◌<◌, ◌≤◌, IfOk, length, slice_index};
ghost use Rattle.std.specs.List.{prefix_len};
ghost use Rattle.statement_lines.specs.Tokens.{begins as begins_token, goes_on as goes_on_with};
ghost use Rattle.statement_lines.specs.Tokens.{is_digit as is_digit_byte, is_joiner as is_joiner_byte};
ghost use Rattle.statement_lines.specs.Tokens.{is_letter as is_letter_byte, lowered as lowered_byte};
ghost use Rattle.statement_lines.specs.Tokens.{numeral_len as numeral_length, token_in_front};
ghost use Rattle.statement_lines.specs.Tokens.{token_len as token_length, tokens};

use byte_streams::OwnedBytes;
use std::alloc::{AllocError, Global};

fn is_letter(byte: u8) -> bool
    ensures { result ≡ is_letter_byte byte }
{
    (65 <= byte && byte <= 90) || (97 <= byte && byte <= 122)
}

/// Whether it is an ASCII digit.
pub(crate) fn is_digit(byte: u8) -> bool
    ensures { result ≡ is_digit_byte byte }
{
    48 <= byte && byte <= 57
}

fn is_joiner(byte: u8) -> bool
    ensures { result ≡ is_joiner_byte byte }
{
    (44 <= byte && byte <= 47) || byte == 58
}

fn lowered(byte: u8) -> u8
    ensures { result ≡ lowered_byte byte }
{
    if 65 <= byte && byte <= 90 {
        byte + 32
    } else {
        byte
    }
}

// Whether a token begins with the byte, after these two bytes.
#[tactic(auto, unfolding(crate::specs::Tokens::begins))]
fn begins(second: u8, last: u8, byte: u8) -> bool
    ensures { result ≡ begins_token second last byte }
{
    (is_letter(byte) && !is_letter(last))
        || (is_digit(byte) && !is_digit(last) && !(is_joiner(last) && is_digit(second)))
}

/// The byte at a place; 0 past the end.
pub(crate) fn byte_at(text: &[u8], place: usize) -> u8
    ensures { result ≡ slice_index text.now place }
{
    if place < text.len() { text[place] } else { 0 }
}

// The count of letters at the start.
fn word_len(text: &[u8]) -> usize
    ensures value { result ≡ prefix_len is_letter_byte text.now }
    ensures bound { result ≤ length text.now }
{
    text.iter().take_while(|byte| is_letter(**byte)).count()
}

// Whether a numeral continues with the byte, if `next` follows it.
fn goes_on(byte: u8, next: u8) -> bool
    ensures { result ≡ goes_on_with byte next }
{
    is_digit(byte) || (is_joiner(byte) && is_digit(next))
}

// How many bytes at the start are digits, or joiners before a digit.
#[tactic(auto, using(crate::proofs::Parting::numeral_steps))]
fn numeral_len(text: &[u8]) -> usize
    ensures value { result ≡ numeral_length text.now }
    ensures bound { result ≤ length text.now }
{
    for place in 0..text.len() {
        if !goes_on(text[place], byte_at(text, place + 1)) {
            return place;
        }
    }
    text.len()
}

// The length in bytes of the token at the start.
#[tactic(auto, unfolding(crate::specs::Tokens::token_len))]
fn token_len(text: &[u8]) -> usize
    ensures value { result ≡ token_length text.now }
    ensures bound { result ≤ length text.now }
{
    if is_letter(byte_at(text, 0)) {
        word_len(text)
    } else {
        numeral_len(text)
    }
}

// Returns the token at the start.
#[tactic(auto, unfolding(crate::specs::Tokens::token_in_front))]
fn token_of(alloc: Global, text: &[u8]) -> Result<OwnedBytes, AllocError>
    ensures { IfOk result (λ token. token ≡ token_in_front text.now) }
{
    let front = &text[..token_len(text)];
    let bytes = front.iter().map(|byte| lowered(*byte)).collect(alloc)?;
    Ok(OwnedBytes::new(bytes))
}

/// Returns the tokens of a text, in order. The only error is out of memory.
#[tactic(auto, using(crate::proofs::Parting::token_steps))]
pub(crate) fn tokens_of(alloc: Global, text: &[u8]) -> Result<Vec<OwnedBytes>, AllocError>
    ensures { IfOk result (λ found. found.items ≡ tokens text.now) }
{
    let mut found = Vec::new(alloc);
    let mut second = 0u8;
    let mut last = 0u8;
    for place in 0..text.len() {
        let byte = text[place];
        if begins(second, last, byte) {
            found.push(token_of(alloc, &text[place..])?)?;
        }
        second = last;
        last = byte;
    }
    Ok(found)
}
