// Numbers in a text.

ghost use Rattle.std.specs.Prelude.{◌≡◌, ◌≤◌, ◌==◌, ◌<◌, ◌^◌, List, [], ℕ, IfOk, Some, length, map, not};
ghost use Rattle.std.specs.Fmt.{decimal};
ghost use Rattle.std.specs.List.{filter, list_all, prefix_len};
ghost use Rattle.std.specs.Str.{bytes_eq};
ghost use Rattle.statement_lines.specs.Tokens.{is_digit as is_digit_byte};
ghost use Rattle.statement_lines.specs.Numbers.{are_labels as are_labels_before, are_of_check as are_of_check_before};
ghost use Rattle.statement_lines.specs.Numbers.{dollars, is_among as is_among_numbers, is_check_word as is_check_text};
ghost use Rattle.statement_lines.specs.Numbers.{is_day_of as is_day_of_token, is_day_of_line as is_day_of_line_token};
ghost use Rattle.statement_lines.specs.Numbers.{is_label as is_label_word, is_number as is_number_token};
ghost use Rattle.statement_lines.specs.Numbers.{is_number_word as is_number_word_text, is_telling as is_telling_token};
ghost use Rattle.statement_lines.specs.Numbers.{line_numbers, numbers, telling_after, telling_numbers};
ghost use Rattle.statement_lines.specs.Numbers.{without_zeros as digits_without_zeros};

use crate::token::{is_digit, tokens_of};
use crate::written_day::writes_day_near;
use byte_streams::OwnedBytes;
use std::alloc::{AllocError, Global};
use std::marker::Model;
use trust_base::{Day, Line};

/// A number in a text: its digits without leading zeros.
///
/// Contracts see it as the list of its digits.
#[derive(Drop)]
pub(crate) struct Number {
    digits: Vec<u8>,
}

impl Model for Number {
    ghost Value = { List ℕ };

    ghost view = { λ n. n.digits.items };
}

impl Number {
    // Makes the number of a token's digits.
    fn of(alloc: Global, token: &[u8]) -> Result<Number, AllocError>
        ensures { IfOk result (λ number. number ≡ digits_without_zeros token.now) }
    {
        let digits = Vec::from_slice(alloc, without_zeros(token))?;
        Ok(Number { digits })
    }

    // Makes the number with this value.
    fn of_value(alloc: Global, value: u64) -> Result<Number, AllocError>
        ensures { IfOk result (λ number. number ≡ decimal value) }
    {
        let text = format!(in alloc; "{value}")?;
        Ok(Number {
            digits: text.into_bytes(),
        })
    }

    /// The digits.
    pub(crate) fn as_slice(&self) -> &[u8]
        ensures { result.now ≡ self.now }
    {
        self.digits.as_slice()
    }

    fn is_same(&self, other: &Number) -> bool
        ensures { result ≡ bytes_eq self.now other.now }
    {
        self.as_slice() == other.as_slice()
    }
}

/// Whether the number is one of these.
pub(crate) fn is_among(numbers: &[Number], number: &Number) -> bool
    ensures { result ≡ is_among_numbers numbers.now number.now }
{
    numbers.iter().any(|other| number.is_same(other))
}

// The count of leading zeros.
fn zeros(digits: &[u8]) -> usize
    ensures value { result ≡ prefix_len (λ b. b == 48) digits.now }
    ensures bound { result ≤ length digits.now }
{
    digits.iter().take_while(|byte| **byte == 48).count()
}

// The digits without leading zeros.
fn without_zeros(digits: &[u8]) -> &[u8]
    ensures { result.now ≡ digits_without_zeros digits.now }
{
    &digits[zeros(digits)..]
}

// Whether the token consists of digits only.
fn is_of_digits(token: &[u8]) -> bool
    ensures { result ≡ list_all is_digit_byte token.now }
{
    token.iter().all(|byte| is_digit(*byte))
}

// Whether the token is a number.
#[tactic(auto, unfolding(crate::specs::Numbers::is_number))]
fn is_number(token: &[u8]) -> bool
    ensures { result ≡ is_number_token token.now }
{
    is_of_digits(token) && 3 <= without_zeros(token).len()
}

// Whether the number of a check follows the word.
fn is_check_word(word: &[u8]) -> bool
    ensures { result ≡ is_check_text word.now }
{
    word == b"check".as_slice()
        || word == b"chk".as_slice()
        || word == b"ck".as_slice()
        || word == b"cheque".as_slice()
}

// Whether the number of a check, of a deposit slip or of a wire follows the word.
fn is_label(word: &[u8]) -> bool
    ensures { result ≡ is_label_word word.now }
{
    is_check_word(word) || word == b"slip".as_slice() || word == b"wire".as_slice()
}

// Whether the word may stand between such a word and the number.
fn is_number_word(word: &[u8]) -> bool
    ensures { result ≡ is_number_word_text word.now }
{
    word == b"no".as_slice()
        || word == b"number".as_slice()
        || word == b"num".as_slice()
        || word == b"paid".as_slice()
}

// Whether two tokens say that a number follows them.
#[tactic(auto, unfolding(crate::specs::Numbers::are_labels))]
fn are_labels(second: &[u8], last: &[u8]) -> bool
    ensures { result ≡ are_labels_before second.now last.now }
{
    is_label(last) || (is_number_word(last) && (is_label(second) || second == b"id".as_slice()))
}

// Whether two tokens say that the number of a check follows them.
#[tactic(auto, unfolding(crate::specs::Numbers::are_of_check))]
fn are_of_check(second: &[u8], last: &[u8]) -> bool
    ensures { result ≡ are_of_check_before second.now last.now }
{
    is_check_word(last) || (is_number_word(last) && is_check_word(second))
}

// Whether a token that follows these two is a day near a line's, and no check's number of six digits.
#[tactic(auto, unfolding(crate::specs::Numbers::is_day_of_line))]
fn is_day_of_line(date: Day, second: &[u8], last: &[u8], token: &[u8]) -> bool
    ensures { result ≡ is_day_of_line_token date second.now last.now token.now }
{
    writes_day_near(date, token) && !(token.len() == 6 && are_of_check(second, last))
}

// The same if the words are those of a line, which has a date.
fn is_day_of(date: Option<Day>, second: &[u8], last: &[u8], token: &[u8]) -> bool
    ensures { result ≡ is_day_of_token date second.now last.now token.now }
{
    match date {
        Some(date) => is_day_of_line(date, second, last, token),
        None => false,
    }
}

// Whether a token that follows these two is a telling number.
#[tactic(auto, unfolding(crate::specs::Numbers::is_telling))]
fn is_telling(date: Option<Day>, second: &[u8], last: &[u8], token: &[u8]) -> bool
    ensures { result ≡ is_telling_token date second.now last.now token.now }
{
    is_number(token)
        && (6 <= without_zeros(token).len() || are_labels(second, last))
        && !is_day_of(date, second, last, token)
}

// Returns the telling numbers among tokens, in order.
#[tactic(auto, using(crate::proofs::Parting::telling_steps))]
fn telling_among(
    alloc: Global,
    date: Option<Day>,
    tokens: &[OwnedBytes],
) -> Result<Vec<Number>, AllocError>
    ensures { IfOk result (λ found. found.items ≡ telling_after date [] [] tokens.now) }
{
    let mut found = Vec::new(alloc);
    let mut second: &[u8] = &[];
    let mut last: &[u8] = &[];
    for token in tokens {
        let bytes = token.as_slice();
        if is_telling(date, second, last, bytes) {
            found.push(Number::of(alloc, bytes)?)?;
        }
        second = last;
        last = bytes;
    }
    Ok(found)
}

/// Returns the telling numbers of a text, in order: those of six digits or more, and those of three to five digits
/// after a word that says what they are. `date` is that of the bank's line whose text it is: days near it tell
/// nothing. The only error is out of memory.
pub(crate) fn telling_of(
    alloc: Global,
    date: Option<Day>,
    text: &[u8],
) -> Result<Vec<Number>, AllocError>
    ensures { IfOk result (λ found. found.items ≡ telling_numbers date text.now) }
{
    let tokens = tokens_of(alloc, text)?;
    telling_among(alloc, date, &tokens)
}

// Returns the numbers among tokens, in order.
fn numbers_among(alloc: Global, tokens: &[OwnedBytes]) -> Result<Vec<Number>, AllocError>
    ensures { IfOk result (λ found. found.items ≡ map digits_without_zeros (filter is_number_token tokens.now)) }
{
    let mut found = Vec::new(alloc);
    for token in tokens {
        if is_number(token.as_slice()) {
            found.push(Number::of(alloc, token.as_slice())?)?;
        }
    }
    Ok(found)
}

/// Returns the numbers of a text, in order. The only error is out of memory.
#[tactic(auto, unfolding(crate::specs::Numbers::numbers))]
pub(crate) fn numbers_of(alloc: Global, text: &[u8]) -> Result<Vec<Number>, AllocError>
    ensures { IfOk result (λ found. found.items ≡ numbers text.now) }
{
    let tokens = tokens_of(alloc, text)?;
    numbers_among(alloc, &tokens)
}

// The dollars of a line's amount, which its text may repeat.
fn dollars_of(alloc: Global, line: &Line) -> Result<Number, AllocError>
    ensures { IfOk result (λ number. number ≡ dollars line.now) }
{
    Number::of_value(alloc, line.amount.get().unsigned_abs() / 100)
}

/// Returns the telling numbers of a line's text that are not its dollars. The only error is out of memory.
#[tactic(auto, unfolding(crate::specs::Numbers::line_numbers))]
pub(crate) fn line_numbers_of(alloc: Global, line: &Line) -> Result<Vec<Number>, AllocError>
    ensures { IfOk result (λ found. found.items ≡ line_numbers line.now) }
{
    let dollars = dollars_of(alloc, line)?;
    let telling = telling_of(alloc, Some(line.date), line.text.as_slice())?;
    telling
        .into_iter()
        .filter(|number| !dollars.is_same(number))
        .collect(alloc)
}
