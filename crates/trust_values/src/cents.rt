// Amounts of money.

ghost use Rattle.std.specs.Prelude.{◌≡◌, ◌≢◌, ℕ, ◌++◌, ◌/◌, ◌^◌, ◌<◌, ◌≤◌, IfSome, IfNone, OnOk, OnErr};
ghost use Rattle.std.specs.Fmt.{decimal};
ghost use Rattle.trust_values.specs.Limits.{IsAmount};
ghost use Rattle.trust_values.specs.Texts.{amount_of, amount_text, end_text, starts_plainly};

use crate::{MAX_AMOUNT, write_amount};
use std::alloc::AllocError;
use std::marker::Model;

/// An amount of whole cents, from 1 to 99,999,999,999: 0.01 to 999999999.99 dollars.
///
/// Contracts see it as the number of cents. Each amount is written in exactly one way, and only that is read:
///
///     Cents::read(b"500.00")    // Some, of 50,000 cents
///     Cents::read(b"$500")      // None, and so are "500", "0500.00" and "0.00"
#[derive(Clone, Copy)]
pub struct Cents {
    value: u64,
}

impl Model for Cents {
    ghost Value = { ℕ };

    ghost view = { λ c. c.value };

    ghost invariant = { λ c. IsAmount c.value };

    ghost inverse = { λ n. record { value = n } };
}

// Whether a text starts like a number: no leading zeros, no plus sign. The parse itself refuses a minus sign.
fn is_plain(text: &[u8]) -> bool
    ensures { result ≡ starts_plainly text.now }
{
    if text.is_empty() {
        return false;
    }
    text[0] != b'+' && (text[0] != b'0' || text.len() == 1)
}

// Parses whole dollars without leading zeros. None if above `most`.
#[tactic(auto, using(crate::proofs::WholeFacts::whole_facts))]
fn read_dollars(text: &[u8], most: u64) -> Option<u64>
    ensures some { IfSome result (λ n. (n ≤ most) × (decimal n ≡ text.now)) }
    ensures none { IfNone result ((n : ℕ) → n ≤ most → decimal n ≢ text.now) }
{
    if !is_plain(text) {
        return None;
    }
    let Ok(text) = str::from_utf8(text) else {
        return None;
    };
    let Ok(whole) = text.parse::<u64>() else {
        return None;
    };
    if whole > most {
        return None;
    }
    Some(whole)
}

// Parses a point and two digits of cents.
fn read_end(end: &[u8]) -> Option<u64>
    ensures some { IfSome result (λ n. (n < 100) × (end_text n ≡ end.now)) }
    ensures none { IfNone result ((n : ℕ) → n < 100 → end_text n ≢ end.now) }
{
    if end.len() != 3 || end[0] != b'.' {
        return None;
    }
    let (tens, ones) = (end[1], end[2]);
    if tens < b'0' || tens > b'9' || ones < b'0' || ones > b'9' {
        return None;
    }
    Some((tens - b'0') as u64 * 10 + (ones - b'0') as u64)
}

/// Parses dollars without leading zeros, a point and two digits, as cents. The result may be zero. None if the dollars
/// exceed `most`, which is below 10^17.
#[tactic(auto, using(crate::proofs::AmountFacts::amount_parts))]
pub(crate) fn read_sum(text: &[u8], most: u64) -> Option<u64>
    requires { most < 10 ^ 17 }
    ensures range { IfSome result (λ n. n / 100 ≤ most) }
    ensures some { IfSome result (λ n. amount_text n ≡ text.now) }
    ensures none { IfNone result ((n : ℕ) → n / 100 ≤ most → amount_text n ≢ text.now) }
{
    if text.len() < 4 {
        return None;
    }
    let (whole, end) = text.split_at(text.len() - 3);
    let dollars = read_dollars(whole, most)?;
    let cents = read_end(end)?;
    Some(dollars * 100 + cents)
}

// Parses an amount.
#[tactic(auto, using(crate::proofs::ReadFacts::none_in_range, crate::proofs::AmountFacts::sum_injective))]
fn read_amount(text: &[u8]) -> Option<Cents>
    ensures range { IfSome result IsAmount }
    ensures some { IfSome result (λ c. amount_text c ≡ text.now) }
    ensures none { IfNone result ((n : ℕ) → IsAmount n → amount_text n ≢ text.now) }
{
    let value = read_sum(text, MAX_AMOUNT / 100)?;
    Cents::from_number(value)
}

impl Cents {
    /// Parses an amount: dollars without leading zeros, a point and two digits. Returns None for any other bytes, and
    /// for `0.00`.
    pub fn read(text: &[u8]) -> Option<Cents>
        ensures value { result ≡ amount_of text.now }
        ensures some { IfSome result (λ n. amount_text n ≡ text.now) }
        ensures none { IfNone result ((n : ℕ) → IsAmount n → amount_text n ≢ text.now) }
    {
        read_amount(text)
    }

    /// An amount of this many cents. None if it is out of range.
    pub fn from_number(value: u64) -> Option<Cents>
        ensures some { IfSome result (λ n. (n ≡ value) × IsAmount n) }
        ensures none { IfNone result (¬ IsAmount value) }
    {
        if value < 1 || value > MAX_AMOUNT {
            return None;
        }
        Some(Cents { value })
    }

    /// The number of cents.
    pub fn get(self) -> u64
        ensures value { result ≡ self }
        ensures range { IsAmount result }
    {
        self.value
    }

    /// Appends the amount's text. If memory runs out, `out` is unchanged.
    pub fn write_to(self, out: &mut Vec<u8>) -> Result<(), AllocError>
        ensures ok { OnOk result (out.new.items ≡ out.old.items ++ amount_text self) }
        ensures err { OnErr result (out.new.items ≡ out.old.items) }
    {
        write_amount(self.value as i128, out)
    }
}
