// Amounts of money that may be zero.

ghost use Rattle.std.specs.Prelude.{Some, ◌≡◌, ◌≢◌, ℕ, ◌++◌, IfSome, IfNone, OnOk, OnErr};
ghost use Rattle.trust_values.specs.Limits.{IsAmountOrZero};
ghost use Rattle.trust_values.specs.Texts.{amount_or_zero_of, amount_text};

use crate::cents::read_sum;
use crate::{Cents, Dollars, MAX_AMOUNT, write_amount};
use std::alloc::AllocError;
use std::fmt;
use std::marker::Model;

/// An amount of whole cents that may be zero, from 0.00 to 999999999.99 dollars.
///
/// Contracts see it as the number of cents.
#[derive(Clone, Copy)]
pub struct CentsOrZero {
    value: u64,
}

impl Model for CentsOrZero {
    ghost Value = { ℕ };

    ghost view = { λ c. c.value };

    ghost invariant = { λ c. IsAmountOrZero c.value };

    ghost inverse = { λ n. record { value = n } };
}

// Parses an amount that may be zero.
fn read_zero_or(text: &[u8]) -> Option<CentsOrZero>
    ensures range { IfSome result IsAmountOrZero }
    ensures some { IfSome result (λ c. amount_text c ≡ text.now) }
    ensures none { IfNone result ((n : ℕ) → IsAmountOrZero n → amount_text n ≢ text.now) }
{
    let value = read_sum(text, MAX_AMOUNT / 100)?;
    Some(CentsOrZero { value })
}

impl CentsOrZero {
    /// Parses an amount, or `0.00`. Returns None for any other bytes.
    pub fn read(text: &[u8]) -> Option<CentsOrZero>
        ensures value { result ≡ amount_or_zero_of text.now }
        ensures some { IfSome result (λ c. amount_text c ≡ text.now) }
        ensures none { IfNone result ((n : ℕ) → IsAmountOrZero n → amount_text n ≢ text.now) }
    {
        read_zero_or(text)
    }

    /// An amount of this many cents, which may be 0. None if it is out of range.
    pub fn from_number(cents: u64) -> Option<CentsOrZero>
        ensures some { IfSome result (λ c. (c ≡ cents) × IsAmountOrZero c) }
        ensures none { IfNone result (¬ IsAmountOrZero cents) }
    {
        if cents > MAX_AMOUNT {
            return None;
        }
        Some(CentsOrZero { value: cents })
    }

    /// The number of cents.
    pub fn get(self) -> u64
        ensures value { result ≡ self }
        ensures range { IsAmountOrZero result }
    {
        self.value
    }

    /// Appends the amount's text. If memory runs out, `out` is unchanged.
    pub fn write_to(self, out: &mut Vec<u8>) -> Result<(), AllocError>
        ensures ok { OnOk result (out.new.items ≡ out.old.items ++ amount_text self) }
        ensures err { OnErr result (out.new.items ≡ out.old.items) }
    {
        write_amount(self.value as i128, out)
    }
}

impl fmt::Display for CentsOrZero {
    ghost output = { λ c. Some (amount_text c) };

    fn fmt<W: fmt::Write>(&self, f: &mut fmt::Formatter<W>) -> fmt::Result {
        let sum = Dollars(self.get() as i128);
        write!(f, "{sum}")
    }
}

impl From<Cents> for CentsOrZero {
    ghost from_gives = { λ amount same. same ≡ amount };

    fn from(amount: Cents) -> Self {
        CentsOrZero {
            value: amount.get(),
        }
    }
}
