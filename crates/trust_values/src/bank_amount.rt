// Amounts on bank lines.

ghost use Rattle.std.specs.Prelude.{Some, ◌++◌, OnOk, OnErr, ◌≡◌, ◌≢◌, ◌≤◌, ℕ, ℤ, ◌∷◌, IfSome, IfNone};
ghost use Rattle.trust_values.specs.Limits.{IsBankAmount};
ghost use Rattle.trust_values.specs.Texts.{amount_text, bank_amount_of, negative_text, signed_text};

use crate::cents::read_sum;
use crate::{Dollars, MAX_BANK_AMOUNT, write_amount};
use std::alloc::AllocError;
use std::fmt;
use std::marker::Model;

/// A bank's amount in whole cents, negative if the money went out. At most sixteen digits before the point.
///
/// Contracts see it as the signed number of cents.
#[derive(Clone, Copy, PartialEq, Eq)]
pub struct BankAmount {
    value: i64,
}

impl Model for BankAmount {
    ghost Value = { ℤ };

    ghost view = { λ a. a.value };

    ghost invariant = { λ a. IsBankAmount a.value };

    ghost inverse = { λ z. record { value = z } };
}

// Parses an amount without a sign.
fn read_unsigned(text: &[u8]) -> Option<BankAmount>
    ensures range { IfSome result IsBankAmount }
    ensures some { IfSome result (λ a. signed_text a ≡ text.now) }
    ensures none { IfNone result ((n : ℕ) → n ≤ MAX_BANK_AMOUNT → amount_text n ≢ text.now) }
{
    let size = read_sum(text, MAX_BANK_AMOUNT / 100)?;
    Some(BankAmount { value: size as i64 })
}

// The negative amount of this size. None if the size is zero.
fn withdrawal(size: u64) -> Option<BankAmount>
    requires { size ≤ MAX_BANK_AMOUNT }
    ensures range { IfSome result IsBankAmount }
    ensures some { IfSome result (λ a. (1 ≤ size) × (signed_text a ≡ negative_text size)) }
    ensures none { IfNone result (size ≡ 0) }
{
    if size == 0 {
        return None;
    }
    Some(BankAmount {
        value: -(size as i64),
    })
}

// Parses a negative amount; `size` is what follows the minus sign.
#[tactic(auto, using(crate::proofs::SignedFacts::if_zero_none))]
fn read_negative(size: &[u8]) -> Option<BankAmount>
    ensures range { IfSome result IsBankAmount }
    ensures some { IfSome result (λ a. signed_text a ≡ 45 ∷ size.now) }
    ensures none { IfNone result ((n : ℕ) → 1 ≤ n → n ≤ MAX_BANK_AMOUNT → amount_text n ≢ size.now) }
{
    let size = read_sum(size, MAX_BANK_AMOUNT / 100)?;
    withdrawal(size)
}

// Parses an amount, negative or not.
#[tactic(auto, using(crate::proofs::SignedFacts::if_negative_none))]
fn read_signed(text: &[u8]) -> Option<BankAmount>
    ensures range { IfSome result IsBankAmount }
    ensures some { IfSome result (λ a. signed_text a ≡ text.now) }
    ensures none { IfNone result ((z : ℤ) → IsBankAmount z → signed_text z ≢ text.now) }
{
    match text.split_first() {
        Some((b'-', size)) => read_negative(size),
        _ => read_unsigned(text),
    }
}

impl BankAmount {
    /// Parses an amount such as `-12.05`. Returns None for any other bytes, including `-0.00`.
    pub fn read(text: &[u8]) -> Option<BankAmount>
        ensures value { result ≡ bank_amount_of text.now }
        ensures some { IfSome result (λ a. signed_text a ≡ text.now) }
        ensures none { IfNone result ((z : ℤ) → IsBankAmount z → signed_text z ≢ text.now) }
    {
        read_signed(text)
    }

    /// An amount of this many cents. None if it is out of range.
    pub fn from_number(cents: i64) -> Option<BankAmount>
        ensures some { IfSome result (λ a. (a ≡ cents) × IsBankAmount a) }
        ensures none { IfNone result (¬ IsBankAmount cents) }
    {
        if cents.unsigned_abs() > MAX_BANK_AMOUNT {
            return None;
        }
        Some(BankAmount { value: cents })
    }

    /// The number of cents.
    pub fn get(self) -> i64
        ensures value { result ≡ self }
        ensures range { IsBankAmount result }
    {
        self.value
    }

    /// Appends the amount's text. If memory runs out, `out` is unchanged.
    pub fn write_to(self, out: &mut Vec<u8>) -> Result<(), AllocError>
        ensures ok { OnOk result (out.new.items ≡ out.old.items ++ signed_text self) }
        ensures err { OnErr result (out.new.items ≡ out.old.items) }
    {
        write_amount(self.value as i128, out)
    }
}

impl fmt::Display for BankAmount {
    ghost output = { λ a. Some (signed_text a) };

    fn fmt<W: fmt::Write>(&self, f: &mut fmt::Formatter<W>) -> fmt::Result {
        let sum = Dollars(self.get() as i128);
        write!(f, "{sum}")
    }
}
