// Numbers of matters.

ghost use Rattle.std.specs.Prelude.{◌≡◌, ◌≢◌, ℕ, ◌++◌, IfSome, IfNone, OnOk, OnErr, Some};
ghost use Rattle.trust_values.specs.Limits.{IsMatterNo};
ghost use Rattle.trust_values.specs.Texts.{matter_of, matter_text};

use crate::MAX_MATTER;
use byte_streams::read_fixed;
use std::alloc::AllocError;
use std::fmt;
use std::marker::Model;

/// The number of a matter, from 1 to 999999, chosen by the cashier.
///
/// Contracts see it as that number.
#[derive(Clone, Copy, PartialEq, Eq)]
pub struct MatterNo {
    number: u32,
}

impl Model for MatterNo {
    ghost Value = { ℕ };

    ghost view = { λ m. m.number };

    ghost invariant = { λ m. IsMatterNo m.number };

    ghost inverse = { λ n. record { number = n } };
}

// Parses a matter number.
#[tactic(auto, using(crate::proofs::ReadFacts::none_in_range, crate::proofs::ReadFacts::digit_facts))]
fn read_matter(text: &[u8]) -> Option<MatterNo>
    ensures range { IfSome result IsMatterNo }
    ensures some { IfSome result (λ m. matter_text m ≡ text.now) }
    ensures none { IfNone result ((n : ℕ) → IsMatterNo n → matter_text n ≢ text.now) }
{
    if text.len() != 6 {
        return None;
    }
    let number = read_fixed(text)?;
    MatterNo::from_number(number)
}

impl MatterNo {
    /// Parses a matter number: six digits, not all zero. Returns None for any other bytes.
    pub fn read(text: &[u8]) -> Option<MatterNo>
        ensures value { result ≡ matter_of text.now }
        ensures some { IfSome result (λ n. matter_text n ≡ text.now) }
        ensures none { IfNone result ((n : ℕ) → IsMatterNo n → matter_text n ≢ text.now) }
    {
        read_matter(text)
    }

    /// The matter with this number. None if it is out of range.
    pub fn from_number(number: u32) -> Option<MatterNo>
        ensures some { IfSome result (λ n. (n ≡ number) × IsMatterNo n) }
        ensures none { IfNone result (¬ IsMatterNo number) }
    {
        if number < 1 || number > MAX_MATTER {
            return None;
        }
        Some(MatterNo { number })
    }

    /// The number.
    pub fn get(self) -> u32
        ensures value { result ≡ self }
        ensures range { IsMatterNo result }
    {
        self.number
    }

    /// Appends the six digits. If memory runs out, `out` is unchanged.
    #[tactic(auto, using(crate::proofs::ReadFacts::six_digit_facts))]
    pub fn write_to(self, out: &mut Vec<u8>) -> Result<(), AllocError>
        ensures ok { OnOk result (out.new.items ≡ out.old.items ++ matter_text self) }
        ensures err { OnErr result (out.new.items ≡ out.old.items) }
    {
        let n = self.number;
        let text = [
            b'0' + (n / 100_000 % 10) as u8,
            b'0' + (n / 10_000 % 10) as u8,
            b'0' + (n / 1_000 % 10) as u8,
            b'0' + (n / 100 % 10) as u8,
            b'0' + (n / 10 % 10) as u8,
            b'0' + (n % 10) as u8,
        ];
        out.extend_from_slice(&text)
    }
}

impl fmt::Display for MatterNo {
    ghost output = { λ m. Some (matter_text m) };

    #[tactic(auto, using(crate::proofs::ReadFacts::six_digit_facts))]
    fn fmt<W: fmt::Write>(&self, f: &mut fmt::Formatter<W>) -> fmt::Result {
        let n = self.get();
        let (a, b, c) = (n / 100_000 % 10, n / 10_000 % 10, n / 1_000 % 10);
        let (d, e, g) = (n / 100 % 10, n / 10 % 10, n % 10);
        write!(f, "{a}{b}{c}{d}{e}{g}")
    }
}
