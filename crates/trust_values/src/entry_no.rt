// Numbers of entries.

ghost use Rattle.std.specs.Prelude.{Some, ◌≡◌, ◌≢◌, ℕ, ◌++◌, IfSome, IfNone, OnOk, OnErr};
ghost use Rattle.trust_values.specs.Limits.{IsEntryNo};
ghost use Rattle.trust_values.specs.Texts.{entry_of, entry_text};

use crate::MAX_ENTRY;
use byte_streams::read_fixed;
use std::alloc::AllocError;
use std::fmt;
use std::marker::Model;

/// The number of an entry within its matter, from 1 to 9999, written with four digits.
///
/// Contracts see it as that number.
#[derive(Clone, Copy, PartialEq, Eq)]
pub struct EntryNo {
    number: u16,
}

impl Model for EntryNo {
    ghost Value = { ℕ };

    ghost view = { λ e. e.number };

    ghost invariant = { λ e. IsEntryNo e.number };

    ghost inverse = { λ n. record { number = n } };
}

// Parses an entry number.
#[tactic(auto, using(crate::proofs::ReadFacts::none_in_range, crate::proofs::ReadFacts::digit_facts))]
fn read_entry(text: &[u8]) -> Option<EntryNo>
    ensures range { IfSome result IsEntryNo }
    ensures some { IfSome result (λ e. entry_text e ≡ text.now) }
    ensures none { IfNone result ((n : ℕ) → IsEntryNo n → entry_text n ≢ text.now) }
{
    if text.len() != 4 {
        return None;
    }
    let number = read_fixed(text)?;
    EntryNo::from_number(number as u16)
}

impl EntryNo {
    /// Parses an entry number: four digits, not all zero. Returns None for any other bytes.
    pub fn read(text: &[u8]) -> Option<EntryNo>
        ensures value { result ≡ entry_of text.now }
        ensures some { IfSome result (λ e. entry_text e ≡ text.now) }
        ensures none { IfNone result ((n : ℕ) → IsEntryNo n → entry_text n ≢ text.now) }
    {
        read_entry(text)
    }

    /// The entry with this number. None if it is out of range.
    pub fn from_number(number: u16) -> Option<EntryNo>
        ensures some { IfSome result (λ e. (e ≡ number) × IsEntryNo e) }
        ensures none { IfNone result (¬ IsEntryNo number) }
    {
        if number < 1 || number > MAX_ENTRY {
            return None;
        }
        Some(EntryNo { number })
    }

    /// The number.
    pub fn get(self) -> u16
        ensures value { result ≡ self }
        ensures range { IsEntryNo result }
    {
        self.number
    }

    /// The four digits as text.
    #[tactic(auto, using(crate::proofs::EntryFacts::four_digits))]
    pub fn digits(self) -> [u8; 4]
        ensures { result ≡ entry_text self }
    {
        let n = self.number;
        [
            b'0' + (n / 1_000 % 10) as u8,
            b'0' + (n / 100 % 10) as u8,
            b'0' + (n / 10 % 10) as u8,
            b'0' + (n % 10) as u8,
        ]
    }

    /// Appends the four digits. If memory runs out, `out` is unchanged.
    pub fn write_to(self, out: &mut Vec<u8>) -> Result<(), AllocError>
        ensures ok { OnOk result (out.new.items ≡ out.old.items ++ entry_text self) }
        ensures err { OnErr result (out.new.items ≡ out.old.items) }
    {
        out.extend_from_slice(&self.digits())
    }
}

impl fmt::Display for EntryNo {
    ghost output = { λ e. Some (entry_text e) };

    #[tactic(auto, using(crate::proofs::EntryFacts::printed_four))]
    fn fmt<W: fmt::Write>(&self, f: &mut fmt::Formatter<W>) -> fmt::Result {
        let n = self.get();
        let (a, b, c, d) = (n / 1_000 % 10, n / 100 % 10, n / 10 % 10, n % 10);
        write!(f, "{a}{b}{c}{d}")
    }
}
