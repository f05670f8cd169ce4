// Days of the calendar.

ghost use Rattle.std.specs.Prelude.{◌≡◌, ◌≢◌, ◌<◌, ℕ, ◌++◌, ◌↔◌, pos, length, slice_index, IfSome, IfNone, IsTrue, OnOk, OnErr, Some};
ghost use Rattle.jiff.specs.Words.{IsYmd};
ghost use Rattle.trust_values.specs.Limits.{IsDay, year_of, month_of, month_day_of};
ghost use Rattle.trust_values.specs.Texts.{day_of, day_text};

use crate::{MAX_YEAR, MIN_YEAR};
use byte_streams::read_fixed;
use jiff::civil::Date;
use std::alloc::AllocError;
use std::fmt;
use std::marker::Model;

/// A civil day of the Gregorian calendar, from 2000-01-01 to 2199-12-31.
///
/// Contracts see it as the number year * 10000 + month * 100 + day of the month.
#[derive(Clone, Copy, PartialEq, Eq, PartialOrd)]
pub struct Day {
    number: u32,
}

impl Model for Day {
    ghost Value = { ℕ };

    ghost view = { λ d. d.number };

    ghost invariant = { λ d. IsDay d.number };

    ghost inverse = { λ n. record { number = n } };
}

// The calendar date with this number. None if it is not a business day.
#[tactic(auto, unfolding(crate::specs::Limits::IsDay))]
fn date_of(number: u32) -> Option<Date>
    ensures day { IfSome result (λ _. IsDay number) }
    ensures some { IfSome result (IsYmd (pos (year_of number)) (pos (month_of number)) (pos (month_day_of number))) }
    ensures none { IfNone result (¬ IsDay number) }
{
    let year = number / 10_000;
    if year < MIN_YEAR || year > MAX_YEAR {
        return None;
    }
    let month = number / 100 % 100;
    let day = number % 100;
    match Date::new(year as i16, month as i8, day as i8) {
        Ok(date) => Some(date),
        Err(_) => None,
    }
}

/// A day's number as the ten bytes `YYYY-MM-DD`. The number is below 100,000,000.
#[tactic(auto, using(crate::proofs::DayFacts::ten_bytes))]
pub fn day_bytes(number: u32) -> [u8; 10]
    requires { number < 100_000_000 }
    ensures { result ≡ day_text number }
{
    let n = number;
    [
        b'0' + (n / 10_000_000 % 10) as u8,
        b'0' + (n / 1_000_000 % 10) as u8,
        b'0' + (n / 100_000 % 10) as u8,
        b'0' + (n / 10_000 % 10) as u8,
        b'-',
        b'0' + (n / 1_000 % 10) as u8,
        b'0' + (n / 100 % 10) as u8,
        b'-',
        b'0' + (n / 10 % 10) as u8,
        b'0' + (n % 10) as u8,
    ]
}

// Whether a text has ten bytes, with dashes at 4 and 7.
fn has_dashes(text: &[u8]) -> bool
    ensures { IsTrue result ↔ ((length text.now ≡ 10) × (slice_index text.now 4 ≡ 45) × (slice_index text.now 7 ≡ 45)) }
{
    text.len() == 10 && text[4] == b'-' && text[7] == b'-'
}

// Parses `YYYY-MM-DD` as a number, whether or not the calendar has that day.
#[tactic(auto, using(crate::proofs::DayFacts::number_facts))]
fn read_number(text: &[u8]) -> Option<u32>
    ensures below { IfSome result (λ n. n < 100_000_000) }
    ensures some { IfSome result (λ n. day_text n ≡ text.now) }
    ensures none { IfNone result ((n : ℕ) → n < 100_000_000 → day_text n ≢ text.now) }
{
    if !has_dashes(text) {
        return None;
    }
    let year = read_fixed(&text[..4])?;
    let month = read_fixed(&text[5..7])?;
    let day = read_fixed(&text[8..10])?;
    Some(year * 10_000 + month * 100 + day)
}

// Parses a day.
#[tactic(auto, using(crate::proofs::DayFacts::day_facts))]
fn read_day(text: &[u8]) -> Option<Day>
    ensures range { IfSome result IsDay }
    ensures some { IfSome result (λ d. day_text d ≡ text.now) }
    ensures none { IfNone result ((n : ℕ) → IsDay n → day_text n ≢ text.now) }
{
    let number = read_number(text)?;
    Day::from_number(number)
}

impl Day {
    /// Parses a day `YYYY-MM-DD`. Returns None for any other bytes, and if the calendar has no such day.
    pub fn read(text: &[u8]) -> Option<Day>
        ensures value { result ≡ day_of text.now }
        ensures some { IfSome result (λ d. day_text d ≡ text.now) }
        ensures none { IfNone result ((n : ℕ) → IsDay n → day_text n ≢ text.now) }
    {
        read_day(text)
    }

    /// The day with the number year * 10000 + month * 100 + day of the month. None if the calendar has no such day.
    pub fn from_number(number: u32) -> Option<Day>
        ensures some { IfSome result (λ d. (d ≡ number) × IsDay d) }
        ensures none { IfNone result (¬ IsDay number) }
    {
        let _ = date_of(number)?;
        Some(Day { number })
    }

    /// The number year * 10000 + month * 100 + day of the month.
    pub fn get(self) -> u32
        ensures value { result ≡ self }
        ensures range { IsDay result }
    {
        self.number
    }

    /// Appends the day's text. If memory runs out, `out` is unchanged.
    #[tactic(auto, using(crate::proofs::DayFacts::day_facts))]
    pub fn write_to(self, out: &mut Vec<u8>) -> Result<(), AllocError>
        ensures ok { OnOk result (out.new.items ≡ out.old.items ++ day_text self) }
        ensures err { OnErr result (out.new.items ≡ out.old.items) }
    {
        out.extend_from_slice(&day_bytes(self.number))
    }
}

impl fmt::Display for Day {
    ghost output = { λ d. Some (day_text d) };

    #[tactic(auto, using(crate::proofs::DayFacts::printed_ten, crate::proofs::DayFacts::day_facts))]
    fn fmt<W: fmt::Write>(&self, f: &mut fmt::Formatter<W>) -> fmt::Result {
        let n = self.get();
        let (a, b, c, d) = (
            n / 10_000_000 % 10,
            n / 1_000_000 % 10,
            n / 100_000 % 10,
            n / 10_000 % 10,
        );
        let (e, g) = (n / 1_000 % 10, n / 100 % 10);
        let (h, i) = (n / 10 % 10, n % 10);
        write!(f, "{a}{b}{c}{d}-{e}{g}-{h}{i}")
    }
}
