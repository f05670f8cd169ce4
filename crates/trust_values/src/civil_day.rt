// Days that may lie after the last business day.

ghost use Rattle.std.specs.Prelude.{◌≡◌, ◌++◌, ◌↔◌, ℕ, IsTrue, IfSome, IfNone, OnOk, OnErr};
ghost use Rattle.trust_values.specs.Limits.{IsCivilDay};
ghost use Rattle.trust_values.specs.Texts.{day_text};

use crate::day::day_bytes;
use crate::{Day, MAX_CIVIL_YEAR, MIN_YEAR};
use jiff::civil::Date;
use std::alloc::AllocError;
use std::marker::Model;

/// A civil day from 2000-01-01 to 9999-12-31, such as one counted forward from a business day.
///
/// Contracts see it as the number year * 10000 + month * 100 + day of the month.
#[derive(Clone, Copy)]
pub struct CivilDay {
    number: u32,
}

impl Model for CivilDay {
    ghost Value = { ℕ };

    ghost view = { λ d. d.number };

    ghost invariant = { λ d. IsCivilDay d.number };

    ghost inverse = { λ n. record { number = n } };
}

// Whether the calendar has the day with this number, in a year from 2000 to 9999.
#[tactic(auto, unfolding(crate::specs::Limits::IsCivilDay))]
fn is_on_calendar(number: u32) -> bool
    ensures { IsTrue result ↔ IsCivilDay number }
{
    let year = number / 10_000;
    if year < MIN_YEAR || year > MAX_CIVIL_YEAR {
        return false;
    }
    let month = number / 100 % 100;
    let day = number % 100;
    Date::new(year as i16, month as i8, day as i8).is_ok()
}

impl CivilDay {
    /// The day with the number year * 10000 + month * 100 + day of the month. None if the calendar has no such day.
    pub fn from_number(number: u32) -> Option<CivilDay>
        ensures some { IfSome result (λ d. (d ≡ number) × IsCivilDay d) }
        ensures none { IfNone result (¬ IsCivilDay number) }
    {
        if !is_on_calendar(number) {
            return None;
        }
        Some(CivilDay { number })
    }

    /// The number year * 10000 + month * 100 + day of the month.
    pub fn get(self) -> u32
        ensures value { result ≡ self }
        ensures range { IsCivilDay result }
    {
        self.number
    }

    /// Appends the day's text. If memory runs out, `out` is unchanged.
    #[tactic(auto, using(crate::proofs::CivilDayFacts::civil_day_facts))]
    pub fn write_to(self, out: &mut Vec<u8>) -> Result<(), AllocError>
        ensures ok { OnOk result (out.new.items ≡ out.old.items ++ day_text self) }
        ensures err { OnErr result (out.new.items ≡ out.old.items) }
    {
        out.extend_from_slice(&day_bytes(self.number))
    }
}

impl From<Day> for CivilDay {
    ghost from_gives = { λ day same. same ≡ day };

    #[tactic(auto, using(crate::proofs::CivilDayFacts::civil_day_of_day))]
    fn from(day: Day) -> Self {
        CivilDay { number: day.get() }
    }
}
