// Days that are written in digits alone.

ghost use Rattle.std.specs.Prelude.{◌≡◌, ◌+◌, ◌<◌, ◌||◌, length};
ghost use Rattle.byte_streams.specs.Digits.{fixed_digits};
ghost use Rattle.jiff_core.specs.Date.{epoch_day};
ghost use Rattle.statement_lines.specs.WrittenDays.{days_since_1970, is_day_near as is_day_near_day, spells_day_near};

use byte_streams::read_fixed;
use jiff_core::civil::Date;
use trust_base::Day;

// How many days a day in a line's words may be from the line's own.
const DAYS_NEAR: u32 = 400;

// The same day for the calendar's reckoning.
#[tactic(auto, using(crate::proofs::WrittenDays::day_parts))]
fn date_of(day: Day) -> Date
    ensures { epoch_day result ≡ days_since_1970 day }
{
    let number = day.get();
    let (year, month, of_month) = (number / 10_000, number / 100 % 100, number % 100);
    let Ok(date) = Date::new(year as i16, month as i8, of_month as i8) else {
        unreachable!()
    };
    date
}

// Whether the number is that of a day near this one.
#[tactic(auto, using(crate::proofs::WrittenDays::day_facts))]
fn is_day_near(day: Day, number: u32) -> bool
    ensures { result ≡ is_day_near_day day number }
{
    let Some(other) = Day::from_number(number) else {
        return false;
    };
    let days = date_of(day).until(date_of(other));
    days.unsigned_abs() <= DAYS_NEAR
}

// Whether the number of eight digits is a day near this one, its year in front or behind.
fn is_near_in_eight(day: Day, number: u32) -> bool
    requires { number < 100_000_000 }
    ensures { result ≡ spells_day_near day (fixed_digits 8 number) }
{
    let year_last = number % 10_000 * 10_000;
    let month_first = year_last + number / 10_000;
    let day_first = year_last + number / 10_000 % 100 * 100 + number / 1_000_000;
    is_day_near(day, number) || is_day_near(day, month_first) || is_day_near(day, day_first)
}

// Whether the number is that of a day near this one, less its century.
fn is_day_near_in_century(day: Day, number: u32) -> bool
    requires { number < 1_000_000 }
    ensures { result ≡ (is_day_near_day day (20000000 + number) || is_day_near_day day (21000000 + number)) }
{
    is_day_near(day, 20_000_000 + number) || is_day_near(day, 21_000_000 + number)
}

// Whether the number of six digits is a day near this one, its year in front or behind.
fn is_near_in_six(day: Day, number: u32) -> bool
    requires { number < 1_000_000 }
    ensures { result ≡ spells_day_near day (fixed_digits 6 number) }
{
    is_day_near_in_century(day, number)
        || is_day_near_in_century(day, number % 100 * 10_000 + number / 100)
}

// Whether eight bytes write a day near this one.
fn is_eight_near(day: Day, token: &[u8]) -> bool
    requires { length token.now ≡ 8 }
    ensures { result ≡ spells_day_near day token.now }
{
    match read_fixed(token) {
        Some(number) => is_near_in_eight(day, number),
        None => false,
    }
}

// Whether six bytes write a day near this one.
fn is_six_near(day: Day, token: &[u8]) -> bool
    requires { length token.now ≡ 6 }
    ensures { result ≡ spells_day_near day token.now }
{
    match read_fixed(token) {
        Some(number) => is_near_in_six(day, number),
        None => false,
    }
}

/// Whether a token is a day at most 400 days from this one, in eight or six digits alone.
pub(crate) fn writes_day_near(day: Day, token: &[u8]) -> bool
    ensures { result ≡ spells_day_near day token.now }
{
    match token.len() {
        8 => is_eight_near(day, token),
        6 => is_six_near(day, token),
        _ => false,
    }
}
