// Periods of days.

ghost use Rattle.std.specs.Prelude.{◌≡◌, ◌≤◌, ◌<◌, None, Some};
ghost use Rattle.trust_values.specs.Limits.{IsDay};
ghost use Rattle.trust_values.specs.Periods.{Span, first_of_month, month_to};

use crate::Day;
use std::marker::Model;

/// A period: from one day to a day that is not before it, both included.
///
/// Contracts see it as its two days.
#[derive(Clone, Copy)]
pub struct Period {
    from: Day,
    to: Day,
}

impl Model for Period {
    ghost Value = { Span };

    ghost view = { λ p. record { from = p.from; to = p.to } };

    ghost invariant = { λ p. p.from ≤ p.to };

    ghost inverse = { λ s. record { from = s.from; to = s.to } };
}

// The first of a day's month.
#[tactic(auto, using(crate::proofs::DayFacts::first_day))]
fn first_of_month(day: Day) -> Day
    ensures value { result ≡ first_of_month day }
    ensures range { IsDay result }
    ensures before { result ≤ day }
{
    let Some(first) = Day::from_number(day.get() / 100 * 100 + 1) else {
        unreachable!()
    };
    first
}

impl Period {
    /// The period from one day to another. None if the other is earlier.
    pub fn new(from: Day, to: Day) -> Option<Period>
        ensures some { from ≤ to → result ≡ Some (record { from = from; to = to }) }
        ensures none { to < from → result ≡ None }
    {
        if to.get() < from.get() {
            return None;
        }
        Some(Period { from, to })
    }

    /// From the first of a day's month to the day.
    pub fn month_to(day: Day) -> Period
        ensures { result ≡ month_to day }
    {
        Period {
            from: first_of_month(day),
            to: day,
        }
    }

    /// The first day.
    pub fn from(self) -> Day
        ensures { result ≡ self.from }
    {
        self.from
    }

    /// The last day, which is not before the first.
    pub fn to(self) -> Day
        ensures value { result ≡ self.to }
        ensures order { self.from ≤ result }
    {
        self.to
    }
}
