// How long the records of a closed matter are kept.

ghost use Rattle.std.specs.Prelude.{◌≡◌, ◌+◌, ◌<◌, ◌≤◌};
ghost use Rattle.trust_values.specs.Limits.{year_of};
ghost use Rattle.trust_values.specs.Retention.{IsDayAfter, first_purge_day, next_day, retained_until};

use crate::{CivilDay, Day, MAX_CIVIL_YEAR, MAX_YEAR, YEARS_KEPT};

// The day after a day, whose year is before 9999.
fn day_after(day: CivilDay) -> CivilDay
    requires { year_of day < MAX_CIVIL_YEAR }
    ensures value { result ≡ next_day day }
    ensures after { IsDayAfter day result }
{
    let number = day.get();
    if let Some(next) = CivilDay::from_number(number + 1) {
        return next;
    }
    let first = if number / 100 % 100 < 12 {
        (number / 100 + 1) * 100 + 1
    } else {
        (number / 10_000 + 1) * 10_000 + 101
    };
    let Some(next) = CivilDay::from_number(first) else {
        unreachable!()
    };
    next
}

impl Day {
    /// The last day on which the records of a matter closed on this day are kept: the same month and day five years
    /// later, or 28 February for 29 February. It may lie after 2199, up to 2204-12-31.
    #[tactic(auto, using(crate::proofs::RetentionFacts::retained_facts, crate::proofs::DayFacts::day_facts))]
    pub fn retained_until(self) -> CivilDay
        ensures value { result ≡ retained_until self }
        ensures range { year_of result ≤ MAX_YEAR + YEARS_KEPT }
    {
        let number = self.get();
        let kept = if number % 10_000 == 229 {
            number - 1
        } else {
            number
        };
        let Some(day) = CivilDay::from_number(kept + YEARS_KEPT * 10_000) else {
            unreachable!()
        };
        day
    }

    /// The first day on which a matter closed on this day may be purged: the day after `retained_until`. It may lie
    /// after 2199.
    pub fn first_purge_day(self) -> CivilDay
        ensures value { result ≡ first_purge_day self }
        ensures after { IsDayAfter (retained_until self) result }
    {
        day_after(self.retained_until())
    }
}
