//! Asks to open, close or purge a matter, and about its seats.

ghost use Rattle.std.specs.Prelude.{◌≡◌};
ghost use Rattle.matter_rows.specs.declared.act.Caller.{Caller as AnyCaller};
ghost use Rattle.trust_matter.specs.KeptFacts.{kept_facts};
ghost use Rattle.trust_matter.specs.Step.{AnswersLateBy};

use crate::ask::{Ask, OpenAsk};
use crate::deciding::check_change;
use matter_parts::{Edit, Matter, Opening};
use matter_rows::{Head, Holder, Role, Seat};
use trust_base::{Day, PersonId, Refusal};

pub(crate) fn decide_open(matter: &Matter, asked: &OpenAsk, day: Day) -> Result<Edit, Refusal>
    ensures { (c : AnyCaller) → AnswersLateBy (kept_facts matter.now (Ask.OpenMatter asked.now))
        (record { caller = c; ask = Ask.OpenMatter asked.now; day = day }) result }
{
    if matter.head().is_some() {
        return Err(Refusal::AlreadyOpen);
    }
    let client = asked.client.copied()?;
    let person = asked.lawyer.copied()?;
    Ok(Edit::Open(Opening {
        head: Head {
            holder: Holder::Client(client),
            opened: day,
            closed: None,
            last: day,
        },
        seat: Seat {
            person,
            role: Role::Lawyer,
        },
    }))
}

pub(crate) fn decide_add_seat(matter: &Matter, asked: &Seat, day: Day) -> Result<Edit, Refusal>
    ensures { (c : AnyCaller) → AnswersLateBy (kept_facts matter.now (Ask.AddSeat asked.now))
        (record { caller = c; ask = Ask.AddSeat asked.now; day = day }) result }
{
    check_change(matter, None, day)?;
    if matter.role_of(&asked.person).is_some() {
        return Err(Refusal::SeatTaken);
    }
    let seat = asked.copied()?;
    Ok(Edit::Seat(seat))
}

pub(crate) fn decide_drop_seat(matter: &Matter, asked: &PersonId, day: Day) -> Result<Edit, Refusal>
    ensures { (c : AnyCaller) → AnswersLateBy (kept_facts matter.now (Ask.DropSeat asked.now))
        (record { caller = c; ask = Ask.DropSeat asked.now; day = day }) result }
{
    check_change(matter, None, day)?;
    let Some(role) = matter.role_of(asked) else {
        return Err(Refusal::NoSeat);
    };
    if matches!(role, Role::Lawyer) && !matter.has_other_lawyer(asked) {
        return Err(Refusal::LastLawyer);
    }
    let person = asked.copied()?;
    Ok(Edit::Unseat(person))
}

pub(crate) fn decide_close(matter: &Matter, day: Day) -> Result<Edit, Refusal>
    ensures { (c : AnyCaller) → AnswersLateBy (kept_facts matter.now Ask.CloseMatter)
        (record { caller = c; ask = Ask.CloseMatter; day = day }) result }
{
    check_change(matter, None, day)?;
    let figures = matter.figures();
    let total = figures.available + figures.disputed + figures.fees + figures.claims;
    if total + figures.held != 0 || figures.pending != 0 {
        return Err(Refusal::NotEmpty);
    }
    Ok(Edit::Close(day))
}

// Decides to purge a closed matter, which is allowed from the day after the last on which its records are kept.
pub(crate) fn decide_purge(matter: &Matter, day: Day) -> Result<Edit, Refusal>
    ensures { (c : AnyCaller) → AnswersLateBy (kept_facts matter.now Ask.Purge)
        (record { caller = c; ask = Ask.Purge; day = day }) result }
{
    if let Some(last) = matter.last_if_after(day) {
        return Err(Refusal::DateBackwards(last));
    }
    let Some(closed) = matter.closed_on() else {
        return Err(Refusal::WrongState);
    };
    let first = closed.first_purge_day();
    if day.get() < first.get() {
        return Err(Refusal::TooEarly(first));
    }
    Ok(Edit::Purge(day))
}
