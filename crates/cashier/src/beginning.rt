// Remarks at the beginning of a run.

use crate::folder::Presence;
use cashier_remarks::{BookRemark, Remark, Remarks};
use command_line::Plan;
use std::rt::Clock;
use trust_base::Day;
use trust_store::NoBook;

// How far the business day may be ahead of the machine's clock, in days.
const DAYS_AHEAD: u64 = 31;

const SECONDS_OF_A_DAY: u64 = 86_400;

/// The number of days from 1970-01-01 to a day, counting in years that begin in March.
pub fn days_since_1970(day: Day) -> u64 {
    let number = day.get() as u64;
    let (year, month) = (number / 10_000, number / 100 % 100);
    let (year, month) = if month < 3 {
        (year.saturating_sub(1), month + 9)
    } else {
        (year, month - 3)
    };
    let days = 365 * year + year / 4 - year / 100 + year / 400 + (153 * month + 2) / 5;
    (days + number % 100).saturating_sub(719_469)
}

/// Whether a business day is before that of the machine's clock. True if the clock can't be read, since it may be.
pub fn is_past<C: Clock>(clock: &C, today: Day) -> bool {
    match clock.since_1970() {
        Ok(now) => days_since_1970(today) < now.as_secs() / SECONDS_OF_A_DAY,
        Err(_) => true,
    }
}

/// Warns of a business day that is more than 31 days ahead of the machine's clock. What is booked on it locks its
/// matters until then.
pub fn tell_of_day<C: Clock, M: Remarks>(clock: &C, remarks: &M, plan: &Plan<'_>) {
    if plan.is_quiet {
        return;
    }
    let Ok(now) = clock.since_1970() else {
        return;
    };
    if days_since_1970(plan.today) > now.as_secs() / SECONDS_OF_A_DAY + DAYS_AHEAD {
        remarks.tell(&Remark::FarDay(plan.today));
    }
}

/// Reports that a new book was begun at a path. If there was none, the path may be mistyped; if there was an empty
/// file, something may have emptied a book.
pub fn tell_of_new_book<M: Remarks>(remarks: &M, plan: &Plan<'_>, path: &str, found: Presence) {
    if plan.is_quiet {
        return;
    }
    let told = match found {
        Presence::Missing => BookRemark::New,
        Presence::Empty => BookRemark::Emptied,
        Presence::TwoNames | Presence::There => return,
    };
    remarks.tell(&Remark::Book { path, told });
}

/// Reports why no book is available at a path where this was found, unless memory ran out. A store opens no file that
/// has a second name.
pub fn tell_of_no_book<M: Remarks>(
    remarks: &M,
    plan: &Plan<'_>,
    path: &str,
    found: Presence,
    why: NoBook,
) {
    if plan.is_quiet || why == NoBook::Memory {
        return;
    }
    let told = match found {
        Presence::TwoNames if why == NoBook::Unopened => BookRemark::TwoNames,
        Presence::TwoNames | Presence::Missing | Presence::Empty | Presence::There => {
            BookRemark::NoBook(why)
        }
    };
    remarks.tell(&Remark::Book { path, told });
}
