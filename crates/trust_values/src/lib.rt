//! Amounts, days and numbers of trust account records. Each value is written in exactly one way.
//!
//! # What is promised
//!
//! By public call, with the clauses of its contract in brackets.
//!
//! - `Cents::read`, `MatterNo::read`, `Day::read`, `EntryNo::read`, `CentsOrZero::read`, `BankAmount::read`: the value
//!   exactly if the bytes are its text (`value`, `some`), and none if no value of the range has that text (`none`).
//!   They take no memory.
//! - `Day::retained_until`, `Day::first_purge_day`: the same month and day five years later, 28 February for 29
//!   February, and the first day of the calendar after that. They take no memory, and may be after 2199.
//! - `Period::new`, `Period::month_to`: two days of which the second is not before the first; from the first of a day's
//!   month to the day.
//! - `write_to` of these and of `CivilDay`; `write_amount`: append the value's text, or leave the vector as it was if
//!   memory is refused (`ok`, `err`).
#![tactic(auto)]

mod bank_amount;
mod cents;
mod cents_or_zero;
mod civil_day;
mod day;
mod dollars;
mod entry_no;
mod limits;
mod matter_no;
mod period;
mod retention;

pub use bank_amount::BankAmount;
pub use cents::Cents;
pub use cents_or_zero::CentsOrZero;
pub use civil_day::CivilDay;
pub use day::{Day, day_bytes};
pub use dollars::{Dollars, write_amount};
pub use entry_no::EntryNo;
pub use limits::{
    MAX_AMOUNT, MAX_BANK_AMOUNT, MAX_CIVIL_YEAR, MAX_ENTRY, MAX_MATTER, MAX_YEAR, MIN_YEAR,
    YEARS_KEPT,
};
pub use matter_no::MatterNo;
pub use period::Period;
