//! Laws over the definitions of a matter, and worked cases.
//!
//! # What is promised
//!
//! By function, with the clauses of its contract in brackets. Each does nothing.
//!
//! - `laws` `sound_for_ever`: no ask with an amount of 0.01 to 999,999,999.99, or without an amount, and no line,
//!   leaves sound rows unsound. So **every fund on its own, and not only their sum, is at least zero**.
//! - `laws` `lefts_are_sums`: of sound rows, what is left of a fee is its amount, less the open claims on it, less the
//!   client's parts of the settled ones, less the payments from it that are issued or cleared; what is left of a claim
//!   on the general fund is its amount, and once settled its amount less the client's part, less the payments from it.
//! - `laws` `head_follows`, `last_day_follows`: an accepted opening leaves the head that was asked for and the lawyer's
//!   seat; a closing leaves its day and the rest as it was; a purge leaves the stub; a seat given or taken is exactly
//!   one seat more or less. An accepted change leaves its day as the last, and an ask that only reads changes nothing.
//! - `laws` `least_refusal`, `first_reason_holds`: the refusal given is the one with the least number that holds; if
//!   none is given, none holds, except those that a repeat does not meet. Likewise a line's reason is the first that
//!   holds.
//! - `laws` `at_most_once`, `line_at_most_once`: an accepted deposit, proposal, fee or claim, or a line that was
//!   applied, changes nothing when it comes again, whatever was asked or came from the bank in between, even a purge;
//!   and it is a repeat as long as the matter is not purged.
//! - `laws` `made_stays`, `purging_is_last`, `full_takes_none`: what was made stays, whatever is asked except purging;
//!   nothing changes a purged matter, and its stub is sound; a matter of 9,999 entries takes no more, and the answer
//!   has no next number.
//! - `cases`: worked cases computed from the definitions, and sound rows with each kind of entry in each state,
//!   so that soundness is no empty word.
#![tactic(auto)]

pub mod cases;
pub mod laws;
