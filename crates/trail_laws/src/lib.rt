//! Laws of a matter's acts, which say who did what in it. A matter's dossier is its rows with its acts, as asks and
//! bank lines leave them. The laws speak of one matter, not of a book, which keeps the acts of all matters in one list.
//!
//! # What is promised
//!
//! By function, with the clauses of its contract in brackets. Each does nothing.
//!
//! - `laws` `acts_are_added`: an accepted ask that changes the matter adds exactly one act (`asked`), with its caller,
//!   its day and its entry, and a line that is applied one of the cashier's (`applied`). A refusal, a repeat, a reading
//!   and a line that is not applied add none, and a purge leaves none.
//! - `laws` `seats_follow_acts`: a matter's seats are those that its acts left.
//! - `laws` `acts_are_allowed`: the policy allowed each act to its caller, with the seats of that moment, and an
//!   approval only to a person with a lawyer's seat.
//! - `laws` `payments_are_signed`: after every run of asks and lines (`runs`) **each payment that is or was issued has
//!   exactly one act of approval, on the day of its issue, by a person who had a lawyer's seat then** (`approved`).
//!   Where the acts begin later than the matter, this is so of each payment that was not issued before.
//! - `laws` `runs_are_replayed`: after every run of asks and lines (`runs`) a matter's acts are complete, and **its
//!   rows say of each act what was asked, or what the bank showed, and all of it, asked or shown again in order from
//!   nothing, makes the same rows and the same acts**, unless the matter was never opened, or was purged. After every
//!   run of rows that had no acts this is so where the acts begin with the opening (`later_runs`). Each step keeps both
//!   (`steps`, `complete`).
#![tactic(auto)]

pub mod laws;
