//! Whether all rows of a firm, as they were read from a book, are those of a sound firm.
//!
//! # What is promised
//!
//! By public call, with the clauses of its contract in brackets.
//!
//! - `audit`: of all rows of a firm, from whatever book they were read: **it finds no flaw exactly if they are those of
//!   a sound firm**, each matter complete (`sound`). A flaw that it finds is there (`flaw`, by `IsFlawIn`).
//! - `audit_trail`: of the same rows, each matter complete: **it finds no flaw of the trail exactly if each matter's
//!   acts fit its rows** (`HasItsTrail`), and then it counts the payments that have an approval, those that are older
//!   than the trail, and the matters that are; a flaw that it finds is there (`IsTrailFound`). Where a matter's acts
//!   begin with its opening, they fit exactly if they make the matter again (`IsReplayed` of `trail_laws`), and the
//!   flaw names the first act that does not follow (`IsMisfit` of `trail_replay`). Of a matter that is older than its
//!   acts the policy allowed each act to its caller with some seats (`IsSignedLater`).
//! - `laws` `flawed_is_unsound`: a firm that has a flaw is not sound. `flawed_is_no_trail`: nor does a trail that has
//!   one fit the rows.
//! - `Err` is out of memory. No clause says that there was too little.
#![tactic(auto)]

mod event;
mod firm;
mod flaw;
mod grouped;
mod journal;
pub mod laws;
mod matter_journal;
mod matters;
mod order;
mod own_money;
mod trail;

pub use firm::audit;
pub use flaw::Flaw;
pub use trail::{TrailCounts, TrailFlaw, TrailFound, audit_trail};
