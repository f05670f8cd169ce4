//! What standard error says of the records that a match leaves for a person to look at.
//!
//! # What is promised
//!
//! No contract says what a remark is.
#![tactic(auto)]

mod unmatched;

pub use unmatched::UnmatchedLine;
