//! Audits the acts of one matter by replay: they are to make the matter again, from nothing.
//!
//! # What is promised
//!
//! By public call, with the clauses of its contract in brackets.
//!
//! - `replayed`: of a whole matter of sound rows and any acts. **Made exactly if the acts make the matter again**: its
//!   rows say of each act what was asked, or what the bank showed, and all of it, asked or shown again in order from
//!   nothing, makes the same rows and the same acts (`IsReplayed` of `trail_laws`). Else it names the first act that
//!   does not follow from those before it, or says that they make another matter (`IsReplayFound`).
//! - `laws` `replayed_is_followed`: a dossier is replayed exactly if each act follows (`follows`), so that one act that
//!   does not follow can't be made good by later ones (`misfit`). A replayed dossier of sound rows is signed
//!   (`signed`): the policy allowed each act with the seats of its moment, the seats are those that the acts left, and
//!   each payment that is or was issued has its approval.
//! - `Err` is out of memory. No clause says that there was too little.
#![tactic(auto)]

pub mod laws;
mod replay;
mod same;
mod told;

pub use replay::{Replay, replayed};
