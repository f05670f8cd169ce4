//! Turns a message into what it asks: the request given by its route, method, caller, path and body, or a refusal.
//!
//! # What is promised
//!
//! By public call, with the clauses of its contract in brackets.
//!
//! - `request_of`: the request of a message, or the first refusal that holds: no route, another method, no caller, a
//!   field; out of memory at any time, and never a fault of the store.
//! - `named_matter`: the matter that a path names, with a route or without one.
//! - `Routes::new`: the routes as `matchit` keeps the 43 paths of the table, taken in order (its type's invariant); the
//!   only error is that memory runs out, since each path is good and no two of them conflict (`memory`).
//! - `laws` `least_refusal`: of no route, another method, no caller and a bad field, the one of the least number whose
//!   condition holds is the answer; of what is read as a request none holds.
//! - `laws` `named_by_path`: what the desk hears of a message names a matter exactly if the message's path does,
//!   `/matters/` and six digits and then the end or `/`, whether it is read as a request or refused.
#![tactic(auto)]

pub mod laws;
mod request;
mod routes;

pub use request::{named_matter, request_of};
pub use routes::Routes;
