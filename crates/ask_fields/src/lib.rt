//! Reads asks of a matter from the texts of their fields, wherever these come from. A reader's errors are the first
//! invalid field, and out of memory.
//!
//! The matter is checked before all fields, then the entry, then the other fields in the order of the reader's
//! parameters. Asks to close, purge or show a matter have no fields. Pass an empty text for a missing field; no field
//! accepts it. Fields that may be missing, such as `of` and `claimant`, are `Option`.
//!
//! # What is promised
//!
//! By public call, with the clauses of its contract in brackets.
//!
//! - `read_opening`, `read_seating`, `read_dropping`; `read_depositing`, `read_cancelling`; `read_proposing`;
//!   `read_earning`; `read_claiming`, `read_split`; `read_showing`: the ask of the definition exactly if each text is
//!   of its field's form, and otherwise the first field that is not: the entry, then the others in their order; or out
//!   of memory, for those that take memory (that this comes only if memory was refused is tested). `from` names a fund,
//!   and `of` its entry (none for the general fund); a claim is on the general fund, with a claimant, or on a fee,
//!   without one.
#![tactic(auto)]

mod asks;

pub use asks::{
    ClaimTexts, PaymentTexts, read_cancelling, read_claiming, read_depositing, read_dropping,
    read_earning, read_opening, read_proposing, read_seating, read_showing, read_split,
};
