//! A record of a day sheet, as the cashier types it: its form, what it asks, and the desk's answer to it.
//!
//! # What is promised
//!
//! By public call, with the clauses of its contract in brackets.
//!
//! - `answer_record`: what a record asks, by the readers of `ask_fields`, or the first field that is not of its form;
//!   the desk's answer to it, as the cashier (`IsReplied` of `trust_desk`): the firm's step on it. The reply is `Store`
//!   only if a call of the book answered Store. A crash may leave what it might have left before, or the rows with the
//!   record's change.
//! - `form_of`, `is_dismissal`: the form of the verb that a record's first field names, if it is one; whether it is
//!   `dismiss`, which belongs to no matter.
//! - `field_bytes`, `is_text`: a field of a record, empty if there is none; whether it is UTF-8.
#![tactic(auto)]

mod record;

pub use record::{
    FORMS, Verb, VerbForm, answer_record, field_bytes, form_of, is_dismissal, is_text,
};
