//! Names, texts and refusals of trust account records. Re-exports the values of `trust_values`.
//!
//! # What is promised
//!
//! By public call, with the clauses of its contract in brackets.
//!
//! - `PersonId`, `Label`, `BankText`, `LineText` `read`: the text exactly if its bytes are of the form; out of memory
//!   only then (`value`, `form`, `err`).
//! - `Label::is_cash`, `Label::is_firm`; `Line::is_same`, `Line::compare`: `cash` in any ASCII case between spaces;
//!   exactly `FIRM`; equal in all five fields; the order of lines.
//! - `Refusal::status`, `Refusal::write_json`: the status of each of the thirty refusals; its JSON text, without
//!   memory, or, at an error, a prefix of it.
#![tactic(auto)]

mod bank_text;
mod label;
mod limits;
mod line;
mod line_text;
mod person_id;
mod refusal;
mod refusal_text;
mod text;

pub use bank_text::{BankForm, BankText};
pub use byte_streams::{InputFault, OwnedBytes, WriteFault, read_whole, send};
pub use label::{Label, LabelForm};
pub use limits::{MAX_BANK_TEXT, MAX_FILE_BYTES, MAX_LABEL, MAX_LINE_TEXT, MAX_PERSON};
pub use line::Line;
pub use line_text::{LineForm, LineText};
pub use person_id::{PersonForm, PersonId};
pub use refusal::{Field, Refusal, Rule, StoreFault};
pub use refusal_text::RefusalText;
pub use text::{Form, Text};
pub use trust_values::{
    BankAmount, Cents, CentsOrZero, CivilDay, Day, Dollars, EntryNo, MAX_AMOUNT, MAX_ENTRY,
    MatterNo, Period, day_bytes, write_amount,
};
