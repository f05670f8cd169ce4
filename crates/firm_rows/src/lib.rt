//! The joined rows of a firm, its movements, its acts and its dismissals, and what is true of rows and movements at
//! every moment.
//!
//! # What is promised
//!
//! By public call, with the clauses of its contract in brackets.
//!
//! - `decide_firm_line`, `FirmLedger`: a line of the firm's own is a repeat, is applied if its date is not after the
//!   business day, its amount is not zero and the balance stays within 0 to 500.00, and matches nothing otherwise (ABA
//!   Model Rule 1.15(b)).
//! - `decide_balance`: an opening or closing balance is a repeat if it is kept, is applied if none of its day is kept
//!   and it is not of the future, and matches nothing otherwise.
//! - `laws` `changes_one_matter`: a change of the firm, of whatever kind, changes one matter's own rows, or none.
//! - `laws` `firm_stays_sound`: a sound firm stays sound by every change that fits; **every movement of the journal is
//!   that of one event of one entry, or of one line of the firm's own, and every such event has one movement**; a
//!   matter's movements do not go back in time, and add up to its ledger, and at no place of the list to less than
//!   zero.
//! - `laws` `firm_stays_in_order`, `exceptions_are_a_set`: the order by itself; a line joins the exceptions, or leaves
//!   them, and no other line moves; one that is there already changes nothing.
//! - `laws` `verdicts_fit`: what `decide_line`, `decide_firm_line` and `decide_balance` say makes a change that fits.
//! - `laws` `applied_stays_kept`: a line of the firm's own that is applied is kept, and so is a balance, with its
//!   amount; what is kept stays kept by every change that fits, purging too.
//! - `laws` `sound_is_solvent`: the ledgers of all matters and the firm's own add up to at least zero and to what the
//!   journal moved.
//! - `laws` `solvent_is_not_sound`: the converse is false. Two matters, one below zero by what the other has, make a
//!   firm that is in order and solvent, and not sound.
//! - `laws` `acts_of_one_change`: a change of a matter adds the act that it is remembered by to the matter's acts, a
//!   purge removes these, and no other matter's acts change.
//! - `laws` `acts_decide_nothing`: whether a firm is sound, which change fits it, and what a change makes of all its
//!   other rows, is the same whatever its acts are.
//! - `laws` `dismissals_of_one_change`: dismissing a line adds it, with its day, to the dismissals, and no other change
//!   touches them: purging a matter leaves them.
//! - `laws` `dismissals_decide_nothing`: the same of dismissals as of acts.
//! - `hand`, and `hand_rows` of the rows of matters: a sink gets all rows of a slice in order, or, if it runs out of
//!   memory, some first ones.
#![tactic(auto)]

mod countable;
mod dismissal;
mod handing;
pub mod laws;
mod ledger;
mod limits;
mod matter_act;
mod movement;
mod sink;

pub use countable::Countable;
pub use dismissal::Dismissal;
pub use handing::{hand, hand_rows};
pub use ledger::{
    BalanceKind, BalanceRow, FirmLedger, FirmLine, Verdict, decide_balance, decide_firm_line,
    is_own_balance,
};
pub use limits::MAX_OWN;
pub use matter_act::MatterAct;
pub use movement::{Movement, Owner};
pub use sink::{MatterRow, MatterRowSink, RowSink};
