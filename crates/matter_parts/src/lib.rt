//! A matter in memory: its totals and some of its entries, and how a change updates it. Also tests whether a matter,
//! from whatever source, is the whole of sound rows: all their entries by number, their own totals, and what is left of
//! each entry.
//!
//! # What is promised
//!
//! By public call, with the clauses of its contract in brackets.
//!
//! - `change_of`, `Change::act`: a change carries the act that it is remembered by, which is the one given (`act`).
//! - `Matter::apply`: for all sound rows of which the matter is a part and the change is one: afterwards the matter is
//!   a part of the changed rows (`ok`), holds what it held (`held`), and if it was whole it stays whole (`whole`). If
//!   memory runs out it is unchanged (`err`).
//! - `Matter::of_part`: a matter of exactly these stored figures, seats and entries, if each figure is in its range,
//!   and Store otherwise.
//! - `is_sound_whole`; `laws` `whole_is_sound`: true exactly if a matter, wherever its rows came from, keeps all
//!   entries of sound rows by number, with their own totals and what they leave of each entry. It takes one pass: what
//!   is left is not added up again for each entry.
//! - `balances`, `fee_left`, `claim_left`: the sums of the definitions, for a part of rows (`balances`: of sound rows;
//!   what is left: if the entry is held). They take no memory.
#![tactic(auto)]

mod audit;
mod change;
mod edit;
mod figures;
mod kept;
pub mod laws;
mod matter;
mod named_entries;
mod totals;

pub use audit::is_sound_whole;
pub use change::{Change, Left, TotalsAfter, change_of};
pub use edit::{Edit, Numbered, Opening};
pub use figures::{Balances, Figures};
pub use kept::Kept;
pub use matter::Matter;
pub use totals::{balances, claim_left, fee_left};
