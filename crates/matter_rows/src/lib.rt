//! The rows of a matter: its head, its seats and its entries, what each entry adds to each balance and moves in the
//! journal.
//!
//! # What is promised
//!
//! By public call, with the clauses of its contract in brackets.
//!
//! - `Caller::copied`: a deep copy. An `Act` is what a change of a matter is remembered as: of which entry, on which
//!   business day, by whom, and what was done.
//! - `laws` `sound_is_covered`: a matter's cleared deposits less its payments are what is available, disputed, left of
//!   fees and left of claims, each at least zero.
#![tactic(auto)]

mod act;
mod claim;
mod clearing;
mod deposit;
mod entry;
mod fee;
mod head;
pub mod laws;
mod limits;
mod movement;
mod payment;
mod seat;
mod shares;
mod soundness;
mod totals;

pub use act::{Act, Caller, Deed};
pub use claim::{Against, Claim, ClaimState, Settlement};
pub use clearing::Clearing;
pub use deposit::{Deposit, DepositState, ReturnedDeposit};
pub use entry::Entry;
pub use fee::Fee;
pub use head::{Head, Holder, close_on, head_copied, purge_on, see_on};
pub use limits::MAX_TOTAL;
pub use movement::EntryMovement;
pub use payment::{ClearedPayment, Fund, Payment, PaymentState, VoidedPayment};
pub use seat::{Role, Seat, add_seat, drop_seat, has_other_lawyer, role_of, seats_copied};
pub use shares::{Shares, moved, no_shares};
pub use soundness::{are_in_form, are_in_order};
pub use totals::sums_of;
