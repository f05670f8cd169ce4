//! The step of one matter: how an ask or a bank line is answered, and what it changes. `matter_laws` has laws over the
//! definitions, and worked cases.
//!
//! # What is promised
//!
//! By public call, with the clauses of its contract in brackets.
//!
//! - `decide`: for every ask, for **all** sound rows of which the kept matter is a part: the change of the definition,
//!   or the refusal with the least number whose condition holds. It runs out of memory only if the ask is accepted.
//!   Where head, seats, totals, counts and the named entries are loaded it never answers Store (`decided`), and else
//!   only that (`unread`). The change carries the act that it is remembered by: who asked, on which business day, for
//!   what.
//! - `decide_line`: for a line of the bank and all such rows: the line clears the entry or takes the deposit back, is a
//!   repeat, or matches nothing for the first reason that holds. It runs out of memory only if the line is applied.
//!   Where enough is loaded it never answers Store (`decided`), and else only that (`unread`). The change carries an
//!   act of the cashier, on the business day.
#![tactic(auto)]

mod act;
mod ask;
mod bank_line;
mod claim;
mod deciding;
mod head;
mod line_verdict;
mod payment;

pub use ask::{Ask, DepositAsk, FeeAsk, OpenAsk};
pub use bank_line::BankLine;
pub use claim::{ClaimAsk, SplitAsk};
pub use deciding::decide;
pub use line_verdict::{LineVerdict, Reason, decide_line};
pub use matter_parts::{
    Balances, Change, Edit, Figures, Kept, Left, Matter, Numbered, Opening, TotalsAfter, balances,
    claim_left, fee_left,
};
pub use matter_rows::{
    Act, Against, Caller, Claim, ClaimState, ClearedPayment, Clearing, Deed, Deposit, DepositState,
    Entry, EntryMovement, Fee, Fund, Head, Holder, Payment, PaymentState, ReturnedDeposit, Role,
    Seat, Settlement, VoidedPayment,
};
pub use payment::PaymentAsk;
