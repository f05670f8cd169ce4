//! The texts of a firm's reports and of a client's ledger card, byte for byte.
//!
//! # What is promised
//!
//! By public call, with the clauses of its contract in brackets.
//!
//! - `trial_text`, `journal_text`, `retention_text`, `exceptions_text`, `clients_text`, `receipts_text`,
//!   `disbursements_text`, `outstanding_text`, `reconciliation_text`, `own_card_text`: append exactly the text of the
//!   definition, line by line, or leave the vector as it was if memory is refused (`ok`, `err`).
//! - `trail_text`, `matter_trail_text`, `approvals_text`: the same of who did what, in the whole firm with the
//!   exceptions that were dismissed, and of who approved what was paid.
//! - `ledger_card`; `laws` `whole_card_is_of_rows`: the same of a matter's ledger card (ABA Model Rule 1.15(d): a full
//!   accounting); the card of a whole matter is that of its rows, with what is left and the balances added up anew.
//! - `account_text`; `laws` `whole_account_is_of_rows`: the same of a matter's statement of account for a period.
#![tactic(auto)]

mod account;
mod approvals;
mod card;
mod card_entries;
mod clients;
mod journal;
pub mod laws;
mod own_card;
mod page;
mod periods;
mod reconciliation;
mod retention;
mod trail;
mod trial;

pub use account::account_text;
pub use approvals::approvals_text;
pub use card::ledger_card;
pub use clients::clients_text;
pub use firm_figures::{
    ClientLine, ClientList, ClientsSink, JournalLine, JournalSink, Reconciliation,
    ReconciliationSink, RetentionLine, RetentionSink, TrialBalance, TrialSink,
};
pub use journal::journal_text;
pub use own_card::own_card_text;
pub use periods::{disbursements_text, outstanding_text, receipts_text};
pub use reconciliation::{exception_line, exceptions_text, reconciliation_text};
pub use retention::retention_text;
pub use trail::{act_line, dismissal_line, matter_trail_text, trail_text};
pub use trial::trial_text;
