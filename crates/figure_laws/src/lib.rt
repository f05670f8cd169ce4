//! What is always true of a firm's figures and lists: in a sound firm they agree, what the sinks of `firm_figures`
//! store of a firm's rows is what the definitions say, and a purge changes nothing that can still be asked for. Also
//! the figures and lists of rows in memory, each asked by one call.
//!
//! # What is promised
//!
//! By public call, with the clauses of its contract in brackets.
//!
//! - `laws` `figures_agree`: in every sound firm, as of every day with a closing balance, the journal is the sum of the
//!   ledgers, and what the adjusted bank balance and the journal differ by is exceptions, early lines and the gap.
//! - `laws` `reconciliation_is_kept`: of the rows, movements, lines, exceptions and balances of a sound firm, given one
//!   by one, `finish` of a `ReconciliationSink` gives the ten figures and the six lists of the definitions, or None if
//!   no closing balance of the day is kept. The figures are exact if fewer than 2^64 rows of each kind came, with
//!   amounts in range, which each book says of what it gave.
//! - `laws` `reconciler_keeps_figures`, `lister_keeps_lists`, `issued_is_kept`, `openings_are_kept`: the parts of that
//!   by themselves; the lists want no premise.
//! - `laws` `purging_changes_no_figure`: purging a matter changes no figure of a day that is not before its close day,
//!   nor four of the lists; nor those of any day that can still be asked for after it, since a day before the close of
//!   a purged matter is PeriodPurged (`figures_left`, `lists_left`).
//! - `laws` `journal_is_kept`: what a `JournalSink` gives is the movements in the order of acceptance, each with the
//!   sum so far, exact for all that can be counted.
//! - `laws` `trial_is_kept`: what a `TrialSink` gives is the open matters with their ledgers, the firm's own balance,
//!   and TOTAL, exact for all that can be counted.
//! - `laws` `lists_agree`: in every sound firm no sum so far of the journal is below zero, and the last is TOTAL.
//! - `laws` `listed_are_open`: every matter of the trial balance is open.
//! - `laws` `retention_is_kept`: what a `RetentionSink` gives is the closed matters with the day until which their
//!   records are kept.
//! - `laws` `clients_are_kept`: what a `ClientsSink` gives is the clients' ledgers as of a day, with their clients, in
//!   128 bits.
//! - `laws` `clients_agree`: in every sound firm they and the firm's own balance add up to the ledgers, and so to the
//!   journal, of the reconciliation of that day (`agree`); each line is what the matter's movements by that day add up
//!   to (`moved`); none is below zero (`covered`); a purge changes the list of no day that may still be asked for
//!   (`purged`).
//! - `reconcile_at`, `trial_balance`, `journal_list`, `retention_list`: the figures and lists of rows in memory, each
//!   by one call. An Ok has what the definitions say: the reconciliation or None (`told`), with figures that agree
//!   (`agree`); the open matters, the firm's own balance and TOTAL (`lines`, `own`, `total`); the movements with the
//!   sums so far (`lines`), none below zero (`covered`), the last of them TOTAL (`total`); the closed matters. The only
//!   error is out of memory.
//! - `laws` `sinks_give_the_same`: what `finish` of each sink gives of all rows of a sound firm is what these give.
#![tactic(auto)]

pub mod laws;
mod of_lists;

pub use of_lists::{journal_list, reconcile_at, retention_list, trial_balance};
