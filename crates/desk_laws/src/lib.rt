//! Laws of the desk's runs: what holds of whatever is asked of it and imported, in whatever order.
//!
//! # What is promised
//!
//! Each law is the contract of a function that does nothing. They speak of the steps of `trust_desk`, and of the runs
//! that it promises.
//!
//! - `laws` `own_machine`, `two_firms`: **in every run each matter's replies, and its rows and acts afterwards, are
//!   those of its own machine on its own rows and acts; two firms with the same rows and acts of a matter, in which on
//!   the same day the same is asked of it and the same lines name it, give it the same replies and leave it the same
//!   rows and acts, whatever else they have and hear** (`whole`). Where nobody asks for the acts of the matter, the
//!   same rows give the same replies, and leave the same rows (`rows`).
//! - `laws` `each_is_told_own`: **whatever a person asks, two firms that agree on the matters in which the person has a
//!   seat, and on the acts of such a matter where these are asked for, give the same reply**.
//! - `laws` `never_below_zero`: from a sound firm, **no matter's ledger is below zero before or after any request of a
//!   run and any item of an import** (`runs`); the same of the firm's own steps, if the amounts asked are in that range
//!   (`steps`).
//! - `laws` `sound_runs_are_runs`, `refusals_have_their_status`: what `Desk::run` promises is a run of which the other
//!   laws speak; a reply whose body is a refusal has the refusal's status.
//! - `laws` `once_only`, `firm_line_once`, `balance_once`: an ask that makes an entry adds at most one, and **a line of
//!   the bank is applied at most once**, in whatever file it comes again, however often they are sent, even after a
//!   purge: one that names an entry (`once_only`); one of the firm's own, of the same date, reference of the bank and
//!   amount, which is a repeat from then on (`firm_line_once`); an opening or closing balance, which stays kept with
//!   its amount, so that another of its day with that amount is a repeat, and one with another amount is an exception
//!   for ever (`balance_once`).
//! - `laws` `purging_changes_no_figure`: an ask to purge a matter of a sound firm, whether it is accepted or refused,
//!   changes no figure and no list of a day whose records are complete afterwards (`figures`), and no client's ledger
//!   as of a day as of which no purged matter was open (`clients`).
//! - `laws` `dismissing_moves_nothing`, `dismissed_once`: whoever asks to dismiss a line, and whether it is dismissed
//!   or refused: the rows of all matters, the journal, the firm's own lines, the balances and the acts stay as they
//!   are. A line that was dismissed is no exception, and to dismiss it again is refused.
//! - `laws` `dismissals_are_kept`: **a line that is dismissed is kept among the dismissals, with the business day, and
//!   stays there**: each step adds what it dismisses behind those that are there, and takes none out (`steps`); after
//!   all runs, with or without faults, they are those that were there and then the lines of the requests to dismiss
//!   that were not answered with a refusal, in order (`runs`).
//! - `laws` `filled_lines_are_applied`, `filled_lines_are_in_book`, `second_match_fills_nothing`: **each line that a
//!   match writes and that had no reference of its own is applied** when what is written is imported on the same day
//!   into the same sound firm, whatever was written before it; after that import the line is in the book already, and a
//!   match of the same lines neither fills nor writes it again; if no line has a reference, a second match fills
//!   nothing.
//! - `laws` `every_item_is_counted`, `reasons_are_verdicts`: the four counts of an import add up to the number of its
//!   items; what it would count an exception as is what the exception's reason says.
#![tactic(auto)]

pub mod laws;
