//! Reads a book's tables: single rows and lists of rows, as what they stand for. A row that stands for nothing is
//! never guessed at: reading it returns `Store`. Out of memory is `Memory`.
//!
//! The rows of all matters, the movements, the lines of the firm's own, the exceptions, the balances and the acts can
//! be passed to a sink one at a time (`each_row` and `each_listed`), or all read at once (`all_rows`).
//!
//! # What is promised
//!
//! By public call, with the clauses of its contract in brackets.
//!
//! If the tables stand for the rows of a sound firm, and what was read is what had been written (of a read that answers
//! Ok, and of a write whose change fits the firm):
//!
//! - `whole_matter`: the matter with all its entries, whole, as the firm has it (`found`). **Whatever rows a book's
//!   tables hold**, a matter that is returned has exactly these rows, if what was read is what had been written
//!   (`read`); and, without any premise, it is the whole of sound rows, with their own totals and what they leave of
//!   each entry (`audited`). So no matter is returned if its rows are not sound: an entry is missing in the middle, a
//!   total or what is left is off by a cent, days are out of order, a claim is paid from before it was settled, or a
//!   closed matter has money.
//! - `matter_for`: the matter with its head, seats and totals, the entries that are named and those that these draw on,
//!   as the firm has them, and no others (`found`).
//! - within the crate `head_and_seats`, `entries_of`; `laws` `parts_are_whole`: a matter's head, totals and seats, and
//!   all its entries: each a field of one part, which is whole (`head`, `seats`, `found`).
//! - within the crate `rows_of`: a query ends with a fault only if the connection ended it with an error, and with
//!   Memory exactly if that one is of memory (`cause`).
//! - `opened_matters`: the numbers of all matters that were opened, in ascending order; of tables that stand for
//!   records, sound or not, those of the firm that the tables hold (`found`), and of their heads (`read`).
//! - `firm_ledger`, `balance_at`: the firm's own lines; the balance of a kind and day (`found`).
//! - `all_rows`: all rows at once, each matter whole: **of tables that stand for records, sound or not**, they are
//!   those of the firm that the tables hold (`read`), and each matter is the whole of sound rows, by number (`whole`).
//!   A matter that is not is Store.
//! - each of these: changes nothing, not even after a crash, whatever the tables hold (`left`), since its query is a
//!   SELECT. That a row which stands for nothing is Store is promised of `sql_rows`; of these calls cases try it,
//!   column by column (`cases/spoiled-books.txt`), and also what is not noticed: a call that reads less than a whole
//!   matter looks at no other rows. So totals that are off by a cent are returned as they are if they are asked for
//!   without the ledger card, and an entry missing in the middle is left out of the trial balance.
//! - `each_row`, and `each_listed` of each kind that is `Listed`: a sink takes each row of the firm's list in order,
//!   fewer than 2^64, one at a time while the connection lends them, so that memory does not grow with them; at an
//!   error it has taken a prefix of them (`handed`); nothing changes (`left`).
//! - `each_act_of`: the same of the acts of one matter, as the firm has them (`handed`, `left`). That it looks at no
//!   other row of the trail is its query's, and cases try it.
//! - `each_readable_act`: a sink takes each act, as the firm has them, in its order (`handed`), and no row is told as
//!   one that stands for none (`whole`). **Whatever rows the trail holds**, the sink takes the act that each row shows,
//!   but for those that are told by their number and their matter, and these stand for no act (`read`). Nothing changes
//!   (`left`).
//! - `unread_dismissals`: of tables that stand for a sound firm, no row (`whole`). **Whatever rows the trail holds**,
//!   those that it tells, by their numbers among the rows with matter 0, stand for no dismissal, and each other has the
//!   columns of one, whatever its day and its text (`read`). Nothing changes (`left`).
#![tactic(auto)]

mod columns;
mod firm;
pub mod laws;
mod lists;
mod matter;
mod query;

pub use firm::all_rows;
pub use lists::{
    Listed, balance_at, each_act_of, each_listed, each_readable_act, firm_ledger, unread_dismissals,
};
pub use matter::{each_row, matter_for, opened_matters, whole_matter};
pub use query::fault_of;
