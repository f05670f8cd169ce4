//! The program's command line: turns its words into the plan of a run, or into advice if they mean nothing.
//!
//! # What is promised
//!
//! By public call, with the clauses of its contract in brackets.
//!
//! - `command_line::parse`: the values and the command of words only if the command line's grammar takes them (`ok`);
//!   else out of memory, or the error by which the grammar refuses them (`err`).
//! - `command_line::command_of`: a plan only if the command line's grammar takes the words, with the values of the
//!   words (`plan`) and the path of `--db`, if one is given (`db`), and quiet if `--quiet` is given (`quiet`); `Line`
//!   only if they mean no plan (`none`): of `serve`, if PORT or COUNT is missing, or is not exactly the decimal of a
//!   number from 1,024 to 65,535, or from 1 to 1,000,000.
//! - `command_line::advice_of`, `notice_of`: what standard error says of a wrong command line: a word is called wrong
//!   only if it is one of the words, the grammar accepts those before it so far, and refuses them with it. A value is
//!   called wrong only if it is that of `--today` or of an operand, and is no day, matter's number or `FIRM`, port or
//!   count, or is TO and a day before FROM. Something is called missing or repeated only if the parser's error says so;
//!   the option that is then named is the last one, if the words before it are accepted and it is refused as a
//!   repetition, or if it needs a value and the next word gives none. The usage and the example are those of the
//!   command whose name stands where one is wanted, or of the whole program (`command`, `wrong`). Of a `FileFault` it
//!   names the path that is imported or matched by the words, or standard input; of a `NetworkFault` the port that they
//!   say. The texts are those of their definitions (`advice_text`, `notice_text`). That something is said whenever
//!   memory suffices is only tested.
//! - `command_line::laws::import_is_no_sheet`, `import_is_no_stream`, `match_reads_nothing`, `report_reads_nothing`,
//!   `serve_reads_nothing`, `check_reads_nothing`: laws: words that mean an import, a match, a report, a check, or
//!   serving connections mean no sheet and no stream.
#![tactic(auto)]

mod advice;
mod command;
mod faults;
pub mod laws;
mod table;

pub use advice::{Advice, Setting, Wrong};
pub use command::{
    CliFault, MAX_COUNT, MAX_PORT, MIN_PORT, Plan, ReportCommand, Task, command_of, count_of,
    is_firm, parse, port_of,
};
pub use faults::advice_of;
pub use table::CommandName;
