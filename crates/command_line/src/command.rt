// The plan of a run, given by the words of the command line, and the command line as clap's parser takes it.

ghost use Rattle.std.specs.Prelude.{◌≡◌, ℕ, false, IfErr, IfOk, IfSome, IfNone, codes, map};
ghost use Rattle.std.specs.Prelude.{option_and_then, option_map};
ghost use Rattle.std.specs.Str.{bytes_eq};
ghost use Rattle.clap.specs.Words.{app_of, first_of, found_of, kind_of, rows_of, with_rule};
ghost use Rattle.clap.specs.declared.builder.command.Command.TheViews.{out-Command};
ghost use Rattle.trust_base.specs.Texts.{day_of};
ghost use Rattle.command_line.specs.Commands.{IsTaskOf, option_rule};
ghost use Rattle.command_line.specs.Numerals.{IsCount, IsNumberBetween, IsPort};
ghost use Rattle.trust_base.specs.Periods.{Span};
ghost use Rattle.command_line.specs.Program.{IsParse, IsPeriodGiven, IsRefused, IsTask, LeavesNoPlan, Means};
ghost use Rattle.command_line.specs.Program.{app_called, command_app, db_of, fault_by, program, quiet_of};
ghost use Rattle.command_line.specs.Program.{with_commands, words_of};
ghost use Rattle.command_line.specs.declared.command.Task.{Task};

use crate::table::{COMMANDS, CommandName, command_called, form_of};
use clap::error::{Error, ErrorKind};
use clap::{Arg, ArgAction, ArgMatches, Command};
use itoa::Buffer;
use std::alloc::{AllocError, Global};
use trust_base::{Day, MatterNo, Period};
use trust_desk::{DayReport, PeriodReport, Report, TodayReport};

/// What a run is to print.
#[derive(Clone, Copy)]
pub enum ReportCommand {
    /// The ledger card of this matter.
    Ledger(MatterNo),
    /// The statement of account of this matter for this period.
    Account(MatterNo, Period),
    /// The trail of this matter.
    Trail(MatterNo),
    /// This report on the firm.
    Firm(Report),
}

/// What a run is to do.
#[derive(Clone, Copy)]
pub enum Task<'a> {
    /// Run the day sheet on standard input.
    Sheet,
    /// Import the bank statement at this path.
    Import(&'a str),
    /// Match the bank statement at this path against the book. References of its lines may be empty.
    Match(&'a str),
    /// Serve the messages of standard input.
    Stream,
    /// Serve connections, one after the other.
    Serve {
        /// The port of 127.0.0.1, from 1,024 to 65,535.
        port: u16,
        /// How many connections, from 1 to 1,000,000.
        count: u32,
    },
    /// Print this report.
    Report(ReportCommand),
    /// Check the book's rows.
    Check,
}

/// The plan of a run: the business day, where the book is kept, whether its progress is reported, and the task.
#[derive(Clone, Copy)]
pub struct Plan<'a> {
    /// The business day of the run.
    pub today: Day,
    /// The path of the database that holds the book; `None` to keep the book in memory.
    pub db: Option<&'a str>,
    /// Whether to leave out the messages about the progress of the run.
    pub is_quiet: bool,
    /// The task.
    pub task: Task<'a>,
}

/// Why words give no plan.
#[derive(Clone, Copy, Debug, thiserror::Error)]
pub enum CliFault {
    /// The words do not fit the command line, or ask for help, or a day, a period, a matter's number, a port or a count
    /// in them is invalid.
    #[error("the command line is invalid")]
    Line,
    /// Out of memory.
    #[error("memory ran out")]
    Memory,
}

impl From<Error> for CliFault {
    ghost from_gives = { λ error fault. fault ≡ fault_by (kind_of error) };

    fn from(error: Error) -> Self {
        match error.kind() {
            ErrorKind::OutOfMemory => CliFault::Memory,
            _ => CliFault::Line,
        }
    }
}

/// The lowest port that can be served. Those below are reserved for the system.
pub const MIN_PORT: u32 = 1_024;

/// The highest port of TCP (RFC 9293, 3.1).
pub const MAX_PORT: u32 = 65_535;

/// The most connections of one run.
pub const MAX_COUNT: u32 = 1_000_000;

// Parses a number from `least` to `most`, in digits without leading zeros.
fn number_between(text: &str, least: u32, most: u32) -> Option<u32>
    ensures some { IfSome result (IsNumberBetween least most text.now) }
    ensures none { IfNone result ((number : ℕ) → ¬ IsNumberBetween least most text.now number) }
{
    let Ok(number) = text.parse::<u32>() else {
        return None;
    };
    let mut buffer = Buffer::new();
    if buffer.format(number) == text && least <= number && number <= most {
        Some(number)
    } else {
        None
    }
}

/// Parses a port: a number from 1,024 to 65,535, in digits without leading zeros.
pub fn port_of(text: &str) -> Option<u16>
    ensures some { IfSome result (IsPort text.now) }
    ensures none { IfNone result ((port : ℕ) → ¬ IsPort text.now port) }
{
    match number_between(text, MIN_PORT, MAX_PORT) {
        Some(port) => Some(port as u16),
        None => None,
    }
}

/// Parses a count of connections: a number from 1 to 1,000,000, in digits without leading zeros.
pub fn count_of(text: &str) -> Option<u32>
    ensures some { IfSome result (IsCount text.now) }
    ensures none { IfNone result ((count : ℕ) → ¬ IsCount text.now count) }
{
    number_between(text, 1, MAX_COUNT)
}

// Returns the day that is the first value of an argument; `None` without a value, or if it is not a day.
#[tactic(auto, using(crate::proofs::Values::values_read))]
fn day_operand(values: &ArgMatches, id: &str) -> Option<Day>
    ensures { result ≡ option_and_then day_of (first_of id.now (rows_of (found_of values.now))) }
{
    Day::read(values.get_str(id)?.as_bytes())
}

// Returns the period that the operands FROM and TO give; `None` without them, or if one is not a day, or TO is before
// FROM.
fn period_operand(values: &ArgMatches) -> Option<Period>
    ensures some { IfSome result (IsPeriodGiven (rows_of (found_of values.now))) }
    ensures none { IfNone result ((period : Span) → ¬ IsPeriodGiven (rows_of (found_of values.now)) period) }
{
    let (first, last) = (day_operand(values, "FROM")?, day_operand(values, "TO")?);
    Period::new(first, last)
}

/// Whether a text is the word FIRM, which may be given instead of a matter's number.
pub fn is_firm(text: &str) -> bool
    ensures { result ≡ bytes_eq text.now (codes "FIRM") }
{
    text == "FIRM"
}

// Returns the task of printing a report as of the operand DAY; `None` without it, or if it is not a day.
#[tactic(auto, using(crate::proofs::Values::values_read))]
fn day_report<'a>(report: DayReport, values: &ArgMatches<'a>) -> Option<Task<'a>>
    ensures some { IfSome result (IsTaskOf (CommandName.AsOf report) (rows_of (found_of values.now))) }
    ensures none { IfNone result
        ((task : Task) → ¬ IsTaskOf (CommandName.AsOf report) (rows_of (found_of values.now)) task) }
{
    let day = day_operand(values, "DAY")?;
    Some(Task::Report(ReportCommand::Firm(Report::AsOf(report, day))))
}

// Returns the task of printing a report of the period of the operands FROM and TO; `None` if they give none.
fn period_report<'a>(report: PeriodReport, values: &ArgMatches<'a>) -> Option<Task<'a>>
    ensures some { IfSome result (IsTaskOf (CommandName.Within report) (rows_of (found_of values.now))) }
    ensures none { IfNone result
        ((task : Task) → ¬ IsTaskOf (CommandName.Within report) (rows_of (found_of values.now)) task) }
{
    let period = period_operand(values)?;
    Some(Task::Report(ReportCommand::Firm(Report::Within(report, period))))
}

// Returns the task of serving connections at the operand PORT, as many as the operand COUNT says.
#[tactic(auto, using(crate::proofs::Values::values_read))]
fn serving<'a>(values: &ArgMatches<'a>) -> Option<Task<'a>>
    ensures some { IfSome result (IsTaskOf CommandName.Serve (rows_of (found_of values.now))) }
    ensures none { IfNone result ((task : Task) → ¬ IsTaskOf CommandName.Serve (rows_of (found_of values.now)) task) }
{
    Some(Task::Serve {
        port: port_of(values.get_str("PORT")?)?,
        count: count_of(values.get_str("COUNT")?)?,
    })
}

// Returns the task of printing the ledger card of the operand MATTER, which may be the firm's own.
#[tactic(auto, using(crate::proofs::Values::values_read))]
fn ledger_card<'a>(values: &ArgMatches<'a>) -> Option<Task<'a>>
    ensures some { IfSome result (IsTaskOf (CommandName.Today TodayReport.OwnLedger) (rows_of (found_of values.now))) }
    ensures none { IfNone result
        ((task : Task) → ¬ IsTaskOf (CommandName.Today TodayReport.OwnLedger) (rows_of (found_of values.now)) task) }
{
    let card = values.get_str("MATTER")?;
    if is_firm(card) {
        return Some(Task::Report(ReportCommand::Firm(Report::Today(TodayReport::OwnLedger))));
    }
    Some(Task::Report(ReportCommand::Ledger(MatterNo::read(card.as_bytes())?)))
}

// Returns the task of printing the statement of account of the operand MATTER for the period of FROM and TO.
#[tactic(auto, using(crate::proofs::Values::values_read))]
fn account<'a>(values: &ArgMatches<'a>) -> Option<Task<'a>>
    ensures some { IfSome result (IsTaskOf CommandName.Account (rows_of (found_of values.now))) }
    ensures none { IfNone result ((task : Task) → ¬ IsTaskOf CommandName.Account (rows_of (found_of values.now)) task) }
{
    let no = MatterNo::read(values.get_str("MATTER")?.as_bytes())?;
    let period = period_operand(values)?;
    Some(Task::Report(ReportCommand::Account(no, period)))
}

// Returns the task of printing the trail, of the operand MATTER if it is given.
#[tactic(auto, using(crate::proofs::Values::values_read))]
fn trail<'a>(values: &ArgMatches<'a>) -> Option<Task<'a>>
    ensures some { IfSome result (IsTaskOf (CommandName.Today TodayReport.Trail) (rows_of (found_of values.now))) }
    ensures none { IfNone result
        ((task : Task) → ¬ IsTaskOf (CommandName.Today TodayReport.Trail) (rows_of (found_of values.now)) task) }
{
    match values.get_str("MATTER") {
        Some(matter) => {
            let no = MatterNo::read(matter.as_bytes())?;
            Some(Task::Report(ReportCommand::Trail(no)))
        }
        None => Some(Task::Report(ReportCommand::Firm(Report::Today(TodayReport::Trail)))),
    }
}

// Returns the task of a command with these values.
#[tactic(auto, using(crate::proofs::Values::values_read))]
fn task_of<'a>(command: CommandName, values: &ArgMatches<'a>) -> Option<Task<'a>>
    ensures some { IfSome result (IsTaskOf command (rows_of (found_of values.now))) }
    ensures none { IfNone result ((task : Task) → ¬ IsTaskOf command (rows_of (found_of values.now)) task) }
{
    match command {
        CommandName::Sheet => Some(Task::Sheet),
        CommandName::Import => Some(Task::Import(values.get_str("FILE")?)),
        CommandName::Match => Some(Task::Match(values.get_str("FILE")?)),
        CommandName::Stream => Some(Task::Stream),
        CommandName::Serve => serving(values),
        CommandName::Check => Some(Task::Check),
        CommandName::AsOf(report) => day_report(report, values),
        CommandName::Within(report) => period_report(report, values),
        CommandName::Today(TodayReport::OwnLedger) => ledger_card(values),
        CommandName::Today(TodayReport::Trail) => trail(values),
        CommandName::Today(report) => Some(Task::Report(ReportCommand::Firm(Report::Today(
            report,
        )))),
        CommandName::Account => account(values),
    }
}

// Returns the task of a command, given by its name and its values.
fn task_called<'a>(name: &str, values: &ArgMatches<'a>) -> Option<Task<'a>>
    ensures some { IfSome result (IsTask name.now (rows_of (found_of values.now))) }
    ensures none { IfNone result ((task : Task) → ¬ IsTask name.now (rows_of (found_of values.now)) task) }
{
    let command = command_called(name)?;
    task_of(command, values)
}

// Makes a command with operands, which may have to be given.
fn make_command<'a>(
    alloc: Global,
    name: &'a str,
    are_required: bool,
    operands: &[&'a str],
) -> Result<Command<'a>, AllocError>
    ensures app { IfOk result (λ c. app_of c ≡ command_app name.now are_required (words_of operands.now)) }
    ensures local { IfOk result (λ c. (out-Command c).has_globals ≡ false) }
{
    let mut command = Command::new(alloc, name);
    for operand in operands {
        let value = Arg::new(alloc, *operand)
            .required(are_required)
            .action(ArgAction::Set);
        command = command.arg(value)?;
    }
    Ok(command)
}

// Adds commands, in their order.
fn with_commands<'a>(
    alloc: Global,
    mut program: Command<'a>,
    commands: &[CommandName],
) -> Result<Command<'a>, AllocError>
    ensures { IfOk result (λ c. app_of c ≡ with_commands (app_of program.entry) (map app_called commands.now)) }
{
    for command in commands {
        let form = form_of(*command);
        let made = make_command(alloc, form.name, form.are_required, form.operands)?;
        program = program.subcommand(made)?;
    }
    Ok(program)
}

// Adds an option to a command: `--name`.
fn with_option<'a>(
    alloc: Global,
    command: Command<'a>,
    name: &'a str,
    is_required: bool,
    action: ArgAction,
) -> Result<Command<'a>, AllocError>
    ensures { IfOk result
        (λ c. app_of c ≡ with_rule (app_of command.entry) (option_rule name.entry.now is_required action)) }
{
    let option = Arg::new(alloc, name)
        .long(name)
        .required(is_required)
        .action(action);
    command.arg(option)
}

// Makes the command line: its options and its commands.
fn make_program<'a>(alloc: Global) -> Result<Command<'a>, AllocError>
    ensures { IfOk result (λ c. app_of c ≡ program) }
{
    let bare = Command::new(alloc, "cashier_cli");
    let with_today = with_option(alloc, bare, "today", true, ArgAction::Set)?;
    let with_db = with_option(alloc, with_today, "db", false, ArgAction::Set)?;
    let options = with_option(alloc, with_db, "quiet", false, ArgAction::SetTrue)?;
    let whole = with_commands(alloc, options, COMMANDS)?;
    Ok(whole.subcommand_required(true))
}

/// Parses words, the first of which is the program's name: builds the command line, and matches the words with it.
/// Returns the error with which the command line refuses them; asking for help is one too.
///
/// Returns `OutOfMemory` if memory runs out. The contract cannot say that it never does otherwise: by clap's
/// contract, a parse of any words may end with it, and nothing shows whether memory really ran out.
pub fn parse<'a>(alloc: Global, words: &'a [&'a str]) -> Result<ArgMatches<'a>, Error>
    ensures ok { IfOk result (IsParse (words_of words.entry.now)) }
    ensures err { IfErr result (λ error. IsRefused (words_of words.entry.now) (kind_of error)) }
{
    let command = make_program(alloc)?;
    command.try_get_matches_from(words)
}

/// Returns the plan that words mean; the first word is the program's name. `db` is the value of `--db` if given,
/// whether or not it is the path of a file, and the plan is quiet if `--quiet` is given. Returns `Line` only if the
/// words mean no plan: the command line does not accept them, they ask for help, or the value of `--today` or an
/// operand is invalid.
///
/// Returns `Memory` if memory runs out. For the same reason as in `parse`, the contract cannot say that it never does
/// otherwise. Reading the values of a parse does not allocate.
#[tactic(auto, using(crate::proofs::Values::values_read))]
pub fn command_of<'a>(alloc: Global, words: &'a [&'a str]) -> Result<Plan<'a>, CliFault>
    ensures plan { IfOk result (λ p. Means (words_of words.entry.now) p.today p.task) }
    ensures none { IfErr result (LeavesNoPlan (words_of words.entry.now)) }
    ensures db { IfOk result (λ p. option_map (λ s. s.now) p.db ≡ db_of (words_of words.entry.now)) }
    ensures quiet { IfOk result (λ p. p.is_quiet ≡ quiet_of (words_of words.entry.now)) }
{
    let matches = parse(alloc, words)?;
    let Some(today) = day_operand(&matches, "today") else {
        return Err(CliFault::Line);
    };
    let Some((name, values)) = matches.subcommand() else {
        return Err(CliFault::Line);
    };
    let Some(task) = task_called(name, values) else {
        return Err(CliFault::Line);
    };
    let is_quiet = match matches.get_str("quiet") {
        Some(text) => text == "true",
        None => false,
    };
    Ok(Plan {
        today,
        db: matches.get_str("db"),
        is_quiet,
        task,
    })
}
