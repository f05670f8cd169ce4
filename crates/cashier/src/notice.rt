// What standard error is told about the outcome of a run.

ghost use Rattle.std.specs.Prelude.{◌≡◌, IfSome, List, Some};
ghost use Rattle.clap.specs.Words.{Text};
ghost use Rattle.cashier.specs.Notice.{IsBookPath, IsServedPort, IsSource, IsTold, notice_text, source_text};
ghost use Rattle.command_line.specs.Program.{words_of};

use crate::outcome::Outcome;
use cashier_remarks::is_printable;
use command_line::{Advice, Task, advice_of, command_of};
use std::alloc::Global;
use std::fmt;

/// What a run reads.
#[derive(Clone, Copy)]
pub enum InputSource<'a> {
    /// The file at this path.
    File(&'a str),
    /// Standard input.
    Input,
}

/// What standard error is told about a run that ended with a fault or with invalid words.
#[derive(Clone, Copy)]
pub enum Notice<'a> {
    /// The command line is invalid: the usage, an example, and what is wrong.
    CommandLine(Advice<'a>),
    /// This could not be opened or read.
    FileFault(Option<InputSource<'a>>),
    /// Standard output could not be written.
    OutputFault,
    /// The book at this path could not be opened, read or written.
    StoreFault(Option<&'a str>),
    /// Memory ran out.
    MemoryFault,
    /// This port was not available, or an accept on it was refused.
    NetworkFault(Option<u16>),
}

impl fmt::Display for InputSource<'_> {
    ghost output = { λ source. Some (source_text source) };

    fn fmt<W: fmt::Write>(&self, f: &mut fmt::Formatter<W>) -> fmt::Result {
        match *self {
            InputSource::File(path) => write!(f, "{path} could not be opened or read"),
            InputSource::Input => f.write_str("standard input could not be read"),
        }
    }
}

impl fmt::Display for Notice<'_> {
    ghost output = { λ notice. Some (notice_text notice) };

    fn fmt<W: fmt::Write>(&self, f: &mut fmt::Formatter<W>) -> fmt::Result {
        match *self {
            Notice::CommandLine(advice) => write!(f, "{advice}"),
            Notice::FileFault(None) => f.write_str("file fault"),
            Notice::FileFault(Some(source)) => write!(f, "file fault\n{source}"),
            Notice::OutputFault => f.write_str("file fault\nstandard output could not be written"),
            Notice::StoreFault(None) => f.write_str("store fault"),
            Notice::StoreFault(Some(path)) => write!(
                f,
                "store fault\n{path} could not be opened, read or written as a book"
            ),
            Notice::MemoryFault => f.write_str("memory fault"),
            Notice::NetworkFault(None) => f.write_str("network fault"),
            Notice::NetworkFault(Some(port)) => write!(
                f,
                "network fault\nport {port} could not be had, or an accept on it was refused"
            ),
        }
    }
}

// Returns what these words say to read. A path with control characters is not shown, because a terminal would obey
// them.
fn source_of<'a>(alloc: Global, words: &'a [&'a str]) -> Option<InputSource<'a>>
    ensures { IfSome result (IsSource (words_of words.entry.now)) }
{
    let Ok(plan) = command_of(alloc, words) else {
        return None;
    };
    match plan.task {
        Task::Import(path) if is_printable(path) => Some(InputSource::File(path)),
        Task::Match(path) if is_printable(path) => Some(InputSource::File(path)),
        Task::Sheet => Some(InputSource::Input),
        Task::Stream => Some(InputSource::Input),
        Task::Import(_) | Task::Match(_) | Task::Serve { .. } | Task::Report(_) | Task::Check =>
            None,
    }
}

// Returns the path of the book that the words name, unless it has control characters.
fn book_path<'a>(alloc: Global, words: &'a [&'a str]) -> Option<&'a str>
    ensures { IfSome result (λ path. IsBookPath (words_of words.entry.now) path.now) }
{
    let Ok(plan) = command_of(alloc, words) else {
        return None;
    };
    plan.db.filter(|path| is_printable(path))
}

// Returns the port whose clients these words say to serve.
fn port_served<'a>(alloc: Global, words: &'a [&'a str]) -> Option<u16>
    ensures { IfSome result (IsServedPort (words_of words.entry.now)) }
{
    let Ok(plan) = command_of(alloc, words) else {
        return None;
    };
    match plan.task {
        Task::Serve { port, .. } => Some(port),
        Task::Sheet
        | Task::Import(_)
        | Task::Match(_)
        | Task::Stream
        | Task::Report(_)
        | Task::Check => None,
    }
}

/// What standard error is told about an outcome, whatever the words of the run were.
pub fn bare_notice_of(outcome: Outcome) -> Option<Notice<'static>>
    ensures { (words : List Text) → IsTold words outcome result }
{
    match outcome {
        Outcome::Done => None,
        Outcome::Refused => None,
        Outcome::CommandLine => Some(Notice::CommandLine(Advice {
            command: None,
            wrong: None,
        })),
        Outcome::FileFault => Some(Notice::FileFault(None)),
        Outcome::OutputFault => Some(Notice::OutputFault),
        Outcome::StoreFault => Some(Notice::StoreFault(None)),
        Outcome::MemoryFault => Some(Notice::MemoryFault),
        Outcome::NetworkFault => Some(Notice::NetworkFault(None)),
    }
}

/// Returns what standard error is told about the outcome of a run of these words, the program's name first: nothing if
/// all was done or something was refused. If memory runs out it says less.
pub fn notice_of<'a>(alloc: Global, outcome: Outcome, words: &'a [&'a str]) -> Option<Notice<'a>>
    ensures { IsTold (words_of words.entry.now) outcome result }
{
    match outcome {
        Outcome::CommandLine => Some(Notice::CommandLine(advice_of(alloc, words))),
        Outcome::FileFault => Some(Notice::FileFault(source_of(alloc, words))),
        Outcome::StoreFault => Some(Notice::StoreFault(book_path(alloc, words))),
        Outcome::NetworkFault => Some(Notice::NetworkFault(port_served(alloc, words))),
        Outcome::Done | Outcome::Refused | Outcome::OutputFault | Outcome::MemoryFault => {
            bare_notice_of(outcome)
        }
    }
}
