// The advice that is printed for words that mean nothing.

ghost use Rattle.std.specs.Prelude.{Some};
ghost use Rattle.command_line.specs.Advice.{advice_text, wrong_text};

use crate::table::{CommandName, example_of, usage_of};
use std::fmt;

/// The options.
#[derive(Clone, Copy)]
pub enum Setting {
    /// `--today`, the business day.
    Today,
    /// `--db`, the path of the database that holds the book.
    Db,
    /// `--quiet`, which turns off the messages about the progress of the run.
    Quiet,
}

/// What is wrong with words that mean nothing.
#[derive(Clone, Copy)]
pub enum Wrong<'a> {
    /// The command line does not accept this word where it stands: it is no option and no command, or is one too
    /// many.
    Word(&'a str),
    /// The value of `--today`, or an operand that has to be one, is not a day.
    NoDay(&'a str),
    /// The operand TO is a day before FROM.
    BeforeFirst(&'a str),
    /// The operand of `ledger` is neither a matter's number nor the word for the firm.
    NoCard(&'a str),
    /// The first operand of `account` is not a matter's number.
    NoMatter(&'a str),
    /// The first operand of `serve` is not a port.
    NoPort(&'a str),
    /// The second operand of `serve` is not a count of connections.
    NoCount(&'a str),
    /// This option is given more than once.
    Repeated(Setting),
    /// This option has no value.
    NoValue(Setting),
    /// `--today` is not given.
    MissingDay,
    /// No command is given.
    MissingCommand,
    /// A required word is missing.
    MissingWord,
}

/// The advice for words that mean nothing.
#[derive(Clone, Copy)]
pub struct Advice<'a> {
    /// The command whose usage is printed; `None` for the usage of the whole program.
    pub command: Option<CommandName>,
    /// What is wrong, if that is known.
    pub wrong: Option<Wrong<'a>>,
}

impl fmt::Display for Wrong<'_> {
    ghost output = { λ wrong. Some (wrong_text wrong) };

    fn fmt<W: fmt::Write>(&self, f: &mut fmt::Formatter<W>) -> fmt::Result {
        match *self {
            Wrong::Word(text) => write!(f, "{text} is not taken here"),
            Wrong::NoDay(text) => write!(f, "{text} is no day: write it as 2026-03-16"),
            Wrong::BeforeFirst(text) => write!(
                f,
                "{text} is before the first day: write the earlier day first"
            ),
            Wrong::NoCard(text) => write!(
                f,
                "{text} is neither a matter's number, as 000001, nor FIRM"
            ),
            Wrong::NoMatter(text) => {
                write!(f, "{text} is no matter's number: write it as 000001")
            }
            Wrong::NoPort(text) => write!(f, "{text} is no port from 1024 to 65535"),
            Wrong::NoCount(text) => write!(f, "{text} is no count from 1 to 1000000"),
            Wrong::Repeated(Setting::Today) => f.write_str("--today is given twice"),
            Wrong::Repeated(Setting::Db) => f.write_str("--db is given twice"),
            Wrong::Repeated(Setting::Quiet) => f.write_str("--quiet is given twice"),
            Wrong::NoValue(Setting::Today) => f.write_str("--today has no day"),
            Wrong::NoValue(Setting::Db) => f.write_str("--db has no path"),
            Wrong::NoValue(Setting::Quiet) => f.write_str("--quiet has no value"),
            Wrong::MissingDay => f.write_str("--today DAY is missing"),
            Wrong::MissingCommand => f.write_str("a command is missing"),
            Wrong::MissingWord => f.write_str("a word is missing"),
        }
    }
}

impl fmt::Display for Advice<'_> {
    ghost output = { λ advice. Some (advice_text advice) };

    fn fmt<W: fmt::Write>(&self, f: &mut fmt::Formatter<W>) -> fmt::Result {
        let usage = usage_of(self.command);
        let example = example_of(self.command);
        match self.wrong {
            None => write!(
                f,
                "usage: cashier_cli [--db PATH] [--quiet] --today DAY {usage}\n\
                example: cashier_cli --today 2026-03-31 {example}"
            ),
            Some(wrong) => write!(
                f,
                "usage: cashier_cli [--db PATH] [--quiet] --today DAY {usage}\n\
                example: cashier_cli --today 2026-03-31 {example}\n\
                wrong: {wrong}"
            ),
        }
    }
}
