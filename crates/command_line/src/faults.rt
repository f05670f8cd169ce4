// Finds what is wrong with words that mean nothing, from clap's errors on their first words.

ghost use Rattle.std.specs.Prelude.{◌≡◌, ◌≢◌, ◌<◌, ℕ, IfNone, IfSome, None, [], codes, length, take, true};
ghost use Rattle.std.specs.Str.{bytes_eq};
ghost use Rattle.std.specs.List.{list_any};
ghost use Rattle.clap.specs.Words.{fault_of, first_of, found_of, rows_of, subcommand_rows_of};
ghost use Rattle.trust_base.specs.Texts.{day_of, matter_of};
ghost use Rattle.command_line.specs.Advice.{IsFront, IsNoPeriod, IsWrong, IsWrongOperand, IsWrongPeriod, IsWrongToday};
ghost use Rattle.command_line.specs.Advice.{IsWrongValue, LacksValue, LacksValueAt, Names, front_by};
ghost use Rattle.command_line.specs.Advice.{last_setting, names_day, setting_named};
ghost use Rattle.command_line.specs.Numerals.{IsCount, IsPort};
ghost use Rattle.command_line.specs.Program.{IsRefused, program, words_of};

use crate::advice::{Advice, Setting, Wrong};
use crate::command::{count_of, is_firm, parse, port_of};
use crate::table::{CommandName, command_called};
use clap::ArgMatches;
use clap::error::ErrorKind;
use std::alloc::Global;
use trust_base::{Day, MatterNo, Period};
use trust_desk::TodayReport;

// Returns the kind of error with which the command line refuses the words, if it does. Out of memory is one of them.
fn failure_of<'a>(alloc: Global, words: &'a [&'a str]) -> Option<ErrorKind>
    ensures none { IfNone result (fault_of program (words_of words.entry.now) ≡ []) }
    ensures some { IfSome result (IsRefused (words_of words.entry.now)) }
{
    match parse(alloc, words) {
        Ok(_) => None,
        Err(error) => Some(error.kind()),
    }
}

// How far the command line accepts words.
#[derive(Clone, Copy)]
enum Front {
    // As far as a command: accepts them, or only misses required ones.
    Met,
    // A command is required.
    WantsCommand,
    // The value of an option is required.
    WantsValue,
    // An option is repeated.
    Repeats,
    // A word is not accepted where it stands.
    Strays,
    // Another error, or out of memory.
    Fails,
}

fn front_by(failure: Option<ErrorKind>) -> Front
    ensures { result ≡ front_by failure }
{
    let Some(kind) = failure else {
        return Front::Met;
    };
    match kind {
        ErrorKind::MissingRequiredArgument => Front::Met,
        ErrorKind::MissingSubcommand => Front::WantsCommand,
        ErrorKind::InvalidValue => Front::WantsValue,
        ErrorKind::ArgumentConflict => Front::Repeats,
        ErrorKind::UnknownArgument | ErrorKind::InvalidSubcommand | ErrorKind::TooManyValues =>
            Front::Strays,
        _ => Front::Fails,
    }
}

fn front_of<'a>(alloc: Global, words: &'a [&'a str]) -> Front
    ensures { IsFront (words_of words.entry.now) result }
{
    front_by(failure_of(alloc, words))
}

// Returns the first word that the command line does not accept where it stands, or the option that is repeated there.
// Also returns `None` if memory runs out.
fn refused_word<'a>(alloc: Global, words: &'a [&'a str]) -> Option<Wrong<'a>>
    ensures { IfSome result (IsWrong (words_of words.entry.now)) }
{
    for place in 0..words.len() {
        let front = &words[..place + 1];
        match front_of(alloc, front) {
            Front::Strays => return Some(Wrong::Word(words[place])),
            Front::Repeats => return Some(Wrong::Repeated(last_setting(front)?)),
            Front::Fails => return None,
            _ => (),
        }
    }
    None
}

// Whether the word at this place requires the value of an option and the next word, if any, does not give it. Also
// returns false if memory runs out.
fn is_value_lacking<'a>(alloc: Global, words: &'a [&'a str], place: usize) -> bool
    requires { place < length words.now }
    ensures { result ≡ true → LacksValueAt (words_of words.entry.now) place }
{
    let Front::WantsCommand = front_of(alloc, &words[..place]) else {
        return false;
    };
    let Front::WantsValue = front_of(alloc, &words[..place + 1]) else {
        return false;
    };
    let next = (place + 2).min(words.len());
    match front_of(alloc, &words[..next]) {
        Front::WantsValue => true,
        _ => false,
    }
}

// Returns the option that has no value. Also returns `None` if memory runs out.
fn empty_setting<'a>(alloc: Global, words: &'a [&'a str]) -> Option<Setting>
    ensures { IfSome result (LacksValue (words_of words.entry.now)) }
{
    for place in 0..words.len() {
        if is_value_lacking(alloc, words, place) {
            return last_setting(&words[..place + 1]);
        }
    }
    None
}

// Returns the command that the words name. Also returns `None` if memory runs out.
fn command_named<'a>(alloc: Global, words: &'a [&'a str]) -> Option<CommandName>
    ensures { IfSome result (Names (words_of words.entry.now)) }
{
    let mut is_wanted = false;
    for place in 0..words.len() {
        match front_of(alloc, &words[..place + 1]) {
            Front::WantsCommand => is_wanted = true,
            Front::WantsValue => is_wanted = false,
            Front::Met if is_wanted => return command_called(words[place]),
            _ => return None,
        }
    }
    None
}

// Whether a word begins with these bytes.
fn begins(word: &str, front: &[u8]) -> bool
    ensures { result ≡ bytes_eq (take (length front.now) word.now) front.now }
{
    let bytes = word.as_bytes();
    &bytes[..bytes.len().min(front.len())] == front
}

// Returns the option that a word begins like.
fn setting_named(word: &str) -> Option<Setting>
    ensures { result ≡ setting_named word.now }
{
    if begins(word, b"--today") {
        Some(Setting::Today)
    } else if begins(word, b"--db") {
        Some(Setting::Db)
    } else if begins(word, b"--quiet") {
        Some(Setting::Quiet)
    } else {
        None
    }
}

// Returns the option of the last word that begins like one.
fn last_setting(words: &[&str]) -> Option<Setting>
    ensures { result ≡ last_setting (words_of words.now) }
{
    let mut last = None;
    for word in words {
        last = setting_named(word).or(last);
    }
    last
}

// Whether any word begins like the option of the business day.
fn is_day_named(words: &[&str]) -> bool
    ensures { result ≡ list_any names_day (words_of words.now) }
{
    let mut is_named = false;
    for word in words {
        is_named |= begins(word, b"--today");
    }
    is_named
}

// Reports a text that is not a day.
fn no_day<'a>(text: &'a str) -> Option<Wrong<'a>>
    ensures { IfSome result (λ wrong. (wrong ≡ Wrong.NoDay text.entry) × (day_of text.entry.now ≡ None)) }
{
    match Day::read(text.as_bytes()) {
        Some(_) => None,
        None => Some(Wrong::NoDay(text)),
    }
}

// Reports two texts that give no period: one of them is not a day, or the second is the earlier day.
fn no_period<'a>(from: &'a str, to: &'a str) -> Option<Wrong<'a>>
    ensures { IfSome result (IsNoPeriod from.entry.now to.entry.now) }
{
    let Some(first) = Day::read(from.as_bytes()) else {
        return Some(Wrong::NoDay(from));
    };
    let Some(last) = Day::read(to.as_bytes()) else {
        return Some(Wrong::NoDay(to));
    };
    match Period::new(first, last) {
        Some(_) => None,
        None => Some(Wrong::BeforeFirst(to)),
    }
}

// Reports a text that is neither a matter's number nor the word for the firm.
fn no_card<'a>(text: &'a str) -> Option<Wrong<'a>>
    ensures { IfSome result (λ wrong. (wrong ≡ Wrong.NoCard text.entry)
        × (text.entry.now ≢ codes "FIRM") × (matter_of text.entry.now ≡ None)) }
{
    if is_firm(text) {
        return None;
    }
    match MatterNo::read(text.as_bytes()) {
        Some(_) => None,
        None => Some(Wrong::NoCard(text)),
    }
}

// Reports a text that is not a matter's number.
fn no_matter<'a>(text: &'a str) -> Option<Wrong<'a>>
    ensures { IfSome result (λ wrong. (wrong ≡ Wrong.NoMatter text.entry) × (matter_of text.entry.now ≡ None)) }
{
    match MatterNo::read(text.as_bytes()) {
        Some(_) => None,
        None => Some(Wrong::NoMatter(text)),
    }
}

// Reports a text that is not a port.
fn no_port<'a>(text: &'a str) -> Option<Wrong<'a>>
    ensures { IfSome result
        (λ wrong. (wrong ≡ Wrong.NoPort text.entry) × ((port : ℕ) → ¬ IsPort text.entry.now port)) }
{
    match port_of(text) {
        Some(_) => None,
        None => Some(Wrong::NoPort(text)),
    }
}

// Reports a text that is not a count.
fn no_count<'a>(text: &'a str) -> Option<Wrong<'a>>
    ensures { IfSome result
        (λ wrong. (wrong ≡ Wrong.NoCount text.entry) × ((count : ℕ) → ¬ IsCount text.entry.now count)) }
{
    match count_of(text) {
        Some(_) => None,
        None => Some(Wrong::NoCount(text)),
    }
}

// Returns what is wrong with the operands FROM and TO, if they are given.
#[tactic(auto, using(crate::proofs::Values::values_read))]
fn wrong_period<'a>(values: &ArgMatches<'a>) -> Option<Wrong<'a>>
    ensures { IfSome result (IsWrongPeriod (first_of (codes "FROM") (rows_of (found_of values.now)))
        (first_of (codes "TO") (rows_of (found_of values.now)))) }
{
    no_period(values.get_str("FROM")?, values.get_str("TO")?)
}

// Returns the wrong operand of a command with these values.
#[tactic(auto, using(crate::proofs::Values::values_read))]
fn wrong_operand<'a>(command: CommandName, values: &ArgMatches<'a>) -> Option<Wrong<'a>>
    ensures { IfSome result (IsWrongOperand command (rows_of (found_of values.now))) }
{
    match command {
        CommandName::AsOf(_) => no_day(values.get_str("DAY")?),
        CommandName::Within(_) => wrong_period(values),
        CommandName::Today(TodayReport::OwnLedger) => no_card(values.get_str("MATTER")?),
        CommandName::Today(TodayReport::Trail) => no_matter(values.get_str("MATTER")?),
        CommandName::Account => match no_matter(values.get_str("MATTER")?) {
            Some(wrong) => Some(wrong),
            None => wrong_period(values),
        },
        CommandName::Serve => match no_port(values.get_str("PORT")?) {
            Some(wrong) => Some(wrong),
            None => no_count(values.get_str("COUNT")?),
        },
        CommandName::Sheet
        | CommandName::Import
        | CommandName::Match
        | CommandName::Stream
        | CommandName::Today(_)
        | CommandName::Check => None,
    }
}

// Returns the value of `--today` if it is wrong.
#[tactic(auto, using(crate::proofs::Values::values_read))]
fn wrong_today<'a>(values: &ArgMatches<'a>) -> Option<Wrong<'a>>
    ensures { IfSome result (IsWrongToday (rows_of (found_of values.now))) }
{
    no_day(values.get_str("today")?)
}

// Returns the wrong value of a parse.
fn wrong_value<'a>(matches: &ArgMatches<'a>) -> Option<Wrong<'a>>
    ensures { IfSome result (IsWrongValue (rows_of (found_of matches.now)) (subcommand_rows_of matches.now)) }
{
    if let Some(wrong) = wrong_today(matches) {
        return Some(wrong);
    }
    let (name, values) = matches.subcommand()?;
    wrong_operand(command_called(name)?, values)
}

// Returns what is wrong with words that the command line refuses with an error of this kind.
fn wrong_words<'a>(alloc: Global, words: &'a [&'a str], kind: ErrorKind) -> Option<Wrong<'a>>
    requires { IsRefused (words_of words.now) kind }
    ensures { IfSome result (IsWrong (words_of words.entry.now)) }
{
    match kind {
        ErrorKind::MissingSubcommand => Some(Wrong::MissingCommand),
        ErrorKind::MissingRequiredArgument => {
            if is_day_named(words) {
                Some(Wrong::MissingWord)
            } else {
                Some(Wrong::MissingDay)
            }
        }
        ErrorKind::InvalidValue => Some(Wrong::NoValue(empty_setting(alloc, words)?)),
        _ => refused_word(alloc, words),
    }
}

// Returns what is wrong with words.
fn wrong_of<'a>(alloc: Global, words: &'a [&'a str]) -> Option<Wrong<'a>>
    ensures { IfSome result (IsWrong (words_of words.entry.now)) }
{
    match parse(alloc, words) {
        Ok(matches) => wrong_value(&matches),
        Err(error) => wrong_words(alloc, words, error.kind()),
    }
}

/// Returns the advice for words that mean nothing: the command that they name, and what is wrong. The first word is
/// the program's name. Either is known only if there is enough memory, and nothing is wrong if the words ask for
/// help.
pub fn advice_of<'a>(alloc: Global, words: &'a [&'a str]) -> Advice<'a>
    ensures command { IfSome result.command (Names (words_of words.entry.now)) }
    ensures wrong { IfSome result.wrong (IsWrong (words_of words.entry.now)) }
{
    Advice {
        command: command_named(alloc, words),
        wrong: wrong_of(alloc, words),
    }
}
