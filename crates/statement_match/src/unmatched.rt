// The records of a statement that a person has to look at.

ghost use Rattle.std.specs.Prelude.{◌≡◌, ◌++◌, ◌-◌, ◌≤◌, length, IfOk, OnOk};
ghost use Rattle.std.specs.List.{count_by};
ghost use Rattle.statement_match.specs.Rule.{outcomes as outcomes_told};
ghost use Rattle.statement_match.specs.Reasons.{reason_for as reason_told};
ghost use Rattle.statement_match.specs.Unmatched.{is_left_out as is_left_out_outcome};
ghost use Rattle.statement_match.specs.Unmatched.{is_written as is_written_outcome, told, told_by};
ghost use Rattle.statement_match.specs.Unmatched.{told_unreadable, unmatched, written_count};

use crate::grounds::{Grounds, numbered_lines};
use crate::own_lines::add_own;
use crate::reason::{UnmatchedReason, reason_for};
use firm_rows::FirmLedger;
use statement_lines::{
    Index, Known, LineOutcome, Records, StatementLine, line_at, line_count, marks_of, number_of,
};
use std::alloc::{AllocError, Global};
use std::marker::Model;
use trust_base::{Day, Line};

/// A record of a statement that a person has to look at. The first behind the header has number 1.
#[derive(Drop)]
pub enum UnmatchedRecord {
    /// The record with this number is no line of a statement.
    Unreadable(u64),
    /// The record with this number is this line, and has to be looked at for this reason.
    OfLine(u64, Line, UnmatchedReason),
}

/// The records of a statement that a person has to look at, and how many others there are.
///
/// Contracts see it as the list and the counts.
#[derive(Drop)]
pub struct Unmatched {
    /// The records that have to be looked at, in their order.
    pub records: Vec<UnmatchedRecord>,
    /// How many records are written, whether or not they have to be looked at.
    pub written: u64,
    /// How many records are left out because they are in the book already.
    pub booked: u64,
}

impl Model for Unmatched {
    ghost use Rattle.statement_match.specs.Unmatched.{Unmatched};

    ghost Value = { Unmatched };

    ghost view = { λ u. record { records = u.records.items; written = u.written; booked = u.booked } };
}

// Adds the unreadable records after `before`, up to and including `last`.
#[tactic(auto, using(crate::proofs::Telling::unreadable_more, crate::proofs::Telling::unreadable_done))]
fn add_unreadable(
    records: &mut Vec<UnmatchedRecord>,
    before: u64,
    last: u64,
) -> Result<(), AllocError>
    ensures { OnOk result (records.new.items ≡ records.old.items ++ told_unreadable before (last - before)) }
{
    for number in before..last {
        records.push(UnmatchedRecord::Unreadable(number + 1))?;
    }
    Ok(())
}

// Adds a record, if it has to be looked at. `own` is the firm's own ledger after an import of the lines before.
fn add_line(
    alloc: Global,
    records: &mut Vec<UnmatchedRecord>,
    today: Day,
    grounds: &Grounds,
    own: &FirmLedger,
    number: u64,
    line: &StatementLine,
    outcome: &LineOutcome,
) -> Result<(), AllocError>
    ensures { OnOk result (records.new.items ≡ records.old.items ++ told_by number line.now
        (reason_told today grounds.now.known own.now grounds.now.records line.now outcome.now)) }
{
    let of_line = grounds.of_line(alloc, line)?;
    let Some(reason) = reason_for(alloc, today, &of_line, own, outcome)? else {
        return Ok(());
    };
    let line = line.line().copied()?;
    records.push(UnmatchedRecord::OfLine(number, line, reason))?;
    Ok(())
}

// Adds the unreadable records before a record, then that one, if it has to be looked at.
fn add_record(
    alloc: Global,
    records: &mut Vec<UnmatchedRecord>,
    today: Day,
    grounds: &Grounds,
    own: &FirmLedger,
    before: u64,
    number: u64,
    line: &StatementLine,
    outcome: &LineOutcome,
) -> Result<(), AllocError>
    ensures { OnOk result (records.new.items
        ≡ (records.old.items ++ told_unreadable before (number - 1 - before)) ++ told_by number line.now
        (reason_told today grounds.now.known own.now grounds.now.records line.now outcome.now)) }
{
    add_unreadable(records, before, number.saturating_sub(1))?;
    add_line(alloc, records, today, grounds, own, number, line, outcome)
}

// Returns all records that have to be looked at, according to the outcome of each line. `ledger` is the firm's own in
// the book.
#[tactic(auto, using(crate::proofs::Telling::told_done))]
fn records_told(
    alloc: Global,
    today: Day,
    records: &Records,
    grounds: &Grounds,
    ledger: FirmLedger,
    outcomes: &[LineOutcome],
) -> Result<Vec<UnmatchedRecord>, AllocError>
    requires same { grounds.now.records ≡ records.now }
    requires outcomes { outcomes.now ≡ outcomes_told today grounds.now.known.held records.now.lines }
    ensures { IfOk result (λ found. found.items ≡ told today grounds.now.known ledger records.now) }
{
    let mut found = Vec::new(alloc);
    let mut own = ledger;
    let mut before = 0u64;
    let count = line_count(records);
    for place in 0..count {
        let number = number_of(records, place);
        let line = line_at(records, place);
        let outcome = &outcomes[place];
        add_record(
            alloc, &mut found, today, grounds, &own, before, number, line, outcome,
        )?;
        add_own(&mut own, today, line.line())?;
        before = number;
    }
    add_unreadable(&mut found, before, records.count)?;
    Ok(found)
}

fn is_written(outcome: &LineOutcome) -> bool
    ensures { result ≡ is_written_outcome outcome.now }
{
    match outcome {
        LineOutcome::AsItIs | LineOutcome::Filled(_) => true,
        LineOutcome::InBook | LineOutcome::Doubled | LineOutcome::Left => false,
    }
}

fn is_left_out(outcome: &LineOutcome) -> bool
    ensures { result ≡ is_left_out_outcome outcome.now }
{
    match outcome {
        LineOutcome::InBook => true,
        LineOutcome::AsItIs | LineOutcome::Doubled | LineOutcome::Filled(_) | LineOutcome::Left =>
            false,
    }
}

fn count_written(outcomes: &[LineOutcome]) -> usize
    ensures is { result ≡ count_by is_written_outcome outcomes.now }
    ensures bound { result ≤ length outcomes.now }
{
    outcomes
        .iter()
        .filter(|outcome| is_written(outcome))
        .count()
}

fn count_left_out(outcomes: &[LineOutcome]) -> usize
    ensures { result ≡ count_by is_left_out_outcome outcomes.now }
{
    outcomes
        .iter()
        .filter(|outcome| is_left_out(outcome))
        .count()
}

// How many records are written.
fn written_of(records: &Records, outcomes: &[LineOutcome]) -> u64
    requires { length outcomes.now ≡ length records.now.lines }
    ensures { result ≡ written_count records.now outcomes.now }
{
    let unreadable = records.count.saturating_sub(records.lines.len() as u64);
    unreadable + count_written(outcomes) as u64
}

// Returns all records that have to be looked at, by what is known of a book. `own` is the firm's own ledger in it.
fn records_by<'a>(
    alloc: Global,
    today: Day,
    known: &'a Known,
    own: FirmLedger,
    records: &'a Records,
    index: Index<'a>,
    outcomes: &[LineOutcome],
) -> Result<Vec<UnmatchedRecord>, AllocError>
    requires index { index ≡ record { held = known.now.held; lines = records.now.lines } }
    requires outcomes { outcomes.now ≡ outcomes_told today known.now.held records.now.lines }
    ensures { IfOk result (λ found. found.items ≡ told today known.now own records.now) }
{
    let numbered = numbered_lines(alloc, records)?;
    let marks = marks_of(alloc, &known.entries)?;
    let grounds = Grounds::of(alloc, known, records, &index, &numbered, &marks)?;
    records_told(alloc, today, records, &grounds, own, outcomes)
}

/// Returns the records of a statement that a person has to look at on a business day, each with its reason, and the
/// counts. `own` is the firm's own ledger in the book. The only error is out of memory.
#[tactic(auto, unfolding(crate::specs::Unmatched::unmatched))]
pub(crate) fn unmatched_of<'a>(
    alloc: Global,
    today: Day,
    known: &'a Known,
    own: FirmLedger,
    records: &'a Records,
    index: Index<'a>,
    outcomes: &[LineOutcome],
) -> Result<Unmatched, AllocError>
    requires index { index ≡ record { held = known.now.held; lines = records.now.lines } }
    requires outcomes { outcomes.now ≡ outcomes_told today known.now.held records.now.lines }
    ensures { IfOk result (λ found. found ≡ unmatched today known.now own records.now) }
{
    let found = records_by(alloc, today, known, own, records, index, outcomes)?;
    Ok(Unmatched {
        records: found,
        written: written_of(records, outcomes),
        booked: count_left_out(outcomes) as u64,
    })
}
