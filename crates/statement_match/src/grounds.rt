// What the reasons for the lines of a statement are based on.

ghost use Rattle.std.specs.Prelude.{◌≡◌, ◌==◌, ℕ, IfOk, find, option_copied, option_map};
ghost use Rattle.std.specs.List.{filter};
ghost use Rattle.statement_lines.specs.Keys.{amount_key, day_key, waiting_key};
ghost use Rattle.statement_lines.specs.Lookups.{elements};
ghost use Rattle.statement_lines.specs.Marks.{marks_from};
ghost use Rattle.statement_lines.specs.OpenLines.{is_named_like};
ghost use Rattle.statement_lines.specs.Relations.{names};
ghost use Rattle.statement_match.specs.DaySums.{first_day as first_day_of};
ghost use Rattle.statement_match.specs.Grounds.{AreCandidates, AreNumbered, numbered as with_numbers};
ghost use Rattle.statement_match.specs.Grounds.{plain_pairs};
ghost use Rattle.statement_match.specs.Misfits.{entry_of as entry_of_line};

use crate::day_sums::{DaySum, day_of_sum};
use crate::entry_index::EntryIndex;
use statement_lines::{
    BookEntry, ExceptionIndex, Index, Known, Lookup, Mark, Records, Relation, StatementLine,
    WaitingEntry, line_at, line_count, number_of,
};
use std::alloc::{AllocError, Global};
use std::marker::Model;
use trust_base::{Day, Line};

/// A line, with the number of its record.
pub(crate) type NumberedLine<'a> = (u64, &'a StatementLine);

/// What the reasons for the lines of a statement are based on: what is known of the book, and the records, looked up by
/// what the reasons need.
///
/// Contracts see it as these two.
#[derive(Drop)]
pub(crate) struct Grounds<'a, 'b> {
    known: &'a Known,
    records: &'a Records,
    index: &'b Index<'a>,
    entries: EntryIndex<'a, 'b>,
    exceptions: ExceptionIndex<'a>,
    numbered: &'b [NumberedLine<'a>],
    amounts: Lookup<'b, NumberedLine<'a>>,
    sums: Vec<DaySum>,
}

impl<'a, 'b> Model for Grounds<'a, 'b> {
    ghost use Rattle.statement_match.specs.DaySums.{first_day as first_day_of};
    ghost use Rattle.statement_match.specs.Grounds.{AreGrounds, Grounds};

    ghost Value = { Grounds };

    ghost view = { λ g. record { known = g.known.now; records = g.records.now } };

    ghost invariant = { λ g. AreGrounds g.known.now g.records.now g.index.now g.entries g.exceptions
        g.numbered.now g.amounts.sorted.items g.sums.items };
}

/// What the reasons for one line are based on, looked up once for all of them.
///
/// Contracts see it as what is known of the book, the records and the line.
#[derive(Drop)]
pub(crate) struct LineGrounds<'a, 'b, 'c> {
    grounds: &'c Grounds<'a, 'b>,
    line: &'c StatementLine,
    of_amount: &'c [(u64, &'a BookEntry)],
    named: &'c [(u64, &'a BookEntry)],
    shown: Vec<(u64, &'a BookEntry)>,
}

impl<'a, 'b, 'c> Model for LineGrounds<'a, 'b, 'c> {
    ghost use Rattle.statement_match.specs.DaySums.{first_day as first_day_of};
    ghost use Rattle.statement_match.specs.Grounds.{AreOfLine, LineGrounds};

    ghost Value = { LineGrounds };

    ghost view = { λ l. record {
      known = l.grounds.now.known;
      records = l.grounds.now.records;
      line = l.line.now;
    } };

    ghost invariant = { λ l. AreOfLine l.grounds.now l.line.now l.of_amount.now l.named.now l.shown.items };
}

/// Returns the lines of the records, each with its number. The only error is out of memory.
pub(crate) fn numbered_lines<'a>(
    alloc: Global,
    records: &'a Records,
) -> Result<Vec<NumberedLine<'a>>, AllocError>
    ensures { IfOk result (λ found. AreNumbered records.now found.items) }
{
    let mut found = Vec::new(alloc);
    let count = line_count(records);
    for place in 0..count {
        found.push((number_of(records, place), line_at(records, place)))?;
    }
    Ok(found)
}

// Returns the first of the given entries that has a line's reference.
fn first_named<'a>(found: &[(u64, &'a BookEntry)], line: &Line) -> Option<&'a BookEntry>
    ensures { option_copied result ≡ option_map (λ e. e.1.now) (find (λ e. names line.now e.1.now) found.now) }
{
    found
        .iter()
        .find(|entry| entry.1.is_named_by(line))
        .map(|entry| entry.1)
}

impl<'a, 'b> Grounds<'a, 'b> {
    /// Makes the grounds from what is known of a book, the records, the index of the rule, the numbered lines, and the
    /// marks of the entries. The only error is out of memory.
    pub(crate) fn of(
        alloc: Global,
        known: &'a Known,
        records: &'a Records,
        index: &'b Index<'a>,
        numbered: &'b [NumberedLine<'a>],
        marks: &'b [Mark],
    ) -> Result<Grounds<'a, 'b>, AllocError>
        requires index { index.now ≡ record { held = known.now.held; lines = records.now.lines } }
        requires numbered { AreNumbered records.now numbered.now }
        requires marks { marks.now ≡ marks_from 0 known.now.entries }
        ensures { IfOk result (λ grounds. grounds ≡ record { known = known.now; records = records.now }) }
    {
        let exceptions = ExceptionIndex::of(alloc, &known.exceptions)?;
        let amounts = Lookup::of(
            alloc,
            numbered,
            |pair| pair.1.line().amount.get().unsigned_abs(),
        )?;
        let entries = EntryIndex::of(alloc, &known.entries, marks)?;
        let sums = entries.sums_by_day(alloc)?;
        Ok(Grounds {
            known,
            records,
            index,
            entries,
            exceptions,
            numbered,
            amounts,
            sums,
        })
    }

    /// The index that the rule uses.
    pub(crate) fn index(&self) -> &'b Index<'a>
        ensures { result.now ≡ record { held = self.now.known.held; lines = self.now.records.lines } }
    {
        self.index
    }

    // Returns the first day whose waiting deposits add up to an amount.
    fn first_day(&self, amount: i64) -> Option<Day>
        ensures { result ≡ first_day_of amount self.now.known.entries }
    {
        match day_of_sum(&self.sums, amount) {
            Some(day) => self.entries.same_day(day),
            None => None,
        }
    }

    // The entries of the day with this number, in any state.
    fn of_day(&self, day: u32) -> &[(u64, &'a BookEntry)]
        ensures { elements result.now ≡ filter (λ e. day_key e == day) self.now.known.entries }
    {
        self.entries.of_day(day)
    }

    // The exceptions that may be the line with a reference. They include all that are, in their order.
    fn exceptions_like(&self, line: &StatementLine) -> &[(u64, &'a Line)]
        ensures { filter (is_named_like line.now) (elements result.now)
            ≡ filter (is_named_like line.now) self.now.known.exceptions }
    {
        self.exceptions.like(line)
    }

    // Returns the deposit or payment that has a line's reference.
    fn entry_of(&self, line: &Line) -> Option<&'a BookEntry>
        ensures { option_copied result ≡ entry_of_line self.now.known line.now }
    {
        first_named(self.entries.named_by(line), line)
    }

    // The lines whose amount is the entry's or its negative, each with its number.
    fn lines_of_amount(&self, entry: &WaitingEntry) -> &[(u64, &'b NumberedLine<'a>)]
        ensures { plain_pairs (elements result.now)
            ≡ filter (λ pair. amount_key pair.1 == waiting_key entry.now)
            (with_numbers self.now.records.numbers 0 self.now.records.lines) }
    {
        self.amounts.at(entry.amount.unsigned_abs())
    }

    /// Returns what the reasons for a line are based on. The only error is out of memory.
    pub(crate) fn of_line<'c>(
        &'c self,
        alloc: Global,
        line: &'c StatementLine,
    ) -> Result<LineGrounds<'a, 'b, 'c>, AllocError>
        ensures { IfOk result (λ found. found
            ≡ record { known = self.now.known; records = self.now.records; line = line.now }) }
    {
        let shown = self.entries.shown_by(alloc, line)?;
        Ok(LineGrounds {
            grounds: self,
            line,
            of_amount: self.entries.of_amount(line.line()),
            named: self.entries.named_by(line.line()),
            shown,
        })
    }
}

impl<'a, 'b, 'c> LineGrounds<'a, 'b, 'c> {
    /// The line.
    pub(crate) fn line(&self) -> &'c StatementLine
        ensures { result.now ≡ self.now.line }
    {
        self.line
    }

    /// The index that the rule uses.
    pub(crate) fn index(&self) -> &'b Index<'a>
        ensures { result.now ≡ record { held = self.now.known.held; lines = self.now.records.lines } }
    {
        self.grounds.index()
    }

    /// Returns the first day whose waiting deposits add up to the line's amount.
    pub(crate) fn first_day(&self) -> Option<Day>
        ensures { result ≡ first_day_of self.now.line.amount self.now.known.entries }
    {
        self.grounds.first_day(self.line.line().amount.get())
    }

    /// The entries that may be in this relation to the line. They include all that are, in their order.
    pub(crate) fn candidates(&self, relation: Relation) -> &[(u64, &'a BookEntry)]
        ensures { AreCandidates relation self.now.line self.now.known.entries result.now }
    {
        match relation {
            Relation::Fitted
            | Relation::NotWaiting
            | Relation::IssuedAfter
            | Relation::OfAnotherAmount => &self.shown,
            Relation::OfItsAmount | Relation::MaybeReturned => self.of_amount,
            Relation::Named | Relation::NamedAgain | Relation::NamedOfAnotherAmount => self.named,
            Relation::HeldOn(day) => self.grounds.of_day(day),
        }
    }

    /// The exceptions that may be the line with a reference. They include all that are, in their order.
    pub(crate) fn exceptions(&self) -> &[(u64, &'a Line)]
        ensures { filter (is_named_like self.now.line) (elements result.now)
            ≡ filter (is_named_like self.now.line) self.now.known.exceptions }
    {
        self.grounds.exceptions_like(self.line)
    }

    /// Returns the deposit or payment that has an exception's reference.
    pub(crate) fn entry_of(&self, exception: &Line) -> Option<&'a BookEntry>
        ensures { option_copied result ≡ entry_of_line self.now.known exception.now }
    {
        self.grounds.entry_of(exception)
    }

    /// The lines whose amount is the entry's or its negative, each with its number.
    pub(crate) fn lines_of_amount(&self, entry: &WaitingEntry) -> &[(u64, &'b NumberedLine<'a>)]
        ensures { plain_pairs (elements result.now)
            ≡ filter (λ pair. amount_key pair.1 == waiting_key entry.now)
            (with_numbers self.now.records.numbers 0 self.now.records.lines) }
    {
        self.grounds.lines_of_amount(entry)
    }
}
