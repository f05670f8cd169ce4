// Why records of a statement have to be looked at.

ghost use Rattle.std.specs.Prelude.{◌≡◌, find, is_some, nat_lt, option_copied, option_map, IfOk};
ghost use Rattle.std.specs.List.{count_by};
ghost use Rattle.statement_csv.specs.References.{entry_named};
ghost use Rattle.statement_lines.specs.OpenLines.{is_named_like, is_open_fit};
ghost use Rattle.statement_lines.specs.Relations.{count_related as count_of_related, fitted as fitted_entry};
ghost use Rattle.statement_lines.specs.Relations.{is_related as is_related_so, stands};
ghost use Rattle.statement_lines.specs.declared.relation.Relation.TheVariants.{Fitted};
ghost use Rattle.statement_match.specs.Reasons.{doubled_reason as doubled_reason_told, entry_reason as entry_reason_told};
ghost use Rattle.statement_match.specs.Reasons.{fit_reason as fit_reason_told, is_doubled_outcome};
ghost use Rattle.statement_match.specs.Reasons.{is_exception as is_exception_so};
ghost use Rattle.statement_match.specs.Reasons.{left_reason as left_reason_told};
ghost use Rattle.statement_match.specs.Reasons.{named_reason as named_reason_told, reason_for as reason_told};
ghost use Rattle.statement_match.specs.Reasons.{related_reason as related_reason_told};

use crate::candidate::{Candidates, candidates_of};
use crate::grounds::LineGrounds;
use crate::named_exception::{NamedExceptions, exceptions_of};
use crate::own_lines::{is_own, own_reason};
use crate::rule::{booked_like, count_open_like, is_beside_booked};
use crate::sharers::{Sharers, sharers_of};
use firm_rows::FirmLedger;
use statement_lines::{BookEntry, Index, LineOutcome, Relation, StatementLine, WaitingEntry};
use std::alloc::{AllocError, Global};
use trust_base::{BankText, Day, EntryNo, Line, MatterNo};

/// Why a record has to be looked at, with what it may be.
#[derive(Drop)]
pub enum UnmatchedReason {
    /// It was imported under references, and is an exception under them: these, and the waiting entries of its amount.
    IsException(NamedExceptions, Candidates),
    /// It is dated after the business day, which is this.
    DatedAfter(Day),
    /// Another open line, or a line of the book, has its date, bank reference and amount.
    Doubled {
        /// How many open lines have these, itself included.
        records: u64,
        /// How many lines of the book have them.
        booked: u64,
    },
    /// A line of the book has its date and bank reference.
    BesideBooked,
    /// It fits several entries: these.
    FitsSeveral(Candidates),
    /// It fits the entry with this reference, which another record has.
    Claimed(BankText),
    /// These records, itself included, fit the entry with this reference.
    Shared(Sharers, BankText),
    /// Its words speak of a charge, a return or a correction. It may be a return of these.
    OtherBusiness(Candidates),
    /// Entries of the book are in this relation to it: these.
    Related(Relation, Candidates),
    /// The book has no entry of its amount.
    NoneOfItsAmount,
    /// The book has no entry of its amount, but the waiting deposits that were booked on this day add up to it: these.
    Together(Day, Candidates),
    /// It is a line of the firm's own with which the firm's own money would be this much, in cents: too little, or too
    /// much.
    OwnMoney(i64),
    /// It is a line of the firm's own, and its amount is 0.00.
    MovesNothing,
    /// No deposit or payment has its reference.
    NamesNone,
}

// How many of the given entries are in this relation to a line.
fn count_related_among(
    found: &[(u64, &BookEntry)],
    relation: Relation,
    today: Day,
    line: &StatementLine,
) -> usize
    ensures { result ≡ count_by (λ e. stands relation today line.now e.1.now) found.now }
{
    found
        .iter()
        .filter(|entry| relation.holds(today, line, entry.1))
        .count()
}

/// How many entries of the book are in this relation to the line.
pub(crate) fn count_related(relation: Relation, today: Day, grounds: &LineGrounds) -> usize
    ensures { result ≡ count_of_related relation today grounds.now.known grounds.now.line }
{
    count_related_among(
        grounds.candidates(relation),
        relation,
        today,
        grounds.line(),
    )
}

/// Whether entries of the book are in this relation to the line.
pub(crate) fn is_related(relation: Relation, today: Day, grounds: &LineGrounds) -> bool
    ensures { result ≡ is_related_so relation today grounds.now.known grounds.now.line }
{
    0 < count_related(relation, today, grounds)
}

// Returns the first of the given entries that a line fits.
fn fitted_among<'a>(
    found: &[(u64, &'a BookEntry)],
    today: Day,
    line: &StatementLine,
) -> Option<&'a BookEntry>
    ensures { option_copied result
        ≡ option_map (λ e. e.1.now) (find (λ e. stands Fitted today line.now e.1.now) found.now) }
{
    found
        .iter()
        .find(|entry| Relation::Fitted.holds(today, line, entry.1))
        .map(|entry| entry.1)
}

/// Returns the first entry that the line fits.
pub(crate) fn fitted<'a>(today: Day, grounds: &LineGrounds<'a, '_, '_>) -> Option<&'a BookEntry>
    ensures { option_copied result ≡ fitted_entry today grounds.now.known grounds.now.line }
{
    fitted_among(grounds.candidates(Relation::Fitted), today, grounds.line())
}

// Whether several of the given lines are open and fit an entry.
fn is_shared_among(today: Day, found: &[(u64, &StatementLine)], entry: &WaitingEntry) -> bool
    ensures { result ≡ nat_lt 1 (count_by (λ e. is_open_fit today entry.now e.1.now) found.now) }
{
    1 < found
        .iter()
        .filter(|line| line.1.is_open_fit(today, entry))
        .take(2)
        .count()
}

// Whether several open lines fit an entry.
fn is_shared(today: Day, index: &Index, entry: &WaitingEntry) -> bool
    ensures { result ≡ nat_lt 1 (count_by (is_open_fit today entry.now) index.now.lines) }
{
    is_shared_among(today, index.lines_of_amount(entry), entry)
}

// How many of the given exceptions are the line with a reference.
fn count_exceptions_among(found: &[(u64, &Line)], line: &StatementLine) -> usize
    ensures { result ≡ count_by (λ e. is_named_like line.now e.1.now) found.now }
{
    found
        .iter()
        .filter(|entry| line.is_named_like(entry.1))
        .count()
}

/// How many exceptions are the line with a reference.
pub(crate) fn count_exceptions(grounds: &LineGrounds) -> usize
    ensures { result ≡ count_by (is_named_like grounds.now.line) grounds.now.known.exceptions }
{
    count_exceptions_among(grounds.exceptions(), grounds.line())
}

// Whether the line is an exception under a reference.
fn is_exception(grounds: &LineGrounds) -> bool
    ensures { result ≡ is_exception_so grounds.now.known grounds.now.line }
{
    0 < count_exceptions(grounds)
}

fn is_doubled(outcome: &LineOutcome) -> bool
    ensures { result ≡ is_doubled_outcome outcome.now }
{
    match outcome {
        LineOutcome::Doubled => true,
        LineOutcome::AsItIs | LineOutcome::InBook | LineOutcome::Filled(_) | LineOutcome::Left =>
            false,
    }
}

// The reason that counts the lines that have the date, bank reference and amount of the line.
fn doubled_reason(grounds: &LineGrounds) -> UnmatchedReason
    ensures { result
        ≡ doubled_reason_told grounds.now.known grounds.now.records.lines grounds.now.line }
{
    let line = grounds.line();
    UnmatchedReason::Doubled {
        records: count_open_like(grounds.index(), line) as u64,
        booked: booked_like(grounds.index(), line.line()) as u64,
    }
}

// The reason that tells the entries that are in this relation to the line.
fn related_reason(
    alloc: Global,
    relation: Relation,
    today: Day,
    grounds: &LineGrounds,
) -> Result<UnmatchedReason, AllocError>
    ensures { IfOk result
        (λ reason. reason ≡ related_reason_told relation today grounds.now.known grounds.now.line) }
{
    let found = candidates_of(alloc, relation, today, grounds)?;
    Ok(UnmatchedReason::Related(relation, found))
}

// Why a line that fits no entry is left, according to its words and the entries of the book.
#[tactic(auto, unfolding(crate::specs::Reasons::entry_reason))]
fn entry_reason(
    alloc: Global,
    today: Day,
    grounds: &LineGrounds,
) -> Result<UnmatchedReason, AllocError>
    ensures { IfOk result (λ reason. reason ≡ entry_reason_told today grounds.now.known grounds.now.line) }
{
    if grounds.line().is_of_other_business() {
        let found = candidates_of(alloc, Relation::MaybeReturned, today, grounds)?;
        return Ok(UnmatchedReason::OtherBusiness(found));
    }
    if is_related(Relation::NotWaiting, today, grounds) {
        return related_reason(alloc, Relation::NotWaiting, today, grounds);
    }
    if is_related(Relation::IssuedAfter, today, grounds) {
        return related_reason(alloc, Relation::IssuedAfter, today, grounds);
    }
    if is_related(Relation::OfAnotherAmount, today, grounds) {
        return related_reason(alloc, Relation::OfAnotherAmount, today, grounds);
    }
    if is_related(Relation::OfItsAmount, today, grounds) {
        return related_reason(alloc, Relation::OfItsAmount, today, grounds);
    }
    if is_related(Relation::MaybeReturned, today, grounds) {
        return related_reason(alloc, Relation::MaybeReturned, today, grounds);
    }
    match grounds.first_day() {
        Some(day) => {
            let found = candidates_of(alloc, Relation::HeldOn(day.get()), today, grounds)?;
            Ok(UnmatchedReason::Together(day, found))
        }
        None => Ok(UnmatchedReason::NoneOfItsAmount),
    }
}

// Why a line is left that fits at most one entry: this one, if any.
#[tactic(auto, unfolding(crate::specs::Reasons::fit_reason))]
fn fit_reason(
    alloc: Global,
    today: Day,
    grounds: &LineGrounds,
    fit: Option<&BookEntry>,
) -> Result<UnmatchedReason, AllocError>
    ensures { IfOk result (λ reason. reason ≡ fit_reason_told today grounds.now.known grounds.now.records
        grounds.now.line (option_copied fit.entry)) }
{
    let Some(fit) = fit else {
        return entry_reason(alloc, today, grounds);
    };
    let reference = &fit.entry.reference;
    if grounds.index().is_claimed(reference) {
        return Ok(UnmatchedReason::Claimed(reference.copied()?));
    }
    if is_shared(today, grounds.index(), &fit.entry) {
        let found = sharers_of(alloc, today, &fit.entry, grounds)?;
        return Ok(UnmatchedReason::Shared(found, reference.copied()?));
    }
    entry_reason(alloc, today, grounds)
}

// Why a line is left.
#[tactic(auto, unfolding(crate::specs::Reasons::left_reason))]
fn left_reason(
    alloc: Global,
    today: Day,
    grounds: &LineGrounds,
    outcome: &LineOutcome,
) -> Result<UnmatchedReason, AllocError>
    ensures { IfOk result (λ reason. reason
        ≡ left_reason_told today grounds.now.known grounds.now.records grounds.now.line outcome.now) }
{
    let line = grounds.line().line();
    if is_exception(grounds) {
        let found = exceptions_of(alloc, today, grounds)?;
        let waiting = candidates_of(alloc, Relation::OfItsAmount, today, grounds)?;
        return Ok(UnmatchedReason::IsException(found, waiting));
    }
    if today.get() < line.date.get() {
        return Ok(UnmatchedReason::DatedAfter(today));
    }
    if is_doubled(outcome) {
        return Ok(doubled_reason(grounds));
    }
    if is_beside_booked(grounds.index(), line) {
        return Ok(UnmatchedReason::BesideBooked);
    }
    if 1 < count_related(Relation::Fitted, today, grounds) {
        let found = candidates_of(alloc, Relation::Fitted, today, grounds)?;
        return Ok(UnmatchedReason::FitsSeveral(found));
    }
    fit_reason(alloc, today, grounds, fitted(today, grounds))
}

/// Whether a reference has the form of an entry's.
#[tactic(auto, unfolding(statement_csv::specs::References::entry_named))]
pub(crate) fn names_entry(reference: &[u8]) -> bool
    ensures { result ≡ is_some (entry_named reference.now) }
{
    if reference.len() != 12 || reference[0] != b'M' || reference[7] != b'-' {
        return false;
    }
    let Some(_matter) = MatterNo::read(&reference[1..7]) else {
        return false;
    };
    EntryNo::read(&reference[8..12]).is_some()
}

// Why a line with a reference has to be looked at.
#[tactic(auto, unfolding(crate::specs::Reasons::named_reason))]
fn named_reason(
    alloc: Global,
    today: Day,
    grounds: &LineGrounds,
) -> Result<Option<UnmatchedReason>, AllocError>
    ensures { IfOk result (λ reason. reason ≡ named_reason_told today grounds.now.known grounds.now.line) }
{
    let line = grounds.line().line();
    if !names_entry(line.reference.as_slice()) || is_related(Relation::NamedAgain, today, grounds) {
        return Ok(None);
    }
    if today.get() < line.date.get() {
        return Ok(Some(UnmatchedReason::DatedAfter(today)));
    }
    if !is_related(Relation::Named, today, grounds) {
        return Ok(Some(UnmatchedReason::NamesNone));
    }
    if !is_related(Relation::NamedOfAnotherAmount, today, grounds) {
        return Ok(None);
    }
    let reason = related_reason(alloc, Relation::NamedOfAnotherAmount, today, grounds)?;
    Ok(Some(reason))
}

/// Why a line with this outcome has to be looked at; `None` if it does not. `own` is the firm's own ledger after an
/// import of the lines before. The only error is out of memory.
#[tactic(auto, unfolding(crate::specs::Reasons::reason_for))]
pub(crate) fn reason_for(
    alloc: Global,
    today: Day,
    grounds: &LineGrounds,
    own: &FirmLedger,
    outcome: &LineOutcome,
) -> Result<Option<UnmatchedReason>, AllocError>
    ensures { IfOk result (λ reason. reason
        ≡ reason_told today grounds.now.known own.now grounds.now.records grounds.now.line outcome.now) }
{
    match outcome {
        LineOutcome::AsItIs if is_own(grounds.line().line()) => Ok(own_reason(
            today,
            own,
            grounds.line().line(),
        )),
        LineOutcome::AsItIs => named_reason(alloc, today, grounds),
        LineOutcome::InBook | LineOutcome::Filled(_) => Ok(None),
        LineOutcome::Doubled | LineOutcome::Left => {
            let reason = left_reason(alloc, today, grounds, outcome)?;
            Ok(Some(reason))
        }
    }
}
