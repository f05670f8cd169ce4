// The entries of the book that a reason tells of.

ghost use Rattle.std.specs.Prelude.{◌≡◌, ◌++◌, ◌∷◌, [], ◌≤◌, cond, length, map, take, option_copied, option_map, IfOk, OnOk};
ghost use Rattle.std.specs.List.{filter};
ghost use Rattle.statement_lines.specs.Lookups.{elements};
ghost use Rattle.statement_lines.specs.Relations.{related, stands};
ghost use Rattle.statement_match.specs.Candidates.{candidate_of, candidates as candidates_told};

use crate::grounds::LineGrounds;
use crate::reason::count_related;
use statement_lines::{BookEntry, EntryState, Relation, StatementLine};
use std::alloc::{AllocError, Global};
use std::marker::Model;
use trust_base::{BankText, Day, Label};

/// How many entries, exceptions or records are listed at most.
pub(crate) const MOST_LISTED: usize = 5;

/// A deposit or a payment of the book, as a reason tells it.
#[derive(Drop)]
pub struct Candidate {
    /// The reference that names it.
    pub reference: BankText,
    pub state: EntryState,
    /// The day of the state: the bank line's day if it is cleared or returned, the booked day if it is proposed or
    /// declined.
    pub day: Day,
    /// The bank's reference of that line, if there is one.
    pub bank_ref: Option<BankText>,
    /// The source of a deposit, or the payee of a payment.
    pub party: Label,
    /// The amount in cents of the line that clears it: negative for a payment.
    pub amount: i64,
}

/// Entries of the book that are in one relation to a line.
///
/// Contracts see it as the list and the count.
#[derive(Drop)]
pub struct Candidates {
    /// The first five of them, in the order of the book.
    pub listed: Vec<Candidate>,
    /// How many there are.
    pub count: u64,
}

impl Model for Candidates {
    ghost use Rattle.statement_match.specs.Candidates.{Candidates};

    ghost Value = { Candidates };

    ghost view = { λ c. record { listed = c.listed.items; count = c.count } };
}

impl Candidate {
    /// The entry as a reason tells it. The only error is out of memory.
    pub(crate) fn of(entry: &BookEntry) -> Result<Candidate, AllocError>
        ensures { IfOk result (λ candidate. candidate ≡ candidate_of entry.now) }
    {
        let bank_ref = match &entry.bank_ref {
            Some(bank_ref) => Some(bank_ref.copied()?),
            None => None,
        };
        Ok(Candidate {
            reference: entry.entry.reference.copied()?,
            state: entry.state,
            day: entry.day,
            bank_ref,
            party: entry.party.copied()?,
            amount: entry.entry.amount,
        })
    }
}

/// The entry as a reason tells it, if there is one. The only error is out of memory.
pub(crate) fn candidate_if_any(entry: Option<&BookEntry>) -> Result<Option<Candidate>, AllocError>
    ensures { IfOk result (λ candidate. candidate ≡ option_map candidate_of (option_copied entry.entry)) }
{
    match entry {
        Some(entry) => Ok(Some(Candidate::of(entry)?)),
        None => Ok(None),
    }
}

// Adds an entry if it is in this relation to a line, unless the list is full.
#[tactic(auto, using(crate::proofs::Listed::told_steps))]
fn add_candidate(
    listed: &mut Vec<Candidate>,
    relation: Relation,
    today: Day,
    line: &StatementLine,
    entry: &BookEntry,
) -> Result<(), AllocError>
    requires { length listed.old.items ≤ 5 }
    ensures { OnOk result (listed.new.items ≡ take 5 (listed.old.items
        ++ cond (stands relation today line.now entry.now) (candidate_of entry.now ∷ []) [])) }
{
    if MOST_LISTED <= listed.len() {
        return Ok(());
    }
    if !relation.holds(today, line, entry) {
        return Ok(());
    }
    let candidate = Candidate::of(entry)?;
    listed.push(candidate)?;
    Ok(())
}

// Returns the first of the given entries that are in this relation to a line.
fn candidates_among(
    alloc: Global,
    relation: Relation,
    today: Day,
    found: &[(u64, &BookEntry)],
    line: &StatementLine,
) -> Result<Vec<Candidate>, AllocError>
    ensures { IfOk result (λ listed. listed.items ≡ take 5
        (map candidate_of (filter (stands relation today line.now) (elements found.now)))) }
{
    let mut listed = Vec::new(alloc);
    for entry in found {
        add_candidate(&mut listed, relation, today, line, entry.1)?;
    }
    Ok(listed)
}

/// Returns the entries that are in this relation to the line. The only error is out of memory.
pub(crate) fn candidates_of(
    alloc: Global,
    relation: Relation,
    today: Day,
    grounds: &LineGrounds,
) -> Result<Candidates, AllocError>
    ensures { IfOk result (λ found. found ≡ candidates_told relation today grounds.now.known grounds.now.line) }
{
    let found = grounds.candidates(relation);
    let listed = candidates_among(alloc, relation, today, found, grounds.line())?;
    let count = count_related(relation, today, grounds) as u64;
    Ok(Candidates { listed, count })
}
