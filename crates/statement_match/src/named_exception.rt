// The exceptions that a reason tells of.

ghost use Rattle.std.specs.Prelude.{◌≡◌, ◌++◌, ◌∷◌, [], ◌≤◌, cond, length, map, take, IfOk, OnOk};
ghost use Rattle.std.specs.List.{filter};
ghost use Rattle.statement_lines.specs.Lookups.{elements};
ghost use Rattle.statement_lines.specs.OpenLines.{is_named_like};
ghost use Rattle.statement_match.specs.Candidates.{named_exception, named_exceptions as exceptions_told};

use crate::candidate::{Candidate, MOST_LISTED, candidate_if_any};
use crate::grounds::LineGrounds;
use crate::misfit::{Misfit, misfit_of};
use crate::reason::count_exceptions;
use std::alloc::{AllocError, Global};
use std::marker::Model;
use trust_base::{BankText, Day, Line};

/// An exception that is a line with a reference.
#[derive(Drop)]
pub struct NamedException {
    /// The reference.
    pub reference: BankText,
    /// Why it matches nothing now.
    pub misfit: Misfit,
    /// The deposit or payment that has the reference, if the book has one.
    pub entry: Option<Candidate>,
}

/// Exceptions that are one line with some reference.
///
/// Contracts see it as the list and the count.
#[derive(Drop)]
pub struct NamedExceptions {
    /// The first five of them, in the order of the book.
    pub listed: Vec<NamedException>,
    /// How many there are.
    pub count: u64,
}

impl Model for NamedExceptions {
    ghost use Rattle.statement_match.specs.Candidates.{NamedExceptions};

    ghost Value = { NamedExceptions };

    ghost view = { λ e. record { listed = e.listed.items; count = e.count } };
}

// Returns an exception's reference, why it matches nothing, and the entry that has the reference.
fn told(today: Day, grounds: &LineGrounds, exception: &Line) -> Result<NamedException, AllocError>
    ensures { IfOk result (λ found. found ≡ named_exception today grounds.now.known exception.now) }
{
    let entry = grounds.entry_of(exception);
    Ok(NamedException {
        reference: exception.reference.copied()?,
        misfit: misfit_of(today, exception, entry),
        entry: candidate_if_any(entry)?,
    })
}

// Adds an exception if it is the line with a reference, unless the list is full.
#[tactic(auto, using(crate::proofs::Listed::told_steps))]
fn add_exception(
    listed: &mut Vec<NamedException>,
    today: Day,
    grounds: &LineGrounds,
    exception: &Line,
) -> Result<(), AllocError>
    requires { length listed.old.items ≤ 5 }
    ensures { OnOk result (listed.new.items ≡ take 5 (listed.old.items
        ++ cond (is_named_like grounds.now.line exception.now)
        (named_exception today grounds.now.known exception.now ∷ []) [])) }
{
    if MOST_LISTED <= listed.len() {
        return Ok(());
    }
    if !grounds.line().is_named_like(exception) {
        return Ok(());
    }
    let found = told(today, grounds, exception)?;
    listed.push(found)?;
    Ok(())
}

// Returns the first of the given exceptions that are the line with a reference.
fn exceptions_among(
    alloc: Global,
    today: Day,
    grounds: &LineGrounds,
    found: &[(u64, &Line)],
) -> Result<Vec<NamedException>, AllocError>
    ensures { IfOk result (λ listed. listed.items ≡ take 5 (map (named_exception today grounds.now.known)
        (filter (is_named_like grounds.now.line) (elements found.now)))) }
{
    let mut listed = Vec::new(alloc);
    for exception in found {
        add_exception(&mut listed, today, grounds, exception.1)?;
    }
    Ok(listed)
}

/// Returns the exceptions that are the line with a reference. The only error is out of memory.
pub(crate) fn exceptions_of(
    alloc: Global,
    today: Day,
    grounds: &LineGrounds,
) -> Result<NamedExceptions, AllocError>
    ensures { IfOk result (λ found. found ≡ exceptions_told today grounds.now.known grounds.now.line) }
{
    let listed = exceptions_among(alloc, today, grounds, grounds.exceptions())?;
    let count = count_exceptions(grounds) as u64;
    Ok(NamedExceptions { listed, count })
}
