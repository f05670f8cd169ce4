// The records whose lines fit one entry.

ghost use Rattle.std.specs.Prelude.{◌≡◌, map, IfOk};
ghost use Rattle.std.specs.List.{filter};
ghost use Rattle.statement_lines.specs.OpenLines.{is_open_fit};
ghost use Rattle.statement_match.specs.Candidates.{all_of, fit_numbers as numbers_of_fits, sharers as sharers_told};

use crate::candidate::MOST_LISTED;
use crate::grounds::{LineGrounds, NumberedLine};
use statement_lines::WaitingEntry;
use std::alloc::{AllocError, Global};
use std::marker::Model;
use trust_base::Day;

/// Records whose lines fit one entry, by their numbers.
///
/// Contracts see it as the list and the count.
#[derive(Drop)]
pub struct Sharers {
    /// The numbers of the first five of them, in their order.
    pub listed: Vec<u64>,
    /// How many there are.
    pub count: u64,
}

impl Model for Sharers {
    ghost use Rattle.statement_match.specs.Candidates.{Sharers};

    ghost Value = { Sharers };

    ghost view = { λ s. record { listed = s.listed.items; count = s.count } };
}

impl Sharers {
    // These records, of which the first five are listed.
    fn of(alloc: Global, numbers: &[u64]) -> Result<Sharers, AllocError>
        ensures { IfOk result (λ found. found ≡ all_of numbers.now) }
    {
        let listed = Vec::from_slice(alloc, &numbers[..MOST_LISTED.min(numbers.len())])?;
        let count = numbers.len() as u64;
        Ok(Sharers { listed, count })
    }
}

// Returns the numbers of the given lines that are open and fit an entry.
fn fit_numbers_among(
    alloc: Global,
    today: Day,
    entry: &WaitingEntry,
    found: &[(u64, &NumberedLine)],
) -> Result<Vec<u64>, AllocError>
    ensures { IfOk result (λ numbers. numbers.items
        ≡ map (λ e. e.1.now.0) (filter (λ e. is_open_fit today entry.now e.1.now.1.now) found.now)) }
{
    found
        .iter()
        .filter(|line| line.1.1.is_open_fit(today, entry))
        .map(|line| line.1.0)
        .collect(alloc)
}

// Returns the numbers of the open lines that fit an entry.
fn fit_numbers(
    alloc: Global,
    today: Day,
    entry: &WaitingEntry,
    grounds: &LineGrounds,
) -> Result<Vec<u64>, AllocError>
    ensures { IfOk result (λ numbers. numbers.items
        ≡ numbers_of_fits today entry.now grounds.now.records.numbers 0 grounds.now.records.lines) }
{
    let found = grounds.lines_of_amount(entry);
    let numbers = fit_numbers_among(alloc, today, entry, found)?;
    Ok(numbers)
}

/// Returns the records whose lines are open and fit an entry. The only error is out of memory.
pub(crate) fn sharers_of(
    alloc: Global,
    today: Day,
    entry: &WaitingEntry,
    grounds: &LineGrounds,
) -> Result<Sharers, AllocError>
    ensures { IfOk result (λ found. found ≡ sharers_told today grounds.now.records entry.now) }
{
    let numbers = fit_numbers(alloc, today, entry, grounds)?;
    Sharers::of(alloc, &numbers)
}
