// Sums of the waiting deposits, by the day on which they were booked.

ghost use Rattle.std.specs.Prelude.{◌≡◌, ◌↔◌, ℕ, IfOk, find, option_map};
ghost use Rattle.std.specs.List.{Contains, filter};
ghost use Rattle.std.specs.List.Sorted.{IsStrictlyIncreasing};
ghost use Rattle.firm_rows.specs.Sums.{sum_of};
ghost use Rattle.statement_lines.specs.EntryStates.{is_held};
ghost use Rattle.statement_lines.specs.Lookups.{elements};
ghost use Rattle.statement_match.specs.DaySums.{amount_if_held, amount_of, day_with, held_days};

use statement_lines::BookEntry;
use std::alloc::{AllocError, Global};
use trust_base::Day;

/// A day, and the sum in cents of the waiting deposits that were booked on it.
pub(crate) type DaySum = (u32, i128);

// The days of the waiting deposits.
fn days_held(alloc: Global, entries: &[BookEntry]) -> Result<Vec<u32>, AllocError>
    ensures { IfOk result (λ days. days.items ≡ held_days entries.now) }
{
    let mut days = Vec::new(alloc);
    for entry in entries {
        if entry.state.is_held() {
            days.push(entry.day.get())?;
        }
    }
    Ok(days)
}

// Sorts days and removes duplicates.
fn put_in_order(days: &mut Vec<u32>)
    ensures rises { IsStrictlyIncreasing days.new.items }
    ensures keeps { (day : ℕ) → Contains days.old.items day → Contains days.new.items day }
    ensures adds_none { (day : ℕ) → Contains days.new.items day → Contains days.old.items day }
{
    days.sort_unstable();
    days.dedup();
}

/// Returns the days on which waiting deposits were booked, sorted, without duplicates. The only error is out of memory.
pub(crate) fn days_in_order(alloc: Global, entries: &[BookEntry]) -> Result<Vec<u32>, AllocError>
    ensures rises { IfOk result (λ days. IsStrictlyIncreasing days.items) }
    ensures same { IfOk result (λ days.
        (day : ℕ) → Contains (held_days entries.now) day ↔ Contains days.items day) }
{
    let mut days = days_held(alloc, entries)?;
    put_in_order(&mut days);
    Ok(days)
}

// What an entry adds to the sum of the waiting deposits, in cents.
fn amount_held(entry: &BookEntry) -> i64
    ensures { result ≡ amount_if_held entry.now }
{
    if entry.state.is_held() {
        entry.entry.amount
    } else {
        0
    }
}

/// The sum of the waiting deposits among the given entries, in cents.
pub(crate) fn sum_held(found: &[(u64, &BookEntry)]) -> i128
    ensures { result ≡ sum_of amount_of (filter (λ e. is_held e.state) (elements found.now)) }
{
    let mut sum = 0i128;
    for entry in found {
        sum += amount_held(entry.1) as i128;
    }
    sum
}

/// Returns the first day whose sum is this amount.
pub(crate) fn day_of_sum(sums: &[DaySum], amount: i64) -> Option<u32>
    ensures { result ≡ day_with amount sums.now }
{
    let amount = amount as i128;
    sums.iter().find(|sum| sum.1 == amount).map(|sum| sum.0)
}

/// Returns the day of the first waiting deposit among the given entries.
pub(crate) fn day_held(found: &[(u64, &BookEntry)]) -> Option<Day>
    ensures { result ≡ option_map (λ e. e.1.now.day) (find (λ e. is_held e.1.now.state) found.now) }
{
    found
        .iter()
        .find(|entry| entry.1.state.is_held())
        .map(|entry| entry.1.day)
}
