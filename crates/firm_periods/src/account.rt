// A client's statement of account for a period.

ghost use Rattle.std.specs.Prelude.{◌≡◌, ◌*◌, ◌^◌, ◌++◌, length, map, IfOk, IfSome, OnOk, option_to_list};
ghost use Rattle.std.specs.List.{filter};
ghost use Rattle.std.specs.Ordering.{is_lt};
ghost use Rattle.firm_figures.specs.Doubles.{in_order};
ghost use Rattle.firm_periods.specs.Named.{is_within};
ghost use Rattle.firm_periods.specs.Accounts.{IsSmallMove, IsSumMoved, account_kept, accounted, entry_moved, is_before_moved, is_last, is_passing, kept_moves, moved_before, moves_at, place, sum_before};

use crate::moved::{Moved, moves_of};
use std::alloc::{AllocError, Global};
use std::cmp::Ordering;
use std::marker::Model;
use trust_base::{Day, EntryNo, Period};
use trust_matter::{Entry, Kept, Matter, PaymentState};

// A movement of an entry, with the entry and its number.
#[derive(Drop)]
struct EntryMove<'a> {
    number: EntryNo,
    entry: &'a Entry,
    moved: Moved,
}

impl<'a> Model for EntryMove<'a> {
    ghost use Rattle.firm_periods.specs.Accounts.{EntryMoved, IsSmallMove};

    ghost Value = { EntryMoved };

    ghost view = { λ v. record { number = v.number; entry = v.entry.now; moved = v.moved } };

    ghost invariant = { λ v. IsSmallMove v.moved };
}

/// A movement of a matter, with the balance after it.
///
/// Contracts see it with the entry behind the reference.
#[derive(Drop)]
pub struct AccountLine<'a> {
    number: EntryNo,
    entry: &'a Entry,
    moved: Moved,
    ledger: i128,
}

impl<'a> Model for AccountLine<'a> {
    ghost use Rattle.firm_periods.specs.Accounts.{AccountedMove};

    ghost Value = { AccountedMove };

    ghost view = { λ l. record { number = l.number; entry = l.entry.now; moved = l.moved; ledger = l.ledger } };
}

/// A client's statement of account: the opening balance, the movements, and the closing balance, in cents.
///
/// Contracts see it with the list of its lines.
#[derive(Drop)]
pub struct Account<'a> {
    opening: i128,
    lines: Vec<AccountLine<'a>>,
    closing: i128,
}

impl<'a> Model for Account<'a> {
    ghost use Rattle.firm_periods.specs.Accounts.{Accounted};

    ghost Value = { Accounted };

    ghost view = { λ a. record { opening = a.opening; lines = a.lines.items; closing = a.closing } };
}

// Whether it is a payment that was voided on the day of its issue.
fn is_passing(entry: &Entry) -> bool
    ensures { result ≡ is_passing entry.now }
{
    match entry {
        Entry::Payment(payment) => match &payment.state {
            PaymentState::Voided(voided) => voided.issued.get() == voided.undone.get(),
            _ => false,
        },
        _ => false,
    }
}

impl EntryMove<'_> {
    // Whether it went out, and did not come back on the same day.
    fn is_last(&self) -> bool
        ensures { result ≡ is_last self.now }
    {
        !is_passing(self.entry) && self.moved.amount < 0
    }

    // Where it stands among what is not last of a day.
    fn place(&self) -> u32
        ensures { result ≡ place self.now }
    {
        if is_passing(self.entry) {
            let step = if self.moved.amount < 0 { 1 } else { 2 };
            2 * self.number.get() as u32 + step
        } else {
            0
        }
    }

    // By day; on one day what came in, the payments that were voided on it, and what else went out.
    fn compare(&self, other: &EntryMove<'_>) -> Ordering
        ensures { is_lt result ≡ is_before_moved self.now other.now }
    {
        let by_day = self.moved.day.get().cmp(&other.moved.day.get());
        let by_end = self.is_last().cmp(&other.is_last());
        by_day.then(by_end).then(self.place().cmp(&other.place()))
    }
}

impl<'a> AccountLine<'a> {
    /// The entry's number.
    pub fn number(&self) -> EntryNo
        ensures { result ≡ self.now.number }
    {
        self.number
    }

    /// The entry that moved the money, for its names.
    pub fn entry(&self) -> &'a Entry
        ensures { result.now ≡ self.now.entry }
    {
        self.entry
    }

    /// The day, the signed amount in cents, and why the money moved.
    pub fn moved(&self) -> Moved
        ensures { result ≡ self.now.moved }
    {
        self.moved
    }

    /// The balance after the movement, in cents: the ledger, but for the order within its day.
    pub fn ledger(&self) -> i128
        ensures { result ≡ self.now.ledger }
    {
        self.ledger
    }
}

impl<'a> Account<'a> {
    /// The sum of the movements before the period, in cents.
    pub fn opening(&self) -> i128
        ensures { result ≡ self.now.opening }
    {
        self.opening
    }

    /// The movements of the period, by day; on one day what came in stands first, then each payment that was voided on
    /// that day with its voiding right behind it, then what else went out.
    pub fn lines(&self) -> &[AccountLine<'a>]
        ensures { result.now ≡ self.now.lines }
    {
        self.lines.as_slice()
    }

    /// The ledger after the last movement, in cents; the opening if there is none.
    pub fn closing(&self) -> i128
        ensures { result ≡ self.now.closing }
    {
        self.closing
    }
}

// What a movement adds to the opening of a period that begins on a day.
fn amount_before(moved: Option<Moved>, day: Day) -> i128
    requires { IfSome moved IsSmallMove }
    ensures sum { result ≡ sum_before day (option_to_list moved) }
    ensures small { IsSumMoved 1 result }
{
    match moved {
        Some(moved) if moved.day.get() < day.get() => moved.amount as i128,
        _ => 0,
    }
}

// What an entry adds to it.
#[tactic(auto, using(crate::proofs::AccountRules::sums))]
fn entry_before(kept: &Kept, day: Day) -> i128
    ensures sum { result ≡ moved_before day (moves_at kept.now.number kept.now.entry) }
    ensures small { IsSumMoved 2 result }
{
    let (first, second) = moves_of(&kept.entry);
    amount_before(first, day) + amount_before(second, day)
}

// The opening of a period that begins on a day: the sum of the movements before it.
#[tactic(auto, using(crate::proofs::AccountRules::sums))]
fn opening_on(kept: &[Kept], day: Day) -> i128
    ensures sum { result ≡ moved_before day (kept_moves kept.now) }
    ensures small { IsSumMoved (2 * length kept.now) result }
{
    let mut sum = 0;
    for one in kept {
        sum += entry_before(one, day);
    }
    sum
}

// Appends a movement of an entry, if it is one of the period.
fn push_within<'a>(
    moves: &mut Vec<EntryMove<'a>>,
    kept: &'a Kept,
    moved: Option<Moved>,
    period: Period,
) -> Result<(), AllocError>
    requires { IfSome moved IsSmallMove }
    ensures { OnOk result (moves.new.items ≡ moves.old.items
        ++ filter (λ v. is_within period.from period.to v.moved)
        (map (entry_moved kept.now.number kept.now.entry) (option_to_list moved))) }
{
    match moved {
        Some(moved) if moved.is_within(period) => {
            moves.push(EntryMove {
                number: kept.number,
                entry: &kept.entry,
                moved,
            })?;
            Ok(())
        }
        _ => Ok(()),
    }
}

// Appends the movements of an entry that are of the period.
#[tactic(auto, using(crate::proofs::AccountRules::sums))]
fn push_entry<'a>(
    moves: &mut Vec<EntryMove<'a>>,
    kept: &'a Kept,
    period: Period,
) -> Result<(), AllocError>
    ensures { OnOk result (moves.new.items ≡ moves.old.items
        ++ filter (λ v. is_within period.from period.to v.moved) (moves_at kept.now.number kept.now.entry)) }
{
    let (first, second) = moves_of(&kept.entry);
    push_within(moves, kept, first, period)?;
    push_within(moves, kept, second, period)
}

// The movements of a period, in the order of their entries.
#[tactic(auto, using(crate::proofs::AccountRules::sums))]
fn moves_within(
    alloc: Global,
    kept: &[Kept],
    period: Period,
) -> Result<Vec<EntryMove<'_>>, AllocError>
    ensures { IfOk result (λ vs. vs.items
        ≡ filter (λ v. is_within period.from period.to v.moved) (kept_moves kept.now)) }
{
    let mut moves = Vec::new(alloc);
    for one in kept {
        push_entry(&mut moves, one, period)?;
    }
    Ok(moves)
}

// The movements by day; on one day what came in, the payments that were voided on it, and what else went out.
fn in_order(moves: Vec<EntryMove<'_>>) -> Result<Vec<EntryMove<'_>>, AllocError>
    ensures { IfOk result (λ vs. vs.items ≡ in_order is_before_moved moves.entry.items) }
{
    let mut all = moves;
    all.sort_by(|one, other| one.compare(other))?;
    Ok(all)
}

// The account of these movements, each with the balance after it.
fn accounted(
    alloc: Global,
    opening: i128,
    moves: Vec<EntryMove<'_>>,
) -> Result<Account<'_>, AllocError>
    requires { IsSumMoved (2 ^ 64) opening }
    ensures { IfOk result (λ a. a ≡ accounted opening moves.entry.items) }
{
    let all = moves.as_slice();
    let mut lines = Vec::new(alloc);
    let mut ledger = opening;
    for one in all {
        ledger += one.moved.amount as i128;
        lines.push(AccountLine {
            number: one.number,
            entry: one.entry,
            moved: one.moved,
            ledger,
        })?;
    }
    Ok(Account {
        opening,
        lines,
        closing: ledger,
    })
}

/// The statement of account of a matter for a period, of its loaded entries: what they had moved before it, each
/// movement in it with the balance after it, and the ledger after the last. It is complete if all entries of the matter
/// are loaded. The only error is out of memory.
pub fn account_of(alloc: Global, matter: &Matter, period: Period) -> Result<Account<'_>, AllocError>
    ensures { IfOk result (λ a. a ≡ account_kept period matter.now.kept) }
{
    let kept = matter.kept();
    let opening = opening_on(kept, period.from());
    let moves = in_order(moves_within(alloc, kept, period)?)?;
    accounted(alloc, opening, moves)
}
