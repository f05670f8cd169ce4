// The days of an entry, and the lists that go with the figures as of a day.

ghost use Rattle.std.specs.Prelude.{◌≡◌, ◌++◌, ◌+◌, ◌<◌, ◌≤◌, cond, pos, ◌+ℤ◌, ◌-ℤ◌, ◌≤ℤ◌, Some, is_some, length, slice_index_or, vec_capacity, vec_len, IfOk, OnOk, OnErr};
ghost use Rattle.std.specs.List.Sorted.{IsSortedBy};
ghost use Rattle.trust_base.specs.TheConstants.{MAX_AMOUNT};
ghost use Rattle.matter_rows.specs.Clearings.{cleared_amount};
ghost use Rattle.firm_rows.specs.Firm.{EntryRow};
ghost use Rattle.firm_figures.specs.declared.day_lists.Issued.{Issued};
ghost use Rattle.firm_figures.specs.Doubles.{issued_cmp, is_before_issued, is_double_in, doubles_in, issued_in};
ghost use Rattle.firm_figures.specs.Figures.{day_by, day_where, unless, booked_on, undone_on, returned_on, banked_on, back_on, is_in_transit, is_outstanding, is_banked_early, is_back_early};
ghost use Rattle.firm_figures.specs.Listing.{entry_line};
ghost use Rattle.firm_figures.specs.Openings.{AreClosings, latest_before, openings_after};

use firm_rows::BalanceRow;
use std::alloc::{AllocError, Global};
use std::cmp::Ordering;
use trust_base::{BankAmount, Day, EntryNo, Label, Line, MatterNo};
use trust_matter::{DepositState, Entry, PaymentState};

/// An entry with one of its days, and its signed amount in cents.
#[derive(Clone, Copy)]
pub struct EntryLine {
    pub matter: MatterNo,
    pub entry: EntryNo,
    pub day: Day,
    pub amount: i64,
}

/// The lists that go with the figures: entries by matter and number, and exceptions in their order.
pub struct ReconciliationLists {
    pub transit: Vec<EntryLine>,
    pub out: Vec<EntryLine>,
    pub early: Vec<EntryLine>,
    pub exceptions: Vec<Line>,
}

// Written by hand, so that a function that holds the lists makes one call at each exit.
impl Drop for ReconciliationLists {
    fn drop(self) {
        let ReconciliationLists {
            transit: _transit,
            out: _out,
            early: _early,
            exceptions: _exceptions,
        } = self;
    }
}

/// An issued payment: the day of issue, the negative amount in cents, and the instrument.
#[derive(Drop)]
pub struct Issued {
    pub matter: MatterNo,
    pub entry: EntryNo,
    pub day: Day,
    pub amount: i64,
    pub instrument: Label,
}

/// An opening, and the latest closing before it, whose amount differs.
#[derive(Clone, Copy)]
pub struct OpeningLine {
    pub day: Day,
    pub amount: BankAmount,
    pub after: Day,
    pub closing: BankAmount,
}

/// What has happened to an entry by a day, and the amount of its bank line. A day is missing if that has not happened
/// by then.
#[derive(Clone, Copy)]
pub(crate) struct EntryDays {
    /// When its money was booked: a deposit made, a payment issued.
    pub(crate) booked: Option<Day>,
    /// When that was undone: a deposit cancelled, a payment voided.
    pub(crate) undone: Option<Day>,
    /// When the bank's return of a deposit was booked.
    pub(crate) returned: Option<Day>,
    /// The day of the bank line that cleared it.
    pub(crate) banked: Option<Day>,
    /// The day of the bank line that took a deposit back.
    pub(crate) back: Option<Day>,
    /// The amount of its bank line, in cents: positive for a deposit, negative for a payment.
    pub(crate) amount: i64,
}

/// On which lists an entry stands as of a day, and with which of its days.
#[derive(Clone, Copy)]
pub(crate) struct Standing {
    /// A deposit that is booked, and not at the bank yet: the day it was booked.
    pub(crate) transit: Option<Day>,
    /// A payment that is issued, and not at the bank yet: the day of issue.
    pub(crate) out: Option<Day>,
    /// What was at the bank before it was booked: the bank's day.
    pub(crate) early: Option<Day>,
    /// What was taken back at the bank before that was booked: the bank's day.
    pub(crate) back: Option<Day>,
}

// A day, if it is on or before `p`.
fn day_by(day: Day, p: Day) -> Option<Day>
    ensures { result ≡ day_by p (Some day) }
{
    if day.get() <= p.get() {
        return Some(day);
    }
    None
}

// A day, unless there is another one.
fn unless(day: Option<Day>, other: Option<Day>) -> Option<Day>
    ensures { result ≡ unless day other }
{
    match other {
        Some(_) => None,
        None => day,
    }
}

impl EntryDays {
    /// The days of this entry that are on or before `p`, and its amount.
    pub(crate) fn by(entry: &Entry, p: Day) -> EntryDays
        ensures booked { result.booked ≡ day_by p (booked_on entry.now) }
        ensures undone { result.undone ≡ day_by p (undone_on entry.now) }
        ensures returned { result.returned ≡ day_by p (returned_on entry.now) }
        ensures banked { result.banked ≡ day_by p (banked_on entry.now) }
        ensures back { result.back ≡ day_by p (back_on entry.now) }
        ensures amount { result.amount ≡ cleared_amount entry.now }
        ensures low { pos 0 ≤ℤ (result.amount +ℤ pos MAX_AMOUNT) }
    {
        let mut days = EntryDays {
            booked: None,
            undone: None,
            returned: None,
            banked: None,
            back: None,
            amount: 0,
        };
        match entry {
            Entry::Deposit(deposit) => {
                days.booked = day_by(deposit.book, p);
                days.amount = deposit.amount.get() as i64;
                match &deposit.state {
                    DepositState::Held => {}
                    DepositState::Cleared(clearing) => days.banked = day_by(clearing.bank_day, p),
                    DepositState::Cancelled(day) => days.undone = day_by(*day, p),
                    DepositState::Returned(returned) => {
                        days.banked = day_by(returned.clearing.bank_day, p);
                        days.back = day_by(returned.returning.bank_day, p);
                        days.returned = day_by(returned.undone, p);
                    }
                }
            }
            Entry::Payment(payment) => {
                days.amount = -(payment.amount.get() as i64);
                match &payment.state {
                    PaymentState::Issued(day) => days.booked = day_by(*day, p),
                    PaymentState::Cleared(paid) => {
                        days.booked = day_by(paid.issued, p);
                        days.banked = day_by(paid.clearing.bank_day, p);
                    }
                    PaymentState::Voided(voided) => {
                        days.booked = day_by(voided.issued, p);
                        days.undone = day_by(voided.undone, p);
                    }
                    PaymentState::Proposed | PaymentState::Declined => {}
                }
            }
            Entry::Fee(_) | Entry::Claim(_) => {}
        }
        days
    }

    /// Its amount if it has come, less its amount if it has gone again.
    pub(crate) fn amount_left(&self, come: Option<Day>, gone: Option<Day>) -> i128
        ensures { result
            ≡ (cond (is_some come) self.now.amount (pos 0) -ℤ cond (is_some gone) self.now.amount (pos 0)) }
    {
        let amount = self.amount as i128;
        match (come, gone) {
            (Some(_), None) => amount,
            (None, Some(_)) => -amount,
            _ => 0,
        }
    }
}

impl Standing {
    /// On which lists this entry stands as of the day `p`.
    pub(crate) fn of(entry: &Entry, p: Day) -> Standing
        ensures transit { result.transit ≡ day_where (is_in_transit p) booked_on entry.now }
        ensures out { result.out ≡ day_where (is_outstanding p) booked_on entry.now }
        ensures early { result.early ≡ day_where (is_banked_early p) banked_on entry.now }
        ensures back { result.back ≡ day_where (is_back_early p) back_on entry.now }
    {
        let days = &EntryDays::by(entry, p);
        let waiting = unless(unless(days.booked, days.undone), days.banked);
        let mut standing = Standing {
            transit: None,
            out: None,
            early: unless(days.banked, days.booked),
            back: unless(days.back, days.returned),
        };
        match entry {
            Entry::Deposit(_) => standing.transit = waiting,
            Entry::Payment(_) => standing.out = waiting,
            Entry::Fee(_) | Entry::Claim(_) => {}
        }
        standing
    }
}

/// Whether an entry is a deposit in transit as of a day: booked by then, and not at the bank yet.
pub fn is_in_transit(entry: &Entry, day: Day) -> bool
    ensures { result ≡ is_in_transit day entry.now }
{
    Standing::of(entry, day).transit.is_some()
}

/// Whether an entry is an outstanding payment as of a day: issued by then, and not at the bank yet.
pub fn is_outstanding(entry: &Entry, day: Day) -> bool
    ensures { result ≡ is_outstanding day entry.now }
{
    Standing::of(entry, day).out.is_some()
}

/// Appends an entry with this day, if there is one. There is room for it.
pub(crate) fn push_line(
    lines: &mut Vec<EntryLine>,
    matter: MatterNo,
    entry: EntryNo,
    day: Option<Day>,
    amount: i64,
)
    requires { vec_len lines.old < vec_capacity lines.old }
    ensures items { lines.new.items ≡ lines.old.items ++ entry_line matter entry day amount }
    ensures len { vec_len lines.new ≤ vec_len lines.old + 1 }
    ensures capacity { vec_capacity lines.new ≡ vec_capacity lines.old }
{
    if let Some(day) = day {
        lines.push_reserved(EntryLine {
            matter,
            entry,
            day,
            amount,
        });
    }
}

/// Appends the entry, if it is a payment issued on or before a day, and not voided by then.
pub(crate) fn push_issued(
    issued: &mut Vec<Issued>,
    p: Day,
    matter: MatterNo,
    number: EntryNo,
    entry: &Entry,
) -> Result<(), AllocError>
    ensures ok { OnOk result (issued.new.items ≡ issued.old.items ++ issued_in p (matter, EntryRow number entry.now)) }
    ensures err { OnErr result (issued.new.items ≡ issued.old.items) }
{
    let days = EntryDays::by(entry, p);
    let (Entry::Payment(payment), Some(day), None) = (entry, days.booked, days.undone) else {
        return Ok(());
    };
    let instrument = payment.instrument.copied()?;
    issued.push(Issued {
        matter,
        entry: number,
        day,
        amount: days.amount,
        instrument,
    })?;
    Ok(())
}

impl Issued {
    fn compare(&self, other: &Issued) -> Ordering
        ensures { result ≡ issued_cmp self.now other.now }
    {
        let by_instrument = self.instrument.as_slice().cmp(other.instrument.as_slice());
        let by_matter = self.matter.get().cmp(&other.matter.get());
        let by_entry = self.entry.get().cmp(&other.entry.get());
        by_instrument.then(by_matter.then(by_entry))
    }
}

// Whether a neighbour has the same instrument. In a sorted list, payments with the same instrument are next to each
// other.
fn is_double(sorted: &[Issued], place: usize) -> bool
    requires within { place < length sorted.now }
    requires order { IsSortedBy is_before_issued sorted.now }
    ensures { (d : Issued) → result ≡ is_double_in sorted.now (slice_index_or sorted.now place d) }
{
    let instrument = sorted[place].instrument.as_slice();
    if place > 0 && sorted[place - 1].instrument.as_slice() == instrument {
        return true;
    }
    place + 1 < sorted.len() && instrument == sorted[place + 1].instrument.as_slice()
}

/// The payments with the same instrument as another, sorted by instrument (byte by byte), matter and entry.
pub(crate) fn doubles_of(alloc: Global, issued: Vec<Issued>) -> Result<Vec<Issued>, AllocError>
    ensures { IfOk result (λ xs. xs.items ≡ doubles_in issued.items) }
{
    let mut all = issued;
    all.sort_by(|one, other| one.compare(other))?;
    let sorted = all.as_slice();
    let mut doubles = Vec::new(alloc);
    for place in 0..sorted.len() {
        let issued = &sorted[place];
        if is_double(sorted, place) {
            let instrument = issued.instrument.copied()?;
            doubles.push(Issued {
                matter: issued.matter,
                entry: issued.entry,
                day: issued.day,
                amount: issued.amount,
                instrument,
            })?;
        }
    }
    Ok(doubles)
}

// The latest closing dated before a day.
fn latest_before(day: Day, closings: &[BalanceRow]) -> Option<BalanceRow>
    ensures { AreClosings closings.now → result ≡ latest_before day closings.now }
{
    let passed = closings.partition_point(|closing| closing.day.get() < day.get());
    if passed == 0 {
        return None;
    }
    Some(closings[passed - 1])
}

/// The openings that differ from the latest closing before them, if the closings are in order of day.
pub(crate) fn openings_after(
    alloc: Global,
    closings: &[BalanceRow],
    openings: &[BalanceRow],
) -> Result<Vec<OpeningLine>, AllocError>
    ensures { AreClosings closings.now → IfOk result (λ lines. lines.items ≡ openings_after closings.now openings.now) }
{
    let mut lines = Vec::new(alloc);
    for opening in openings {
        match latest_before(opening.day, closings) {
            Some(closing) if opening.amount.get() != closing.amount.get() => {
                lines.push(OpeningLine {
                    day: opening.day,
                    amount: opening.amount,
                    after: closing.day,
                    closing: closing.amount,
                })?;
            }
            _ => {}
        }
    }
    Ok(lines)
}
