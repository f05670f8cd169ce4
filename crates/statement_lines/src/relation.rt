// Relations between the entries of a book and a line of a statement.

ghost use Rattle.std.specs.Prelude.{◌≡◌};
ghost use Rattle.statement_lines.specs.EntryStates.{is_cleared as is_cleared_state, is_held as is_held_state};
ghost use Rattle.statement_lines.specs.EntryStates.{is_held_on as is_held_on_day, is_waiting as is_waiting_state};
ghost use Rattle.statement_lines.specs.Relations.{has_amount_back as has_amount_back_of, has_its_amount};
ghost use Rattle.statement_lines.specs.Relations.{may_be_returned, names, stands as stands_so};

use crate::book_entry::{BookEntry, EntryState};
use crate::statement_line::StatementLine;
use trust_base::{Day, Line};

/// A relation of a deposit or a payment to a line.
#[derive(Clone, Copy)]
pub enum Relation {
    /// It waits, and the line fits it.
    Fitted,
    /// It does not wait, and the line has its amount and shows it.
    NotWaiting,
    /// It waits, and the line has its amount and shows it, but is dated before it was issued.
    IssuedAfter,
    /// It waits, and the line shows it, but has another amount.
    OfAnotherAmount,
    /// It waits, and the line has its amount.
    OfItsAmount,
    /// It is a cleared deposit, and its amount went out with the line.
    MaybeReturned,
    /// The line has its reference.
    Named,
    /// The line has its reference, and is in the book for it already.
    NamedAgain,
    /// The line has its reference, and an amount that no line for it has.
    NamedOfAnotherAmount,
    /// It is a waiting deposit that was booked on the day with this number.
    HeldOn(u32),
}

impl EntryState {
    /// Whether it is the state of an entry that waits for the bank.
    pub fn is_waiting(self) -> bool
        ensures { result ≡ is_waiting_state self }
    {
        matches!(self, EntryState::Held | EntryState::Issued)
    }

    /// Whether it is the state of a waiting deposit.
    pub fn is_held(self) -> bool
        ensures { result ≡ is_held_state self }
    {
        matches!(self, EntryState::Held)
    }

    // Whether it is the state of an entry that the bank cleared.
    fn is_cleared(self) -> bool
        ensures { result ≡ is_cleared_state self }
    {
        matches!(self, EntryState::Cleared)
    }
}

impl BookEntry {
    /// Whether it is a waiting deposit that was booked on the day with this number.
    pub(crate) fn is_held_on(&self, day: u32) -> bool
        ensures { result ≡ is_held_on_day day self.now }
    {
        self.state.is_held() && self.day.get() == day
    }

    /// Whether a line has its reference.
    pub fn is_named_by(&self, line: &Line) -> bool
        ensures { result ≡ names line.now self.now }
    {
        line.reference.is_same(&self.entry.reference)
    }

    /// Whether a line has the amount of the line that clears it.
    pub fn has_amount_of(&self, line: &Line) -> bool
        ensures { result ≡ has_its_amount line.now self.now }
    {
        line.amount.get() == self.entry.amount
    }

    // Whether its amount, as a deposit, went out with a line.
    fn has_amount_back(&self, line: &Line) -> bool
        ensures { result ≡ has_amount_back_of line.now self.now }
    {
        let amount = line.amount.get();
        amount < 0 && -amount == self.entry.amount
    }

    /// Whether it is a cleared deposit whose amount went out with a line.
    pub fn may_be_returned_by(&self, line: &Line) -> bool
        ensures { result ≡ may_be_returned line.now self.now }
    {
        self.has_amount_back(line) && self.state.is_cleared()
    }
}

impl Relation {
    #[tactic(auto, unfolding(crate::specs::Relations::stands))]
    /// Whether an entry is in this relation to a line on a business day.
    pub fn holds(self, today: Day, line: &StatementLine, entry: &BookEntry) -> bool
        ensures { result ≡ stands_so self today line.now entry.now }
    {
        let waits = entry.state.is_waiting();
        let plain = line.line();
        let has_amount = entry.has_amount_of(plain);
        match self {
            Relation::Fitted => waits && line.fits(today, &entry.entry),
            Relation::NotWaiting => !waits && has_amount && line.shows(&entry.entry),
            Relation::IssuedAfter => {
                waits
                    && has_amount
                    && plain.date.get() < entry.entry.since
                    && line.shows(&entry.entry)
            }
            Relation::OfAnotherAmount => waits && !has_amount && line.shows(&entry.entry),
            Relation::OfItsAmount => waits && has_amount,
            Relation::MaybeReturned => entry.may_be_returned_by(plain),
            Relation::Named => entry.is_named_by(plain),
            Relation::NamedAgain => entry.is_named_by(plain) && entry.bookings.has(plain),
            Relation::NamedOfAnotherAmount => {
                entry.is_named_by(plain) && (!has_amount && !entry.has_amount_back(plain))
            }
            Relation::HeldOn(day) => entry.is_held_on(day),
        }
    }
}
