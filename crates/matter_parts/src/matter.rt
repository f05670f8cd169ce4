//! A matter in memory: its head, seats and totals, and those of its entries that are loaded.

ghost use Rattle.std.specs.Prelude.{◌≡◌, ℕ, ◌+◌, ◌<◌, ◌≤◌, ◌++◌, ◌∷◌, [], true, false, find, is_some, None, pos, nat_lt, IfSome, IfOk, OnOk, OnErr, MatchOption, ◌↔◌, All, IsOk, IfErr, ◌&&◌, not};
ghost use Rattle.std.specs.Option.{option_copied};
ghost use Rattle.matter_rows.specs.Rows.{Rows, is_purged, is_gone, unopened, role_in, last_of, closed_on, next_number, seats_with, seats_without, has_other_lawyer, is_number, seen_on, closed_head, purged_head, entry_amount};
ghost use Rattle.matter_rows.specs.Shares.{number_or_none};
ghost use Rattle.matter_rows.specs.declared.limits.TheConstants.{MAX_TOTAL};
ghost use Rattle.matter_rows.specs.Sound.{Sound, AreInOrder};
ghost use Rattle.matter_rows.specs.Balances.{exceeds};
ghost use Rattle.matter_parts.specs.NamedEntries.{has_number};
ghost use Rattle.matter_parts.specs.Parts.{Part, no_figures, IsPart, IsWhole, HoldsOn, kept_at, is_held, is_named, named_part, target_by, AreSmall, AreInRange, is_held_or_none};
ghost use Rattle.matter_parts.specs.Changes.{IsChange, AreSmallTotals, changed};
ghost use Rattle.matter_parts.specs.Applied.{IsWritten};

use crate::change::{Change, TotalsAfter};
use crate::edit::{Edit, Numbered, Opening};
use crate::figures::{Figures, are_small};
use crate::kept::{Kept, KeptEntries, are_small_lefts, found, kept_copied, kept_of, put, set_left};
use crate::named_entries::NamedEntries;
use matter_rows::{
    Entry, Head, Holder, Role, Seat, add_seat, close_on, drop_seat, has_other_lawyer, head_copied,
    purge_on, role_of, seats_copied, see_on,
};
use std::alloc::{AllocError, Global};
use std::marker::Model;
use trust_base::{Day, EntryNo, MAX_ENTRY, PersonId, StoreFault};

/// A matter, with its head, its seats, its totals and its loaded entries.
///
/// Contracts see it as a part of its rows.
pub struct Matter {
    head: Option<Head>,
    seats: Vec<Seat>,
    figures: Figures,
    kept: KeptEntries,
}

// Written by hand, so that a function that holds a matter makes one call at each exit.
impl Drop for Matter {
    fn drop(self) {
        let Matter {
            head: _head,
            seats: _seats,
            figures: _figures,
            kept: _kept,
        } = self;
    }
}

impl Model for Matter {
    ghost use Rattle.matter_parts.specs.Parts.{Part, AreInRange};

    ghost Value = { Part };

    ghost view = { λ m. record { head = m.head; seats = m.seats.items; figures = m.figures; kept = m.kept } };

    ghost invariant = { λ m. AreInRange m.figures m.kept };
}

impl Matter {
    /// A matter that was never opened. Allocates nothing.
    pub fn unopened(alloc: Global) -> Matter
        ensures { IsWhole result unopened }
    {
        Matter {
            head: None,
            seats: Vec::new(alloc),
            figures: Figures::none(),
            kept: KeptEntries::none(alloc),
        }
    }

    // A matter of these parts.
    pub(crate) fn made(
        head: Option<Head>,
        seats: Vec<Seat>,
        figures: Figures,
        kept: KeptEntries,
    ) -> Matter
        requires { AreInRange figures kept }
        ensures { result ≡ record { head = head; seats = seats.items; figures = figures; kept = kept } }
    {
        Matter {
            head,
            seats,
            figures,
            kept,
        }
    }

    /// The head that the matter was opened with, if it was.
    pub fn head(&self) -> Option<&Head>
        ensures { option_copied result ≡ self.now.head }
    {
        self.head.as_ref()
    }

    /// The seats, sorted by the bytes of the person.
    pub fn seats(&self) -> &[Seat]
        ensures { result.now ≡ self.now.seats }
    {
        self.seats.as_slice()
    }

    /// The totals and counts.
    pub fn figures(&self) -> Figures
        ensures is { result ≡ self.now.figures }
        ensures small { AreSmall result }
    {
        self.figures
    }

    /// Whether the entry is loaded or does not exist. Allocates nothing.
    pub fn holds(&self, number: EntryNo) -> bool
        ensures { result ≡ is_held self.now number }
    {
        self.find(number).is_some() || self.figures.entries < number.get() as u64
    }

    /// Returns the entry with this number, if it is loaded.
    pub fn find(&self, number: EntryNo) -> Option<&Kept>
        ensures is { option_copied result ≡ kept_at self.now number }
        ensures small { IfSome result (λ k. k.now.left ≤ MAX_TOTAL) }
    {
        found(&self.kept, number.get())
    }

    /// The loaded entries. A whole matter has all of them, in the order of their numbers.
    pub fn kept(&self) -> &[Kept]
        ensures { result.now ≡ self.now.kept }
    {
        self.kept.as_slice()
    }

    // Returns the entry that a loaded entry draws on.
    fn target_by(&self, named: &Option<EntryNo>) -> Option<EntryNo>
        ensures { number_or_none result ≡ target_by self.now named.now }
    {
        let number = (*named)?;
        let kept = self.find(number)?;
        kept.entry.target()
    }

    // Two entries, and the one that each draws on.
    fn named(&self, first: &Option<EntryNo>, second: &Option<EntryNo>) -> NamedEntries
        ensures { (n : ℕ) → has_number result n ≡ is_named self.now first.now second.now n }
    {
        NamedEntries {
            first: *first,
            second: *second,
            under_first: self.target_by(first),
            under_second: self.target_by(second),
        }
    }

    /// A copy with the same loaded entries. The only error is out of memory.
    pub fn copied(&self, alloc: Global) -> Result<Matter, AllocError>
        ensures { IfOk result (λ m. m ≡ self.now) }
    {
        let figures = self.figures;
        let kept = kept_copied(alloc, &self.kept)?;
        let head = head_copied(self.head())?;
        let seats = seats_copied(alloc, self.seats())?;
        Ok(Matter::made(head, seats, figures, kept))
    }

    /// A copy that keeps, of the loaded entries, only two and the ones that these draw on. The only error is out of
    /// memory.
    pub fn part(
        &self,
        alloc: Global,
        entry: Option<EntryNo>,
        of: Option<EntryNo>,
    ) -> Result<Matter, AllocError>
        ensures is { IfOk result (λ m. m ≡ named_part self.now entry of) }
        // It is a part of all rows that this matter is a part of.
        ensures part { IfOk result (λ m. (rows : Rows) → IsPart self.now rows → IsPart m rows) }
        // A named entry that was loaded or does not exist is so in the copy.
        ensures held { IfOk result (λ m. (n : ℕ) → is_named self.now entry of n ≡ true → is_held self.now n ≡ true
            → is_held m n ≡ true) }
        // No other entry is loaded.
        ensures only { IfOk result (λ m. (n : ℕ) → is_named self.now entry of n ≡ false → kept_at m n ≡ None) }
    {
        let figures = self.figures;
        let named = self.named(&entry, &of);
        let kept = kept_of(alloc, &self.kept, named)?;
        let head = head_copied(self.head())?;
        let seats = seats_copied(alloc, self.seats())?;
        Ok(Matter::made(head, seats, figures, kept))
    }

    /// Returns the role of a person, if the person has a seat.
    pub fn role_of(&self, person: &PersonId) -> Option<Role>
        ensures { result ≡ role_in self.now.seats person.now }
    {
        role_of(&self.seats, person)
    }

    /// Whether another person has a lawyer's seat.
    pub fn has_other_lawyer(&self, person: &PersonId) -> bool
        ensures { result ≡ has_other_lawyer self.now.seats person.now }
    {
        has_other_lawyer(&self.seats, person)
    }

    /// Whether the matter was purged.
    pub fn is_purged(&self) -> bool
        ensures { result ≡ is_purged self.now.head }
    {
        match &self.head {
            None => false,
            Some(head) => matches!(head.holder, Holder::Purged(_)),
        }
    }

    /// Whether the matter was never opened, or was purged.
    pub fn is_gone(&self) -> bool
        ensures { result ≡ is_gone self.now.head }
    {
        match &self.head {
            None => true,
            Some(head) => matches!(head.holder, Holder::Purged(_)),
        }
    }

    /// Whether the matter was closed.
    pub fn is_closed(&self) -> bool
        ensures { result ≡ is_some (closed_on self.now.head) }
    {
        match &self.head {
            None => false,
            Some(head) => head.closed.is_some(),
        }
    }

    /// Returns the day on which the matter was closed, if it was.
    pub fn closed_on(&self) -> Option<Day>
        ensures { result ≡ closed_on self.now.head }
    {
        match &self.head {
            None => None,
            Some(head) => head.closed,
        }
    }

    /// Returns the last day, if `day` is before it.
    pub fn last_if_after(&self, day: Day) -> Option<Day>
        ensures { MatchOption result (nat_lt day (last_of self.now.head) ≡ false)
            (λ last. (nat_lt day (last_of self.now.head) ≡ true) × (last ≡ last_of self.now.head)) }
    {
        match &self.head {
            None => None,
            Some(head) => {
                if day.get() < head.last.get() {
                    Some(head.last)
                } else {
                    None
                }
            }
        }
    }

    /// Returns the number of the next entry; `None` after 9999.
    pub fn next_number(&self) -> Option<EntryNo>
        ensures { result ≡ next_number self.now.figures.entries }
    {
        if self.figures.entries < MAX_ENTRY as u64 {
            EntryNo::from_number((self.figures.entries + 1) as u16)
        } else {
            None
        }
    }

    /// Whether this is the number of the next entry.
    pub fn is_next(&self, number: EntryNo) -> bool
        ensures { result ≡ is_number (next_number self.now.figures.entries) number }
    {
        self.figures.entries < MAX_ENTRY as u64 && number.get() as u64 == self.figures.entries + 1
    }

    /// Makes a change. If memory runs out, the matter is unchanged.
    pub fn apply(&mut self, change: &Change) -> Result<(), AllocError>
        // If the matter was a part of rows and this is a change of them, it is a part of the rows after the change.
        ensures ok { OnOk result ((rows : Rows) → Sound rows → IsPart self.old rows → IsChange rows change.now
            → IsPart self.new (changed change.now rows)) }
        ensures held { OnOk result ((rows : Rows) → Sound rows → IsPart self.old rows → IsChange rows change.now
            → HoldsOn self.old self.new) }
        // A matter that has loaded all entries still has all of them.
        ensures whole { OnOk result ((rows : Rows) → Sound rows → IsWhole self.old rows → IsChange rows change.now
            → IsWhole self.new (changed change.now rows)) }
        ensures err { OnErr result (self.new ≡ self.old) }
    {
        match change.edit() {
            Edit::Nothing => Ok(()),
            Edit::Open(opening) => self.open(opening),
            Edit::Seat(seat) => self.seat(seat, change.last()),
            Edit::Unseat(person) => {
                self.unseat(person, change.last());
                Ok(())
            }
            Edit::Close(day) => {
                self.close(*day, change.last());
                Ok(())
            }
            Edit::Purge(day) => {
                self.purge(*day, change.last());
                Ok(())
            }
            Edit::Append(added) => self.keep(added, change.moves(), change.last()),
            Edit::Exchange(changed) => self.keep(changed, change.moves(), change.last()),
        }
    }

    // Sets the head and the first seat.
    fn open(&mut self, opening: &Opening) -> Result<(), AllocError>
        ensures ok { OnOk result (self.new
            ≡ record self.old { head = Some opening.now.head; seats = self.old.seats ++ opening.now.seat ∷ [] }) }
        ensures err { OnErr result (self.new ≡ self.old) }
    {
        let head = opening.head.copied()?;
        let seat = opening.seat.copied()?;
        self.seats.push(seat)?;
        self.head = Some(head);
        Ok(())
    }

    // Adds a seat.
    fn seat(&mut self, seat: &Seat, last: Day) -> Result<(), AllocError>
        ensures ok { OnOk result (self.new
            ≡ record self.old { head = seen_on self.old.head last; seats = self.new.seats }) }
        ensures seats { OnOk result (AreInOrder self.old.seats → role_in self.old.seats seat.now.person ≡ None
            → self.new.seats ≡ seats_with self.old.seats seat.now) }
        ensures err { OnErr result (self.new ≡ self.old) }
    {
        let seat = seat.copied()?;
        add_seat(&mut self.seats, seat)?;
        see_on(&mut self.head, last);
        Ok(())
    }

    // Removes a seat.
    fn unseat(&mut self, person: &PersonId, last: Day)
        ensures { self.new
            ≡ record self.old { head = seen_on self.old.head last; seats = seats_without self.old.seats person.now } }
    {
        drop_seat(&mut self.seats, person);
        see_on(&mut self.head, last);
    }

    // Removes everything but the stub of the head.
    fn purge(&mut self, day: Day, last: Day)
        ensures { self.new
            ≡ record { head = purged_head self.old.head day last; seats = []; figures = no_figures; kept = [] } }
    {
        purge_on(&mut self.head, day, last);
        self.seats.clear();
        self.figures = Figures::none();
        self.kept.clear();
    }

    // Closes the matter on a day.
    fn close(&mut self, day: Day, last: Day)
        ensures { self.new ≡ record self.old { head = closed_head self.old.head day last } }
    {
        close_on(&mut self.head, day, last);
    }

    // Stores an entry, what is left of it and of the one that it names, and new totals.
    fn keep(&mut self, entry: &Numbered, moves: TotalsAfter, last: Day) -> Result<(), AllocError>
        requires { AreSmallTotals moves }
        ensures ok { OnOk result (IsWritten self.old entry.now moves last self.new) }
        ensures err { OnErr result (self.new ≡ self.old) }
    {
        let copy = entry.entry.copied()?;
        let kept = Kept {
            number: entry.number,
            left: moves.left,
            entry: copy,
        };
        put(&mut self.kept, kept)?;
        set_left(&mut self.kept, moves.other);
        self.figures = moves.figures;
        see_on(&mut self.head, last);
        Ok(())
    }

    /// The matter of stored figures: a head, seats, totals and counts, and some of the entries, each with what is left
    /// of it. Returns `Store` exactly if a total or what is left is above the greatest total, or a count is above its
    /// own range.
    pub fn of_part(
        head: Option<Head>,
        seats: Vec<Seat>,
        figures: Figures,
        kept: Vec<Kept>,
    ) -> Result<Matter, StoreFault>
        ensures ok { IfOk result (λ m. m
            ≡ record { head = head; seats = seats.items; figures = figures; kept = kept.items }) }
        ensures in_range { IsOk result ↔ (AreSmall figures × All (λ k. k.left ≤ MAX_TOTAL) kept.items) }
        ensures store { IfErr result (λ f. f ≡ StoreFault.Store) }
    {
        if !are_small(&figures) || !are_small_lefts(kept.as_slice()) {
            return Err(StoreFault::Store);
        }
        Ok(Matter::made(head, seats, figures, KeptEntries::some(kept)))
    }

    /// Whether the entry is loaded or does not exist. True if there is no number.
    pub fn holds_or_none(&self, number: Option<EntryNo>) -> bool
        ensures { result ≡ is_held_or_none self.now (number_or_none number) }
    {
        match number {
            None => true,
            Some(number) => self.holds(number),
        }
    }

    /// Returns the loaded entry with this number, if there is one. No entry has number 0.
    pub fn kept_under(&self, number: Option<EntryNo>) -> Option<&Kept>
        ensures { option_copied result ≡ kept_at self.now (number_or_none number) }
    {
        match number {
            None => found(&self.kept, 0),
            Some(number) => found(&self.kept, number.get()),
        }
    }

    /// Whether the available money covers the entry's amount.
    pub fn covers(&self, entry: &Entry) -> bool
        ensures { result ≡ not (exceeds (entry_amount entry.now) (pos self.now.figures.available)) }
    {
        let amount = match entry {
            Entry::Deposit(deposit) => deposit.amount.get(),
            Entry::Payment(payment) => payment.amount.get(),
            Entry::Fee(fee) => fee.amount.get(),
            Entry::Claim(claim) => claim.amount.get(),
        };
        amount <= self.figures().available
    }
}
