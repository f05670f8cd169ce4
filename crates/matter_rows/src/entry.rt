//! The entries of a matter, of all kinds.

ghost use Rattle.std.specs.Prelude.{◌≡◌, IfOk, ◌-◌, ◌<◌, ◌↔◌, IsTrue, true, ◌&&◌};
ghost use Rattle.matter_rows.specs.Shares.{shares_of, no_shares, worth, draw, target, AreSmallShares, IsSmallShare, number_or_none};
ghost use Rattle.matter_rows.specs.Events.{events_of, nth_moved};
ghost use Rattle.matter_rows.specs.Sound.{Sound, IsRanged, IsBy, IsRising, IsFundedInTime};
ghost use Rattle.matter_rows.specs.Clearings.{has_its_amount, is_return};
ghost use Rattle.matter_rows.specs.Rows.{book_day};
ghost use Rattle.matter_rows.specs.Balances.{is_settled, names};
ghost use Rattle.matter_rows.specs.SoundRows.{IsByIfClosed, IsSoundEntry};

use crate::claim::{Against, Claim, ClaimState};
use crate::deposit::{Deposit, DepositState};
use crate::fee::Fee;
use crate::head::Head;
use crate::movement::EntryMovement;
use crate::payment::{Fund, Payment, PaymentState};
use crate::shares::{Shares, no_shares};
use crate::soundness::is_up_to;
use std::alloc::AllocError;
use trust_base::{Day, EntryNo, Line};

/// An entry of a matter. In each kind, `book` is the day on which it was made.
#[derive(Drop)]
pub enum Entry {
    Deposit(Deposit),
    Payment(Payment),
    Fee(Fee),
    Claim(Claim),
}

impl Entry {
    /// A deep copy. The only error is out of memory.
    pub fn copied(&self) -> Result<Entry, AllocError>
        ensures { IfOk result (λ e. e ≡ self.now) }
    {
        match self {
            Entry::Deposit(d) => Ok(Entry::Deposit(d.restated(d.state.copied()?)?)),
            Entry::Payment(p) => Ok(Entry::Payment(p.restated(p.state.copied()?)?)),
            Entry::Fee(f) => Ok(Entry::Fee(f.copied()?)),
            Entry::Claim(c) => Ok(Entry::Claim(c.restated(c.state)?)),
        }
    }

    /// What the entry adds to each balance, in cents, and to the count of pending payments. No share is larger than
    /// twice the greatest amount, positive or negative.
    #[tactic(auto, unfolding(crate::proofs::Unfolded::shares_of_an_entry))]
    pub fn shares(&self) -> Shares
        ensures is { result ≡ shares_of self.now }
        ensures small { AreSmallShares result }
    {
        let mut shares = no_shares();
        match self {
            Entry::Deposit(d) => {
                let amount = d.amount.get() as i64;
                match &d.state {
                    DepositState::Held => shares.held = amount,
                    DepositState::Cleared(_) => shares.available = amount,
                    DepositState::Cancelled(_) | DepositState::Returned(_) => {}
                }
            }
            Entry::Payment(p) => {
                let amount = p.amount.get() as i64;
                let (paid, pending) = match &p.state {
                    PaymentState::Proposed => (0, 1),
                    PaymentState::Issued(_) => (amount, 1),
                    PaymentState::Cleared(_) => (amount, 0),
                    PaymentState::Declined | PaymentState::Voided(_) => (0, 0),
                };
                shares.pending = pending;
                match p.fund {
                    Fund::General => shares.available = -paid,
                    Fund::Fee(_) => shares.fees = -paid,
                    Fund::Claim(_) => shares.claims = -paid,
                }
            }
            Entry::Fee(f) => {
                let amount = f.amount.get() as i64;
                shares.available = -amount;
                shares.fees = amount;
            }
            Entry::Claim(c) => return c.shares(),
        }
        shares
    }

    #[tactic(auto, unfolding(crate::specs::Shares::worth))]
    /// What the entry is worth before other entries draw on it, in cents. For a fee, its amount. For a claim on the
    /// general fund, its amount while open, then the claimant's part. Otherwise 0.
    pub fn worth(&self) -> i64
        ensures is { result ≡ worth self.now }
        ensures small { IsSmallShare result }
    {
        match self {
            Entry::Fee(f) => f.amount.get() as i64,
            Entry::Claim(c) => match &c.against {
                Against::General(_) => c.to_claimant(),
                Against::Fee(_) => 0,
            },
            _ => 0,
        }
    }

    #[tactic(auto, unfolding(crate::specs::Shares::draw))]
    /// What the entry takes out of its fund, in cents. For a payment that is issued or cleared, its amount, whatever
    /// its fund. For a claim on a fee, its amount while open, then the client's part. Otherwise 0.
    pub fn draw(&self) -> i64
        ensures is { result ≡ draw self.now }
        ensures small { IsSmallShare result }
    {
        match self {
            Entry::Payment(p) => match &p.state {
                PaymentState::Issued(_) | PaymentState::Cleared(_) => p.amount.get() as i64,
                PaymentState::Proposed | PaymentState::Declined | PaymentState::Voided(_) => 0,
            },
            Entry::Claim(c) => match &c.against {
                Against::General(_) => 0,
                Against::Fee(_) => c.off_fee(),
            },
            _ => 0,
        }
    }

    /// The entry that this one draws on.
    pub fn target(&self) -> Option<EntryNo>
        ensures { number_or_none result ≡ target self.now }
    {
        match self {
            Entry::Payment(p) => match p.fund {
                Fund::General => None,
                Fund::Fee(number) | Fund::Claim(number) => Some(number),
            },
            Entry::Claim(c) => match &c.against {
                Against::General(_) => None,
                Against::Fee(number) => Some(*number),
            },
            _ => None,
        }
    }

    /// Movement `place`, counted from 0, of the entry, which has this number.
    #[tactic(auto, unfolding(crate::specs::Events::events_of))]
    pub fn event(&self, number: EntryNo, place: usize) -> Option<EntryMovement>
        ensures { result ≡ nth_moved number place (events_of self.now) }
    {
        let movement = |day: Day, amount: i64| {
            Some(EntryMovement {
                entry: number,
                day,
                amount,
            })
        };
        match self {
            Entry::Deposit(d) => {
                let amount = d.amount.get() as i64;
                match &d.state {
                    _ if place == 0 => movement(d.book, amount),
                    DepositState::Cancelled(day) if place == 1 => movement(*day, -amount),
                    DepositState::Returned(r) if place == 1 => movement(r.undone, -amount),
                    _ => None,
                }
            }
            Entry::Payment(p) => {
                let amount = p.amount.get() as i64;
                match &p.state {
                    PaymentState::Issued(day) if place == 0 => movement(*day, -amount),
                    PaymentState::Cleared(c) if place == 0 => movement(c.issued, -amount),
                    PaymentState::Voided(v) if place == 0 => movement(v.issued, -amount),
                    PaymentState::Voided(v) if place == 1 => movement(v.undone, amount),
                    _ => None,
                }
            }
            _ => None,
        }
    }

    /// Whether the line takes the entry back: the entry is a cleared deposit, and the line has the negative of its
    /// amount.
    pub fn is_return(&self, line: &Line) -> bool
        ensures { result ≡ is_return (Some self.now) line.now }
    {
        match self {
            Entry::Deposit(deposit) => {
                matches!(deposit.state, DepositState::Cleared(_)) && deposit.has_amount_back(line)
            }
            Entry::Payment(_) | Entry::Fee(_) | Entry::Claim(_) => false,
        }
    }

    /// Whether the line has the amount that clears the entry: positive for a deposit, negative for a payment.
    pub fn has_its_amount(&self, line: &Line) -> bool
        ensures { result ≡ has_its_amount self.now line.now }
    {
        match self {
            Entry::Deposit(deposit) => deposit.amount.get() as i64 == line.amount.get(),
            Entry::Payment(payment) => -(payment.amount.get() as i64) == line.amount.get(),
            Entry::Fee(_) | Entry::Claim(_) => line.amount.get() == 0,
        }
    }

    // Whether it is a settled claim on the general fund.
    pub(crate) fn is_settled(&self) -> bool
        ensures { result ≡ is_settled self.now }
    {
        match self {
            Entry::Claim(claim) => match (&claim.against, &claim.state) {
                (Against::General(_), ClaimState::Settled(_)) => true,
                (Against::General(_), ClaimState::Open | ClaimState::Offered(_)) => false,
                (Against::Fee(_), _) => false,
            },
            Entry::Deposit(_) | Entry::Payment(_) | Entry::Fee(_) => false,
        }
    }

    // Whether a claim's client part is at most its amount. The type already keeps the amount in range.
    fn is_ranged(&self) -> bool
        ensures { IsTrue result ↔ IsRanged self.now }
    {
        match self {
            Entry::Deposit(deposit) => {
                let _amount = deposit.amount.get();
                true
            }
            Entry::Payment(payment) => {
                let _amount = payment.amount.get();
                true
            }
            Entry::Fee(fee) => {
                let _amount = fee.amount.get();
                true
            }
            Entry::Claim(claim) => claim.state.part() <= claim.amount.get(),
        }
    }

    // Whether every entry that it names exists and is of the required kind.
    #[tactic(auto, unfolding(crate::specs::Balances::names))]
    fn names(&self, entries: &[Entry]) -> bool
        ensures { result ≡ names entries.now self.now }
    {
        match self {
            Entry::Payment(payment) => payment.fund.is_in(entries),
            Entry::Claim(claim) => claim.against.is_in(entries),
            Entry::Deposit(_) | Entry::Fee(_) => true,
        }
    }

    // Whether none of its days is after `day`.
    #[tactic(auto, unfolding(crate::specs::Sound::days_of))]
    fn is_by(&self, day: Day) -> bool
        ensures { IsTrue result ↔ IsBy day self.now }
    {
        match self {
            Entry::Deposit(deposit) => is_up_to(deposit.book, day) && deposit.state.is_by(day),
            Entry::Payment(payment) => is_up_to(payment.book, day) && payment.state.is_by(day),
            Entry::Fee(fee) => is_up_to(fee.book, day),
            Entry::Claim(claim) => is_up_to(claim.book, day) && claim.state.is_by(day),
        }
    }

    // Whether none of its days is after the matter was closed.
    fn is_by_close(&self, closed: Option<Day>) -> bool
        ensures { IsTrue result ↔ IsByIfClosed closed self.now }
    {
        match closed {
            None => true,
            Some(day) => self.is_by(day),
        }
    }

    // Whether its changes are in order of day.
    fn is_rising(&self) -> bool
        ensures { IsTrue result ↔ IsRising self.now }
    {
        match self {
            Entry::Deposit(deposit) => deposit.state.is_rising(deposit.book),
            Entry::Payment(payment) => payment.state.is_rising(payment.book),
            Entry::Fee(_) => true,
            Entry::Claim(claim) => claim.state.is_rising(claim.book),
        }
    }

    // Whether, if it is a payment from a claim, it is booked on or after the day the claim was settled.
    fn is_funded_in_time(&self, entries: &[Entry]) -> bool
        ensures { IsTrue result ↔ IsFundedInTime entries.now self.now }
    {
        match self {
            Entry::Payment(payment) => payment.fund.is_ready_by(entries, payment.book),
            Entry::Deposit(_) | Entry::Fee(_) | Entry::Claim(_) => true,
        }
    }

    // Whether it is an entry of a sound matter with this head and these entries.
    pub(crate) fn is_sound(&self, head: &Head, entries: &[Entry]) -> bool
        ensures { IsTrue result ↔ IsSoundEntry head.now entries.now self.now }
    {
        self.is_ranged()
            && self.names(entries)
            && self.is_by(head.last)
            && self.is_by_close(head.closed)
            && self.is_rising()
            && self.is_funded_in_time(entries)
    }

    // The day on which it was made.
    pub(crate) fn book(&self) -> Day
        ensures { result ≡ book_day self.now }
    {
        match self {
            Entry::Deposit(deposit) => deposit.book,
            Entry::Payment(payment) => payment.book,
            Entry::Fee(fee) => fee.book,
            Entry::Claim(claim) => claim.book,
        }
    }
}
