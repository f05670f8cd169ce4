//! Claims: their states, and what they keep apart.

ghost use Rattle.std.specs.Prelude.{◌≡◌, IfOk, ◌+◌, ◌-◌, ◌<◌, ◌≤◌, ◌≤ℤ◌, ◌-ℤ◌, ◌+ℤ◌, pos, true, None, Some, ◌++◌, ◌↔◌, ◌&&◌, IsTrue};
ghost use Rattle.std.specs.List.{AllByRecursion};
ghost use Rattle.matter_rows.specs.Shares.{shares_of, no_shares, worth, AreSmallShares, IsSmallShare, to_claimant, apart, to_client, off_fee, number_or_none, against_no};
ghost use Rattle.matter_rows.specs.Rows.{is_same_against};
ghost use Rattle.matter_rows.specs.Balances.{is_against};
ghost use Rattle.matter_rows.specs.Sound.{part_of, claim_days, AreRising, day_settled};
ghost use Rattle.trust_base.specs.TheConstants.{MAX_AMOUNT};

use crate::entry::Entry;
use crate::fee::Fee;
use crate::shares::{Shares, no_shares};
use crate::soundness::{has_fee, is_up_to};
use std::alloc::AllocError;
use trust_base::{Cents, CentsOrZero, Day, EntryNo, Label};

/// What a claim is on: the general fund, for a named claimant, or a fee.
#[derive(Drop)]
pub enum Against {
    General(Label),
    Fee(EntryNo),
}

impl Against {
    /// A deep copy. The only error is out of memory.
    pub fn copied(&self) -> Result<Against, AllocError>
        ensures { IfOk result (λ a. a ≡ self.now) }
    {
        match self {
            Against::General(claimant) => Ok(Against::General(claimant.copied()?)),
            Against::Fee(number) => Ok(Against::Fee(*number)),
        }
    }

    /// The fee's number, if it is a fee.
    pub fn number(&self) -> Option<EntryNo>
        ensures { number_or_none result ≡ against_no self.now }
    {
        match self {
            Against::General(_) => None,
            Against::Fee(number) => Some(*number),
        }
    }

    /// Whether both are the same fee, or both the general fund for the same claimant.
    pub fn is_same(&self, other: &Against) -> bool
        ensures { result ≡ is_same_against self.now other.now }
    {
        match self {
            Against::General(claimant) => match other {
                Against::General(another) => claimant.is_same(another),
                Against::Fee(_) => false,
            },
            Against::Fee(fee) => match other {
                Against::General(_) => false,
                Against::Fee(another) => fee.get() == another.get(),
            },
        }
    }

    // Whether the fee that it names, if any, is among the entries.
    pub(crate) fn is_in(&self, entries: &[Entry]) -> bool
        ensures { result ≡ is_against entries.now self.now }
    {
        match self {
            Against::General(_) => true,
            Against::Fee(number) => has_fee(entries, *number),
        }
    }
}

/// How a claim ended: on which day, and how much of its amount went to the client.
#[derive(Clone, Copy)]
pub struct Settlement {
    pub day: Day,
    pub part: CentsOrZero,
}

/// A claim is open, with or without an offer to the client, until it is settled.
#[derive(Clone, Copy)]
pub enum ClaimState {
    Open,
    Offered(CentsOrZero),
    Settled(Settlement),
}

impl ClaimState {
    // The client's part in cents, offered or settled.
    pub(crate) fn part(&self) -> u64
        ensures { result ≡ part_of self.now }
    {
        match self {
            ClaimState::Open => 0,
            ClaimState::Offered(part) => part.get(),
            ClaimState::Settled(settlement) => settlement.part.get(),
        }
    }

    pub(crate) fn is_by(&self, day: Day) -> bool
        ensures { IsTrue result ↔ AllByRecursion (λ d. d ≤ day) (claim_days self.now) }
    {
        match self {
            ClaimState::Open | ClaimState::Offered(_) => true,
            ClaimState::Settled(settlement) => is_up_to(settlement.day, day),
        }
    }

    pub(crate) fn is_rising(&self, book: Day) -> bool
        ensures { IsTrue result ↔ AreRising book (claim_days self.now) }
    {
        match self {
            ClaimState::Open | ClaimState::Offered(_) => true,
            ClaimState::Settled(settlement) => is_up_to(book, settlement.day),
        }
    }

    // Whether the claim was settled on or before the day. True if it is not settled.
    pub(crate) fn is_ready_by(&self, day: Day) -> bool
        ensures { IsTrue result ↔ (day_settled self.now ≤ day) }
    {
        match self {
            ClaimState::Open | ClaimState::Offered(_) => true,
            ClaimState::Settled(settlement) => is_up_to(settlement.day, day),
        }
    }
}

/// Money in dispute, kept apart until the claim is settled (ABA Model Rule 1.15(e)).
#[derive(Drop)]
pub struct Claim {
    pub book: Day,
    pub amount: Cents,
    pub against: Against,
    pub reason: Label,
    pub state: ClaimState,
}

impl Claim {
    /// The claim in another state, as a deep copy. The only error is out of memory.
    pub fn restated(&self, state: ClaimState) -> Result<Claim, AllocError>
        ensures { IfOk result (λ c. c ≡ record self.now { state = state }) }
    {
        Ok(Claim {
            against: self.against.copied()?,
            reason: self.reason.copied()?,
            state,
            ..*self
        })
    }

    fn apart(&self) -> i64
        ensures is { result ≡ apart self.now.state self.now.amount }
        ensures low { pos 0 ≤ℤ result }
        ensures high { result ≤ℤ pos MAX_AMOUNT }
    {
        let amount = self.amount.get() as i64;
        match self.state {
            ClaimState::Settled(_) => 0,
            _ => amount,
        }
    }

    fn to_client(&self) -> i64
        ensures is { result ≡ to_client self.now.state }
        ensures low { pos 0 ≤ℤ result }
        ensures high { result ≤ℤ pos MAX_AMOUNT }
    {
        match self.state {
            ClaimState::Settled(s) => s.part.get() as i64,
            _ => 0,
        }
    }

    pub(crate) fn off_fee(&self) -> i64
        ensures is { result ≡ off_fee self.now.state self.now.amount }
        ensures small { IsSmallShare result }
    {
        self.apart() + self.to_client()
    }

    pub(crate) fn to_claimant(&self) -> i64
        ensures is { result ≡ to_claimant self.now.state self.now.amount }
        ensures small { IsSmallShare result }
    {
        let amount = self.amount.get() as i64;
        match self.state {
            ClaimState::Settled(s) => amount - s.part.get() as i64,
            _ => amount,
        }
    }

    // What the claim adds to each balance.
    #[tactic(auto, unfolding(crate::proofs::Unfolded::shares_of_an_entry))]
    pub(crate) fn shares(&self) -> Shares
        ensures is { result ≡ shares_of (Entry.Claim self.now) }
        ensures small { AreSmallShares result }
    {
        let none = no_shares();
        match &self.against {
            Against::General(_) => {
                let worth = self.to_claimant();
                Shares {
                    available: -worth,
                    claims: worth,
                    ..none
                }
            }
            Against::Fee(_) => {
                let apart = self.apart();
                let to_client = self.to_client();
                Shares {
                    available: to_client,
                    disputed: apart,
                    fees: -self.off_fee(),
                    ..none
                }
            }
        }
    }
}
