//! What a change is remembered as: who did what, on which business day.

ghost use Rattle.std.specs.Prelude.{◌≡◌, IfOk};

use crate::seat::Seat;
use std::alloc::AllocError;
use trust_base::{CentsOrZero, Day, EntryNo, PersonId};

/// The cashier of the firm, or a person by name.
#[derive(Drop)]
pub enum Caller {
    Cashier,
    Person(PersonId),
}

impl Caller {
    /// A deep copy. The only error is out of memory.
    pub fn copied(&self) -> Result<Caller, AllocError>
        ensures { IfOk result (λ c. c ≡ self.now) }
    {
        match self {
            Caller::Cashier => Ok(Caller::Cashier),
            Caller::Person(person) => Ok(Caller::Person(person.copied()?)),
        }
    }
}

/// What was done, without what the rows say. There is no deed of a purge, which leaves no records.
pub enum Deed {
    /// The matter was opened, with this person as its first lawyer.
    Opened(PersonId),
    /// A person was given a seat.
    Seated(Seat),
    /// A person's seat was removed.
    Unseated(PersonId),
    /// The matter was closed.
    Closed,
    /// A deposit was booked.
    Deposited,
    /// A held deposit was cancelled.
    Cancelled,
    /// A bank line cleared a deposit or a payment.
    Cleared,
    /// A bank line took a cleared deposit back.
    Returned,
    /// A payment was proposed.
    Proposed,
    /// A proposed payment was issued.
    Approved,
    /// A proposed payment was turned down.
    Declined,
    /// A proposed payment was taken back.
    Withdrawn,
    /// An issued payment was taken back.
    Voided,
    /// A fee was set apart.
    Earned,
    /// A claim was raised against a fee.
    Disputed,
    /// A claim was raised against the general fund.
    Claimed,
    /// The client was offered this part of a claim.
    Offered(CentsOrZero),
    /// The offered part was accepted, which settled the claim.
    Accepted,
    /// A claim was settled with a part that was given.
    Awarded,
}

impl Deed {
    /// A deep copy. The only error is out of memory.
    pub fn copied(&self) -> Result<Deed, AllocError>
        ensures { IfOk result (λ d. d ≡ self.now) }
    {
        Ok(match self {
            Deed::Opened(lawyer) => Deed::Opened(lawyer.copied()?),
            Deed::Seated(seat) => Deed::Seated(seat.copied()?),
            Deed::Unseated(person) => Deed::Unseated(person.copied()?),
            Deed::Closed => Deed::Closed,
            Deed::Deposited => Deed::Deposited,
            Deed::Cancelled => Deed::Cancelled,
            Deed::Cleared => Deed::Cleared,
            Deed::Returned => Deed::Returned,
            Deed::Proposed => Deed::Proposed,
            Deed::Approved => Deed::Approved,
            Deed::Declined => Deed::Declined,
            Deed::Withdrawn => Deed::Withdrawn,
            Deed::Voided => Deed::Voided,
            Deed::Earned => Deed::Earned,
            Deed::Disputed => Deed::Disputed,
            Deed::Claimed => Deed::Claimed,
            Deed::Offered(part) => Deed::Offered(*part),
            Deed::Accepted => Deed::Accepted,
            Deed::Awarded => Deed::Awarded,
        })
    }
}

// Written by hand, so that a function that holds a deed makes one call at each exit.
impl Drop for Deed {
    fn drop(self) {
        match self {
            Deed::Opened(_lawyer) => (),
            Deed::Seated(_seat) => (),
            Deed::Unseated(_person) => (),
            Deed::Offered(_part) => (),
            Deed::Closed => (),
            Deed::Deposited => (),
            Deed::Cancelled => (),
            Deed::Cleared => (),
            Deed::Returned => (),
            Deed::Proposed => (),
            Deed::Approved => (),
            Deed::Declined => (),
            Deed::Withdrawn => (),
            Deed::Voided => (),
            Deed::Earned => (),
            Deed::Disputed => (),
            Deed::Claimed => (),
            Deed::Accepted => (),
            Deed::Awarded => (),
        }
    }
}

/// What was accepted of a matter: of which entry, if of one; on which business day, by whom, and what was done.
pub struct Act {
    pub entry: Option<EntryNo>,
    pub day: Day,
    pub caller: Caller,
    pub deed: Deed,
}

impl Act {
    /// A deep copy. The only error is out of memory.
    pub fn copied(&self) -> Result<Act, AllocError>
        ensures { IfOk result (λ a. a ≡ self.now) }
    {
        let caller = self.caller.copied()?;
        let deed = self.deed.copied()?;
        Ok(Act {
            entry: self.entry,
            day: self.day,
            caller,
            deed,
        })
    }
}

// Written by hand, so that a function that holds an act makes one call at each exit.
impl Drop for Act {
    fn drop(self) {
        let Act {
            entry: _entry,
            day: _day,
            caller: _caller,
            deed: _deed,
        } = self;
    }
}
