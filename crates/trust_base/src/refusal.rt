// Why something was refused.

ghost use Rattle.std.specs.Prelude.{◌≡◌, ◌≤◌};
ghost use Rattle.trust_base.specs.Refusals.{number_of, status_of};

use crate::{CivilDay, Day, EntryNo};
use std::alloc::{AllocError, AllocFailed};
use thiserror::Error;

/// A field of a request. A refusal names the one that is invalid.
#[derive(Clone, Copy)]
pub enum Field {
    /// The number of the matter.
    Matter,
    /// The number of the entry.
    Entry,
    /// The day.
    Day,
    /// The whole body.
    Body,
    /// The client's label.
    Client,
    /// The first lawyer.
    Lawyer,
    /// The person of a seat.
    Person,
    /// The role of a seat.
    Role,
    /// The amount.
    Amount,
    /// Who a deposit is from.
    Source,
    /// What a deposit or a fee is for.
    Description,
    /// The kind of fund that a payment is from.
    From,
    /// The entry that is a payment's fund, or the fee that is claimed.
    Of,
    /// Who is paid.
    Payee,
    /// What a payment is for.
    Purpose,
    /// The check or transfer of a payment.
    Instrument,
    /// The kind of fund that a claim is on.
    On,
    /// Who claims.
    Claimant,
    /// Why it is claimed.
    Reason,
    /// The client's part of a claim.
    ToClient,
    /// A whole record of a sheet.
    Record,
    /// The first record of a statement.
    Header,
}

/// A rule of the policy: who may ask what.
#[derive(Clone, Copy)]
pub enum Rule {
    /// Reading a matter.
    Read,
    /// Raising a claim on a fee; accepting an offer.
    Dispute,
    /// Raising a claim on the general fund.
    Claim,
    /// Proposing a payment, and withdrawing a proposal.
    Propose,
    /// Approving, declining and voiding payments, earning a fee, offering.
    Sign,
    /// Opening and purging a matter, seats, making and cancelling deposits, awards, closing.
    Office,
    /// Bank statements, dismissing an exception, and all reports of the firm.
    Firm,
}

/// Why something was refused. 4 to 28 are tried in the order of their numbers, 1 to 3 while the message is read. 29 and
/// 30 may come at any point.
#[derive(Clone, Copy)]
pub enum Refusal {
    /// 1: the message is malformed.
    BadMessage,
    /// 2: a message with a `Transfer-Encoding` field.
    LengthRequired,
    /// 3: a body, sheet or file exceeds its limit.
    TooLarge,
    /// 4: no route has this path.
    NoRoute,
    /// 5: the path has a route, but for another method.
    BadMethod,
    /// 6: there is not exactly one caller, or the caller's name is invalid.
    NoCaller,
    /// 7: a field is invalid.
    BadField(Field),
    /// 8: the matter does not exist, or the person has no seat there.
    NoMatter,
    /// 9: the matter was purged.
    Purged,
    /// 10: the policy forbids it, by this rule.
    NotAllowed(Rule),
    /// 11: the matter was already opened.
    AlreadyOpen,
    /// 12: the matter is closed.
    Closed,
    /// 13: the day is before the matter's last day, which is attached.
    DateBackwards(Day),
    /// 14: the entry's number is not the next one, which is attached; None after 9999.
    WrongNumber(Option<EntryNo>),
    /// 15: the entry does not exist.
    NoEntry,
    /// 16: the named entry is of another kind, or is a claim on a fee where one on the general fund is needed.
    WrongKind,
    /// 17: the entry, or the matter that is to be purged, is not in the state that the request needs.
    WrongState,
    /// 18: the payee or claimant is cash.
    PayeeIsCash,
    /// 19: the fund may not pay this payee.
    WrongPayee,
    /// 20: the client's part does not fit the claim or the offer.
    BadSplit,
    /// 21: the amount exceeds what is left of its fund, which is attached in cents.
    Short(u64),
    /// 22: the person already has a seat.
    SeatTaken,
    /// 23: the person has no seat.
    NoSeat,
    /// 24: the matter would lose its only lawyer.
    LastLawyer,
    /// 25: the matter still has money or a pending payment.
    NotEmpty,
    /// 26: the matter may not be purged before the attached day.
    TooEarly(CivilDay),
    /// 27: no closing balance is on file for the day.
    NoStatement,
    /// 28: a matter of that period was already purged.
    PeriodPurged,
    /// 29: the store refused a call, or a stored row is invalid.
    Store,
    /// 30: out of memory.
    Memory,
}

/// Why a call of the store failed.
#[derive(Clone, Copy, Debug, Error)]
pub enum StoreFault {
    /// The store refused a call, or a stored row is invalid.
    #[error("the store failed")]
    Store,
    /// Out of memory.
    #[error("memory ran out")]
    Memory,
}

impl Refusal {
    /// The number, from 1 to 30.
    pub fn number(&self) -> u8
        ensures value { result ≡ number_of self.now }
        ensures bound { result ≤ 30 }
    {
        match self {
            Refusal::BadMessage => 1,
            Refusal::LengthRequired => 2,
            Refusal::TooLarge => 3,
            Refusal::NoRoute => 4,
            Refusal::BadMethod => 5,
            Refusal::NoCaller => 6,
            Refusal::BadField(_) => 7,
            Refusal::NoMatter => 8,
            Refusal::Purged => 9,
            Refusal::NotAllowed(_) => 10,
            Refusal::AlreadyOpen => 11,
            Refusal::Closed => 12,
            Refusal::DateBackwards(_) => 13,
            Refusal::WrongNumber(_) => 14,
            Refusal::NoEntry => 15,
            Refusal::WrongKind => 16,
            Refusal::WrongState => 17,
            Refusal::PayeeIsCash => 18,
            Refusal::WrongPayee => 19,
            Refusal::BadSplit => 20,
            Refusal::Short(_) => 21,
            Refusal::SeatTaken => 22,
            Refusal::NoSeat => 23,
            Refusal::LastLawyer => 24,
            Refusal::NotEmpty => 25,
            Refusal::TooEarly(_) => 26,
            Refusal::NoStatement => 27,
            Refusal::PeriodPurged => 28,
            Refusal::Store => 29,
            Refusal::Memory => 30,
        }
    }

    /// The HTTP status (RFC 9110, section 15) of the answer.
    pub fn status(&self) -> u16
        ensures { result ≡ status_of self.now }
    {
        match self {
            Refusal::BadMessage => 400,
            Refusal::LengthRequired => 411,
            Refusal::TooLarge => 413,
            Refusal::NoRoute => 404,
            Refusal::BadMethod => 405,
            Refusal::NoCaller => 401,
            Refusal::BadField(_) => 422,
            Refusal::NoMatter => 404,
            Refusal::Purged => 410,
            Refusal::NotAllowed(_) => 403,
            Refusal::NoEntry => 404,
            Refusal::PayeeIsCash => 422,
            Refusal::WrongPayee => 422,
            Refusal::BadSplit => 422,
            Refusal::NoStatement => 404,
            Refusal::Store => 503,
            Refusal::Memory => 503,
            _ => 409,
        }
    }
}

impl From<StoreFault> for Refusal {
    ghost use Rattle.trust_base.specs.Refusals.{refused_by};

    ghost from_gives = { λ fault refusal. refusal ≡ refused_by fault };

    fn from(fault: StoreFault) -> Self {
        match fault {
            StoreFault::Store => Refusal::Store,
            StoreFault::Memory => Refusal::Memory,
        }
    }
}

impl From<AllocError> for StoreFault {
    ghost use Rattle.trust_base.specs.declared.refusal.StoreFault.TheVariants.{Memory as memory_fault};

    ghost from_gives = { λ _ fault. fault ≡ memory_fault };

    fn from(_: AllocError) -> Self {
        StoreFault::Memory
    }
}

impl<T: Drop> From<AllocFailed<T>> for StoreFault {
    ghost use Rattle.trust_base.specs.declared.refusal.StoreFault.TheVariants.{Memory as memory_fault};

    ghost from_gives = { λ _ fault. fault ≡ memory_fault };

    fn from(_: AllocFailed<T>) -> Self {
        StoreFault::Memory
    }
}

impl From<AllocError> for Refusal {
    ghost use Rattle.trust_base.specs.declared.refusal.Refusal.TheVariants.{Memory as memory_refusal};

    ghost from_gives = { λ _ refusal. refusal ≡ memory_refusal };

    fn from(_: AllocError) -> Self {
        Refusal::Memory
    }
}

impl<T: Drop> From<AllocFailed<T>> for Refusal {
    ghost use Rattle.trust_base.specs.declared.refusal.Refusal.TheVariants.{Memory as memory_refusal};

    ghost from_gives = { λ _ refusal. refusal ≡ memory_refusal };

    fn from(_: AllocFailed<T>) -> Self {
        Refusal::Memory
    }
}
