// The codes of the columns, by name: what writes a column and what reads it back name the same code. The definitions
// have their own numbers (`specs/Codes`), which contracts compare with these.

// `kind` of an entry.
pub(crate) const DEPOSIT_KIND: i64 = 1;

pub(crate) const PAYMENT_KIND: i64 = 2;

pub(crate) const FEE_KIND: i64 = 3;

pub(crate) const CLAIM_KIND: i64 = 4;

// `state` of a deposit.
pub(crate) const DEPOSIT_HELD: i64 = 1;

pub(crate) const DEPOSIT_CLEARED: i64 = 2;

pub(crate) const DEPOSIT_CANCELLED: i64 = 3;

pub(crate) const DEPOSIT_RETURNED: i64 = 4;

// `state` of a payment.
pub(crate) const PAYMENT_PROPOSED: i64 = 1;

pub(crate) const PAYMENT_DECLINED: i64 = 2;

pub(crate) const PAYMENT_ISSUED: i64 = 3;

pub(crate) const PAYMENT_CLEARED: i64 = 4;

pub(crate) const PAYMENT_VOIDED: i64 = 5;

// `state` of a claim.
pub(crate) const CLAIM_OPEN: i64 = 1;

pub(crate) const CLAIM_OFFERED: i64 = 2;

pub(crate) const CLAIM_SETTLED: i64 = 3;

// `fund` of a payment and of a claim.
pub(crate) const GENERAL_FUND: i64 = 0;

pub(crate) const FEE_FUND: i64 = 1;

pub(crate) const CLAIM_FUND: i64 = 2;

// `role` of a seat.
pub(crate) const CLIENT_ROLE: i64 = 1;

pub(crate) const LAWYER_ROLE: i64 = 2;

// `kind` of a balance.
pub(crate) const OPENING_BALANCE: i64 = 1;

pub(crate) const CLOSING_BALANCE: i64 = 2;

// `deed` of an act, in the order of the kinds of deeds.
pub(crate) const OPENED_DEED: i64 = 1;

pub(crate) const SEATED_DEED: i64 = 2;

pub(crate) const UNSEATED_DEED: i64 = 3;

pub(crate) const CLOSED_DEED: i64 = 4;

pub(crate) const DEPOSITED_DEED: i64 = 5;

pub(crate) const CANCELLED_DEED: i64 = 6;

pub(crate) const CLEARED_DEED: i64 = 7;

pub(crate) const RETURNED_DEED: i64 = 8;

pub(crate) const PROPOSED_DEED: i64 = 9;

pub(crate) const APPROVED_DEED: i64 = 10;

pub(crate) const DECLINED_DEED: i64 = 11;

pub(crate) const WITHDRAWN_DEED: i64 = 12;

pub(crate) const VOIDED_DEED: i64 = 13;

pub(crate) const EARNED_DEED: i64 = 14;

pub(crate) const DISPUTED_DEED: i64 = 15;

pub(crate) const CLAIMED_DEED: i64 = 16;

pub(crate) const OFFERED_DEED: i64 = 17;

pub(crate) const ACCEPTED_DEED: i64 = 18;

pub(crate) const AWARDED_DEED: i64 = 19;

// Of a dismissal, which is no deed.
pub(crate) const DISMISSED_DEED: i64 = 20;
