//! What each entry adds to each balance.

ghost use Rattle.std.specs.Prelude.{◌≡◌, ℕ, ◌+◌, ◌-◌, ◌<◌, ◌≤◌, ◌≤ℤ◌, ◌-ℤ◌, ◌+ℤ◌, pos, IfSome, IfNone};
ghost use Rattle.matter_rows.specs.Shares.{no_shares, AreSmallShares, IsSmallSum};
ghost use Rattle.matter_rows.specs.declared.limits.TheConstants.{MAX_TOTAL};

use crate::MAX_TOTAL;

/// What an entry adds to each balance, in cents, and to `pending`: 1 for a proposed or issued payment.
#[derive(Clone, Copy)]
pub struct Shares {
    pub held: i64,
    pub available: i64,
    pub disputed: i64,
    pub fees: i64,
    pub claims: i64,
    pub pending: i64,
}

/// The shares of an entry that adds nothing: zero for each balance, in cents, and no pending payment.
pub fn no_shares() -> Shares
    ensures is { result ≡ no_shares }
    ensures small { AreSmallShares result }
{
    Shares {
        held: 0,
        available: 0,
        disputed: 0,
        fees: 0,
        claims: 0,
        pending: 0,
    }
}

/// The total, in cents, with `out` replaced by `share`, a share of one entry or a sum of many. None if negative or
/// above `MAX_TOTAL`.
pub fn moved(total: u64, out: i64, share: i64) -> Option<u64>
    requires total { total ≤ MAX_TOTAL }
    requires out { IsSmallSum out }
    requires share { IsSmallSum share }
    ensures some { IfSome result (λ t. (t ≤ MAX_TOTAL) × (pos t ≡ (pos total -ℤ out) +ℤ share)) }
    ensures none { IfNone result ((t : ℕ) → t ≤ MAX_TOTAL → pos t ≡ (pos total -ℤ out) +ℤ share → ⊥) }
{
    let sum = total as i64 - out + share;
    if sum < 0 {
        return None;
    }
    if sum as u64 <= MAX_TOTAL {
        Some(sum as u64)
    } else {
        None
    }
}
