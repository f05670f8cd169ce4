//! The balances of a matter, and what is left of its fees and claims.

ghost use Rattle.std.specs.Prelude.{◌≡◌, ◌+◌, pos, true, Some, option_map};
ghost use Rattle.matter_rows.specs.Rows.{Rows};
ghost use Rattle.matter_rows.specs.Balances.{fee_left, claim_left, is_fee, is_general_claim};
ghost use Rattle.matter_rows.specs.Sound.{Sound};
ghost use Rattle.matter_parts.specs.Parts.{IsPart, is_held, left_if, AreBalances};

use crate::figures::Balances;
use crate::kept::Kept;
use crate::matter::Matter;
use matter_rows::{Against, Entry};
use trust_base::EntryNo;

/// Returns the balances of a matter. Allocates nothing.
pub fn balances(matter: &Matter) -> Balances
    ensures { (rows : Rows) → Sound rows → IsPart matter.now rows → AreBalances result rows.entries }
{
    let figures = matter.figures();
    Balances {
        held: figures.held,
        available: figures.available,
        fees: figures.fees,
        claims: figures.claims,
        disputed: figures.disputed,
        total: figures.available + figures.disputed + figures.fees + figures.claims,
    }
}

// Returns what is left of a loaded entry, if it is a fee.
fn left_if_fee(kept: &Kept) -> Option<u64>
    ensures { option_map pos result ≡ left_if is_fee (Some kept.now) }
{
    match &kept.entry {
        Entry::Fee(_) => Some(kept.left),
        _ => None,
    }
}

// Returns what is left of a loaded entry, if it is a claim on the general fund.
fn left_if_claim(kept: &Kept) -> Option<u64>
    ensures { option_map pos result ≡ left_if is_general_claim (Some kept.now) }
{
    match &kept.entry {
        Entry::Claim(claim) => match &claim.against {
            Against::General(_) => Some(kept.left),
            Against::Fee(_) => None,
        },
        _ => None,
    }
}

/// Returns what is left of a fee in cents, if the entry is one. Allocates nothing.
pub fn fee_left(matter: &Matter, number: EntryNo) -> Option<u64>
    requires { is_held matter.now number ≡ true }
    ensures { (rows : Rows) → IsPart matter.now rows → option_map pos result ≡ fee_left rows.entries number }
{
    let kept = matter.find(number)?;
    left_if_fee(kept)
}

/// Returns what is left of a claim on the general fund in cents, if the entry is one. Allocates nothing.
pub fn claim_left(matter: &Matter, number: EntryNo) -> Option<u64>
    requires { is_held matter.now number ≡ true }
    ensures { (rows : Rows) → IsPart matter.now rows → option_map pos result ≡ claim_left rows.entries number }
{
    let kept = matter.find(number)?;
    left_if_claim(kept)
}
