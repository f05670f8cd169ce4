//! The totals and counts of a matter.

ghost use Rattle.std.specs.Prelude.{◌≡◌, ◌-◌, ◌<◌, ◌↔◌, IsTrue};
ghost use Rattle.matter_rows.specs.Balances.{available};
ghost use Rattle.matter_parts.specs.Parts.{AreSmall, no_figures};

use matter_rows::MAX_TOTAL;
use trust_base::MAX_ENTRY;

/// The totals of a matter in cents, the number of its entries, and that of the payments proposed or issued.
#[derive(Clone, Copy)]
pub struct Figures {
    pub entries: u64,
    pub pending: u64,
    pub held: u64,
    pub available: u64,
    pub disputed: u64,
    pub fees: u64,
    pub claims: u64,
}

impl Figures {
    /// The totals of a matter without entries.
    pub fn none() -> Figures
        ensures { result ≡ no_figures }
    {
        Figures {
            entries: 0,
            pending: 0,
            held: 0,
            available: 0,
            disputed: 0,
            fees: 0,
            claims: 0,
        }
    }
}

/// The balances of a matter, in cents.
#[derive(Clone, Copy)]
pub struct Balances {
    /// Deposits that the bank has not cleared yet.
    pub held: u64,
    /// What may be paid.
    pub available: u64,
    /// What is left of earned fees.
    pub fees: u64,
    /// What is left of claims on the general fund.
    pub claims: u64,
    /// Open claims on fees.
    pub disputed: u64,
    /// Cleared deposits less payments issued or cleared. The money of an issued payment may still be at the bank.
    pub total: u64,
}

// Whether all totals and counts are in range.
pub(crate) fn are_small(figures: &Figures) -> bool
    ensures { IsTrue result ↔ AreSmall figures.now }
{
    figures.entries <= MAX_ENTRY as u64
        && figures.pending <= MAX_TOTAL
        && figures.held <= MAX_TOTAL
        && figures.available <= MAX_TOTAL
        && figures.disputed <= MAX_TOTAL
        && figures.fees <= MAX_TOTAL
        && figures.claims <= MAX_TOTAL
}
