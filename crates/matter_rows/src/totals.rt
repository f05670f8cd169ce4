//! The sum of the shares of many entries.

ghost use Rattle.std.specs.Prelude.{◌≡◌, ◌+◌, ◌≤◌, length};
ghost use Rattle.matter_rows.specs.Shares.{held_share, available_share, disputed_share, fee_share, claim_share, pending_share, AreSmallSums};
ghost use Rattle.matter_rows.specs.Balances.{available, total_of};
ghost use Rattle.trust_base.specs.TheConstants.{MAX_ENTRY};

use crate::entry::Entry;
use crate::shares::{Shares, no_shares};

/// The sum of the shares of all entries.
pub fn sums_of(entries: &[Entry]) -> Shares
    requires { length entries.now ≤ MAX_ENTRY }
    ensures held { result.held ≡ total_of held_share entries.now }
    ensures available { result.available ≡ total_of available_share entries.now }
    ensures disputed { result.disputed ≡ total_of disputed_share entries.now }
    ensures fees { result.fees ≡ total_of fee_share entries.now }
    ensures claims { result.claims ≡ total_of claim_share entries.now }
    ensures pending { result.pending ≡ total_of pending_share entries.now }
    ensures small { AreSmallSums result }
{
    let mut sums = no_shares();
    for entry in entries {
        let shares = entry.shares();
        sums.held += shares.held;
        sums.available += shares.available;
        sums.disputed += shares.disputed;
        sums.fees += shares.fees;
        sums.claims += shares.claims;
        sums.pending += shares.pending;
    }
    sums
}
