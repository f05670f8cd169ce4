// Limits used by both code and specs.

use trust_base::{MAX_AMOUNT, MAX_ENTRY};

/// The greatest total of a matter, in cents: the most entries, each with the greatest amount.
pub const MAX_TOTAL: u64 = MAX_ENTRY as u64 * MAX_AMOUNT;
