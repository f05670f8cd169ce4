// What a purged matter's head tells of a period.

ghost use Rattle.std.specs.Prelude.{◌≡◌};
ghost use Rattle.firm_periods.specs.Named.{is_head_purged_within};

use trust_base::Period;
use trust_matter::{Head, Holder};

/// Whether the matter was open in a period, and purged since: opened on its last day or before, closed on its first
/// day or later. What it moved in the period is then no longer told.
pub fn is_head_purged_within(head: &Head, period: Period) -> bool
    ensures { result ≡ is_head_purged_within period head.now }
{
    match (&head.holder, head.closed) {
        (Holder::Purged(_), Some(closed)) => {
            head.opened.get() <= period.to().get() && period.from().get() <= closed.get()
        }
        (Holder::Purged(_), None) | (Holder::Client(_), _) => false,
    }
}
