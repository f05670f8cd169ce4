// What a matter's head tells as of a day.

ghost use Rattle.std.specs.Prelude.{◌≡◌};
ghost use Rattle.firm_figures.specs.Clients.{is_open_by};
ghost use Rattle.firm_figures.specs.Purged.{is_head_purged_after, is_head_purged_at};

use trust_base::Day;
use trust_matter::{Head, Holder};

/// Whether the matter was opened on or before a day, and not closed by then.
pub(crate) fn is_open_by(head: &Head, day: Day) -> bool
    ensures { result ≡ is_open_by day head.now }
{
    let is_closed = match head.closed {
        Some(closed) => closed.get() <= day.get(),
        None => false,
    };
    head.opened.get() <= day.get() && !is_closed
}

/// Whether the matter was closed after a day, and purged since. The day's records are then no longer complete.
pub fn is_head_purged_after(head: &Head, day: Day) -> bool
    ensures { result ≡ is_head_purged_after day head.now }
{
    match (&head.holder, head.closed) {
        (Holder::Purged(_), Some(closed)) => day.get() < closed.get(),
        _ => false,
    }
}

/// Whether the matter was open as of a day, and purged since. The lists of the day's clients, and of what waited for
/// the bank then, are then no longer complete.
pub fn is_head_purged_at(head: &Head, day: Day) -> bool
    ensures { result ≡ is_head_purged_at day head.now }
{
    head.opened.get() <= day.get() && is_head_purged_after(head, day)
}
