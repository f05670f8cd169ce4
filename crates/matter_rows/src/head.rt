//! The head of a matter.

ghost use Rattle.std.specs.Prelude.{◌≡◌, IfOk, ◌==◌};
ghost use Rattle.std.specs.Option.{option_copied};
ghost use Rattle.matter_rows.specs.Rows.{seen_on, closed_head, purged_head};

use std::alloc::AllocError;
use trust_base::{Day, Label};

/// Who a matter belongs to: a client, or nobody since it was purged on a day.
#[derive(Drop)]
pub enum Holder {
    Client(Label),
    Purged(Day),
}

impl Holder {
    /// A deep copy. The only error is out of memory.
    pub fn copied(&self) -> Result<Holder, AllocError>
        ensures { IfOk result (λ h. h ≡ self.now) }
    {
        Ok(match self {
            Holder::Client(client) => Holder::Client(client.copied()?),
            Holder::Purged(day) => Holder::Purged(*day),
        })
    }
}

/// The client and day that a matter was opened with, when it was closed, and the last day of an accepted change or a
/// bank line.
#[derive(Drop)]
pub struct Head {
    pub holder: Holder,
    pub opened: Day,
    pub closed: Option<Day>,
    pub last: Day,
}

impl Head {
    /// A deep copy. The only error is out of memory.
    pub fn copied(&self) -> Result<Head, AllocError>
        ensures { IfOk result (λ h. h ≡ self.now) }
    {
        Ok(Head {
            holder: self.holder.copied()?,
            ..*self
        })
    }
}

/// A deep copy of the head, if there is one. The only error is out of memory.
pub fn head_copied(head: Option<&Head>) -> Result<Option<Head>, AllocError>
    ensures { IfOk result (λ h. h ≡ option_copied head.entry) }
{
    match head {
        None => Ok(None),
        Some(head) => Ok(Some(head.copied()?)),
    }
}

/// Sets the last day: the matter changed on `day`.
pub fn see_on(head: &mut Option<Head>, day: Day)
    ensures { head.new ≡ seen_on head.old day }
{
    match head {
        None => {}
        Some(head) => head.last = day,
    }
}

/// Makes the head that of a purged matter: the day of the purge replaces the client. Sets the last day.
pub fn purge_on(head: &mut Option<Head>, day: Day, last: Day)
    ensures { head.new ≡ purged_head head.old day last }
{
    match head {
        None => {}
        Some(head) => {
            head.holder = Holder::Purged(day);
            head.last = last;
        }
    }
}

/// Marks the matter as closed on `day`, and sets its last day.
pub fn close_on(head: &mut Option<Head>, day: Day, last: Day)
    ensures { head.new ≡ closed_head head.old day last }
{
    match head {
        None => {}
        Some(head) => {
            head.closed = Some(day);
            head.last = last;
        }
    }
}
