//! What an entry moves in the journal.

use trust_base::{Day, EntryNo};

/// What an entry moves in the journal on a day, in cents: positive if received, negative if paid out.
#[derive(Clone, Copy)]
pub struct EntryMovement {
    pub entry: EntryNo,
    pub day: Day,
    pub amount: i64,
}
