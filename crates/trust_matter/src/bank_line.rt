// Bank lines that name a matter.

use trust_base::{EntryNo, Line, MatterNo};

/// A bank line whose reference names an entry of a matter.
#[derive(Drop)]
pub struct BankLine {
    /// The matter.
    pub matter: MatterNo,
    /// The entry of that matter.
    pub entry: EntryNo,
    /// The whole line.
    pub line: Line,
}
