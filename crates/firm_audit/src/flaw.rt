// What is not sound in a firm's rows.

use trust_base::{EntryNo, MatterNo};

/// The first thing found that is not sound in a firm's rows. `specs/Flaws` says what each is of the rows.
#[derive(Clone, Copy)]
pub enum Flaw {
    /// The matter is not complete and sound, or its number is not higher than those before it.
    Matter(MatterNo),
    /// The entry's movements in the journal are not what the entry moved. The entry exists.
    Entry { matter: MatterNo, entry: EntryNo },
    /// The matter's movements sum to less than zero somewhere, are not in order of day, are later than its last day, or
    /// do not add up to its ledger.
    Journal(MatterNo),
    /// The movement at this position of the journal, counted from 1, belongs to no entry.
    Movement(u64),
    /// The movements of the firm's own money are not the lines of its ledger.
    OwnMovements,
    /// After this line, counted from 1, the firm's own money is below 0.00 or above 500.00.
    FirmLine(u64),
    /// The exception at this position, counted from 1, does not sort after the one before it.
    Exception(u64),
    /// The balance at this position, counted from 1, does not sort after the one before it.
    Balance(u64),
}
