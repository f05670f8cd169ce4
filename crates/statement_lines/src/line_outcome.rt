// The outcome for a line of a statement.

use trust_base::BankText;

/// The outcome for a line of a statement.
#[derive(Drop)]
pub enum LineOutcome {
    /// It has a reference, and is written unchanged.
    AsItIs,
    /// It has no reference, and is in the book already. It is left out.
    InBook,
    /// It has no reference, and another such line, or a line of the book, has the same date, bank reference and amount.
    /// It is left.
    Doubled,
    /// It has no reference, and is filled with this one, that of its entry.
    Filled(BankText),
    /// It has no reference, and is left.
    Left,
}
