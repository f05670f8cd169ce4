// What only the file of a statement shows about its records.

use std::fmt;
use trust_base::BankAmount;

/// What only the file of a statement shows about a record.
#[derive(Clone, Copy)]
pub enum FileRemark {
    /// It continues up to this line.
    GoesOn { last: u64 },
    /// It has the same day, reference, bank reference and amount as the record that begins on this line.
    Again { before: u64 },
    /// It has the same day, bank reference and amount as the record that begins on this line, but another reference.
    Twice { before: u64 },
    /// It closes the statement with this balance, which is below zero.
    Overdrawn { amount: BankAmount },
}

impl fmt::Display for FileRemark {
    fn fmt<W: fmt::Write>(&self, f: &mut fmt::Formatter<W>) -> fmt::Result {
        match self {
            FileRemark::GoesOn { last } => write!(
                f,
                "this record goes on to line {last}, since a double quote is opened here and not closed in its line: \
                if that is not meant, close it, or take it away"
            ),
            FileRemark::Again { before } => write!(
                f,
                "the same day, reference, bank reference and amount as line {before}: \
                applied once; if the bank has both, give this one a bank_ref of its own"
            ),
            FileRemark::Twice { before } => write!(
                f,
                "the same day, bank reference and amount as line {before}, under another reference: \
                look whether the bank has both, or the sum of them"
            ),
            FileRemark::Overdrawn { amount } => write!(
                f,
                "a closing balance of {amount}, below zero: no trust account is overdrawn; \
                look whether the sign is meant, and call the bank"
            ),
        }
    }
}
