//! What the bank reported about an entry.

ghost use Rattle.std.specs.Prelude.{◌≡◌, IfOk};
ghost use Rattle.matter_rows.specs.Clearings.{clearing_by, is_clearing_by};

use std::alloc::AllocError;
use trust_base::{BankText, Day, Line};

/// The bank line that cleared an entry or took a deposit back: its date and the bank's own reference.
#[derive(Drop)]
pub struct Clearing {
    pub bank_day: Day,
    pub bank_ref: BankText,
}

impl Clearing {
    /// A deep copy. The only error is out of memory.
    pub fn copied(&self) -> Result<Clearing, AllocError>
        ensures { IfOk result (λ m. m ≡ self.now) }
    {
        Ok(Clearing {
            bank_day: self.bank_day,
            bank_ref: self.bank_ref.copied()?,
        })
    }

    // Whether it has the line's date and bank reference.
    pub(crate) fn is_by(&self, line: &Line) -> bool
        ensures { result ≡ is_clearing_by self.now line.now }
    {
        self.bank_day.get() == line.date.get() && self.bank_ref.is_same(&line.bank_ref)
    }
}

// The line's date and bank reference.
pub(crate) fn clearing_by(line: &Line) -> Result<Clearing, AllocError>
    ensures { IfOk result (λ c. c ≡ clearing_by line.now) }
{
    Ok(Clearing {
        bank_day: line.date,
        bank_ref: line.bank_ref.copied()?,
    })
}
