// Exceptions that were dismissed.

ghost use Rattle.std.specs.Prelude.{◌≡◌, IfOk};

use std::alloc::AllocError;
use trust_base::{Day, Line};

/// A bank line that the cashier dismissed from the exceptions, and the business day on which that was.
#[derive(Drop)]
pub struct Dismissal {
    pub day: Day,
    pub line: Line,
}

impl Dismissal {
    /// A deep copy. The only error is out of memory.
    pub fn copied(&self) -> Result<Dismissal, AllocError>
        ensures { IfOk result (λ d. d ≡ self.now) }
    {
        Ok(Dismissal {
            day: self.day,
            line: self.line.copied()?,
        })
    }
}
