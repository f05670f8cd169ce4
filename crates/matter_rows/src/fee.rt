//! Fees.

ghost use Rattle.std.specs.Prelude.{◌≡◌, IfOk};

use std::alloc::AllocError;
use trust_base::{Cents, Day, Label};

/// A fee that the firm has earned, set apart for it.
#[derive(Drop)]
pub struct Fee {
    pub book: Day,
    pub amount: Cents,
    pub description: Label,
}

impl Fee {
    pub(crate) fn copied(&self) -> Result<Fee, AllocError>
        ensures { IfOk result (λ f. f ≡ self.now) }
    {
        Ok(Fee {
            description: self.description.copied()?,
            ..*self
        })
    }
}
