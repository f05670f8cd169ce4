// Acts of the matters of a firm.

ghost use Rattle.std.specs.Prelude.{◌≡◌, IfOk};

use std::alloc::AllocError;
use trust_base::MatterNo;
use trust_matter::Act;

/// An act of a matter: who did what, of which entry, on which business day.
#[derive(Drop)]
pub struct MatterAct {
    /// The matter's number.
    pub matter: MatterNo,
    pub act: Act,
}

impl MatterAct {
    /// A deep copy. The only error is out of memory.
    pub fn copied(&self) -> Result<MatterAct, AllocError>
        ensures { IfOk result (λ a. a ≡ self.now) }
    {
        Ok(MatterAct {
            matter: self.matter,
            act: self.act.copied()?,
        })
    }
}
