//! Acts that a book hands over.

ghost use Rattle.std.specs.Prelude.{◌≡◌, ◌++◌, ◌∷◌, []};

use firm_rows::{MatterAct, RowSink};
use std::alloc::{AllocError, Global};
use std::marker::Model;

/// Lists the acts that it receives.
///
/// Contracts see it as the acts so far.
#[derive(Drop)]
pub struct MatterActs {
    acts: Vec<MatterAct>,
}

impl Model for MatterActs {
    ghost use Rattle.std.specs.Prelude.{List};
    ghost use Rattle.firm_rows.specs.declared.matter_act.MatterAct.{MatterAct};

    ghost Value = { List MatterAct };

    ghost view = { λ s. s.acts.items };
}

impl MatterActs {
    /// None so far.
    pub fn new(alloc: Global) -> MatterActs
        ensures { result ≡ [] }
    {
        MatterActs {
            acts: Vec::new(alloc),
        }
    }

    /// The acts, in the order of acceptance.
    pub fn finish(self) -> Vec<MatterAct>
        ensures { result.items ≡ self }
    {
        self.acts
    }
}

impl RowSink<MatterAct> for MatterActs {
    ghost taken = { λ acts act. acts ++ act ∷ [] };

    fn take(&mut self, act: &MatterAct) -> Result<(), AllocError> {
        let act = act.copied()?;
        self.acts.push(act)?;
        Ok(())
    }
}
