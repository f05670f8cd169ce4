// The acts of a firm, by their matters.

ghost use Rattle.std.specs.Prelude.{◌≡◌, [], IfOk, map};
ghost use Rattle.trust_store.specs.Kept.{Ascends};
ghost use Rattle.firm_audit.specs.Trails.{acts_among};

use firm_rows::MatterAct;
use matter_rows::Act;
use std::alloc::{AllocError, Global};
use trust_store::{KeptMatter, matter_place};

// That many empty lists.
fn blank(alloc: Global, matters: &[KeptMatter]) -> Result<Vec<Vec<Act>>, AllocError>
    ensures { IfOk result (λ groups. map (λ g. g.items) groups.items ≡ map (λ k. []) matters.now) }
{
    let mut groups = Vec::new(alloc);
    for _matter in matters {
        groups.push(Vec::new(alloc))?;
    }
    Ok(groups)
}

/// The acts of each of these matters, in order. This takes one pass over all acts.
pub(crate) fn acts_by_matter(
    alloc: Global,
    matters: &[KeptMatter],
    acts: &[MatterAct],
) -> Result<Vec<Vec<Act>>, AllocError>
    requires { Ascends matters.now }
    ensures { IfOk result (λ groups. map (λ g. g.items) groups.items
        ≡ map (λ k. acts_among k.number acts.now) matters.now) }
{
    let mut groups = blank(alloc, matters)?;
    for act in acts {
        match matter_place(matters, act.matter) {
            Ok(place) => groups[place].push(act.act.copied()?)?,
            Err(_) => (),
        }
    }
    Ok(groups)
}
