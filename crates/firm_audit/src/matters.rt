// Whether the matters are complete and sound, and sorted by number.

ghost use Rattle.std.specs.Prelude.{◌≡◌, None, IfOk, IfSome};
ghost use Rattle.std.specs.List.{AllByRecursion};
ghost use Rattle.trust_store.specs.Kept.{IsKeptWhole, AreKeptWhole};
ghost use Rattle.firm_audit.specs.Flaws.{IsFlawedMatter, IsMatterFlaw};

use crate::Flaw;
use crate::order::{Sorted, out_of_order};
use matter_parts::is_sound_whole;
use std::alloc::{AllocError, Global};
use trust_base::MatterNo;
use trust_store::KeptMatter;

// The first matter that is not complete and sound.
fn unsound(alloc: Global, matters: &[KeptMatter]) -> Result<Option<MatterNo>, AllocError>
    ensures none { IfOk result (λ found. found ≡ None → AllByRecursion IsKeptWhole matters.now) }
    ensures some { IfOk result (λ found. IfSome found (IsFlawedMatter matters.now)) }
{
    for kept in matters {
        if !is_sound_whole(alloc, &kept.matter)? {
            return Ok(Some(kept.number));
        }
    }
    Ok(None)
}

impl Sorted for KeptMatter {
    ghost use Rattle.std.specs.Prelude.{◌<◌};

    ghost before = { λ a b. a.number < b.number };

    fn is_before(&self, next: &KeptMatter) -> bool {
        self.number.get() < next.number.get()
    }
}

/// The first flaw in the matters themselves.
pub(crate) fn matters_flaw(
    alloc: Global,
    matters: &[KeptMatter],
) -> Result<Option<Flaw>, AllocError>
    ensures sound { IfOk result (λ found. found ≡ None → AreKeptWhole matters.now) }
    ensures flaw { IfOk result (λ found. IfSome found (IsMatterFlaw matters.now)) }
{
    if let Some(place) = out_of_order(matters) {
        return Ok(Some(Flaw::Matter(matters[place].number)));
    }
    if let Some(number) = unsound(alloc, matters)? {
        return Ok(Some(Flaw::Matter(number)));
    }
    Ok(None)
}
