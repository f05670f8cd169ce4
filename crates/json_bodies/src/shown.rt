// Whether a caller is shown a matter.

ghost use Rattle.std.specs.Prelude.{◌≡◌};
ghost use Rattle.matter_parts.specs.Parts.{IsPart};
ghost use Rattle.matter_rows.specs.Rows.{Rows};
ghost use Rattle.json_bodies.specs.Lists.{is_shown as is_shown_in};

use trust_matter::{Caller, Matter};

/// Whether a caller's look at a matter is answered: the cashier is shown each matter that was opened, a person each in
/// which the person has a seat, and nobody one that was purged. Needs no entry of the matter. Takes no memory.
pub fn is_shown(matter: &Matter, caller: &Caller) -> bool
    ensures { (rows : Rows) → IsPart matter.now rows → result ≡ is_shown_in caller.now rows }
{
    let is_known = match caller {
        Caller::Cashier => matter.head().is_some(),
        Caller::Person(person) => matter.role_of(person).is_some(),
    };
    is_known && !matter.is_purged()
}
