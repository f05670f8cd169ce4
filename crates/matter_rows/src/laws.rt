//! Laws over the definitions. Each is the contract of a function that does nothing.

ghost use Rattle.matter_rows.specs.Laws.{Covered};

/// In sound rows the total, cleared deposits less payments, is the sum of what is available, disputed, left of fees and
/// left of claims. No balance is negative.
pub fn sound_is_covered()
    ensures { Covered }
{}
