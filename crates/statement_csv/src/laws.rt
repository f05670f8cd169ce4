//! Laws over the definitions. Each is the contract of a function that does nothing.

ghost use Rattle.std.specs.Prelude.{◌≡◌, IfSome, List, Some, ℕ};
ghost use Rattle.trust_base.specs.Limits.{IsEntryNo, IsMatterNo};
ghost use Rattle.statement_csv.specs.References.{entry_named, named, reference_text};

/// A text names an entry exactly if it is the entry's reference: `M`, the six digits of the matter, `-` and the four
/// digits of the entry.
pub fn references()
    ensures text { (bs : List ℕ) → IfSome (entry_named bs) (λ n. reference_text n.matter n.entry ≡ bs) }
    ensures found { (m e : ℕ) → IsMatterNo m → IsEntryNo e → entry_named (reference_text m e) ≡ Some (named m e) }
{}
