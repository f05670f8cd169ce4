// Whether rows are sorted.

ghost use Rattle.std.specs.Prelude.{◌≡◌, ◌+◌, ◌<◌, List, None, length, IfSome};
ghost use Rattle.std.specs.declared.cmp.Ordering.TheVariants.{Less};
ghost use Rattle.trust_base.specs.LineOrder.{line_cmp};
ghost use Rattle.firm_rows.specs.FirmLines.{balance_cmp};
ghost use Rattle.firm_rows.specs.declared.ledger.FirmLine.{FirmLine};
ghost use Rattle.firm_rows.specs.declared.movement.Movement.{Movement};
ghost use Rattle.trust_store.specs.declared.plain.KeptMatter.{KeptMatter};
ghost use Rattle.trust_store.specs.Kept.{firm_of};
ghost use Rattle.firm_audit.specs.Audited.{AreAscending, Follow};
ghost use Rattle.firm_audit.specs.Flaws.{IsFlawOf, IsMisplaced};

use crate::Flaw;
use firm_rows::BalanceRow;
use std::cmp::Ordering;
use trust_base::Line;

/// A row of a sorted list.
pub(crate) trait Sorted {
    ghost use Rattle.std.specs.Prelude.{◌↔◌, IsTrue};

    /// One stands before another.
    ghost before: { Self → Self → Type 0 };

    /// Whether it stands before the next.
    fn is_before(&self, next: &Self) -> bool
        ensures { IsTrue result ↔ before self.now next.now };
}

impl Sorted for Line {
    ghost before = { λ a b. line_cmp a b ≡ Less };

    fn is_before(&self, next: &Line) -> bool {
        matches!(self.compare(next), Ordering::Less)
    }
}

impl Sorted for BalanceRow {
    ghost before = { λ a b. balance_cmp a b ≡ Less };

    fn is_before(&self, next: &BalanceRow) -> bool {
        matches!(self.compare(next), Ordering::Less)
    }
}

/// The index of the first row that does not stand after the one before it.
pub(crate) fn out_of_order<T: Sorted>(rows: &[T]) -> Option<usize>
    ensures within { IfSome result (λ i. i < length rows.now) }
    ensures sorted { result ≡ None → Follow T.before rows.now }
    ensures misplaced { IfSome result (λ i. IsMisplaced T.before rows.now (i + 1)) }
{
    for place in 1..rows.len() {
        if !rows[place - 1].is_before(&rows[place]) {
            return Some(place);
        }
    }
    None
}

/// The first flaw in the order of exceptions and balances. Whatever the other rows are, it is one of the firm.
pub(crate) fn order_flaw(exceptions: &[Line], balances: &[BalanceRow]) -> Option<Flaw>
    ensures sound { result ≡ None → AreAscending exceptions.now balances.now }
    ensures flaw { (matters : List KeptMatter) (movements : List Movement) (own : List FirmLine)
        → IfSome result (IsFlawOf (firm_of matters movements own exceptions.now balances.now)) }
{
    if let Some(place) = out_of_order(exceptions) {
        return Some(Flaw::Exception(place as u64 + 1));
    }
    let place = out_of_order(balances)?;
    Some(Flaw::Balance(place as u64 + 1))
}
