// Rows that can be counted and added up in machine integers.

ghost use Rattle.std.specs.Prelude.{◌≡◌};
ghost use Rattle.firm_rows.specs.Countable.{IsMovementInRange, IsFirmLineInRange, IsLineInRange, IsBalanceInRange, IsActInRange, IsDismissalInRange};

use crate::dismissal::Dismissal;
use crate::ledger::{BalanceRow, FirmLine};
use crate::matter_act::MatterAct;
use crate::movement::Movement;
use trust_base::Line;

/// A row of a firm's list. Its type holds no amount that is out of range.
pub trait Countable {
    /// The row's amount is in range.
    ghost IsInRange: { Self → Type 0 };

    /// Does nothing, and shows that the row's amount is in range.
    fn show_range(&self)
        ensures { IsInRange self.now };
}

impl Countable for Movement {
    ghost IsInRange = { IsMovementInRange };

    fn show_range(&self) {
        let _amount = self.amount;
    }
}

impl Countable for FirmLine {
    ghost IsInRange = { IsFirmLineInRange };

    fn show_range(&self) {
        let _amount = self.amount.get();
    }
}

impl Countable for Line {
    ghost IsInRange = { IsLineInRange };

    fn show_range(&self) {
        let _amount = self.amount.get();
    }
}

impl Countable for BalanceRow {
    ghost IsInRange = { IsBalanceInRange };

    fn show_range(&self) {
        let _amount = self.amount.get();
    }
}

impl Countable for MatterAct {
    ghost IsInRange = { IsActInRange };

    fn show_range(&self) {}
}

impl Countable for Dismissal {
    ghost IsInRange = { IsDismissalInRange };

    fn show_range(&self) {
        self.line.show_range();
    }
}
