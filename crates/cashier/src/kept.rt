// What is lost with a book in memory.

ghost use Rattle.std.specs.Prelude.{◌≡◌, true};

use cashier_remarks::{Remark, Remarks};
use command_line::{Plan, Task};
use firm_rows::{MatterRow, MatterRowSink, RowSink};
use std::alloc::AllocError;
use std::marker::Model;
use trust_base::MatterNo;
use trust_store::{Book, PlainBook};

// Whether any row was received.
#[derive(Drop)]
struct RowSeen {
    has_come: bool,
}

impl Model for RowSeen {
    ghost use Rattle.std.specs.Prelude.{Bool};

    ghost Value = { Bool };

    ghost view = { λ s. s.has_come };
}

impl MatterRowSink for RowSeen {
    ghost taken = { λ _ _. true };

    fn matter_row(&mut self, _matter: MatterNo, row: MatterRow<'_>) -> Result<(), AllocError> {
        match row {
            MatterRow::Head(_head) => {}
            MatterRow::Seat(_seat) => {}
            MatterRow::Entry(_number, _entry) => {}
        }
        self.has_come = true;
        Ok(())
    }
}

impl<T> RowSink<T> for RowSeen {
    ghost taken = { λ _ _. true };

    fn take(&mut self, _row: &T) -> Result<(), AllocError> {
        self.has_come = true;
        Ok(())
    }
}

// Whether a book has any row of a matter or of the bank.
fn has_rows(book: &mut PlainBook) -> bool {
    let mut seen = RowSeen { has_come: false };
    let _ = book.each_row(&mut seen);
    let _ = book.each_firm_line(&mut seen);
    let _ = book.each_exception(&mut seen);
    let _ = book.each_balance(&mut seen);
    seen.has_come
}

/// Reports that what a sheet or a statement put into a book in memory is lost, if it put something there and the plan
/// is not quiet.
pub fn tell_of_loss<M: Remarks>(remarks: &M, plan: &Plan<'_>, mut book: PlainBook) {
    if plan.is_quiet {
        return;
    }
    if matches!(plan.task, Task::Sheet | Task::Import(_)) && has_rows(&mut book) {
        remarks.tell(&Remark::NothingKept);
    }
}
