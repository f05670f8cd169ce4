// The journal.

ghost use Rattle.std.specs.Prelude.{◌≡◌, ◌++◌, OnOk, OnErr};
ghost use Rattle.trust_reports.specs.TextsOfLists.{journal_line, journal_text};

use crate::page::{List, Page, Piece, Printed, append, push_line};
use firm_figures::JournalLine;
use std::alloc::AllocError;
use trust_base::Day;

impl Printed for JournalLine {
    ghost printed = { journal_line };

    fn push_to(&self, page: &mut Page) -> Result<(), AllocError> {
        let amount = self.movement.amount as i128;
        push_line(
            page,
            &Piece::Day(self.movement.day),
            &[
                Piece::Owner(self.movement.owner),
                Piece::Sum(amount),
                Piece::Sum(self.sum),
            ],
        )
    }
}

/// Appends the journal of receipts and disbursements (ABA Model Rules for Client Trust Account Records) on a business
/// day. Each movement has the day it was booked, the entry that moved its client's money or `FIRM` for the firm's own,
/// the signed amount and the running sum, in cents. The order is that of `lines`.
///
/// The only error is out of memory; `out` is then unchanged.
pub fn journal_text(today: Day, lines: &[JournalLine], out: &mut Vec<u8>) -> Result<(), AllocError>
    ensures ok { OnOk result (out.new.items ≡ out.old.items ++ journal_text today lines.now) }
    ensures err { OnErr result (out.new.items ≡ out.old.items) }
{
    let name = "JOURNAL";
    append(out, &List { name, today, lines })
}
