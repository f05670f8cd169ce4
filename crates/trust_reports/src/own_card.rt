// The ledger card of the firm's own money.

ghost use Rattle.std.specs.Prelude.{◌≡◌, ◌++◌, OnOk, OnErr};
ghost use Rattle.trust_reports.specs.TextsOfLedgers.{own_card_text, own_line};

use crate::page::{Page, Piece, Printed, Sum, append, push_column, push_heading, push_line};
use firm_rows::{FirmLedger, FirmLine};
use std::alloc::AllocError;
use trust_base::Day;

impl Printed for FirmLine {
    ghost printed = { own_line };

    fn push_to(&self, page: &mut Page) -> Result<(), AllocError> {
        let fields = [
            Piece::OrDash(&self.bank_ref),
            Piece::Bank(self.amount),
            Piece::Words(&self.text),
        ];
        push_line(page, &Piece::Day(self.date), &fields)
    }
}

#[derive(Drop)]
struct OwnCard<'a> {
    ledger: &'a FirmLedger,
    today: Day,
}

impl Printed for OwnCard<'_> {
    ghost printed = { λ c. own_card_text c.today c.ledger.now };

    fn push_to(&self, page: &mut Page) -> Result<(), AllocError> {
        push_heading(page, "LEDGER FIRM", self.today)?;
        page.push_lines(self.ledger.lines())?;
        let total = Sum::Of(self.ledger.balance() as i128);
        push_column(page, 10, 18, b"TOTAL", total)
    }
}

/// Appends the ledger card of the firm's own money in the trust account (ABA Model Rule 1.15(b)) on a business day.
/// Each line, in the order of acceptance, has its date, the bank's reference, the signed amount and the line's text;
/// the sum comes last. Amounts are in cents. An empty field is printed as `-`, and each character U+0000 to U+001F and
/// U+007F to U+009F of the text as a space.
///
/// The only error is out of memory; `out` is then unchanged.
pub fn own_card_text(today: Day, ledger: &FirmLedger, out: &mut Vec<u8>) -> Result<(), AllocError>
    ensures ok { OnOk result (out.new.items ≡ out.old.items ++ own_card_text today ledger.now) }
    ensures err { OnErr result (out.new.items ≡ out.old.items) }
{
    append(out, &OwnCard { today, ledger })
}
