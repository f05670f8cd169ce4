// The list of the clients' ledgers as of a day.

ghost use Rattle.std.specs.Prelude.{◌≡◌, ◌++◌, OnOk, OnErr, codes, flat_map};
ghost use Rattle.trust_reports.specs.Pieces.{sum_text};
ghost use Rattle.trust_reports.specs.Texts.{column, heading};
ghost use Rattle.trust_reports.specs.TextsOfClients.{client_text_line, clients_text};

use crate::page::{
    Page, Piece, Printed, Sum, append, matter_digits, push_columns, push_fields, push_figure,
    push_heading,
};
use firm_figures::ClientLine;
use std::alloc::AllocError;
use trust_base::Day;

impl Printed for ClientLine {
    ghost printed = { client_text_line };

    fn push_to(&self, page: &mut Page) -> Result<(), AllocError> {
        let matter = matter_digits(self.matter);
        push_figure(page, 14, 24, &matter, Sum::Of(self.ledger))?;
        push_fields(page, &[Piece::Word("|"), Piece::Label(&self.client)])?;
        page.push(b"\n")
    }
}

#[derive(Drop)]
struct Clients<'a> {
    p: Day,
    lines: &'a [ClientLine],
    own: Sum,
    total: Sum,
}

impl Printed for Clients<'_> {
    ghost printed = { λ c. heading (codes "CLIENTS") c.p
        ++ (flat_map client_text_line c.lines.now
        ++ (column 14 24 (codes "FIRM") (sum_text c.own) ++ column 14 24 (codes "TOTAL") (sum_text c.total))) };

    fn push_to(&self, page: &mut Page) -> Result<(), AllocError> {
        push_heading(page, "CLIENTS", self.p)?;
        page.push_lines(self.lines)?;
        push_columns(page, 14, 24, &[("FIRM", self.own), ("TOTAL", self.total)])
    }
}

/// Appends the list of the clients' ledgers as of a day, which is compared with the reconciliation of that day (ABA
/// Model Rules for Client Trust Account Records): each matter that was open, its ledger and its client, then the firm's
/// own balance, and their sum, in cents. Matters take 14 places; amounts are right-aligned in 24, and a wider one is
/// printed whole.
///
/// The only error is out of memory; `out` is then unchanged.
pub fn clients_text(
    p: Day,
    lines: &[ClientLine],
    own: i128,
    total: i128,
    out: &mut Vec<u8>,
) -> Result<(), AllocError>
    ensures ok { OnOk result (out.new.items ≡ out.old.items ++ clients_text p lines.now own total) }
    ensures err { OnErr result (out.new.items ≡ out.old.items) }
{
    let own = Sum::Of(own);
    let total = Sum::Of(total);
    append(
        out,
        &Clients {
            p,
            lines,
            own,
            total,
        },
    )
}
