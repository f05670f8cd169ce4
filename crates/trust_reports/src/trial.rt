// The trial balance.

ghost use Rattle.std.specs.Prelude.{◌≡◌, ◌++◌, OnOk, OnErr, codes, flat_map};
ghost use Rattle.trust_reports.specs.Pieces.{sum_text};
ghost use Rattle.trust_reports.specs.Texts.{column, heading};
ghost use Rattle.trust_reports.specs.TextsOfLists.{trial_line, trial_text};

use crate::page::{
    Page, Printed, Sum, append, matter_digits, push_column, push_columns, push_heading,
};
use firm_figures::TrialLine;
use std::alloc::AllocError;
use trust_base::Day;

impl Printed for TrialLine {
    ghost printed = { trial_line };

    fn push_to(&self, page: &mut Page) -> Result<(), AllocError> {
        let matter = matter_digits(self.matter);
        push_column(page, 14, 24, &matter, Sum::Of(self.ledger))
    }
}

#[derive(Drop)]
struct Trial<'a> {
    today: Day,
    lines: &'a [TrialLine],
    own: Sum,
    total: Sum,
}

impl Printed for Trial<'_> {
    ghost printed = { λ t. heading (codes "TRIAL BALANCE") t.today
        ++ (flat_map trial_line t.lines.now
        ++ (column 14 24 (codes "FIRM") (sum_text t.own) ++ column 14 24 (codes "TOTAL") (sum_text t.total))) };

    fn push_to(&self, page: &mut Page) -> Result<(), AllocError> {
        push_heading(page, "TRIAL BALANCE", self.today)?;
        page.push_lines(self.lines)?;
        push_columns(page, 14, 24, &[("FIRM", self.own), ("TOTAL", self.total)])
    }
}

/// Appends the trial balance on a business day, the list of client ledgers required at each reconciliation (ABA Model
/// Rules for Client Trust Account Records): the ledger of each open matter, the firm's own balance, and their sum, in
/// cents. Matters take 14 places; amounts are right-aligned in 24, and a wider one is printed whole.
///
/// The only error is out of memory; `out` is then unchanged.
pub fn trial_text(
    today: Day,
    lines: &[TrialLine],
    own: i128,
    total: i128,
    out: &mut Vec<u8>,
) -> Result<(), AllocError>
    ensures ok { OnOk result (out.new.items ≡ out.old.items ++ trial_text today lines.now own total) }
    ensures err { OnErr result (out.new.items ≡ out.old.items) }
{
    let own = Sum::Of(own);
    let total = Sum::Of(total);
    append(
        out,
        &Trial {
            today,
            lines,
            own,
            total,
        },
    )
}
