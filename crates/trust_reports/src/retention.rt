// The retention list.

ghost use Rattle.std.specs.Prelude.{◌≡◌, [], ◌∷◌, ◌++◌, OnOk, OnErr, codes, flat_map};
ghost use Rattle.trust_base.specs.Texts.{day_text, matter_text};
ghost use Rattle.trust_reports.specs.Texts.{further};
ghost use Rattle.trust_reports.specs.TextsOfLists.{purge_fields, retention_line, retention_text};

use crate::page::{List, Page, Piece, Printed, append, matter_digits, push_fields, push_word};
use firm_figures::RetentionLine;
use std::alloc::AllocError;
use trust_base::Day;

fn push_days(page: &mut Page, line: &RetentionLine) -> Result<(), AllocError>
    ensures before { page.new.before ≡ page.old.before }
    ensures text { OnOk result (page.new.text ≡ page.old.text ++ (matter_text line.now.matter
        ++ flat_map further
        (codes "CLOSED" ∷ day_text line.now.closed ∷ codes "KEEP UNTIL" ∷ day_text line.now.until ∷ []))) }
{
    page.push(&matter_digits(line.matter))?;
    let fields = [
        Piece::Word("CLOSED"),
        Piece::Day(line.closed),
        Piece::Word("KEEP UNTIL"),
        Piece::LastDay(line.until),
    ];
    push_fields(page, &fields)
}

fn push_may_purge(page: &mut Page, line: &RetentionLine) -> Result<(), AllocError>
    ensures before { page.new.before ≡ page.old.before }
    ensures text { OnOk result (page.new.text ≡ page.old.text ++ flat_map further (purge_fields line.now)) }
{
    if line.may_purge {
        push_word(page, "MAY PURGE")?;
    }
    Ok(())
}

impl Printed for RetentionLine {
    ghost printed = { retention_line };

    fn push_to(&self, page: &mut Page) -> Result<(), AllocError> {
        push_days(page, self)?;
        push_may_purge(page, self)?;
        page.push(b"\n")?;
        Ok(())
    }
}

/// Appends the retention list on a business day. Each given closed matter has the day it was closed, the last day on
/// which its records are kept, five years later (ABA Model Rule 1.15(a)), and whether it may be purged. That last day
/// may lie after 2199.
///
/// The only error is out of memory; `out` is then unchanged.
pub fn retention_text(
    today: Day,
    lines: &[RetentionLine],
    out: &mut Vec<u8>,
) -> Result<(), AllocError>
    ensures ok { OnOk result (out.new.items ≡ out.old.items ++ retention_text today lines.now) }
    ensures err { OnErr result (out.new.items ≡ out.old.items) }
{
    let name = "RETENTION";
    append(out, &List { name, today, lines })
}
