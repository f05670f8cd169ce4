// The reconciliation, and the exceptions.

ghost use Rattle.std.specs.Prelude.{◌≡◌, ◌++◌, OnOk, OnErr, flat_map};
ghost use Rattle.firm_figures.specs.Reconciliations.{told};
ghost use Rattle.trust_reports.specs.TextsOfLists.{exception_line, exceptions_text};
ghost use Rattle.trust_reports.specs.TextsOfReconciliation.{double_line, entry_line, listed_exception, opening_line, reconciliation_text};

use crate::page::{List, Page, Piece, Printed, Sum, append, push_columns, push_heading, push_line};
use firm_figures::{EntryLine, Issued, OpeningLine, Reconciliation};
use std::alloc::AllocError;
use trust_base::{Day, Line};

fn push_entries(page: &mut Page, word: &str, lines: &[EntryLine]) -> Result<(), AllocError>
    ensures before { page.new.before ≡ page.old.before }
    ensures text { OnOk result (page.new.text ≡ page.old.text ++ flat_map (entry_line word.now) lines.now) }
{
    for line in lines {
        let entry = Piece::Reference(line.matter, line.entry);
        let amount = Piece::Sum(line.amount as i128);
        push_line(
            page,
            &Piece::Word(word),
            &[entry, Piece::Day(line.day), amount],
        )?;
    }
    Ok(())
}

impl Printed for Line {
    ghost printed = { exception_line };

    fn push_to(&self, page: &mut Page) -> Result<(), AllocError> {
        push_line(
            page,
            &Piece::Day(self.date),
            &[
                Piece::OrDash(&self.reference),
                Piece::OrDash(&self.bank_ref),
                Piece::Bank(self.amount),
                Piece::Words(&self.text),
            ],
        )
    }
}

fn push_exceptions(page: &mut Page, lines: &[Line]) -> Result<(), AllocError>
    ensures before { page.new.before ≡ page.old.before }
    ensures text { OnOk result (page.new.text ≡ page.old.text ++ flat_map listed_exception lines.now) }
{
    for line in lines {
        page.push(b"EXCEPTION ")?;
        line.push_to(page)?;
    }
    Ok(())
}

impl Printed for Issued {
    ghost printed = { double_line };

    fn push_to(&self, page: &mut Page) -> Result<(), AllocError> {
        let amount = self.amount as i128;
        push_line(
            page,
            &Piece::Word("DOUBLE"),
            &[
                Piece::Reference(self.matter, self.entry),
                Piece::Day(self.day),
                Piece::Sum(amount),
                Piece::Label(&self.instrument),
            ],
        )
    }
}

impl Printed for OpeningLine {
    ghost printed = { opening_line };

    fn push_to(&self, page: &mut Page) -> Result<(), AllocError> {
        push_line(
            page,
            &Piece::Word("OPENING"),
            &[
                Piece::Day(self.day),
                Piece::Bank(self.amount),
                Piece::Word("AFTER"),
                Piece::Day(self.after),
                Piece::Bank(self.closing),
            ],
        )
    }
}

#[derive(Drop)]
struct Reconciled<'a> {
    p: Day,
    reconciliation: &'a Reconciliation,
}

impl Printed for Reconciled<'_> {
    ghost printed = { λ r. reconciliation_text r.p (told r.reconciliation.now) };

    fn push_to(&self, page: &mut Page) -> Result<(), AllocError> {
        let figures = &self.reconciliation.figures;
        let lists = &self.reconciliation.lists;
        push_heading(page, "RECONCILIATION", self.p)?;
        let rows = [
            ("CLOSING", Sum::Of(figures.closing as i128)),
            ("IN TRANSIT", Sum::Of(figures.transit)),
            ("OUTSTANDING", Sum::NegativeOf(figures.outstanding)),
            ("ADJUSTED BANK", Sum::Of(figures.adjusted)),
            ("JOURNAL", Sum::Of(figures.journal)),
            ("LEDGERS", Sum::Of(figures.ledgers)),
            ("DIFFERENCE", Sum::Of(figures.difference)),
            ("EXCEPTIONS", Sum::Of(figures.exceptions)),
            ("EARLY", Sum::Of(figures.early)),
            ("GAP", Sum::Of(figures.gap)),
        ];
        push_columns(page, 14, 24, &rows)?;
        push_entries(page, "TRANSIT", &lists.transit)?;
        push_entries(page, "OUT", &lists.out)?;
        push_exceptions(page, &lists.exceptions)?;
        push_entries(page, "EARLY", &lists.early)?;
        page.push_lines(&self.reconciliation.doubles)?;
        page.push_lines(&self.reconciliation.openings)
    }
}

/// Appends the three-way reconciliation as of a day (ABA Model Rules for Client Trust Account Records). First come the
/// ten figures in cents, OUTSTANDING as a negative; labels take 14 places, amounts are right-aligned in 24. Then come
/// the deposits in transit, the outstanding payments, the exceptions, what came early, the payments with the same
/// instrument as another, and the openings that differ from the closing before them.
///
/// The only error is out of memory; `out` is then unchanged.
pub fn reconciliation_text(
    p: Day,
    reconciliation: &Reconciliation,
    out: &mut Vec<u8>,
) -> Result<(), AllocError>
    ensures ok { OnOk result (out.new.items ≡ out.old.items ++ reconciliation_text p (told reconciliation.now)) }
    ensures err { OnErr result (out.new.items ≡ out.old.items) }
{
    append(out, &Reconciled { p, reconciliation })
}

/// Appends the exceptions on a business day: the bank lines that matched nothing in the books. Each has its date, its
/// reference, the bank's own reference, the signed amount in cents and the line's text. An empty field is printed as
/// `-`, and each character U+0000 to U+001F and U+007F to U+009F of the text as a space.
///
/// The only error is out of memory; `out` is then unchanged.
pub fn exceptions_text(today: Day, lines: &[Line], out: &mut Vec<u8>) -> Result<(), AllocError>
    ensures ok { OnOk result (out.new.items ≡ out.old.items ++ exceptions_text today lines.now) }
    ensures err { OnErr result (out.new.items ≡ out.old.items) }
{
    let name = "EXCEPTIONS";
    append(out, &List { name, today, lines })
}

/// Appends the line of one exception, as it is in the report of all of them.
///
/// The only error is out of memory; `out` is then unchanged.
pub fn exception_line(line: &Line, out: &mut Vec<u8>) -> Result<(), AllocError>
    ensures ok { OnOk result (out.new.items ≡ out.old.items ++ exception_line line.now) }
    ensures err { OnErr result (out.new.items ≡ out.old.items) }
{
    append(out, line)
}
