//! A report of a firm on a business day, made of one state of any book.

ghost use Rattle.std.specs.Prelude.{IfOk};
ghost use Rattle.book_reports.specs.ReportTexts.{IsReportOf};
ghost use Rattle.trust_store.specs.Calls.{IsRead};

use crate::business_day::find_today_report;
use crate::cleared_lines::ClearedLines;
use crate::day_reports::{Limits, append_day_report, append_period_report};
use crate::report::Report;
use std::alloc::Global;
use trust_base::{Day, StoreFault};
use trust_store::Book;

/// A report, and why it may be refused.
#[derive(Drop)]
pub struct FoundReport {
    /// Why it may be refused.
    pub limits: Limits,
    /// Its text; of a reconciliation nothing if no closing balance of its day is kept.
    pub text: Vec<u8>,
}

/// Returns a report on a business day. What the rows of a trial balance or a reconciliation show beside it is kept in
/// `lines`.
///
/// Returns `Store` if the book's store failed, and `Memory` if memory ran out.
pub fn find_report<B: Book>(
    alloc: Global,
    book: &mut B,
    report: Report,
    today: Day,
    lines: &mut ClearedLines,
) -> Result<FoundReport, StoreFault>
    ensures told { (B.seen book.new).clean → (B.seen book.old).stands
        → IfOk result (IsReportOf report today (B.seen book.old).firm) }
    ensures read { IsRead result (B.seen book.old) (B.seen book.new) }
{
    let mut text = Vec::new(alloc);
    match report {
        Report::Today(report) => {
            let text = find_today_report(alloc, book, report, today, lines)?;
            let limits = Limits {
                lacks_statement: false,
                is_purged: false,
            };
            Ok(FoundReport { limits, text })
        }
        Report::AsOf(report, as_of) => {
            let limits = append_day_report(alloc, book, report, as_of, lines, &mut text)?;
            Ok(FoundReport { limits, text })
        }
        Report::Within(report, period) => {
            let limits = append_period_report(alloc, book, report, period, &mut text)?;
            Ok(FoundReport { limits, text })
        }
    }
}
