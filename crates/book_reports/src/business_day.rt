//! The reports of a firm on a business day.

ghost use Rattle.std.specs.Prelude.{◌≡◌, IfOk};
ghost use Rattle.book_reports.specs.ReportTexts.{report_text};
ghost use Rattle.book_reports.specs.declared.report.Report.{Report};
ghost use Rattle.trust_store.specs.Calls.{IsRead};

use crate::cleared_lines::{Beside, ClearedLines};
use crate::report::TodayReport;
use crate::text_sink::TextSink;
use crate::trail_sink::TrailSink;
use std::alloc::Global;
use trust_base::{Day, StoreFault};
use trust_reports::{
    JournalSink, RetentionSink, TrialSink, exceptions_text, journal_text, own_card_text,
    retention_text, trail_text, trial_text,
};
use trust_store::Book;

/// Returns the text of a report on a business day. What the rows of a trial balance show beside it is kept in `lines`.
///
/// Returns `Store` if the book's store failed, and `Memory` if memory ran out.
pub(crate) fn find_today_report<B: Book>(
    alloc: Global,
    book: &mut B,
    report: TodayReport,
    today: Day,
    lines: &mut ClearedLines,
) -> Result<Vec<u8>, StoreFault>
    ensures told { (B.seen book.new).clean → (B.seen book.old).stands
        → IfOk result (λ text. text.items ≡ report_text (Report.Today report) today (B.seen book.old).firm) }
    ensures read { IsRead result (B.seen book.old) (B.seen book.new) }
{
    let mut text = Vec::new(alloc);
    match report {
        TodayReport::Exceptions => {
            exceptions_text(today, &[], &mut text)?;
            let mut exceptions = TextSink::below(text);
            book.each_exception(&mut exceptions)?;
            Ok(exceptions.finish())
        }
        TodayReport::Trial => {
            let mut trial = Beside::of(alloc, TrialSink::new(alloc), lines);
            book.each_row(&mut trial)?;
            book.each_firm_line(&mut trial)?;
            let balance = trial.into_sink(lines).finish();
            trial_text(today, &balance.lines, balance.own, balance.total, &mut text)?;
            Ok(text)
        }
        TodayReport::Journal => {
            let mut journal = JournalSink::new(alloc);
            book.each_movement(&mut journal)?;
            journal_text(today, &journal.finish(), &mut text)?;
            Ok(text)
        }
        TodayReport::Retention => {
            let mut retention = RetentionSink::new(alloc, today);
            book.each_row(&mut retention)?;
            retention_text(today, &retention.finish(), &mut text)?;
            Ok(text)
        }
        TodayReport::OwnLedger => {
            let ledger = book.firm(alloc)?;
            own_card_text(today, &ledger, &mut text)?;
            Ok(text)
        }
        TodayReport::Trail => {
            let mut trail = TrailSink::new(alloc);
            book.each_act(&mut trail)?;
            book.each_row(&mut trail)?;
            book.each_dismissal(&mut trail)?;
            let is_late = trail.is_late(alloc)?;
            trail_text(today, is_late, &[], &[], &mut text)?;
            text.extend_from_slice(&trail.finish())?;
            Ok(text)
        }
    }
}
