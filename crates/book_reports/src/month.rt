//! The packet of month's end, made of one state of a book. Its rows are read once for all its parts.

ghost use Rattle.std.specs.Prelude.{◌≡◌, ◌++◌, IfOk, OnOk};
ghost use Rattle.std.specs.Option.{option_map};
ghost use Rattle.firm_rows.specs.Firm.{Firm};
ghost use Rattle.firm_rows.specs.FirmSound.{FirmSound};
ghost use Rattle.book_reports.specs.DayReports.{IsAppended};
ghost use Rattle.book_reports.specs.Month.{IsMonthRead};
ghost use Rattle.book_reports.specs.ReportTexts.{limits_of};
ghost use Rattle.book_reports.specs.declared.report.Report.{Report};
ghost use Rattle.book_reports.specs.Reports.{has_no_statement, month_report, text_of};
ghost use Rattle.trust_reports.specs.Reconciliations.{told};
ghost use Rattle.trust_store.specs.Calls.{IsRead};

use crate::day_reports::{Limits, read_acts};
use crate::report::DayReport;
use firm_periods::{MonthParts, MonthSink};
use std::alloc::{AllocError, Global};
use trust_base::{Day, MatterNo, Period, StoreFault};
use trust_reports::{
    Reconciliation, approvals_text, clients_text, disbursements_text, outstanding_text,
    receipts_text, reconciliation_text,
};
use trust_store::Book;

// The parts of a packet, and the matters that the rows of the trail name which can't be read.
#[derive(Drop)]
struct ReadMonth {
    parts: MonthParts,
    unread: Vec<Option<MatterNo>>,
}

// Reads the parts of a packet as of a day: all acts that can be read, and then each row once.
fn read_month<B: Book>(alloc: Global, book: &mut B, day: Day) -> Result<ReadMonth, StoreFault>
    ensures told { (B.seen book.new).clean → (B.seen book.old).stands
        → IfOk result (IsMonthRead day (B.seen book.old).firm) }
    ensures read { IsRead result (B.seen book.old) (B.seen book.new) }
{
    let read = read_acts(alloc, book, Period::month_to(day))?;
    let mut sink = MonthSink::new(alloc, day, read.approvals);
    book.each_row(&mut sink)?;
    book.each_movement(&mut sink)?;
    book.each_firm_line(&mut sink)?;
    let mut parts = sink.finish(alloc)?;
    book.each_exception(&mut parts.reconciliation)?;
    book.each_balance(&mut parts.reconciliation)?;
    let unread = read.unread;
    Ok(ReadMonth { parts, unread })
}

// Appends a reconciliation, if there is one.
fn append_found(
    day: Day,
    found: &Option<Reconciliation>,
    text: &mut Vec<u8>,
) -> Result<(), AllocError>
    ensures { OnOk result (text.new.items ≡ text.old.items ++ text_of day (option_map told found.now)) }
{
    match found {
        Some(reconciliation) => reconciliation_text(day, reconciliation, text),
        None => Ok(()),
    }
}

// Appends the packet of which these are the parts.
fn push_month(
    alloc: Global,
    day: Day,
    read: ReadMonth,
    text: &mut Vec<u8>,
) -> Result<Limits, AllocError>
    ensures { (firm : Firm) → FirmSound firm → IsMonthRead day firm read → IfOk result (λ limits. IsAppended limits
        (has_no_statement day firm) (limits_of (Report.AsOf DayReport.Month day) firm).is_purged
        text.old.items (month_report day firm) text.new.items) }
{
    let ReadMonth { parts, unread } = read;
    let month = Period::month_to(day);
    let is_purged = parts.reconciliation.is_period_purged() | parts.is_purged;
    let found = parts.reconciliation.finish(alloc)?;
    let lacks_statement = found.is_none();
    let clients = parts.clients.finish();
    append_found(day, &found, text)?;
    text.push(b'\n')?;
    clients_text(day, &clients.lines, clients.own, clients.total, text)?;
    text.push(b'\n')?;
    outstanding_text(day, &parts.transit, &parts.outstanding, text)?;
    text.push(b'\n')?;
    receipts_text(month, &parts.receipts, text)?;
    text.push(b'\n')?;
    disbursements_text(month, &parts.disbursements, text)?;
    text.push(b'\n')?;
    approvals_text(month, &parts.approvals, &unread, text)?;
    Ok(Limits {
        lacks_statement,
        is_purged,
    })
}

/// Appends the packet of month's end: the reconciliation of a day, the list of clients, what waits for the bank, and the
/// receipts, the disbursements and the approvals from the first of the month to the day.
///
/// Returns `Store` if the book's store failed, and `Memory` if memory ran out.
pub(crate) fn append_month<B: Book>(
    alloc: Global,
    book: &mut B,
    day: Day,
    text: &mut Vec<u8>,
) -> Result<Limits, StoreFault>
    ensures told { (B.seen book.new).clean → (B.seen book.old).stands → IfOk result (λ limits. IsAppended limits
        (has_no_statement day (B.seen book.old).firm)
        (limits_of (Report.AsOf DayReport.Month day) (B.seen book.old).firm).is_purged
        text.old.items (month_report day (B.seen book.old).firm) text.new.items) }
    ensures read { IsRead result (B.seen book.old) (B.seen book.new) }
{
    let read = read_month(alloc, book, day)?;
    Ok(push_month(alloc, day, read, text)?)
}
