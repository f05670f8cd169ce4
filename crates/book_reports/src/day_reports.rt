//! The reports of a firm as of a day and of a period, each made of one state of a book.

ghost use Rattle.std.specs.Prelude.{◌≡◌, ℕ, IfOk, false};
ghost use Rattle.book_reports.specs.DayReports.{AreActsRead, AreApprovalsRead, IsAppended, IsListed};
ghost use Rattle.book_reports.specs.Kept.{IsKeptOf};
ghost use Rattle.book_reports.specs.ReportTexts.{limits_of, report_text};
ghost use Rattle.book_reports.specs.declared.report.Report.{Report};
ghost use Rattle.book_reports.specs.Reports.{approvals_report, clients_report, disbursements_report, has_no_statement, is_period_purged, is_purged_at, is_purged_within, outstanding_report, receipts_report, reconciliation_report};
ghost use Rattle.trust_store.specs.Calls.{IsRead};

use crate::cleared_lines::{Beside, ClearedLines};
use crate::month::append_month;
use crate::report::{DayReport, PeriodReport};
use crate::unread_acts::matters_of;
use firm_periods::{ApprovalsSink, NamedList, NamedSink, Pick};
use std::alloc::Global;
use trust_base::{Day, MatterNo, Period, StoreFault};
use trust_reports::{
    ClientsSink, ReconciliationSink, approvals_text, clients_text, disbursements_text,
    outstanding_text, receipts_text, reconciliation_text,
};
use trust_store::Book;

/// Why a report may be refused.
#[derive(Clone, Copy)]
pub struct Limits {
    /// No closing balance is kept of the day, and the report wants one.
    pub lacks_statement: bool,
    /// A matter has been purged since whose records the report wants.
    pub is_purged: bool,
}

// Hands all rows of a book to the sink of a reconciliation. What the rows of matters and the firm's own lines show
// beside it is kept in `lines`.
//
// Returns `Store` if the book's store failed, and `Memory` if memory ran out.
fn read_reconciliation<B: Book>(
    alloc: Global,
    book: &mut B,
    as_of: Day,
    lines: &mut ClearedLines,
) -> Result<ReconciliationSink, StoreFault>
    ensures kept { (B.seen book.new).clean → (B.seen book.old).stands
        → IfOk result (λ sink. IsKeptOf as_of (B.seen book.old).firm sink) }
    ensures read { IsRead result (B.seen book.old) (B.seen book.new) }
{
    let mut sink = Beside::of(alloc, ReconciliationSink::new(alloc, as_of), lines);
    book.each_row(&mut sink)?;
    book.each_movement(&mut sink)?;
    book.each_firm_line(&mut sink)?;
    book.each_exception(&mut sink)?;
    book.each_balance(&mut sink)?;
    Ok(sink.into_sink(lines))
}

// Appends the reconciliation of a day; nothing if no closing balance of the day is kept. What the rows of matters and
// the firm's own lines show beside it is kept in `lines`.
fn append_reconciliation<B: Book>(
    alloc: Global,
    book: &mut B,
    as_of: Day,
    lines: &mut ClearedLines,
    text: &mut Vec<u8>,
) -> Result<Limits, StoreFault>
    ensures told { (B.seen book.new).clean → (B.seen book.old).stands → IfOk result (λ limits. IsAppended limits
        (has_no_statement as_of (B.seen book.old).firm) (is_period_purged as_of (B.seen book.old).firm)
        text.old.items (reconciliation_report as_of (B.seen book.old).firm) text.new.items) }
    ensures read { IsRead result (B.seen book.old) (B.seen book.new) }
{
    let sink = read_reconciliation(alloc, book, as_of, lines)?;
    let is_purged = sink.is_period_purged();
    let Some(reconciliation) = sink.finish(alloc)? else {
        return Ok(Limits {
            lacks_statement: true,
            is_purged,
        });
    };
    reconciliation_text(as_of, &reconciliation, text)?;
    Ok(Limits {
        lacks_statement: false,
        is_purged,
    })
}

// Appends the list of clients as of a day.
fn append_clients<B: Book>(
    alloc: Global,
    book: &mut B,
    as_of: Day,
    text: &mut Vec<u8>,
) -> Result<Limits, StoreFault>
    ensures told { (B.seen book.new).clean → (B.seen book.old).stands → IfOk result (λ limits. IsAppended limits
        false (is_purged_at as_of (B.seen book.old).firm)
        text.old.items (clients_report as_of (B.seen book.old).firm) text.new.items) }
    ensures read { IsRead result (B.seen book.old) (B.seen book.new) }
{
    let mut clients = ClientsSink::new(alloc, as_of);
    book.each_row(&mut clients)?;
    book.each_firm_line(&mut clients)?;
    let is_purged = clients.is_day_purged();
    let list = clients.finish();
    clients_text(as_of, &list.lines, list.own, list.total, text)?;
    Ok(Limits {
        lacks_statement: false,
        is_purged,
    })
}

// Movements with their names, and whether a purge may have cut their list.
#[derive(Drop)]
struct ReadList {
    list: NamedList,
    is_purged: bool,
}

// Reads the movements of a list.
fn read_named<B: Book>(alloc: Global, book: &mut B, pick: Pick) -> Result<ReadList, StoreFault>
    ensures told { (B.seen book.new).clean → (B.seen book.old).stands
        → IfOk result (λ named. IsListed pick (B.seen book.old).firm named) }
    ensures read { IsRead result (B.seen book.old) (B.seen book.new) }
{
    let mut moves = NamedSink::new(alloc, pick);
    book.each_row(&mut moves)?;
    book.each_firm_line(&mut moves)?;
    let is_purged = moves.is_period_purged();
    let list = moves.finish()?;
    Ok(ReadList { list, is_purged })
}

// Appends what waits for the bank as of a day.
fn append_outstanding<B: Book>(
    alloc: Global,
    book: &mut B,
    as_of: Day,
    text: &mut Vec<u8>,
) -> Result<Limits, StoreFault>
    ensures told { (B.seen book.new).clean → (B.seen book.old).stands → IfOk result (λ limits. IsAppended limits
        false (is_purged_at as_of (B.seen book.old).firm)
        text.old.items (outstanding_report as_of (B.seen book.old).firm) text.new.items) }
    ensures read { IsRead result (B.seen book.old) (B.seen book.new) }
{
    let transit = read_named(alloc, book, Pick::Transit(as_of))?;
    let out = read_named(alloc, book, Pick::Outstanding(as_of))?;
    outstanding_text(as_of, &transit.list, &out.list, text)?;
    Ok(Limits {
        lacks_statement: false,
        is_purged: out.is_purged,
    })
}

// Appends the receipts of a period.
fn append_receipts<B: Book>(
    alloc: Global,
    book: &mut B,
    period: Period,
    text: &mut Vec<u8>,
) -> Result<Limits, StoreFault>
    ensures told { (B.seen book.new).clean → (B.seen book.old).stands → IfOk result (λ limits. IsAppended limits
        false (is_purged_within period (B.seen book.old).firm)
        text.old.items (receipts_report period (B.seen book.old).firm) text.new.items) }
    ensures read { IsRead result (B.seen book.old) (B.seen book.new) }
{
    let named = read_named(alloc, book, Pick::Receipts(period))?;
    receipts_text(period, &named.list, text)?;
    Ok(Limits {
        lacks_statement: false,
        is_purged: named.is_purged,
    })
}

// Appends the disbursements of a period.
fn append_disbursements<B: Book>(
    alloc: Global,
    book: &mut B,
    period: Period,
    text: &mut Vec<u8>,
) -> Result<Limits, StoreFault>
    ensures told { (B.seen book.new).clean → (B.seen book.old).stands → IfOk result (λ limits. IsAppended limits
        false (is_purged_within period (B.seen book.old).firm)
        text.old.items (disbursements_report period (B.seen book.old).firm) text.new.items) }
    ensures read { IsRead result (B.seen book.old) (B.seen book.new) }
{
    let named = read_named(alloc, book, Pick::Disbursements(period))?;
    disbursements_text(period, &named.list, text)?;
    Ok(Limits {
        lacks_statement: false,
        is_purged: named.is_purged,
    })
}

/// The approvals of a period, and the matters that the rows of the trail may be of which can't be read.
#[derive(Drop)]
pub(crate) struct ReadApprovals {
    pub(crate) approvals: ApprovalsSink,
    pub(crate) unread: Vec<Option<MatterNo>>,
}

/// Reads the acts of the approvals of a period: those that can be read, and the matters that the others may be of.
pub(crate) fn read_acts<B: Book>(
    alloc: Global,
    book: &mut B,
    period: Period,
) -> Result<ReadApprovals, StoreFault>
    ensures told { (B.seen book.new).clean → (B.seen book.old).stands
        → IfOk result (AreActsRead period (B.seen book.old).firm) }
    ensures read { IsRead result (B.seen book.old) (B.seen book.new) }
{
    let mut approvals = ApprovalsSink::new(alloc, period);
    let rows = book.each_readable_act(alloc, &mut approvals)?;
    let dismissals = book.unread_dismissals(alloc)?;
    let unread = matters_of(alloc, &rows, &dismissals)?;
    Ok(ReadApprovals { approvals, unread })
}

// Hands all acts that can be read, and then all rows of a book, to the sink of the approvals of a period.
fn read_approvals<B: Book>(
    alloc: Global,
    book: &mut B,
    period: Period,
) -> Result<ReadApprovals, StoreFault>
    ensures told { (B.seen book.new).clean → (B.seen book.old).stands
        → IfOk result (AreApprovalsRead period (B.seen book.old).firm) }
    ensures read { IsRead result (B.seen book.old) (B.seen book.new) }
{
    let mut read = read_acts(alloc, book, period)?;
    book.each_row(&mut read.approvals)?;
    Ok(read)
}

// Appends the approvals of a period, also where some acts can't be read.
fn append_approvals<B: Book>(
    alloc: Global,
    book: &mut B,
    period: Period,
    text: &mut Vec<u8>,
) -> Result<Limits, StoreFault>
    ensures told { (B.seen book.new).clean → (B.seen book.old).stands → IfOk result (λ limits. IsAppended limits
        false (is_purged_within period (B.seen book.old).firm)
        text.old.items (approvals_report period (B.seen book.old).firm) text.new.items) }
    ensures read { IsRead result (B.seen book.old) (B.seen book.new) }
{
    let read = read_approvals(alloc, book, period)?;
    let is_purged = read.approvals.is_period_purged();
    let lines = read.approvals.finish(alloc)?;
    approvals_text(period, &lines, &read.unread, text)?;
    Ok(Limits {
        lacks_statement: false,
        is_purged,
    })
}

/// Appends a report of a period.
///
/// Returns `Store` if the book's store failed, and `Memory` if memory ran out.
pub(crate) fn append_period_report<B: Book>(
    alloc: Global,
    book: &mut B,
    report: PeriodReport,
    period: Period,
    text: &mut Vec<u8>,
) -> Result<Limits, StoreFault>
    ensures told { (B.seen book.new).clean → (B.seen book.old).stands → IfOk result (λ limits. (today : ℕ)
        → IsAppended limits false (is_purged_within period (B.seen book.old).firm) text.old.items
        (report_text (Report.Within report period) today (B.seen book.old).firm) text.new.items) }
    ensures read { IsRead result (B.seen book.old) (B.seen book.new) }
{
    match report {
        PeriodReport::Receipts => append_receipts(alloc, book, period, text),
        PeriodReport::Disbursements => append_disbursements(alloc, book, period, text),
        PeriodReport::Approvals => append_approvals(alloc, book, period, text),
    }
}

/// Appends a report as of a day. What the rows of a reconciliation show beside it is kept in `lines`.
///
/// Returns `Store` if the book's store failed, and `Memory` if memory ran out.
pub(crate) fn append_day_report<B: Book>(
    alloc: Global,
    book: &mut B,
    report: DayReport,
    as_of: Day,
    lines: &mut ClearedLines,
    text: &mut Vec<u8>,
) -> Result<Limits, StoreFault>
    ensures told { (B.seen book.new).clean → (B.seen book.old).stands → IfOk result (λ limits. (today : ℕ)
        → IsAppended limits (limits_of (Report.AsOf report as_of) (B.seen book.old).firm).lacks_statement
        (limits_of (Report.AsOf report as_of) (B.seen book.old).firm).is_purged text.old.items
        (report_text (Report.AsOf report as_of) today (B.seen book.old).firm) text.new.items) }
    ensures read { IsRead result (B.seen book.old) (B.seen book.new) }
{
    match report {
        DayReport::Reconciliation => append_reconciliation(alloc, book, as_of, lines, text),
        DayReport::Clients => append_clients(alloc, book, as_of, text),
        DayReport::Outstanding => append_outstanding(alloc, book, as_of, text),
        DayReport::Month => append_month(alloc, book, as_of, text),
    }
}
