// Prints the reports that commands ask for.

ghost use Rattle.std.specs.Prelude.{◌≡◌, ◌≢◌, Result};
ghost use Rattle.trust_base.specs.declared.refusal.StoreFault.{StoreFault};
ghost use Rattle.trust_desk.specs.Answered.{IfServed};
ghost use Rattle.trust_desk.specs.Calls.{KeepsBook};
ghost use Rattle.portal_http.specs.Output.{output_of};
ghost use Rattle.cashier.specs.Calls.{CountsStore, IfSure, LeavesSame};
ghost use Rattle.cashier.specs.Report.{PrintsReport, asked_for};
ghost use Rattle.trust_store.specs.Calls.{IsRead};

use crate::exception_telling::ExceptionTelling;
use crate::outcome::{Outcome, outcome_of_reply, write_reply};
use crate::report_telling::{
    ActTelling, NowReport, NowTelling, PaymentTelling, PurgedTelling, TwiceTelling,
};
use cashier_remarks::{Remark, Remarks, ReportRemark};
use command_line::ReportCommand;
use std::alloc::Global;
use std::io::Write;
use trust_base::{Day, MatterNo, Refusal, StoreFault};
use trust_desk::{
    Body, ClearedLines, DayReport, Desk, PeriodReport, Report, Request, RowWatch, TodayReport,
    WantedRecords,
};
use trust_matter::{Ask, Caller};
use trust_store::Book;

// The cashier's request for a report.
fn request_for(command: ReportCommand) -> Request
    ensures { result ≡ asked_for command }
{
    match command {
        ReportCommand::Ledger(no) => Request::Matter {
            no,
            caller: Caller::Cashier,
            ask: Ask::Accounting,
        },
        ReportCommand::Account(no, period) => Request::Matter {
            no,
            caller: Caller::Cashier,
            ask: Ask::Account(period),
        },
        ReportCommand::Trail(no) => Request::Trail(Caller::Cashier, no),
        ReportCommand::Firm(report) => Request::Report(Caller::Cashier, report),
    }
}

// Prints a report of a desk's book on a business day, or the line of its refusal. What its rows show beside it is kept
// in `lines`, and in `is_purged` whether it is refused since a matter was purged.
fn print_report<W: Write, B: Book>(
    alloc: Global,
    command: ReportCommand,
    today: Day,
    desk: &mut Desk<B>,
    lines: &mut ClearedLines,
    is_purged: &mut bool,
    writer: &mut W,
) -> Outcome
    ensures kept { KeepsBook (CountsStore Outcome.StoreFault result) (B.seen desk.old) (B.seen desk.new) }
    ensures began { result ≢ Outcome.CommandLine }
    // If the text or a refusal was written, the store has met no fault.
    ensures serves { result ≡ Outcome.Done → (B.seen desk.new).sure → (B.seen desk.old).clean
        → (B.seen desk.old).stands → (B.seen desk.new).clean }
    ensures refuses { result ≡ Outcome.Refused → (B.seen desk.new).sure → (B.seen desk.old).clean
        → (B.seen desk.old).stands → (B.seen desk.new).clean }
    ensures ends { IfServed (B.seen desk.old) (B.seen desk.new)
        (PrintsReport today command (output_of W.contents writer.old writer.new) result) }
    ensures crash { IfSure (B.seen desk.old) (B.seen desk.new)
        (LeavesSame (B.seen desk.old) (B.seen desk.new)) }
{
    let reply = desk.answer_beside(alloc, &request_for(command), today, lines);
    *is_purged = matches!(&reply.body, Body::Refused(Refusal::PeriodPurged));
    let Ok(()) = write_reply(writer, &reply) else {
        return Outcome::OutputFault;
    };
    outcome_of_reply(&reply)
}

// Reports what the rows of a report showed, and whether memory ran out for it.
fn tell_lines<M: Remarks, V: RowWatch>(remarks: &M, watch: &V, lines: ClearedLines) {
    if lines.tell(watch).is_err() {
        let fault = StoreFault::Memory;
        remarks.tell(&Remark::Report(ReportRemark::RowsEnd(fault)));
    }
}

// Reports what the rows of a desk's book show in addition to a report of a day, and which fault ended that, if any.
fn tell_rows<M: Remarks, V: RowWatch, B: Book>(
    alloc: Global,
    remarks: &M,
    watch: &V,
    desk: &mut Desk<B>,
    day: Day,
)
    ensures { (told : Result Unit StoreFault) × IsRead told (B.seen desk.old) (B.seen desk.new) }
{
    if let Err(fault) = desk.tell_rows(alloc, day, watch) {
        remarks.tell(&Remark::Report(ReportRemark::RowsEnd(fault)));
    }
}

// Reports why each exception of a desk's book is one on a business day, which bank lines look like the same line, and
// which fault ended that, if any.
fn tell_reasons<M: Remarks, B: Book>(alloc: Global, remarks: &M, desk: &mut Desk<B>, today: Day)
    ensures { (told : Result Unit StoreFault) × IsRead told (B.seen desk.old) (B.seen desk.new) }
{
    let telling = ExceptionTelling { today, remarks };
    match desk.tell_exceptions(alloc, today, &telling) {
        Ok(()) => tell_rows(alloc, remarks, &TwiceTelling { remarks }, desk, today),
        Err(fault) => remarks.tell(&Remark::Report(ReportRemark::ExceptionsEnd(fault))),
    }
}

// Reports which payments on an account of a matter the bank has long not shown, and which fault ended that, if any.
fn tell_payments<M: Remarks, B: Book>(
    alloc: Global,
    matter: MatterNo,
    telling: &PaymentTelling<'_, M>,
    desk: &mut Desk<B>,
)
    ensures { (told : Result Unit StoreFault) × IsRead told (B.seen desk.old) (B.seen desk.new) }
{
    if let Err(fault) = desk.tell_outstanding(alloc, matter, telling) {
        telling
            .remarks
            .tell(&Remark::Report(ReportRemark::RowsEnd(fault)));
    }
}

// Reports which payments of all matters the bank has long not shown, and which fault ended that, if any.
fn tell_waiting<M: Remarks, B: Book>(
    alloc: Global,
    telling: &PaymentTelling<'_, M>,
    desk: &mut Desk<B>,
)
    ensures { (told : Result Unit StoreFault) × IsRead told (B.seen desk.old) (B.seen desk.new) }
{
    if let Err(fault) = desk.tell_waiting(alloc, telling) {
        telling
            .remarks
            .tell(&Remark::Report(ReportRemark::RowsEnd(fault)));
    }
}

// Reports which rows of the trail can't be read, and which fault ended that, if any.
fn tell_unread<M: Remarks, B: Book>(alloc: Global, remarks: &M, desk: &mut Desk<B>)
    ensures { (told : Result Unit StoreFault) × IsRead told (B.seen desk.old) (B.seen desk.new) }
{
    if let Err(fault) = desk.tell_unread(alloc, &ActTelling { remarks }) {
        remarks.tell(&Remark::Report(ReportRemark::RowsEnd(fault)));
    }
}

// Reports beside a packet of month's end which payments the bank has long not shown, which rows of the trail can't be
// read, and which fault ended that, if any.
fn tell_month<M: Remarks, B: Book>(
    alloc: Global,
    telling: &PaymentTelling<'_, M>,
    desk: &mut Desk<B>,
)
    ensures { (told : Result Unit StoreFault) × IsRead told (B.seen desk.old) (B.seen desk.new) }
{
    match desk.tell_waiting(alloc, telling) {
        Ok(()) => tell_unread(alloc, telling.remarks, desk),
        Err(fault) => {
            telling
                .remarks
                .tell(&Remark::Report(ReportRemark::RowsEnd(fault)))
        }
    }
}

// Which matters' records a report wants; None for one that wants those of all that are there.
fn records_wanted(command: &ReportCommand) -> Option<WantedRecords> {
    match command {
        ReportCommand::Firm(Report::AsOf(report, day)) => Some(match report {
            DayReport::Reconciliation => WantedRecords::ClosedAfter(*day),
            DayReport::Clients | DayReport::Outstanding => WantedRecords::OpenAt(*day),
            DayReport::Month => WantedRecords::OfMonth(*day),
        }),
        ReportCommand::Firm(Report::Within(_, period)) => Some(WantedRecords::OpenWithin(*period)),
        ReportCommand::Firm(Report::Today(_))
        | ReportCommand::Ledger(_)
        | ReportCommand::Account(_, _)
        | ReportCommand::Trail(_) => None,
    }
}

// Reports for which purged matters a report was refused, and which fault ended that, if any.
fn tell_purged<M: Remarks, B: Book>(
    alloc: Global,
    remarks: &M,
    desk: &mut Desk<B>,
    wanted: WantedRecords,
)
    ensures { (told : Result Unit StoreFault) × IsRead told (B.seen desk.old) (B.seen desk.new) }
{
    if let Err(fault) = desk.tell_purged(alloc, wanted, &PurgedTelling { remarks }) {
        remarks.tell(&Remark::Report(ReportRemark::RowsEnd(fault)));
    }
}

// Reports that a report goes up to a day that is after the business day.
fn tell_of_day_to_come<M: Remarks>(remarks: &M, command: ReportCommand, today: Day) {
    let last = match &command {
        ReportCommand::Firm(Report::AsOf(_, day)) => *day,
        ReportCommand::Firm(Report::Within(_, period)) => period.to(),
        ReportCommand::Account(_, period) => period.to(),
        ReportCommand::Firm(Report::Today(_))
        | ReportCommand::Ledger(_)
        | ReportCommand::Trail(_) => return,
    };
    if today.get() < last.get() {
        remarks.tell(&Remark::Report(ReportRemark::ToCome { today, last }));
    }
}

/// Prints a report of a desk's book on a business day, as the cashier: its text as it is, or the line of its refusal.
/// After a report up to a day that has not come, a person is told so. After the exceptions, why each is one, or that an
/// import would now accept it. After these and a reconciliation, which bank lines look like the same line. After a
/// trial balance or a journal of a day that `is_past`, that there is later work. After an account, a reconciliation,
/// what waits for the bank, and a packet of month's end, which of its payments the bank has not shown for more than 180
/// days. After the approvals and a packet of month's end, which rows of the trail can't be read. After a refusal
/// because of purged matters, which they are. The contract does not say what is told. A fault that ends it is reported
/// too, but is not a fault of the run. If nobody is told, the book is not read for it.
///
/// The outcome is `Done` if the text was written, and `Refused` if the line of a refusal was. If the store failed or
/// memory ran out, the line for that was printed, and it is `StoreFault` or `MemoryFault`. If a write failed, it is
/// `OutputFault`, and only a prefix of the text or line was written. Nothing is read.
pub fn run_report<M: Remarks, W: Write, B: Book>(
    alloc: Global,
    command: ReportCommand,
    remarks: &M,
    writer: &mut W,
    desk: &mut Desk<B>,
    today: Day,
    is_past: bool,
) -> Outcome
    ensures began { result ≢ Outcome.CommandLine }
    ensures ends { IfServed (B.seen desk.old) (B.seen desk.new)
        (PrintsReport today command (output_of W.contents writer.old writer.new) result) }

    // It ends with `StoreFault` only if a call of the book returned `Store`.
    ensures kept { KeepsBook (CountsStore Outcome.StoreFault result) (B.seen desk.old) (B.seen desk.new) }
    ensures crash { IfSure (B.seen desk.old) (B.seen desk.new)
        (LeavesSame (B.seen desk.old) (B.seen desk.new)) }
{
    let mut lines = match &command {
        ReportCommand::Firm(Report::AsOf(DayReport::Reconciliation, day)) if remarks.are_told() => {
            ClearedLines::up_to(alloc, *day)
        }
        ReportCommand::Firm(_)
        | ReportCommand::Ledger(_)
        | ReportCommand::Account(_, _)
        | ReportCommand::Trail(_) => ClearedLines::none(alloc),
    };
    let mut is_purged = false;
    let outcome = print_report(
        alloc,
        command,
        today,
        desk,
        &mut lines,
        &mut is_purged,
        writer,
    );
    if !remarks.are_told() {
        return outcome;
    }
    if let Outcome::Refused = outcome {
        let wanted = if is_purged {
            records_wanted(&command)
        } else {
            None
        };
        if let Some(wanted) = wanted {
            tell_purged(alloc, remarks, desk, wanted);
        }
        return outcome;
    }
    let Outcome::Done = outcome else {
        return outcome;
    };
    tell_of_day_to_come(remarks, command, today);
    match &command {
        ReportCommand::Firm(Report::Today(TodayReport::Exceptions)) => {
            tell_reasons(alloc, remarks, desk, today)
        }
        ReportCommand::Firm(Report::AsOf(DayReport::Reconciliation, day)) => {
            tell_lines(remarks, &TwiceTelling { remarks }, lines);
            let last = *day;
            let telling = PaymentTelling {
                last,
                today,
                remarks,
            };
            tell_waiting(alloc, &telling, desk)
        }
        ReportCommand::Firm(Report::AsOf(DayReport::Outstanding, day)) => {
            let last = *day;
            let telling = PaymentTelling {
                last,
                today,
                remarks,
            };
            tell_waiting(alloc, &telling, desk)
        }
        ReportCommand::Firm(Report::AsOf(DayReport::Month, day)) => {
            let last = *day;
            let telling = PaymentTelling {
                last,
                today,
                remarks,
            };
            tell_month(alloc, &telling, desk)
        }
        ReportCommand::Firm(Report::Within(PeriodReport::Approvals, _)) => {
            tell_unread(alloc, remarks, desk)
        }
        ReportCommand::Firm(Report::Today(TodayReport::Trial)) if is_past => {
            let report = NowReport::Trial;
            let telling = NowTelling {
                report,
                today,
                remarks,
            };
            tell_lines(remarks, &telling, lines)
        }
        ReportCommand::Firm(Report::Today(TodayReport::Journal)) if is_past => {
            let report = NowReport::Journal;
            let telling = NowTelling {
                report,
                today,
                remarks,
            };
            tell_rows(alloc, remarks, &telling, desk, today)
        }
        ReportCommand::Account(no, period) => {
            let last = period.to();
            let telling = PaymentTelling {
                last,
                today,
                remarks,
            };
            tell_payments(alloc, *no, &telling, desk)
        }
        ReportCommand::Firm(
            Report::Today(_)
            | Report::AsOf(DayReport::Clients, _)
            | Report::Within(PeriodReport::Receipts | PeriodReport::Disbursements, _),
        )
        | ReportCommand::Trail(_)
        | ReportCommand::Ledger(_) => {}
    }
    outcome
}
