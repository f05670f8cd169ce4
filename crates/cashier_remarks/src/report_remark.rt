// Remarks that go with a report.

use crate::plain::Plain;
use crate::reference::Reference;
use sql_schema::ACT_TABLE;
use std::fmt;
use trust_base::{Day, Dollars, EntryNo, MatterNo, StoreFault};

/// How many days the bank may take to show a payment before a person is told.
pub const DAYS_OUTSTANDING: u64 = 180;

/// What is reported beside a report.
#[derive(Clone, Copy)]
pub enum ReportRemark<'a> {
    /// It goes up to a day that is after the business day.
    ToCome {
        today: Day,
        last: Day,
    },
    /// It is the trial balance of a business day, with today's figures: a matter was changed on a later day.
    TrialOfNow {
        today: Day,
        last: Day,
    },
    /// It is the journal of a business day, with today's figures: a matter was changed on a later day.
    JournalOfNow {
        today: Day,
        last: Day,
    },
    /// Lines of the bank on these have the same day, bank reference and amount.
    ClearedTwice {
        first: Reference<'a>,
        second: Reference<'a>,
        day: Day,
        bank_ref: Plain<'a>,
        amount: Dollars,
    },
    /// A payment was issued on this day, long ago, and the bank has not shown it.
    OldPayment {
        matter: MatterNo,
        entry: EntryNo,
        issued: Day,
    },
    /// The report was refused since it wants the records of a matter that was purged. It was open between these days.
    PurgedMatter {
        matter: MatterNo,
        opened: Day,
        closed: Day,
    },
    /// The nth row of the trail, from 1, can't be read, so that the report may lack who approved a payment.
    UnreadAct(u64),
    /// The nth row of the trail among its dismissals, from 1, can't be read, so that the report may lack who approved a
    /// payment.
    UnreadDismissal(u64),
    /// Telling the reasons of exceptions was ended by this fault.
    ExceptionsEnd(StoreFault),
    /// Telling what goes with the report was ended by this fault.
    RowsEnd(StoreFault),
}

impl fmt::Display for ReportRemark<'_> {
    fn fmt<W: fmt::Write>(&self, f: &mut fmt::Formatter<W>) -> fmt::Result {
        match self {
            ReportRemark::ToCome { today, last } => write!(
                f,
                "{last} is after {today}, the business day: what is booked until then is not in these figures"
            ),
            ReportRemark::TrialOfNow { today, last } => write!(
                f,
                "the book has work of {last}: these figures are of now, not of {today}; \
                reconcile {today} and clients {today} have those of that day"
            ),
            ReportRemark::JournalOfNow { today, last } => write!(
                f,
                "the book has work of {last}: these figures are of now, not of {today}; \
                receipts FROM {today} and disbursements FROM {today} have those up to that day"
            ),
            ReportRemark::ClearedTwice {
                first,
                second,
                day,
                bank_ref,
                amount,
            } => write!(
                f,
                "{first} and {second} stand on lines of the same date, bank reference and amount, {day}, {bank_ref}, \
                {amount}: look whether the bank has two"
            ),
            ReportRemark::OldPayment {
                matter,
                entry,
                issued,
            } => write!(
                f,
                "payment {entry} of matter {matter} was issued on {issued}, more than {DAYS_OUTSTANDING} days ago, \
                and the bank has not shown it: ask whoever was paid, and have it voided if it is lost"
            ),
            ReportRemark::PurgedMatter {
                matter,
                opened,
                closed,
            } => write!(
                f,
                "matter {matter}, opened on {opened} and closed on {closed}, was purged: this report wants its records"
            ),
            ReportRemark::UnreadAct(number) => write!(
                f,
                "row {number} of {ACT_TABLE} can't be read: it may be the approval of a payment that shows ?"
            ),
            ReportRemark::UnreadDismissal(number) => write!(
                f,
                "dismissal {number} of {ACT_TABLE} can't be read: it may be the approval of a payment that shows ?"
            ),
            ReportRemark::ExceptionsEnd(fault) => {
                write!(f, "{fault}: no reasons are told of the other exceptions")
            }
            ReportRemark::RowsEnd(fault) => {
                write!(f, "{fault}: nothing more is told beside the report")
            }
        }
    }
}
