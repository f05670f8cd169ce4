// Remarks that go with a report, from the rows of the book.

use crate::beginning::days_since_1970;
use cashier_remarks::{DAYS_OUTSTANDING, Plain, Reference, Remark, Remarks, ReportRemark};
use trust_base::{Day, Dollars, EntryNo, MatterNo};
use trust_desk::{ActWatch, ClearedLine, PaymentWatch, PurgedWatch, RowWatch};

/// Reports what the rows of a book show in addition to a report that has all figures of its day: the reconciliation and
/// the exceptions.
#[derive(Drop)]
pub struct TwiceTelling<'a, M> {
    /// Receives the remarks.
    pub remarks: &'a M,
}

impl<M: Remarks> RowWatch for TwiceTelling<'_, M> {
    fn cleared_twice(&self, first: &ClearedLine, second: &ClearedLine) {
        let told = ReportRemark::ClearedTwice {
            first: Reference::of_owner(first.owner),
            second: Reference::of_owner(second.owner),
            day: second.date,
            bank_ref: Plain::new(second.bank_ref.as_slice()),
            amount: Dollars(second.amount as i128),
        };
        self.remarks.tell(&Remark::Report(told));
    }

    fn worked_on(&self, _last: Day) {}
}

/// A report of today's figures that names a business day.
#[derive(Clone, Copy)]
pub enum NowReport {
    Trial,
    Journal,
}

/// Reports what the rows of a book show in addition to such a report.
#[derive(Drop)]
pub struct NowTelling<'a, M> {
    /// The report.
    pub report: NowReport,
    /// The business day that it names.
    pub today: Day,
    /// Receives the remarks.
    pub remarks: &'a M,
}

impl<M: Remarks> RowWatch for NowTelling<'_, M> {
    fn cleared_twice(&self, _first: &ClearedLine, _second: &ClearedLine) {}

    fn worked_on(&self, last: Day) {
        let today = self.today;
        if last.get() <= today.get() {
            return;
        }
        let told = match self.report {
            NowReport::Trial => ReportRemark::TrialOfNow { today, last },
            NowReport::Journal => ReportRemark::JournalOfNow { today, last },
        };
        self.remarks.tell(&Remark::Report(told));
    }
}

/// Reports which payments in a report the bank has not shown for more than 180 days.
#[derive(Drop)]
pub struct PaymentTelling<'a, M> {
    /// The last day of the report.
    pub last: Day,
    /// The business day.
    pub today: Day,
    /// Receives the remarks.
    pub remarks: &'a M,
}

impl<M: Remarks> PaymentWatch for PaymentTelling<'_, M> {
    fn outstanding(&self, matter: MatterNo, number: EntryNo, issued: Day) {
        let age = days_since_1970(self.today).saturating_sub(days_since_1970(issued));
        if age > DAYS_OUTSTANDING && issued.get() <= self.last.get() {
            self.remarks.tell(&Remark::Report(ReportRemark::OldPayment {
                matter,
                entry: number,
                issued,
            }));
        }
    }
}

/// Reports which rows of the trail can't be read.
#[derive(Drop)]
pub struct ActTelling<'a, M> {
    /// Receives the remarks.
    pub remarks: &'a M,
}

impl<M: Remarks> ActWatch for ActTelling<'_, M> {
    fn unread_act(&self, number: u64) {
        let told = ReportRemark::UnreadAct(number);
        self.remarks.tell(&Remark::Report(told));
    }

    fn unread_dismissal(&self, number: u64) {
        let told = ReportRemark::UnreadDismissal(number);
        self.remarks.tell(&Remark::Report(told));
    }
}

/// Reports which purged matters had records that a refused report wants.
#[derive(Drop)]
pub struct PurgedTelling<'a, M> {
    /// Receives the remarks.
    pub remarks: &'a M,
}

impl<M: Remarks> PurgedWatch for PurgedTelling<'_, M> {
    fn purged(&self, matter: MatterNo, opened: Day, closed: Day) {
        let told = ReportRemark::PurgedMatter {
            matter,
            opened,
            closed,
        };
        self.remarks.tell(&Remark::Report(told));
    }
}
