//! Which reports a firm has: on a business day, as of a day, and of a period.

use trust_base::{Day, Period};

/// A report on the whole firm, which only the cashier may ask for.
#[derive(Clone, Copy)]
pub enum Report {
    /// On the business day.
    Today(TodayReport),
    /// As of this day.
    AsOf(DayReport, Day),
    /// Of this period.
    Within(PeriodReport, Period),
}

/// What a report on the business day tells. The cashier is refused none of these.
#[derive(Clone, Copy)]
pub enum TodayReport {
    /// The exceptions: the unmatched bank lines.
    Exceptions,
    /// The trial balance: the ledger of each open matter, the firm's own, and their sum.
    Trial,
    /// The journal: all movements in the order of acceptance.
    Journal,
    /// The retention list: how long the records of each closed matter are kept.
    Retention,
    /// The ledger card of the firm's own money.
    OwnLedger,
    /// The trail: who did what, and behind it which exceptions were dismissed, each in the order of acceptance. It says
    /// so if it begins later than a matter.
    Trail,
}

/// What a report as of a day tells.
#[derive(Clone, Copy)]
pub enum DayReport {
    /// The three-way reconciliation.
    Reconciliation,
    /// The list of clients: the ledger of each matter that was open, its client, the firm's own, and their sum.
    Clients,
    /// What waits for the bank: the deposits in transit and the outstanding payments, with their names.
    Outstanding,
    /// The packet of month's end: the three above, and the receipts, disbursements and approvals of
    /// the month.
    Month,
}

/// What a report of a period tells.
#[derive(Clone, Copy)]
pub enum PeriodReport {
    /// The journal of receipts, with names.
    Receipts,
    /// The journal of disbursements, with names.
    Disbursements,
    /// The payments issued, each with who approved it.
    Approvals,
}
