// Watchers, which are told of rows to go with a report.

use firm_rows::Owner;
use trust_base::{BankText, Day, EntryNo, MatterNo};

/// A bank line that is in the book: one that cleared something or took it back, or one of the firm's own.
#[derive(Drop)]
pub struct ClearedLine {
    pub owner: Owner,
    /// The day on which the bank booked it.
    pub date: Day,
    /// The bank's own reference.
    pub bank_ref: BankText,
    /// The amount in cents, negative for money that went out.
    pub amount: i64,
}

/// A line that an import applied.
#[derive(Drop)]
pub struct AppliedLine {
    /// The number of its item; the first record after the header has number 1.
    pub number: u64,
    /// The line, with what it cleared or took back.
    pub line: ClearedLine,
}

/// Is told which of the lines that an import applied stand on something else too. Nothing depends on whether it
/// succeeds.
pub trait EarlierWatch {
    /// Called for a line that was applied, if the book has another line of the same date, bank reference and amount,
    /// which an earlier import put on this.
    fn stood_already(&self, line: &AppliedLine, earlier: Owner);
}

/// Is told what the rows of a book show in addition to a report. Nothing depends on whether it succeeds.
pub trait RowWatch {
    /// Called for two bank lines with the same date, bank reference and amount.
    fn cleared_twice(&self, first: &ClearedLine, second: &ClearedLine);

    /// Called with the last day on which a matter was changed.
    fn worked_on(&self, last: Day);
}

/// Is told which payments the bank has not shown. Nothing depends on whether it succeeds.
pub trait PaymentWatch {
    /// Called for the payment of this number of a matter, which was issued on this day and which no line of the bank has
    /// cleared.
    fn outstanding(&self, matter: MatterNo, number: EntryNo, issued: Day);
}

/// Is told which purged matters had records that a report wants. Nothing depends on whether it succeeds.
pub trait PurgedWatch {
    /// Called for a matter that was purged, with the days on which it was opened and closed.
    fn purged(&self, matter: MatterNo, opened: Day, closed: Day);
}

/// Is told which rows of the trail stand for no act. Nothing depends on whether it succeeds.
pub trait ActWatch {
    /// Called for a row of the trail with its number in the order of acceptance, from 1.
    fn unread_act(&self, number: u64);

    /// Called for a row among the dismissals with its number there, from 1.
    fn unread_dismissal(&self, number: u64);
}
