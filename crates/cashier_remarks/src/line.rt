// Remarks about lines of a statement as it is imported, and about exceptions.

use crate::line_fault::write_line_fault;
use crate::plain::Plain;
use crate::reference::Reference;
use crate::sentence::{write_four, write_one, write_two};
use csv::ByteRecord;
use firm_rows::BalanceKind;
use std::fmt;
use trust_base::{BankAmount, Day, Dollars, EntryNo, MatterNo, StoreFault};

/// What is reported about a line of a statement as it is imported, or about an exception.
#[derive(Clone, Copy)]
pub enum LineRemark<'a> {
    /// It is dated after this business day.
    AfterToday(Day),
    /// Its matter was never opened.
    NeverOpened(MatterNo),
    /// Its matter was purged.
    Purged(MatterNo),
    /// Its matter has no such entry.
    NoEntry {
        matter: MatterNo,
        entry: EntryNo,
    },
    /// Its entry is a fee.
    Fee,
    /// Its entry is a claim.
    Claim,
    /// Its payment waits for a lawyer.
    NotApproved,
    /// Its payment was declined.
    Declined,
    /// Its payment was voided on this day.
    Voided(Day),
    /// Its deposit was cancelled on this day.
    Cancelled(Day),
    /// Its deposit was cleared by a line of this day and bank reference.
    DepositCleared(Day, Plain<'a>),
    /// Its payment was cleared by a line of this day and bank reference.
    PaymentCleared(Day, Plain<'a>),
    /// The bank took its deposit back by a line of this day and bank reference.
    TakenBack(Day, Plain<'a>),
    /// Its entry needs a line of one amount, and it has another.
    OtherAmount {
        there: Dollars,
        here: BankAmount,
    },
    /// Its matter has too little for what the bank took back.
    Uncovered(MatterNo),
    /// Its matter was changed on this day, which is after the business day.
    WorkOf {
        matter: MatterNo,
        last: Day,
    },
    /// It is the firm's own, and moves nothing.
    MovesNothing,
    /// It is the firm's own, and with it the firm's money would be this much.
    Beyond(Dollars),
    /// It is a balance for a day for which another is on file.
    OtherBalance {
        kind: BalanceKind,
        day: Day,
        there: Dollars,
        here: BankAmount,
    },
    /// It has no reference.
    NoReference,
    /// Its reference names nothing.
    Stray,
    /// This record is not a valid line.
    Unreadable(&'a ByteRecord),
    /// It and the lines after it were not applied, because of this fault.
    NotRun(StoreFault),
    /// It is an exception by which an import would clear a payment or take a deposit back.
    WouldTakeOut,
    /// It is another exception that an import would apply.
    WouldApply,
    /// It is an exception that an import would count as a repeat.
    WouldRepeat,
    /// It was applied, but an earlier import put a line of its bank reference, day and amount on this.
    Earlier {
        before: Reference<'a>,
        bank_ref: Plain<'a>,
        day: Day,
        amount: Dollars,
    },
}

// The name of a balance of this kind.
fn name_of_balance(kind: BalanceKind) -> &'static str {
    match kind {
        BalanceKind::Opening => "opening",
        BalanceKind::Closing => "closing",
    }
}

impl fmt::Display for LineRemark<'_> {
    fn fmt<W: fmt::Write>(&self, f: &mut fmt::Formatter<W>) -> fmt::Result {
        match self {
            LineRemark::AfterToday(today) => write_one(f, "dated after today, {}", today),
            LineRemark::NeverOpened(matter) => {
                write_one(f, "matter {} was never opened: look at the number", matter)
            }
            LineRemark::Purged(matter) => {
                write_one(f, "matter {} was purged: look at the number", matter)
            }
            LineRemark::NoEntry { matter, entry } => {
                write_two(f, "matter {} has no entry {}", matter, entry)
            }
            LineRemark::Fee => f.write_str("a fee: no line of the bank clears it"),
            LineRemark::Claim => f.write_str("a claim: no line of the bank clears it"),
            LineRemark::NotApproved => {
                f.write_str("the payment is not approved yet: a lawyer approves it first")
            }
            LineRemark::Declined => f.write_str(
                "the payment was declined: look at the number, or ask the bank why it was paid",
            ),
            LineRemark::Voided(day) => write_one(
                f,
                "the payment was voided on {}: look at the number, or ask the bank why it was paid",
                day,
            ),
            LineRemark::Cancelled(day) => write_one(
                f,
                "the deposit was cancelled on {}: look at the number, or book it as a new entry",
                day,
            ),
            LineRemark::DepositCleared(day, bank_ref) => write_two(
                f,
                "the deposit was cleared by another line, of {} with {}: look at the number, \
                or, if that line is this one mistyped, dismiss this one",
                day,
                bank_ref,
            ),
            LineRemark::PaymentCleared(day, bank_ref) => write_two(
                f,
                "the payment was cleared by another line, of {} with {}: look at the number, \
                or, if that line is this one mistyped, dismiss this one",
                day,
                bank_ref,
            ),
            LineRemark::TakenBack(day, bank_ref) => write_two(
                f,
                "the bank took the deposit back by its line of {} with {}: look at the number",
                day,
                bank_ref,
            ),
            LineRemark::OtherAmount { there, here } => {
                write_two(f, "the amount is {} there, and {} here", there, here)
            }
            LineRemark::Uncovered(matter) => write_one(
                f,
                "the bank took the deposit back, and matter {} has less than that: \
                put the money back in, and import the file again",
                matter,
            ),
            LineRemark::WorkOf { matter, last } => write_two(
                f,
                "matter {} has work of {}: --today is that day or a later one",
                matter,
                last,
            ),
            LineRemark::MovesNothing => f.write_str("an amount of 0.00 moves nothing"),
            LineRemark::Beyond(sum) => write_one(
                f,
                "the firm's own money would be {} with it, and stays from 0.00 to 500.00",
                sum,
            ),
            LineRemark::OtherBalance {
                kind,
                day,
                there,
                here,
            } => {
                let name = name_of_balance(*kind);
                let words = "another {} balance is kept for {}: {} there, and {} here";
                write_four(f, words, &name, day, there, here)
            }
            LineRemark::NoReference => f.write_str(
                "it has no reference: let match fill it in, or write M and six digits, - and four, or FIRM; \
                import that, and dismiss this one",
            ),
            LineRemark::Stray => f.write_str(
                "no reference of an entry: write M and six digits, - and four, or FIRM, OPEN, CLOSE",
            ),
            LineRemark::Unreadable(row) => write_line_fault(f, *row),
            LineRemark::NotRun(fault) => write_one(
                f,
                "{}: this line and those after it were not applied; import the whole file again",
                fault,
            ),
            LineRemark::WouldTakeOut => f.write_str(
                "an import would clear the payment, or take the deposit back, by it: \
                import it again only if the bank has it so; if it was mistyped, dismiss it",
            ),
            LineRemark::WouldApply => f.write_str(
                "an import would apply it now: import the statement again; if it was mistyped, dismiss it",
            ),
            LineRemark::WouldRepeat => f.write_str(
                "it is in the book already: import the statement again, and it is no exception any more",
            ),
            LineRemark::Earlier {
                before,
                bank_ref,
                day,
                amount,
            } => {
                let words =
                    "{} of {}, {}, stands on {} already, by an earlier import: look whether the bank has two";
                write_four(f, words, bank_ref, day, amount, before)
            }
        }
    }
}
