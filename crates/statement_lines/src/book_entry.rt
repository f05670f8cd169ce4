// The deposits and payments of a book, and what lines are compared with of those that wait for the bank.

ghost use Rattle.std.specs.Prelude.{◌≡◌, IfOk};
ghost use Rattle.statement_lines.specs.EntryStates.{state_word};
ghost use Rattle.statement_lines.specs.Waiting.{waiting_deposit, waiting_payment};

use crate::booking::BookedLines;
use crate::number::{Number, numbers_of, telling_of};
use std::alloc::{AllocError, Global};
use std::marker::Model;
use trust_base::{BankText, Cents, Day, Label};

/// The state of a deposit or of a payment.
#[derive(Clone, Copy)]
pub enum EntryState {
    /// A deposit that waits for the bank.
    Held,
    Cancelled,
    Returned,
    Proposed,
    Declined,
    /// A payment that waits for the bank.
    Issued,
    Voided,
    /// A deposit or payment that the bank cleared.
    Cleared,
}

impl EntryState {
    /// The word for it, as answers and remarks have it.
    pub fn word(self) -> &'static str
        ensures { result.now ≡ state_word self }
    {
        match self {
            EntryState::Held => "held",
            EntryState::Cancelled => "cancelled",
            EntryState::Returned => "returned",
            EntryState::Proposed => "proposed",
            EntryState::Declined => "declined",
            EntryState::Issued => "issued",
            EntryState::Voided => "voided",
            EntryState::Cleared => "cleared",
        }
    }
}

/// An entry that waits for the bank: a held deposit or an issued payment.
///
/// Contracts see it as the reference that names it, the amount of the line that clears it, the first day on which that
/// line may be dated, and the numbers that identify it.
#[derive(Drop)]
pub struct WaitingEntry {
    pub reference: BankText,
    pub amount: i64,
    pub(crate) since: u32,
    pub(crate) numbers: Vec<Number>,
}

impl Model for WaitingEntry {
    ghost use Rattle.statement_lines.specs.Waiting.{Waiting};

    ghost Value = { Waiting };

    ghost view = { λ w. record {
      reference = w.reference;
      amount = w.amount;
      since = w.since;
      numbers = w.numbers.items;
    } };
}

impl WaitingEntry {
    /// A held deposit with this reference, amount, source and description. The only error is out of memory.
    pub fn deposit(
        alloc: Global,
        reference: BankText,
        amount: Cents,
        source: &[u8],
        description: &[u8],
    ) -> Result<WaitingEntry, AllocError>
        ensures { IfOk result (λ w. w ≡ waiting_deposit reference amount source.now description.now) }
    {
        let mut numbers = telling_of(alloc, None, source)?;
        let mut more = telling_of(alloc, None, description)?;
        numbers.append(&mut more)?;
        Ok(WaitingEntry {
            reference,
            amount: amount.get() as i64,
            since: 0,
            numbers,
        })
    }

    /// A payment that was issued on a day, with this reference, amount and instrument. The only error is out of memory.
    pub fn payment(
        alloc: Global,
        reference: BankText,
        amount: Cents,
        issued: Day,
        instrument: &[u8],
    ) -> Result<WaitingEntry, AllocError>
        ensures { IfOk result (λ w. w ≡ waiting_payment reference amount issued instrument.now) }
    {
        let numbers = numbers_of(alloc, instrument)?;
        Ok(WaitingEntry {
            reference,
            amount: -(amount.get() as i64),
            since: issued.get(),
            numbers,
        })
    }
}

/// A deposit or a payment of a book, in any state.
pub struct BookEntry {
    /// The entry as lines are compared with it: what it would be if it waited.
    pub entry: WaitingEntry,
    pub state: EntryState,
    /// The day of the state: the bank line's day if it is cleared or returned, the booked day if it is proposed or
    /// declined.
    pub day: Day,
    /// The bank's reference of that line, if there is one.
    pub bank_ref: Option<BankText>,
    /// The source of a deposit, or the payee of a payment.
    pub party: Label,
    /// The bank lines that the book has for it.
    pub bookings: BookedLines,
}

impl Drop for BookEntry {
    fn drop(self) {
        let BookEntry {
            entry: _,
            state: _,
            day: _,
            bank_ref: _,
            party: _,
            bookings: _,
        } = self;
    }
}
