// Movements with their names.

ghost use Rattle.std.specs.Prelude.{◌≡◌, ◌++◌, [], ◌∷◌, IfOk, IfSome, option_to_list};
ghost use Rattle.std.specs.List.{filter, flat_map};
ghost use Rattle.std.specs.Ordering.{nat_cmp};
ghost use Rattle.firm_periods.specs.Named.{is_disbursed, is_received_within, is_disbursed_within, booking_of, is_within, moves_of, named};
ghost use Rattle.firm_periods.specs.Accounts.{IsSmallMove};
ghost use Rattle.firm_periods.specs.declared.moved.Moved.{Moved};

use firm_rows::Owner;
use std::alloc::AllocError;
use std::cmp::Ordering;
use trust_base::{BankText, Day, EntryNo, Label, LineText, MatterNo, Period};
use trust_matter::{DepositState, Entry, PaymentState};

/// Why money moved.
#[derive(Clone, Copy)]
pub enum Cause {
    /// A deposit was booked.
    Deposit,
    /// A held deposit was cancelled.
    Cancelled,
    /// The bank took a cleared deposit back.
    Returned,
    /// A payment was issued.
    Payment,
    /// An issued payment was voided.
    Voided,
    /// A line of the firm's own.
    Own,
}

/// A movement of an entry: its book day, its signed amount in cents, and why.
#[derive(Clone, Copy)]
pub struct Moved {
    pub day: Day,
    pub amount: i64,
    pub cause: Cause,
}

/// Who and what for. The client is missing if the matter was purged.
pub enum MoveNames {
    Deposit {
        source: Label,
        description: Label,
        client: Option<Label>,
    },
    Payment {
        payee: Label,
        purpose: Label,
        instrument: Label,
        client: Option<Label>,
    },
    Own {
        bank_ref: BankText,
        text: LineText,
    },
}

// Written by hand, so that a function that holds names makes one call at each exit.
impl Drop for MoveNames {
    fn drop(self) {
        match self {
            MoveNames::Deposit {
                source: _source,
                description: _description,
                client: _client,
            } => (),
            MoveNames::Payment {
                payee: _payee,
                purpose: _purpose,
                instrument: _instrument,
                client: _client,
            } => (),
            MoveNames::Own {
                bank_ref: _bank_ref,
                text: _text,
            } => (),
        }
    }
}

/// A movement with its names.
#[derive(Drop)]
pub struct NamedMove {
    pub owner: Owner,
    pub moved: Moved,
    pub names: MoveNames,
}

// A movement of an entry, positive or negative by its amount.
fn some_move(day: Day, amount: i64, cause: Cause) -> Option<Moved>
    ensures { option_to_list result ≡ record { day = day; amount = amount; cause = cause } ∷ [] }
{
    Some(Moved { day, amount, cause })
}

/// The movements of an entry: at most two.
pub(crate) fn moves_of(entry: &Entry) -> (Option<Moved>, Option<Moved>)
    ensures moves { option_to_list result.0 ++ option_to_list result.1 ≡ moves_of entry.now }
    ensures booking { option_to_list result.0 ≡ booking_of (moves_of entry.now) }
    ensures small { IfSome result.0 IsSmallMove × IfSome result.1 IsSmallMove }
{
    match entry {
        Entry::Deposit(deposit) => {
            let amount = deposit.amount.get() as i64;
            let booked = some_move(deposit.book, amount, Cause::Deposit);
            match &deposit.state {
                DepositState::Held | DepositState::Cleared(_) => (booked, None),
                DepositState::Cancelled(day) => (
                    booked,
                    some_move(*day, -amount, Cause::Cancelled),
                ),
                DepositState::Returned(back) => (
                    booked,
                    some_move(back.undone, -amount, Cause::Returned),
                ),
            }
        }
        Entry::Payment(payment) => {
            let amount = payment.amount.get() as i64;
            match &payment.state {
                PaymentState::Proposed | PaymentState::Declined => (None, None),
                PaymentState::Issued(day) => (some_move(*day, -amount, Cause::Payment), None),
                PaymentState::Cleared(paid) => (
                    some_move(paid.issued, -amount, Cause::Payment),
                    None,
                ),
                PaymentState::Voided(voided) => (
                    some_move(voided.issued, -amount, Cause::Payment),
                    some_move(voided.undone, amount, Cause::Voided),
                ),
            }
        }
        Entry::Fee(_) | Entry::Claim(_) => (None, None),
    }
}

impl Moved {
    /// Whether it is a disbursement; otherwise it is a receipt.
    pub(crate) fn is_disbursed(&self) -> bool
        ensures { result ≡ is_disbursed self.now }
    {
        match self.cause {
            Cause::Deposit | Cause::Cancelled | Cause::Returned => false,
            Cause::Payment | Cause::Voided => true,
            Cause::Own => self.amount < 0,
        }
    }

    /// Whether its day is in a period.
    pub(crate) fn is_within(&self, period: Period) -> bool
        ensures { result ≡ is_within period.from period.to self.now }
    {
        let day = self.day.get();
        period.from().get() <= day && day <= period.to().get()
    }
}

/// A movement, if it is a receipt of a period.
pub(crate) fn if_received(moved: Option<Moved>, period: Period) -> Option<Moved>
    ensures { option_to_list result ≡ filter (is_received_within period.from period.to) (option_to_list moved) }
{
    match moved {
        Some(moved) if moved.is_within(period) && !moved.is_disbursed() => Some(moved),
        _ => None,
    }
}

/// A movement, if it is a disbursement of a period.
pub(crate) fn if_disbursed(moved: Option<Moved>, period: Period) -> Option<Moved>
    ensures { option_to_list result ≡ filter (is_disbursed_within period.from period.to) (option_to_list moved) }
{
    match moved {
        Some(moved) if moved.is_within(period) && moved.is_disbursed() => Some(moved),
        _ => None,
    }
}

fn copied(label: &Option<Label>) -> Result<Option<Label>, AllocError>
    ensures { IfOk result (λ same. same ≡ label.now) }
{
    match label {
        Some(label) => Ok(Some(label.copied()?)),
        None => Ok(None),
    }
}

/// A movement of an entry with its names, if there is one.
pub(crate) fn name_move(
    client: &Option<Label>,
    matter: MatterNo,
    number: EntryNo,
    entry: &Entry,
    moved: Option<Moved>,
) -> Result<Option<NamedMove>, AllocError>
    ensures { IfOk result (λ found. option_to_list found
        ≡ flat_map (named client.now matter number entry.now) (option_to_list moved)) }
{
    let Some(moved) = moved else {
        return Ok(None);
    };
    let owner = Owner::Matter {
        matter,
        entry: number,
    };
    let names = match entry {
        Entry::Deposit(deposit) => MoveNames::Deposit {
            source: deposit.source.copied()?,
            description: deposit.description.copied()?,
            client: copied(client)?,
        },
        Entry::Payment(payment) => MoveNames::Payment {
            payee: payment.payee.copied()?,
            purpose: payment.purpose.copied()?,
            instrument: payment.instrument.copied()?,
            client: copied(client)?,
        },
        Entry::Fee(_) | Entry::Claim(_) => return Ok(None),
    };
    Ok(Some(NamedMove {
        owner,
        moved,
        names,
    }))
}

impl NamedMove {
    /// By day.
    pub(crate) fn compare(&self, other: &NamedMove) -> Ordering
        ensures { result ≡ nat_cmp self.now.moved.day other.now.moved.day }
    {
        self.moved.day.get().cmp(&other.moved.day.get())
    }
}
