//! Asks of a matter.

ghost use Rattle.std.specs.Prelude.{◌≡◌};
ghost use Rattle.matter_rows.specs.Shares.{number_or_none};
ghost use Rattle.trust_matter.specs.Conditions.{is_text, is_whole};
ghost use Rattle.trust_matter.specs.Facts.{entry_named, fund_named, number_named};

use crate::claim::{ClaimAsk, SplitAsk};
use crate::payment::PaymentAsk;
use matter_rows::Seat;
use trust_base::{Cents, EntryNo, Label, Period, PersonId};

/// Asks to open a matter for a client, with a first lawyer.
#[derive(Drop)]
pub struct OpenAsk {
    pub client: Label,
    pub lawyer: PersonId,
}

/// Asks to book a deposit under a number.
#[derive(Drop)]
pub struct DepositAsk {
    pub number: EntryNo,
    pub amount: Cents,
    pub source: Label,
    pub description: Label,
}

/// Asks to set apart an earned fee under a number (ABA Model Rule 1.15(c)).
#[derive(Drop)]
pub struct FeeAsk {
    pub number: EntryNo,
    pub amount: Cents,
    pub description: Label,
}

/// What is asked of a matter.
#[derive(Drop)]
pub enum Ask {
    /// Opens the matter for a client, with its first lawyer.
    OpenMatter(OpenAsk),
    /// Gives a person a seat.
    AddSeat(Seat),
    /// Removes a person's seat, unless it is the last lawyer's.
    DropSeat(PersonId),
    /// Books money received. It is held until the bank clears it.
    Deposit(DepositAsk),
    /// Cancels a held deposit.
    CancelDeposit(EntryNo),
    /// Proposes a payment. Whether its fund covers it is checked when it is approved.
    Propose(PaymentAsk),
    /// Issues a proposed payment, if its own fund covers it.
    Approve(EntryNo),
    /// Turns down a proposed payment, for good.
    Decline(EntryNo),
    /// Takes back a proposed payment, for good: it is declined.
    Withdraw(EntryNo),
    /// Takes back an issued payment. Its fund has the money again.
    VoidPayment(EntryNo),
    /// Sets a fee apart from what is available.
    EarnFee(FeeAsk),
    /// Keeps disputed money apart, from a fee or from what is available.
    RaiseClaim(ClaimAsk),
    /// Offers the client a part of an open claim. Replaces any earlier offer.
    Offer(SplitAsk),
    /// Accepts exactly the offered part, which settles the claim.
    Accept(SplitAsk),
    /// Settles an open claim with the given part, whatever was offered.
    Award(SplitAsk),
    /// Closes the matter, if nothing is left in it and no payment is pending.
    CloseMatter,
    /// Purges a closed matter once its records need no longer be kept. Only a stub stays.
    Purge,
    /// Reads the matter.
    Show,
    /// Reads an entry.
    ShowEntry(EntryNo),
    /// Reads all entries.
    ShowEntries,
    /// Reads the ledger card, the matter's full accounting (ABA Model Rule 1.15(d)).
    Accounting,
    /// Reads the client's statement of account for a period.
    Account(Period),
}

impl Ask {
    /// Whether it is answered with lines of text, and not in JSON.
    pub fn is_text(&self) -> bool
        ensures { result ≡ is_text self.now }
    {
        matches!(self, Ask::Accounting | Ask::Account(_))
    }

    /// Whether it is answered with the whole matter, so that all its entries have to be loaded.
    pub fn is_whole(&self) -> bool
        ensures { result ≡ is_whole self.now }
    {
        matches!(self, Ask::ShowEntries | Ask::Accounting | Ask::Account(_))
    }

    /// The number of the entry that it names, if any.
    pub fn number(&self) -> Option<EntryNo>
        ensures is { number_or_none result ≡ number_named self.now }
        ensures named { result ≡ entry_named self.now }
    {
        match self {
            Ask::Deposit(asked) => Some(asked.number),
            Ask::Propose(asked) => Some(asked.number),
            Ask::EarnFee(asked) => Some(asked.number),
            Ask::RaiseClaim(asked) => Some(asked.number),
            Ask::Offer(asked) | Ask::Accept(asked) | Ask::Award(asked) => Some(asked.number),
            Ask::CancelDeposit(number)
            | Ask::Approve(number)
            | Ask::Decline(number)
            | Ask::Withdraw(number)
            | Ask::VoidPayment(number)
            | Ask::ShowEntry(number) => Some(*number),
            Ask::OpenMatter(_)
            | Ask::AddSeat(_)
            | Ask::DropSeat(_)
            | Ask::CloseMatter
            | Ask::Purge
            | Ask::Show
            | Ask::ShowEntries
            | Ask::Accounting
            | Ask::Account(_) => None,
        }
    }

    /// The number of the fee or claim that it names itself, if any.
    pub fn fund_number(&self) -> Option<EntryNo>
        ensures { number_or_none result ≡ fund_named self.now }
    {
        match self {
            Ask::Propose(asked) => asked.fund.number(),
            Ask::RaiseClaim(asked) => asked.against.number(),
            _ => None,
        }
    }
}
