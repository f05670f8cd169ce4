// Asks of a matter, read from the texts of their fields.

ghost use Rattle.std.specs.Prelude.{◌≡◌, ◌≢◌, IfErr, IfOk, None, Some};
ghost use Rattle.std.specs.Option.{option_copied};
ghost use Rattle.trust_base.specs.Names.{label_of, person_of};
ghost use Rattle.trust_base.specs.Texts.{amount_of, amount_or_zero_of, entry_of};
ghost use Rattle.trust_matter.specs.declared.ask.Ask.TheVariants as ask;
ghost use Rattle.ask_fields.specs.Asks.{claiming, depositing, dropping, earning, naming, opening, proposing, seating};
ghost use Rattle.ask_fields.specs.Fields.{Reads, against_in, fund_in, role_of};

use std::alloc::Global;
use trust_base::Refusal::{self, BadField};
use trust_base::{Cents, CentsOrZero, EntryNo, Field, Label, PersonId};
use trust_matter::{
    Against, Ask, ClaimAsk, DepositAsk, FeeAsk, Fund, OpenAsk, PaymentAsk, Role, Seat, SplitAsk,
};

/// Reads an ask to open a matter for a client with a lawyer.
pub fn read_opening(alloc: Global, client: &[u8], lawyer: &[u8]) -> Result<Ask, Refusal>
    ensures { Reads (opening (label_of client.now) (person_of lawyer.now)) result }
{
    let client = Label::read(alloc, client)?.ok_or(BadField(Field::Client))?;
    let lawyer = PersonId::read(alloc, lawyer)?.ok_or(BadField(Field::Lawyer))?;
    Ok(Ask::OpenMatter(OpenAsk { client, lawyer }))
}

/// Reads an ask to seat a person in a role, `client` or `lawyer`.
pub fn read_seating(alloc: Global, person: &[u8], role: &[u8]) -> Result<Ask, Refusal>
    ensures { Reads (seating (person_of person.now) (role_of role.now)) result }
{
    let person = PersonId::read(alloc, person)?.ok_or(BadField(Field::Person))?;
    let role = if role == b"client".as_slice() {
        Role::Client
    } else if role == b"lawyer".as_slice() {
        Role::Lawyer
    } else {
        return Err(BadField(Field::Role));
    };
    Ok(Ask::AddSeat(Seat { person, role }))
}

/// Reads an ask to drop a person's seat.
pub fn read_dropping(alloc: Global, person: &[u8]) -> Result<Ask, Refusal>
    ensures { Reads (dropping (person_of person.now)) result }
{
    let dropped = PersonId::read(alloc, person)?.ok_or(BadField(Field::Person))?;
    Ok(Ask::DropSeat(dropped))
}

/// Reads an ask to book a deposit under a number.
pub fn read_depositing(
    alloc: Global,
    number: EntryNo,
    amount: &[u8],
    source: &[u8],
    description: &[u8],
) -> Result<Ask, Refusal>
    ensures { Reads (depositing number (amount_of amount.now) (label_of source.now) (label_of description.now)) result }
{
    Ok(Ask::Deposit(DepositAsk {
        number,
        amount: Cents::read(amount).ok_or(BadField(Field::Amount))?,
        source: Label::read(alloc, source)?.ok_or(BadField(Field::Source))?,
        description: Label::read(alloc, description)?.ok_or(BadField(Field::Description))?,
    }))
}

/// The texts of a payment's fields, in the order in which they are checked.
#[derive(Clone, Copy)]
pub struct PaymentTexts<'a> {
    pub amount: &'a [u8],
    /// The kind of its fund: `general`, `fee` or `claim`.
    pub from: &'a [u8],
    /// The number of the fee or claim that it is from; None for the general fund.
    pub of: Option<&'a [u8]>,
    pub payee: &'a [u8],
    pub purpose: &'a [u8],
    pub instrument: &'a [u8],
}

// Reads the fund of a payment, from its kind and its entry.
fn read_fund(from: &[u8], of: Option<&[u8]>) -> Result<Fund, Refusal>
    ensures { Reads (fund_in from.now (option_copied of.entry)) result }
{
    let fund = if from == b"general".as_slice() {
        match of {
            None => Some(Fund::General),
            Some(_) => None,
        }
    } else if from == b"fee".as_slice() {
        of.and_then(EntryNo::read).map(Fund::Fee)
    } else if from == b"claim".as_slice() {
        of.and_then(EntryNo::read).map(Fund::Claim)
    } else {
        return Err(BadField(Field::From));
    };
    fund.ok_or(BadField(Field::Of))
}

/// Reads an ask to propose a payment under a number.
pub fn read_proposing(
    alloc: Global,
    number: EntryNo,
    texts: &PaymentTexts<'_>,
) -> Result<Ask, Refusal>
    ensures { Reads (proposing number (amount_of texts.now.amount.now)
        (fund_in texts.now.from.now (option_copied texts.now.of)) (label_of texts.now.payee.now)
        (label_of texts.now.purpose.now) (label_of texts.now.instrument.now)) result }
{
    Ok(Ask::Propose(PaymentAsk {
        number,
        amount: Cents::read(texts.amount).ok_or(BadField(Field::Amount))?,
        fund: read_fund(texts.from, texts.of)?,
        payee: Label::read(alloc, texts.payee)?.ok_or(BadField(Field::Payee))?,
        purpose: Label::read(alloc, texts.purpose)?.ok_or(BadField(Field::Purpose))?,
        instrument: Label::read(alloc, texts.instrument)?.ok_or(BadField(Field::Instrument))?,
    }))
}

/// The texts of a claim's fields, in the order in which they are checked.
#[derive(Clone, Copy)]
pub struct ClaimTexts<'a> {
    pub amount: &'a [u8],
    /// What it is on: `general`, the general fund, or `fee`.
    pub on: &'a [u8],
    /// The number of the fee; None on the general fund.
    pub of: Option<&'a [u8]>,
    /// Who claims on the general fund; None on a fee.
    pub claimant: Option<&'a [u8]>,
    pub reason: &'a [u8],
}

/// Reads an ask to set apart a fee under a number.
pub fn read_earning(
    alloc: Global,
    number: EntryNo,
    amount: &[u8],
    description: &[u8],
) -> Result<Ask, Refusal>
    ensures { Reads (earning number (amount_of amount.now) (label_of description.now)) result }
{
    Ok(Ask::EarnFee(FeeAsk {
        number,
        amount: Cents::read(amount).ok_or(BadField(Field::Amount))?,
        description: Label::read(alloc, description)?.ok_or(BadField(Field::Description))?,
    }))
}

// Reads what a claim is on: on the general fund there is a claimant and no entry, on a fee an entry and no claimant.
fn read_against(
    alloc: Global,
    on: &[u8],
    of: Option<&[u8]>,
    claimant: Option<&[u8]>,
) -> Result<Against, Refusal>
    ensures { Reads (against_in on.now (option_copied of.entry) (option_copied claimant.entry)) result }
{
    if on == b"general".as_slice() {
        if of.is_some() {
            return Err(BadField(Field::Of));
        }
        let claimant = claimant.ok_or(BadField(Field::Claimant))?;
        let claimant = Label::read(alloc, claimant)?.ok_or(BadField(Field::Claimant))?;
        Ok(Against::General(claimant))
    } else if on == b"fee".as_slice() {
        let number = of.and_then(EntryNo::read).ok_or(BadField(Field::Of))?;
        match claimant {
            None => Ok(Against::Fee(number)),
            Some(_) => Err(BadField(Field::Claimant)),
        }
    } else {
        Err(BadField(Field::On))
    }
}

/// Reads an ask to raise a claim under a number.
pub fn read_claiming(alloc: Global, number: EntryNo, texts: &ClaimTexts<'_>) -> Result<Ask, Refusal>
    ensures { Reads (claiming number (amount_of texts.now.amount.now)
        (against_in texts.now.on.now (option_copied texts.now.of) (option_copied texts.now.claimant))
        (label_of texts.now.reason.now)) result }
{
    Ok(Ask::RaiseClaim(ClaimAsk {
        number,
        amount: Cents::read(texts.amount).ok_or(BadField(Field::Amount))?,
        against: read_against(alloc, texts.on, texts.of, texts.claimant)?,
        reason: Label::read(alloc, texts.reason)?.ok_or(BadField(Field::Reason))?,
    }))
}

/// Reads what is offered, accepted or awarded to the client of the claim with this number. Allocates nothing.
pub fn read_split(number: EntryNo, to_client: &[u8]) -> Result<SplitAsk, Refusal>
    ensures ok { IfOk result (λ split.
        (split.number ≡ number) × (amount_or_zero_of to_client.now ≡ Some split.to_client)) }
    ensures err { IfErr result (λ why.
        (why ≡ Refusal.BadField Field.ToClient) × (amount_or_zero_of to_client.now ≡ None)) }
{
    let to_client = CentsOrZero::read(to_client).ok_or(BadField(Field::ToClient))?;
    Ok(SplitAsk { number, to_client })
}

/// Reads an ask to show the entry with this number. Allocates nothing.
pub fn read_showing(number: &[u8]) -> Result<Ask, Refusal>
    ensures value { Reads (naming ask.ShowEntry number.now) result }
    ensures memory { IfErr result (λ why. why ≢ Refusal.Memory) }
{
    let number = EntryNo::read(number).ok_or(BadField(Field::Entry))?;
    Ok(Ask::ShowEntry(number))
}

/// Reads an ask to cancel the deposit with this number. Allocates nothing.
pub fn read_cancelling(number: &[u8]) -> Result<Ask, Refusal>
    ensures value { Reads (naming ask.CancelDeposit number.now) result }
    ensures memory { IfErr result (λ why. why ≢ Refusal.Memory) }
{
    let number = EntryNo::read(number).ok_or(BadField(Field::Entry))?;
    Ok(Ask::CancelDeposit(number))
}
