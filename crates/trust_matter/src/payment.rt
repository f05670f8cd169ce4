//! Asks about payments.

ghost use Rattle.std.specs.Prelude.{◌≡◌, ◌&&◌, true, IfOk, is_none};
ghost use Rattle.std.specs.Option.{option_copied};
ghost use Rattle.trust_base.specs.Limits.{IsAmount};
ghost use Rattle.matter_rows.specs.Shares.{number_or_none};
ghost use Rattle.matter_rows.specs.declared.act.Caller.{Caller as AnyCaller};
ghost use Rattle.matter_parts.specs.Parts.{entry_in, kept_at};
ghost use Rattle.trust_matter.specs.Conditions.{is_an_entry, is_claimant_of, is_no_fund, is_no_fund_yet, is_payment_asked, is_wrong_payee_of};
ghost use Rattle.trust_matter.specs.KeptFacts.{kept_facts};
ghost use Rattle.trust_matter.specs.Step.{AnswersLateBy, payment_of};

use crate::ask::Ask;
use crate::deciding::check_change;
use matter_parts::{Edit, Matter, Numbered};
use matter_rows::{Against, ClaimState, Entry, Fund, Payment, PaymentState, VoidedPayment};
use std::alloc::AllocError;
use trust_base::{Cents, Day, EntryNo, Label, Refusal};

/// Asks to propose a payment under a number, from a fund, to a named payee, by an instrument.
#[derive(Drop)]
pub struct PaymentAsk {
    pub number: EntryNo,
    pub amount: Cents,
    pub fund: Fund,
    pub payee: Label,
    pub purpose: Label,
    pub instrument: Label,
}

impl PaymentAsk {
    // The proposed payment that the ask makes on a day.
    fn proposed_on(&self, day: Day) -> Result<Payment, AllocError>
        ensures { IfOk result (λ p. Entry.Payment p ≡ payment_of self.now day) }
    {
        let payee = self.payee.copied()?;
        let purpose = self.purpose.copied()?;
        let instrument = self.instrument.copied()?;
        Ok(Payment {
            book: day,
            amount: self.amount,
            fund: self.fund,
            payee,
            purpose,
            instrument,
            state: PaymentState::Proposed,
        })
    }
}

// The entry with this number, if there is a number and the entry is loaded.
fn entry_under(matter: &Matter, number: Option<EntryNo>) -> Option<&Entry>
    ensures { option_copied result ≡ entry_in (kept_at matter.now (number_or_none number)) }
{
    let kept = matter.kept_under(number)?;
    Some(&kept.entry)
}

// Whether the fund is an entry that does not exist.
fn is_missing(fund: Fund, named: Option<&Entry>) -> bool
    ensures { result ≡ (is_an_entry fund && is_none (option_copied named.entry)) }
{
    !matches!(fund, Fund::General) && named.is_none()
}

// Whether the fund is an entry of the wrong kind.
fn is_of_another_kind(fund: Fund, named: Option<&Entry>) -> bool
    ensures { result ≡ is_no_fund fund (option_copied named.entry) }
{
    match (fund, named) {
        (Fund::General, _) | (_, None) => false,
        (Fund::Fee(_), Some(entry)) => !matches!(entry, Entry::Fee(_)),
        (Fund::Claim(_), Some(Entry::Claim(claim))) => matches!(&claim.against, Against::Fee(_)),
        (Fund::Claim(_), Some(_)) => true,
    }
}

// Whether the fund is a claim that is not settled.
fn is_unsettled(fund: Fund, named: Option<&Entry>) -> bool
    ensures { result ≡ is_no_fund_yet fund (option_copied named.entry) }
{
    match (fund, named) {
        (Fund::Claim(_), Some(Entry::Claim(it))) => !matches!(it.state, ClaimState::Settled(_)),
        _ => false,
    }
}

// Whether the fund may not pay this payee. A fee pays the firm, a claim its claimant.
fn pays_another(fund: Fund, named: Option<&Entry>, payee: &Label) -> bool
    ensures { result ≡ is_wrong_payee_of fund (option_copied named.entry) payee.now }
{
    match fund {
        Fund::General => payee.is_firm(),
        Fund::Fee(_) => !payee.is_firm(),
        Fund::Claim(_) => !is_claimant(named, payee),
    }
}

// Whether the payee is the claimant.
fn is_claimant(named: Option<&Entry>, payee: &Label) -> bool
    ensures { result ≡ is_claimant_of (option_copied named.entry) payee.now }
{
    match named {
        Some(Entry::Claim(claim)) => match &claim.against {
            Against::General(claimant) => claimant.is_same(payee),
            Against::Fee(_) => false,
        },
        _ => false,
    }
}

// Whether the entry found is the payment asked for.
fn is_payment_asked(found: Option<&Entry>, asked: &PaymentAsk) -> bool
    ensures { result ≡ is_payment_asked (option_copied found.entry) asked.now }
{
    match found {
        Some(Entry::Payment(p)) => {
            p.amount.get() == asked.amount.get()
                && p.fund.is_same(asked.fund)
                && p.payee.is_same(&asked.payee)
                && p.purpose.is_same(&asked.purpose)
                && p.instrument.is_same(&asked.instrument)
        }
        _ => false,
    }
}

pub(crate) fn decide_propose(matter: &Matter, asked: &PaymentAsk, day: Day) -> Result<Edit, Refusal>
    ensures amount { IsAmount asked.now.amount }
    ensures answer { (c : AnyCaller) → AnswersLateBy (kept_facts matter.now (Ask.Propose asked.now))
        (record { caller = c; ask = Ask.Propose asked.now; day = day }) result }
{
    let _amount = asked.amount.get();
    if is_payment_asked(entry_under(matter, Some(asked.number)), asked) {
        return Ok(Edit::Nothing);
    }
    check_change(matter, Some(asked.number), day)?;
    let named = entry_under(matter, asked.fund.number());
    if is_missing(asked.fund, named) {
        return Err(Refusal::NoEntry);
    }
    if is_of_another_kind(asked.fund, named) {
        return Err(Refusal::WrongKind);
    }
    if is_unsettled(asked.fund, named) {
        return Err(Refusal::WrongState);
    }
    if asked.payee.is_cash() {
        return Err(Refusal::PayeeIsCash);
    }
    if pays_another(asked.fund, named, &asked.payee) {
        return Err(Refusal::WrongPayee);
    }
    let number = asked.number;
    let entry = Entry::Payment(asked.proposed_on(day)?);
    Ok(Edit::Append(Numbered { number, entry }))
}

pub(crate) fn decide_approve(matter: &Matter, number: EntryNo, day: Day) -> Result<Edit, Refusal>
    ensures { (c : AnyCaller) → AnswersLateBy (kept_facts matter.now (Ask.Approve number))
        (record { caller = c; ask = Ask.Approve number; day = day }) result }
{
    check_change(matter, None, day)?;
    let kept = matter.find(number).ok_or(Refusal::NoEntry)?;
    let Entry::Payment(payment) = &kept.entry else {
        return Err(Refusal::WrongKind);
    };
    let PaymentState::Proposed = &payment.state else {
        return Err(Refusal::WrongState);
    };
    let left = match payment.fund {
        Fund::General => matter.figures().available,
        Fund::Fee(source) | Fund::Claim(source) => match matter.find(source) {
            None => 0,
            Some(kept) => kept.left,
        },
    };
    if left < payment.amount.get() {
        return Err(Refusal::Short(left));
    }
    let entry = Entry::Payment(payment.restated(PaymentState::Issued(day))?);
    Ok(Edit::Exchange(Numbered { number, entry }))
}

pub(crate) fn decide_decline(matter: &Matter, number: EntryNo, day: Day) -> Result<Edit, Refusal>
    ensures { (c : AnyCaller) → AnswersLateBy (kept_facts matter.now (Ask.Decline number))
        (record { caller = c; ask = Ask.Decline number; day = day }) result }
{
    check_change(matter, None, day)?;
    let kept = matter.find(number).ok_or(Refusal::NoEntry)?;
    let Entry::Payment(payment) = &kept.entry else {
        return Err(Refusal::WrongKind);
    };
    let PaymentState::Proposed = &payment.state else {
        return Err(Refusal::WrongState);
    };
    let entry = Entry::Payment(payment.restated(PaymentState::Declined)?);
    Ok(Edit::Exchange(Numbered { number, entry }))
}

// Taking a payment back is decided as declining it is; who may do so was checked before.
pub(crate) fn decide_withdraw(matter: &Matter, number: EntryNo, day: Day) -> Result<Edit, Refusal>
    ensures { (c : AnyCaller) → AnswersLateBy (kept_facts matter.now (Ask.Withdraw number))
        (record { caller = c; ask = Ask.Withdraw number; day = day }) result }
{
    decide_decline(matter, number, day)
}

pub(crate) fn decide_void(matter: &Matter, number: EntryNo, day: Day) -> Result<Edit, Refusal>
    ensures { (c : AnyCaller) → AnswersLateBy (kept_facts matter.now (Ask.VoidPayment number))
        (record { caller = c; ask = Ask.VoidPayment number; day = day }) result }
{
    check_change(matter, None, day)?;
    let kept = matter.find(number).ok_or(Refusal::NoEntry)?;
    let Entry::Payment(payment) = &kept.entry else {
        return Err(Refusal::WrongKind);
    };
    let PaymentState::Issued(issued) = &payment.state else {
        return Err(Refusal::WrongState);
    };
    let voided = PaymentState::Voided(VoidedPayment {
        issued: *issued,
        undone: day,
    });
    let entry = Entry::Payment(payment.restated(voided)?);
    Ok(Edit::Exchange(Numbered { number, entry }))
}
