// The entries of a ledger card.

ghost use Rattle.std.specs.Prelude.{◌≡◌, [], ◌∷◌, ◌++◌, OnOk, codes, flat_map, pos};
ghost use Rattle.trust_base.specs.Texts.{amount_text, day_text, entry_text};
ghost use Rattle.trust_reports.specs.Texts.{further};
ghost use Rattle.trust_reports.specs.TextsOfLedgers.{against_fields, barred, claim_fields, claim_state, deposit_fields};
ghost use Rattle.trust_reports.specs.TextsOfLedgers.{deposit_names, deposit_state, end_fields, entry_fields};
ghost use Rattle.trust_reports.specs.TextsOfLedgers.{fee_fields, fund_fields, kept_line, made, payment_fields};
ghost use Rattle.trust_reports.specs.TextsOfLedgers.{payment_names, payment_state, told};

use crate::page::{Page, Piece, Printed, push_fields, push_word};
use std::alloc::AllocError;
use trust_base::{Cents, Day, EntryNo, Label};
use trust_matter::{
    Against, Claim, ClaimState, Clearing, Deposit, DepositState, Entry, Fee, Fund, Kept, Payment,
    PaymentState, Settlement, VoidedPayment,
};

/// Appends a text after a bar.
pub(crate) fn push_barred(page: &mut Page, text: &Label) -> Result<(), AllocError>
    ensures before { page.new.before ≡ page.old.before }
    ensures text { OnOk result (page.new.text ≡ page.old.text ++ flat_map further (barred text.now)) }
{
    push_fields(page, &[Piece::Word("|"), Piece::Label(text)])
}

// Appends a word and an entry.
fn push_named(page: &mut Page, word: &str, entry: EntryNo) -> Result<(), AllocError>
    ensures before { page.new.before ≡ page.old.before }
    ensures text { OnOk result (page.new.text ≡ page.old.text ++ flat_map further (word.now ∷ entry_text entry ∷ [])) }
{
    push_fields(page, &[Piece::Word(word), Piece::Entry(entry)])
}

// Appends a word and a day.
fn push_dated(page: &mut Page, word: &str, day: Day) -> Result<(), AllocError>
    ensures before { page.new.before ≡ page.old.before }
    ensures text { OnOk result (page.new.text ≡ page.old.text ++ flat_map further (word.now ∷ day_text day ∷ [])) }
{
    push_fields(page, &[Piece::Word(word), Piece::Day(day)])
}

// Appends a word, and the day and reference of a bank line.
fn push_told<'a>(page: &mut Page, word: &'a str, clearing: &'a Clearing) -> Result<(), AllocError>
    ensures before { page.new.before ≡ page.old.before }
    ensures text { OnOk result (page.new.text ≡ page.old.text ++ flat_map further (told word.now clearing.now)) }
{
    push_fields(
        page,
        &[
            Piece::Word(word),
            Piece::Day(clearing.bank_day),
            Piece::BankRef(&clearing.bank_ref),
        ],
    )
}

// Appends the day, kind and amount of an entry.
fn push_made(page: &mut Page, book: Day, kind: &str, amount: Cents) -> Result<(), AllocError>
    ensures before { page.new.before ≡ page.old.before }
    ensures text { OnOk result (page.new.text ≡ page.old.text ++ flat_map further (made book kind.now amount)) }
{
    push_fields(
        page,
        &[Piece::Day(book), Piece::Word(kind), Piece::Amount(amount)],
    )
}

fn push_deposit_state(page: &mut Page, state: &DepositState) -> Result<(), AllocError>
    ensures before { page.new.before ≡ page.old.before }
    ensures text { OnOk result (page.new.text ≡ page.old.text ++ flat_map further (deposit_state state.now)) }
{
    match state {
        DepositState::Held => push_word(page, "HELD"),
        DepositState::Cleared(clearing) => push_told(page, "CLEARED", clearing),
        DepositState::Cancelled(day) => push_dated(page, "CANCELLED", *day),
        DepositState::Returned(back) => {
            push_told(page, "CLEARED", &back.clearing)?;
            push_told(page, "RETURNED", &back.returning)
        }
    }
}

fn push_voided(page: &mut Page, voided: VoidedPayment) -> Result<(), AllocError>
    ensures before { page.new.before ≡ page.old.before }
    ensures text { OnOk result (page.new.text ≡ page.old.text
        ++ flat_map further (codes "ISSUED" ∷ day_text voided.issued ∷ codes "VOIDED" ∷ day_text voided.undone ∷ [])) }
{
    push_dated(page, "ISSUED", voided.issued)?;
    push_dated(page, "VOIDED", voided.undone)
}

fn push_payment_state(page: &mut Page, state: &PaymentState) -> Result<(), AllocError>
    ensures before { page.new.before ≡ page.old.before }
    ensures text { OnOk result (page.new.text ≡ page.old.text ++ flat_map further (payment_state state.now)) }
{
    match state {
        PaymentState::Proposed => push_word(page, "PROPOSED"),
        PaymentState::Declined => push_word(page, "DECLINED"),
        PaymentState::Issued(day) => push_dated(page, "ISSUED", *day),
        PaymentState::Cleared(paid) => {
            push_dated(page, "ISSUED", paid.issued)?;
            push_told(page, "CLEARED", &paid.clearing)
        }
        PaymentState::Voided(voided) => push_voided(page, *voided),
    }
}

/// Appends what became of an issued payment.
pub(crate) fn push_end(page: &mut Page, state: &PaymentState) -> Result<(), AllocError>
    ensures before { page.new.before ≡ page.old.before }
    ensures text { OnOk result (page.new.text ≡ page.old.text ++ flat_map further (end_fields state.now)) }
{
    match state {
        PaymentState::Proposed | PaymentState::Declined | PaymentState::Issued(_) => Ok(()),
        PaymentState::Cleared(paid) => push_told(page, "CLEARED", &paid.clearing),
        PaymentState::Voided(voided) => push_dated(page, "VOIDED", voided.undone),
    }
}

fn push_fund(page: &mut Page, fund: Fund) -> Result<(), AllocError>
    ensures before { page.new.before ≡ page.old.before }
    ensures text { OnOk result (page.new.text ≡ page.old.text ++ flat_map further (fund_fields fund)) }
{
    match fund {
        Fund::General => push_word(page, "FROM GENERAL"),
        Fund::Fee(fee) => push_named(page, "FROM FEE", fee),
        Fund::Claim(claim) => push_named(page, "FROM CLAIM", claim),
    }
}

fn push_settled(page: &mut Page, settlement: Settlement) -> Result<(), AllocError>
    ensures before { page.new.before ≡ page.old.before }
    ensures text { OnOk result (page.new.text ≡ page.old.text
        ++ flat_map further
        (codes "SETTLED" ∷ day_text settlement.day ∷ codes "TO CLIENT" ∷ amount_text settlement.part ∷ [])) }
{
    push_fields(
        page,
        &[
            Piece::Word("SETTLED"),
            Piece::Day(settlement.day),
            Piece::Word("TO CLIENT"),
            Piece::Part(settlement.part),
        ],
    )
}

fn push_claim_state(page: &mut Page, state: ClaimState) -> Result<(), AllocError>
    ensures before { page.new.before ≡ page.old.before }
    ensures text { OnOk result (page.new.text ≡ page.old.text ++ flat_map further (claim_state state)) }
{
    match state {
        ClaimState::Open | ClaimState::Offered(_) => push_word(page, "OPEN"),
        ClaimState::Settled(settlement) => push_settled(page, settlement),
    }
}

// Appends the fee that a claim is on, and the client, who makes the claim.
fn push_disputed(page: &mut Page, fee: EntryNo) -> Result<(), AllocError>
    ensures before { page.new.before ≡ page.old.before }
    ensures text { OnOk result (page.new.text ≡ page.old.text
        ++ flat_map further (codes "ON FEE" ∷ entry_text fee ∷ barred (codes "client"))) }
{
    push_fields(
        page,
        &[
            Piece::Word("ON FEE"),
            Piece::Entry(fee),
            Piece::Word("|"),
            Piece::Word("client"),
        ],
    )
}

fn push_claimed(page: &mut Page, claimant: &Label) -> Result<(), AllocError>
    ensures before { page.new.before ≡ page.old.before }
    ensures text { OnOk result (page.new.text ≡ page.old.text
        ++ flat_map further (codes "ON GENERAL" ∷ barred claimant.now)) }
{
    push_fields(
        page,
        &[
            Piece::Word("ON GENERAL"),
            Piece::Word("|"),
            Piece::Label(claimant),
        ],
    )
}

fn push_against(page: &mut Page, against: &Against) -> Result<(), AllocError>
    ensures before { page.new.before ≡ page.old.before }
    ensures text { OnOk result (page.new.text ≡ page.old.text ++ flat_map further (against_fields against.now)) }
{
    match against {
        Against::General(claimant) => push_claimed(page, claimant),
        Against::Fee(fee) => push_disputed(page, *fee),
    }
}

// Appends a deposit's names, each after a bar.
pub(crate) fn push_deposit_names(page: &mut Page, deposit: &Deposit) -> Result<(), AllocError>
    ensures before { page.new.before ≡ page.old.before }
    ensures text { OnOk result (page.new.text ≡ page.old.text ++ flat_map further (deposit_names deposit.now)) }
{
    push_barred(page, &deposit.source)?;
    push_barred(page, &deposit.description)
}

// Appends a payment's names, each after a bar.
pub(crate) fn push_payment_names(page: &mut Page, payment: &Payment) -> Result<(), AllocError>
    ensures before { page.new.before ≡ page.old.before }
    ensures text { OnOk result (page.new.text ≡ page.old.text ++ flat_map further (payment_names payment.now)) }
{
    push_barred(page, &payment.payee)?;
    push_barred(page, &payment.purpose)?;
    push_barred(page, &payment.instrument)
}

fn push_deposit(page: &mut Page, deposit: &Deposit) -> Result<(), AllocError>
    ensures before { page.new.before ≡ page.old.before }
    ensures text { OnOk result (page.new.text ≡ page.old.text ++ flat_map further (deposit_fields deposit.now)) }
{
    push_made(page, deposit.book, "DEPOSIT", deposit.amount)?;
    push_deposit_state(page, &deposit.state)?;
    push_deposit_names(page, deposit)
}

fn push_payment(page: &mut Page, payment: &Payment) -> Result<(), AllocError>
    ensures before { page.new.before ≡ page.old.before }
    ensures text { OnOk result (page.new.text ≡ page.old.text ++ flat_map further (payment_fields payment.now)) }
{
    push_made(page, payment.book, "PAYMENT", payment.amount)?;
    push_payment_state(page, &payment.state)?;
    push_fund(page, payment.fund)?;
    push_payment_names(page, payment)
}

fn push_left(page: &mut Page, left: u64) -> Result<(), AllocError>
    ensures before { page.new.before ≡ page.old.before }
    ensures text { OnOk result (page.new.text ≡ page.old.text
        ++ flat_map further (codes "LEFT" ∷ amount_text left ∷ [])) }
{
    push_fields(page, &[Piece::Word("LEFT"), Piece::Left(left)])
}

fn push_fee(page: &mut Page, fee: &Fee, left: u64) -> Result<(), AllocError>
    ensures before { page.new.before ≡ page.old.before }
    ensures text { OnOk result (page.new.text ≡ page.old.text ++ flat_map further (fee_fields fee.now (pos left))) }
{
    push_made(page, fee.book, "FEE", fee.amount)?;
    push_left(page, left)?;
    push_barred(page, &fee.description)
}

fn push_claim(page: &mut Page, claim: &Claim) -> Result<(), AllocError>
    ensures before { page.new.before ≡ page.old.before }
    ensures text { OnOk result (page.new.text ≡ page.old.text ++ flat_map further (claim_fields claim.now)) }
{
    push_made(page, claim.book, "CLAIM", claim.amount)?;
    push_claim_state(page, claim.state)?;
    push_against(page, &claim.against)?;
    push_barred(page, &claim.reason)
}

fn push_entry(page: &mut Page, entry: &Entry, left: u64) -> Result<(), AllocError>
    ensures before { page.new.before ≡ page.old.before }
    ensures text { OnOk result (page.new.text ≡ page.old.text ++ flat_map further (entry_fields entry.now (pos left))) }
{
    match entry {
        Entry::Deposit(deposit) => push_deposit(page, deposit),
        Entry::Payment(payment) => push_payment(page, payment),
        Entry::Fee(fee) => push_fee(page, fee, left),
        Entry::Claim(claim) => push_claim(page, claim),
    }
}

impl Printed for Kept {
    ghost printed = { kept_line };

    fn push_to(&self, page: &mut Page) -> Result<(), AllocError> {
        page.push(&self.number.digits())?;
        push_entry(page, &self.entry, self.left)?;
        page.push(b"\n")
    }
}
