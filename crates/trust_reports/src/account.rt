// A client's statement of account for a period.

ghost use Rattle.std.specs.Prelude.{◌≡◌, ◌++◌, ◌∷◌, [], OnErr, OnOk, codes, flat_map};
ghost use Rattle.std.specs.Option.{option_copied};
ghost use Rattle.trust_base.specs.Texts.{signed_text};
ghost use Rattle.trust_reports.specs.Pieces.{sum_text};
ghost use Rattle.trust_reports.specs.Texts.{column, further, reference_text};
ghost use Rattle.trust_reports.specs.TextsOfAccounts.{account_body, account_heading, account_line, account_printed, account_text, entry_names};
ghost use Rattle.trust_reports.specs.TextsOfPeriods.{cause_text};

use crate::card::client;
use crate::card_entries::{push_deposit_names, push_payment_names};
use crate::page::{
    Page, Piece, Printed, Sum, append, push_column, push_day, push_fields, push_line,
};
use crate::periods::{cause_word, push_period};
use firm_periods::{Account, AccountLine, Cause, account_of};
use std::alloc::{AllocError, Global};
use trust_base::{EntryNo, MatterNo, Period};
use trust_matter::{Entry, Head, Matter};

// Appends the names of an entry, each after a bar.
fn push_names(page: &mut Page, entry: &Entry) -> Result<(), AllocError>
    ensures before { page.new.before ≡ page.old.before }
    ensures text { OnOk result (page.new.text ≡ page.old.text ++ flat_map further (entry_names entry.now)) }
{
    match entry {
        Entry::Deposit(deposit) => push_deposit_names(page, deposit),
        Entry::Payment(payment) => push_payment_names(page, payment),
        Entry::Fee(_) | Entry::Claim(_) => Ok(()),
    }
}

// Appends the entry, its signed amount, the balance after it, and why the money moved.
fn push_balance(
    page: &mut Page,
    matter: MatterNo,
    number: EntryNo,
    amount: i128,
    ledger: i128,
    cause: Cause,
) -> Result<(), AllocError>
    ensures before { page.new.before ≡ page.old.before }
    ensures text { OnOk result (page.new.text ≡ page.old.text
        ++ flat_map further
        (reference_text matter number ∷ signed_text amount ∷ signed_text ledger ∷ cause_text cause ∷ [])) }
{
    let word = cause_word(cause);
    push_fields(
        page,
        &[
            Piece::Reference(matter, number),
            Piece::Sum(amount),
            Piece::Sum(ledger),
            Piece::Word(word),
        ],
    )
}

fn push_account_line(
    page: &mut Page,
    matter: MatterNo,
    line: &AccountLine<'_>,
) -> Result<(), AllocError>
    ensures before { page.new.before ≡ page.old.before }
    ensures text { OnOk result (page.new.text ≡ page.old.text ++ account_line matter line.now) }
{
    let moved = line.moved();
    push_day(page, moved.day)?;
    push_balance(
        page,
        matter,
        line.number(),
        moved.amount as i128,
        line.ledger(),
        moved.cause,
    )?;
    push_names(page, line.entry())?;
    page.push(b"\n")
}

fn push_account_lines(
    page: &mut Page,
    matter: MatterNo,
    lines: &[AccountLine<'_>],
) -> Result<(), AllocError>
    ensures before { page.new.before ≡ page.old.before }
    ensures text { OnOk result (page.new.text ≡ page.old.text ++ flat_map (account_line matter) lines.now) }
{
    for line in lines {
        push_account_line(page, matter, line)?;
    }
    Ok(())
}

// Appends the opening balance, the movements, and the closing balance.
fn push_account(page: &mut Page, matter: MatterNo, account: &Account<'_>) -> Result<(), AllocError>
    ensures before { page.new.before ≡ page.old.before }
    ensures text { OnOk result (page.new.text ≡ page.old.text ++ account_body matter account.now) }
{
    let opening = Sum::Of(account.opening());
    let closing = Sum::Of(account.closing());
    push_column(page, 14, 24, b"OPENING", opening)?;
    push_account_lines(page, matter, account.lines())?;
    push_column(page, 14, 24, b"CLOSING", closing)
}

// Appends the matter and its client.
fn push_client(page: &mut Page, matter: MatterNo, head: Option<&Head>) -> Result<(), AllocError>
    ensures before { page.new.before ≡ page.old.before }
    ensures text { OnOk result (page.new.text ≡ page.old.text ++ account_heading matter (option_copied head.entry)) }
{
    let client = client(head);
    push_line(
        page,
        &Piece::Word("ACCOUNT"),
        &[Piece::Matter(matter), client],
    )
}

#[derive(Drop)]
struct AccountPage<'a> {
    period: Period,
    number: MatterNo,
    matter: &'a Matter,
    account: Account<'a>,
}

impl Printed for AccountPage<'_> {
    ghost printed = { λ a. account_printed a.period a.number a.matter.now.head a.account };

    fn push_to(&self, page: &mut Page) -> Result<(), AllocError> {
        push_client(page, self.number, self.matter.head())?;
        push_period(page, "PERIOD", self.period)?;
        push_account(page, self.number, &self.account)
    }
}

/// Appends the statement of account of a matter for a period: its number and client, the two days, the ledger before
/// the period, each movement in it with its signed amount and the balance after it, and the ledger at its end, in
/// cents. Labels take 14 places; amounts are right-aligned in 24, and a wider one is printed whole. Prints `-` for the
/// client of an unopened or purged matter. The account is complete if all entries of the matter are loaded.
///
/// The only error is out of memory; `out` is then unchanged.
pub fn account_text(
    alloc: Global,
    number: MatterNo,
    matter: &Matter,
    period: Period,
    out: &mut Vec<u8>,
) -> Result<(), AllocError>
    ensures ok { OnOk result (out.new.items ≡ out.old.items ++ account_text period number matter.now) }
    ensures err { OnErr result (out.new.items ≡ out.old.items) }
{
    let account = account_of(alloc, matter, period)?;
    append(
        out,
        &AccountPage {
            period,
            number,
            matter,
            account,
        },
    )
}
