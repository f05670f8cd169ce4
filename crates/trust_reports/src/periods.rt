// The journals of receipts and of disbursements of a period, and what waits for the bank as of a day.

ghost use Rattle.std.specs.Prelude.{◌≡◌, [], ◌∷◌, ◌++◌, OnOk, OnErr, codes, flat_map};
ghost use Rattle.trust_base.specs.Texts.{signed_text};
ghost use Rattle.trust_reports.specs.Pieces.{sum_text};
ghost use Rattle.trust_reports.specs.Texts.{column, further, heading, owner_text};
ghost use Rattle.trust_reports.specs.TextsOfLedgers.{barred};
ghost use Rattle.trust_reports.specs.TextsOfPeriods.{cause_text, client_or_dash, disbursed_line, disbursements_text, moved_line, names_fields, outstanding_text, period_heading, receipts_text, signed_line};

use crate::card_entries::push_barred;
use crate::page::{
    Page, Piece, Printed, Sum, append, push_column, push_day, push_fields, push_heading, push_line,
};
use firm_figures::Owner;
use firm_periods::{Cause, MoveNames, NamedList, NamedMove};
use std::alloc::AllocError;
use trust_base::{Day, Label, Period};

/// A cause as it is printed.
pub(crate) fn cause_word(cause: Cause) -> &'static str
    ensures { result.now ≡ cause_text cause }
{
    match cause {
        Cause::Deposit => "DEPOSIT",
        Cause::Cancelled => "CANCELLED",
        Cause::Returned => "RETURNED",
        Cause::Payment => "PAYMENT",
        Cause::Voided => "VOIDED",
        Cause::Own => "OWN",
    }
}

// Appends the client after a bar, or a dash if the matter has none.
fn push_client(page: &mut Page, client: &Option<Label>) -> Result<(), AllocError>
    ensures before { page.new.before ≡ page.old.before }
    ensures text { OnOk result (page.new.text ≡ page.old.text
        ++ flat_map further (barred (client_or_dash client.now))) }
{
    match client {
        Some(client) => push_barred(page, client),
        None => push_fields(page, &[Piece::Word("|"), Piece::Word("-")]),
    }
}

// Appends each name after a bar.
fn push_names(page: &mut Page, names: &MoveNames) -> Result<(), AllocError>
    ensures before { page.new.before ≡ page.old.before }
    ensures text { OnOk result (page.new.text ≡ page.old.text ++ flat_map further (names_fields names.now)) }
{
    match names {
        MoveNames::Deposit {
            source,
            description,
            client,
        } => {
            push_barred(page, source)?;
            push_barred(page, description)?;
            push_client(page, client)
        }
        MoveNames::Payment {
            payee,
            purpose,
            instrument,
            client,
        } => {
            push_barred(page, payee)?;
            push_barred(page, purpose)?;
            push_barred(page, instrument)?;
            push_client(page, client)
        }
        MoveNames::Own { bank_ref, text } => {
            push_fields(
                page,
                &[
                    Piece::Word("|"),
                    Piece::OrDash(bank_ref),
                    Piece::Word("|"),
                    Piece::Words(text),
                ],
            )
        }
    }
}

// Appends whose a movement is, an amount, and why the money moved.
fn push_cause(page: &mut Page, owner: Owner, amount: i128, cause: Cause) -> Result<(), AllocError>
    ensures before { page.new.before ≡ page.old.before }
    ensures text { OnOk result (page.new.text ≡ page.old.text
        ++ flat_map further (owner_text owner ∷ signed_text amount ∷ cause_text cause ∷ [])) }
{
    let word = cause_word(cause);
    push_fields(
        page,
        &[Piece::Owner(owner), Piece::Sum(amount), Piece::Word(word)],
    )
}

// Appends a movement with this amount.
fn push_move(page: &mut Page, line: &NamedMove, amount: i128) -> Result<(), AllocError>
    ensures before { page.new.before ≡ page.old.before }
    ensures text { OnOk result (page.new.text ≡ page.old.text ++ moved_line amount line.now) }
{
    push_day(page, line.moved.day)?;
    push_cause(page, line.owner, amount, line.moved.cause)?;
    push_names(page, &line.names)?;
    page.push(b"\n")
}

// With its sign.
impl Printed for NamedMove {
    ghost printed = { signed_line };

    fn push_to(&self, page: &mut Page) -> Result<(), AllocError> {
        push_move(page, self, self.moved.amount as i128)
    }
}

// Appends disbursements: what went out without a minus sign, and what came back with one.
fn push_disbursed(page: &mut Page, lines: &[NamedMove]) -> Result<(), AllocError>
    ensures before { page.new.before ≡ page.old.before }
    ensures text { OnOk result (page.new.text ≡ page.old.text ++ flat_map disbursed_line lines.now) }
{
    for line in lines {
        push_move(page, line, -(line.moved.amount as i128))?;
    }
    Ok(())
}

/// Appends the first line of a report of a period.
#[tactic(auto, unfolding(crate::specs::TextsOfPeriods::period_heading))]
pub(crate) fn push_period(page: &mut Page, name: &str, period: Period) -> Result<(), AllocError>
    ensures before { page.new.before ≡ page.old.before }
    ensures text { OnOk result (page.new.text ≡ page.old.text ++ period_heading name.now period) }
{
    let from = Piece::Day(period.from());
    let to = Piece::Day(period.to());
    push_line(page, &Piece::Word(name), &[from, to])
}

#[derive(Drop)]
struct Receipts<'a> {
    period: Period,
    moves: &'a [NamedMove],
    total: Sum,
}

impl Printed for Receipts<'_> {
    ghost printed = { λ r. period_heading (codes "RECEIPTS") r.period
        ++ (flat_map signed_line r.moves.now ++ column 14 24 (codes "TOTAL") (sum_text r.total)) };

    fn push_to(&self, page: &mut Page) -> Result<(), AllocError> {
        push_period(page, "RECEIPTS", self.period)?;
        page.push_lines(self.moves)?;
        push_column(page, 14, 24, b"TOTAL", self.total)
    }
}

#[derive(Drop)]
struct Disbursements<'a> {
    period: Period,
    moves: &'a [NamedMove],
    total: Sum,
}

impl Printed for Disbursements<'_> {
    ghost printed = { λ d. period_heading (codes "DISBURSEMENTS") d.period
        ++ (flat_map disbursed_line d.moves.now ++ column 14 24 (codes "TOTAL") (sum_text d.total)) };

    fn push_to(&self, page: &mut Page) -> Result<(), AllocError> {
        push_period(page, "DISBURSEMENTS", self.period)?;
        push_disbursed(page, self.moves)?;
        push_column(page, 14, 24, b"TOTAL", self.total)
    }
}

// Appends movements that wait for the bank, and their sum.
fn push_waiting(
    page: &mut Page,
    label: &str,
    moves: &[NamedMove],
    total: Sum,
) -> Result<(), AllocError>
    ensures before { page.new.before ≡ page.old.before }
    ensures text { OnOk result (page.new.text ≡ page.old.text
        ++ (flat_map signed_line moves.now ++ column 14 24 label.now (sum_text total))) }
{
    page.push_lines(moves)?;
    push_column(page, 14, 24, label.as_bytes(), total)
}

#[derive(Drop)]
struct Outstanding<'a> {
    p: Day,
    transit: &'a [NamedMove],
    in_transit: Sum,
    out: &'a [NamedMove],
    outstanding: Sum,
}

impl Printed for Outstanding<'_> {
    ghost printed = { λ o. heading (codes "OUTSTANDING ITEMS") o.p
        ++ ((flat_map signed_line o.transit.now ++ column 14 24 (codes "IN TRANSIT") (sum_text o.in_transit))
        ++ (flat_map signed_line o.out.now ++ column 14 24 (codes "OUTSTANDING") (sum_text o.outstanding))) };

    fn push_to(&self, page: &mut Page) -> Result<(), AllocError> {
        push_heading(page, "OUTSTANDING ITEMS", self.p)?;
        push_waiting(page, "IN TRANSIT", self.transit, self.in_transit)?;
        push_waiting(page, "OUTSTANDING", self.out, self.outstanding)
    }
}

/// Appends the journal of receipts of a period (ABA Model Rules for Client Trust Account Records): the date, the entry
/// or `FIRM`, the signed amount and the kind of each, its source, its description and its client, and their sum, in
/// cents. What a cancelled or returned deposit took back has a minus sign.
///
/// The only error is out of memory; `out` is then unchanged.
pub fn receipts_text(period: Period, list: &NamedList, out: &mut Vec<u8>) -> Result<(), AllocError>
    ensures ok { OnOk result
        (out.new.items ≡ out.old.items ++ receipts_text period list.now.moves.items list.now.total) }
    ensures err { OnErr result (out.new.items ≡ out.old.items) }
{
    let moves = list.moves.as_slice();
    let total = Sum::Of(list.total);
    append(
        out,
        &Receipts {
            period,
            moves,
            total,
        },
    )
}

/// Appends the journal of disbursements of a period (ABA Model Rules for Client Trust Account Records): the date, the
/// entry or `FIRM`, the amount and the kind of each, its payee, its purpose, its check number and its client, and their
/// sum, in cents. What went out has no sign, and what a voiding brought back has a minus sign.
///
/// The only error is out of memory; `out` is then unchanged.
pub fn disbursements_text(
    period: Period,
    list: &NamedList,
    out: &mut Vec<u8>,
) -> Result<(), AllocError>
    ensures ok { OnOk result
        (out.new.items ≡ out.old.items ++ disbursements_text period list.now.moves.items list.now.total) }
    ensures err { OnErr result (out.new.items ≡ out.old.items) }
{
    let moves = list.moves.as_slice();
    let total = Sum::NegativeOf(list.total);
    append(
        out,
        &Disbursements {
            period,
            moves,
            total,
        },
    )
}

/// Appends what waits for the bank as of a day, with signs: the deposits in transit and their sum, and the outstanding
/// payments and theirs, each with its names. The sums are those of the reconciliation of the day.
///
/// The only error is out of memory; `out` is then unchanged.
pub fn outstanding_text(
    p: Day,
    transit: &NamedList,
    outstanding: &NamedList,
    out: &mut Vec<u8>,
) -> Result<(), AllocError>
    ensures ok { OnOk result (out.new.items ≡ out.old.items ++ outstanding_text p
        transit.now.moves.items transit.now.total outstanding.now.moves.items outstanding.now.total) }
    ensures err { OnErr result (out.new.items ≡ out.old.items) }
{
    append(
        out,
        &Outstanding {
            p,
            transit: transit.moves.as_slice(),
            in_transit: Sum::Of(transit.total),
            out: outstanding.moves.as_slice(),
            outstanding: Sum::Of(outstanding.total),
        },
    )
}
