// The ledger card.

ghost use Rattle.std.specs.Prelude.{◌≡◌, [], ◌∷◌, ◌++◌, OnOk, OnErr, codes};
ghost use Rattle.std.specs.Option.{option_copied};
ghost use Rattle.matter_rows.specs.Rows.{closed_on as closed_in};
ghost use Rattle.matter_parts.specs.Parts.{AreSmall};
ghost use Rattle.trust_reports.specs.Texts.{line};
ghost use Rattle.trust_base.specs.Texts.{matter_text};
ghost use Rattle.trust_reports.specs.Pieces.{text_of};
ghost use Rattle.trust_reports.specs.TextsOfLedgers.{client_text, day_or_dash, kept_balances, ledger_card, ledger_heading, opened_on as opened_in};

use crate::page::{Page, Piece, Printed, Sum, append, push_columns, push_line};
use std::alloc::AllocError;
use trust_base::{Day, MatterNo};
use trust_matter::{Figures, Head, Holder, Matter};

/// The client's label, or a dash.
pub(crate) fn client(head: Option<&Head>) -> Piece<'_>
    ensures { text_of result ≡ client_text (option_copied head.entry) }
{
    match head {
        Some(head) => match &head.holder {
            Holder::Client(client) => Piece::Label(client),
            Holder::Purged(_) => Piece::Word("-"),
        },
        None => Piece::Word("-"),
    }
}

fn day_or_dash(day: Option<Day>) -> Piece<'static>
    ensures { text_of result ≡ day_or_dash day }
{
    match day {
        Some(day) => Piece::Day(day),
        None => Piece::Word("-"),
    }
}

fn opened_on(head: Option<&Head>) -> Option<Day>
    ensures { result ≡ opened_in (option_copied head.entry) }
{
    match head {
        Some(head) => Some(head.opened),
        None => None,
    }
}

fn closed_on(head: Option<&Head>) -> Option<Day>
    ensures { result ≡ closed_in (option_copied head.entry) }
{
    match head {
        Some(head) => head.closed,
        None => None,
    }
}

fn push_client(page: &mut Page, number: MatterNo, head: Option<&Head>) -> Result<(), AllocError>
    ensures before { page.new.before ≡ page.old.before }
    ensures text { OnOk result (page.new.text ≡ page.old.text
        ++ line (codes "LEDGER") (matter_text number ∷ client_text (option_copied head.entry) ∷ [])) }
{
    let client = client(head);
    push_line(
        page,
        &Piece::Word("LEDGER"),
        &[Piece::Matter(number), client],
    )
}

fn push_days(page: &mut Page, head: Option<&Head>) -> Result<(), AllocError>
    ensures before { page.new.before ≡ page.old.before }
    ensures text { OnOk result (page.new.text ≡ page.old.text
        ++ line (codes "OPENED")
        (day_or_dash (opened_in (option_copied head.entry)) ∷ codes "CLOSED"
        ∷ day_or_dash (closed_in (option_copied head.entry)) ∷ [])) }
{
    let opened = day_or_dash(opened_on(head));
    let closed = day_or_dash(closed_on(head));
    push_line(
        page,
        &Piece::Word("OPENED"),
        &[opened, Piece::Word("CLOSED"), closed],
    )
}

fn push_heading(page: &mut Page, number: MatterNo, head: Option<&Head>) -> Result<(), AllocError>
    ensures before { page.new.before ≡ page.old.before }
    ensures text { OnOk result (page.new.text ≡ page.old.text ++ ledger_heading number (option_copied head.entry)) }
{
    push_client(page, number, head)?;
    push_days(page, head)
}

fn push_balances(page: &mut Page, figures: &Figures) -> Result<(), AllocError>
    requires { AreSmall figures.now }
    ensures before { page.new.before ≡ page.old.before }
    ensures text { OnOk result (page.new.text ≡ page.old.text ++ kept_balances figures.now) }
{
    let available = figures.available as i128;
    let held = figures.held as i128;
    let fees = figures.fees as i128;
    let claims = figures.claims as i128;
    let disputed = figures.disputed as i128;
    push_columns(
        page,
        10,
        18,
        &[
            ("AVAILABLE", Sum::Of(available)),
            ("HELD", Sum::Of(held)),
            ("FEES", Sum::Of(fees)),
            ("CLAIMS", Sum::Of(claims)),
            ("DISPUTED", Sum::Of(disputed)),
            ("TOTAL", Sum::Of(available + disputed + fees + claims)),
        ],
    )
}

#[derive(Drop)]
struct Card<'a> {
    number: MatterNo,
    matter: &'a Matter,
}

impl Printed for Card<'_> {
    ghost printed = { λ c. ledger_card c.number c.matter.now };

    fn push_to(&self, page: &mut Page) -> Result<(), AllocError> {
        let figures = self.matter.figures();
        push_heading(page, self.number, self.matter.head())?;
        page.push_lines(self.matter.kept())?;
        push_balances(page, &figures)
    }
}

/// Appends the ledger card of a matter, the full accounting that a client may ask for (ABA Model Rule 1.15(d)): its
/// number and client, the days it was opened and closed, each loaded entry in its current state, and the six balances
/// in cents. Labels take 10 places; amounts are right-aligned in 18. Prints `-` for the client of an unopened or purged
/// matter, and for a missing day. The card is complete if all entries of the matter are loaded.
///
/// The only error is out of memory; `out` is then unchanged.
pub fn ledger_card(number: MatterNo, matter: &Matter, out: &mut Vec<u8>) -> Result<(), AllocError>
    ensures ok { OnOk result (out.new.items ≡ out.old.items ++ ledger_card number matter.now) }
    ensures err { OnErr result (out.new.items ≡ out.old.items) }
{
    append(out, &Card { number, matter })
}
