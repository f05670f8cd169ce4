// The approvals of a period: each issued payment, and who approved it.

ghost use Rattle.std.specs.Prelude.{◌≡◌, [], ◌∷◌, ◌++◌, OnOk, OnErr, codes, flat_map};
ghost use Rattle.trust_base.specs.Texts.{amount_text};
ghost use Rattle.trust_reports.specs.Texts.{further, reference_text};
ghost use Rattle.trust_reports.specs.TextsOfActs.{approval_line, approvals_text, approver_text, is_unread, may_be_of};
ghost use Rattle.trust_reports.specs.TextsOfPeriods.{period_heading};

use crate::card_entries::{push_end, push_payment_names};
use crate::page::{Page, Piece, Printed, append, push_day, push_fields, push_word};
use crate::periods::push_period;
use firm_periods::IssuedPayment;
use std::alloc::AllocError;
use trust_base::{MatterNo, Period};
use trust_matter::Caller;

// Whether a row that can't be read, which names this matter or none, may be an act of a matter.
fn may_be_of(matter: MatterNo, named: Option<MatterNo>) -> bool
    ensures { result ≡ may_be_of matter named }
{
    match named {
        Some(named) => named.get() == matter.get(),
        None => true,
    }
}

// Whether an act of a matter may be among those that can't be read.
fn is_unread(unread: &[Option<MatterNo>], matter: MatterNo) -> bool
    ensures { result ≡ is_unread unread.now matter }
{
    for named in unread {
        if may_be_of(matter, *named) {
            return true;
        }
    }
    false
}

// Appends who approved. If no act says so, that is `?` where an act of the matter may be unread, and otherwise a dash.
fn push_approver(
    page: &mut Page,
    approver: &Option<Caller>,
    may_be_unread: bool,
) -> Result<(), AllocError>
    ensures before { page.new.before ≡ page.old.before }
    ensures text { OnOk result (page.new.text ≡ page.old.text
        ++ flat_map further (approver_text may_be_unread approver.now ∷ [])) }
{
    match approver {
        Some(caller) => push_fields(page, &[Piece::Caller(caller)]),
        None if may_be_unread => push_word(page, "?"),
        None => push_word(page, "-"),
    }
}

// Appends the entry, the amount, and who approved it.
fn push_approved(
    page: &mut Page,
    line: &IssuedPayment,
    unread: &[Option<MatterNo>],
) -> Result<(), AllocError>
    ensures before { page.new.before ≡ page.old.before }
    ensures text { OnOk result (page.new.text ≡ page.old.text ++ flat_map further
        (reference_text line.now.matter line.now.number ∷ amount_text line.now.payment.amount
        ∷ approver_text (is_unread unread.now line.now.matter) line.now.approver ∷ [])) }
{
    let entry = Piece::Reference(line.matter, line.number);
    push_fields(page, &[entry, Piece::Amount(line.payment.amount)])?;
    push_approver(page, &line.approver, is_unread(unread, line.matter))
}

// Appends the line of a payment.
fn push_approval(
    page: &mut Page,
    line: &IssuedPayment,
    unread: &[Option<MatterNo>],
) -> Result<(), AllocError>
    ensures before { page.new.before ≡ page.old.before }
    ensures text { OnOk result (page.new.text ≡ page.old.text ++ approval_line unread.now line.now) }
{
    push_day(page, line.issued)?;
    push_approved(page, line, unread)?;
    push_end(page, &line.payment.state)?;
    push_payment_names(page, &line.payment)?;
    page.push(b"\n")
}

// Appends the lines of payments.
fn push_approvals(
    page: &mut Page,
    lines: &[IssuedPayment],
    unread: &[Option<MatterNo>],
) -> Result<(), AllocError>
    ensures before { page.new.before ≡ page.old.before }
    ensures text { OnOk result (page.new.text ≡ page.old.text ++ flat_map (approval_line unread.now) lines.now) }
{
    for line in lines {
        push_approval(page, line, unread)?;
    }
    Ok(())
}

#[derive(Drop)]
struct Approvals<'a> {
    period: Period,
    lines: &'a [IssuedPayment],
    unread: &'a [Option<MatterNo>],
}

impl Printed for Approvals<'_> {
    ghost printed = { λ a. period_heading (codes "APPROVALS") a.period
        ++ flat_map (approval_line a.unread.now) a.lines.now };

    fn push_to(&self, page: &mut Page) -> Result<(), AllocError> {
        push_period(page, "APPROVALS", self.period)?;
        push_approvals(page, self.lines, self.unread)
    }
}

/// Appends the approvals of a period (ABA Model Rules for Client Trust Account Records: the name of the person who
/// authorized a transfer): for each issued payment the day of its issue, its entry, the amount in cents, who approved
/// it, the bank's day and reference if the bank paid it, the day of its voiding if it was voided, its payee, its purpose
/// and its instrument.
///
/// `unread` has, for each row of the trail that can't be read, the matter that it names, or None if it names none.
/// Where no act says who approved, that is `?` if such a row names the matter of the payment or none, since it may be
/// the approval, and otherwise `-`.
///
/// The only error is out of memory; `out` is then unchanged.
pub fn approvals_text(
    period: Period,
    lines: &[IssuedPayment],
    unread: &[Option<MatterNo>],
    out: &mut Vec<u8>,
) -> Result<(), AllocError>
    ensures ok { OnOk result (out.new.items ≡ out.old.items ++ approvals_text period lines.now unread.now) }
    ensures err { OnErr result (out.new.items ≡ out.old.items) }
{
    append(
        out,
        &Approvals {
            period,
            lines,
            unread,
        },
    )
}
