// The trail: who did what, and which exceptions were dismissed.

ghost use Rattle.std.specs.Prelude.{◌≡◌, [], ◌∷◌, ◌++◌, OnOk, OnErr, flat_map};
ghost use Rattle.trust_reports.specs.Texts.{further};
ghost use Rattle.trust_reports.specs.TextsOfActs.{act_line, begins_late, deed_fields, dismissal_line, earlier_text};
ghost use Rattle.trust_reports.specs.TextsOfActs.{matter_trail_text, role_text, trail_text};

use crate::page::{
    Page, Piece, Printed, append, push_day, push_fields, push_heading, push_line, push_word,
};
use firm_rows::{Dismissal, MatterAct};
use std::alloc::AllocError;
use trust_base::{Day, MatterNo, PersonId};
use trust_matter::{Caller, Deed, Role, Seat};

// A role as it is printed.
fn role_word(role: Role) -> &'static str
    ensures { result.now ≡ role_text role }
{
    match role {
        Role::Client => "CLIENT",
        Role::Lawyer => "LAWYER",
    }
}

// Appends a word and a person.
fn push_person(page: &mut Page, word: &str, person: &PersonId) -> Result<(), AllocError>
    ensures before { page.new.before ≡ page.old.before }
    ensures text { OnOk result (page.new.text ≡ page.old.text
        ++ flat_map further (word.now ∷ person.now ∷ [])) }
{
    push_fields(page, &[Piece::Word(word), Piece::Person(person)])
}

// Appends a seat that was given.
fn push_seated(page: &mut Page, seat: &Seat) -> Result<(), AllocError>
    ensures before { page.new.before ≡ page.old.before }
    ensures text { OnOk result (page.new.text ≡ page.old.text
        ++ flat_map further (deed_fields (Deed.Seated seat.now))) }
{
    push_person(page, "SEATED", &seat.person)?;
    push_word(page, role_word(seat.role))
}

// Appends what was done.
fn push_deed(page: &mut Page, deed: &Deed) -> Result<(), AllocError>
    ensures before { page.new.before ≡ page.old.before }
    ensures text { OnOk result (page.new.text ≡ page.old.text ++ flat_map further (deed_fields deed.now)) }
{
    match deed {
        Deed::Opened(lawyer) => push_person(page, "OPENED", lawyer),
        Deed::Seated(seat) => push_seated(page, seat),
        Deed::Unseated(person) => push_person(page, "UNSEATED", person),
        Deed::Closed => push_word(page, "CLOSED"),
        Deed::Deposited => push_word(page, "DEPOSITED"),
        Deed::Cancelled => push_word(page, "CANCELLED"),
        Deed::Cleared => push_word(page, "CLEARED"),
        Deed::Returned => push_word(page, "RETURNED"),
        Deed::Proposed => push_word(page, "PROPOSED"),
        Deed::Approved => push_word(page, "APPROVED"),
        Deed::Declined => push_word(page, "DECLINED"),
        Deed::Withdrawn => push_word(page, "WITHDRAWN"),
        Deed::Voided => push_word(page, "VOIDED"),
        Deed::Earned => push_word(page, "EARNED"),
        Deed::Disputed => push_word(page, "DISPUTED"),
        Deed::Claimed => push_word(page, "CLAIMED"),
        Deed::Offered(part) => push_fields(page, &[Piece::Word("OFFERED"), Piece::Part(*part)]),
        Deed::Accepted => push_word(page, "ACCEPTED"),
        Deed::Awarded => push_word(page, "AWARDED"),
    }
}

impl Printed for MatterAct {
    ghost printed = { act_line };

    fn push_to(&self, page: &mut Page) -> Result<(), AllocError> {
        push_day(page, self.act.day)?;
        push_fields(
            page,
            &[
                Piece::Place(self.matter, self.act.entry),
                Piece::Caller(&self.act.caller),
            ],
        )?;
        push_deed(page, &self.act.deed)?;
        page.push(b"\n")
    }
}

impl Printed for Dismissal {
    ghost printed = { dismissal_line };

    fn push_to(&self, page: &mut Page) -> Result<(), AllocError> {
        let cashier = Caller::Cashier;
        push_day(page, self.day)?;
        push_fields(
            page,
            &[
                Piece::Word("-"),
                Piece::Caller(&cashier),
                Piece::Word("DISMISSED"),
            ],
        )?;
        page.push(b" ")?;
        self.line.push_to(page)
    }
}

// Whether the first act of a matter is not its opening.
fn begins_late(acts: &[MatterAct]) -> bool
    ensures { result ≡ begins_late acts.now }
{
    match acts.first() {
        Some(first) => !matches!(&first.act.deed, Deed::Opened(_)),
        None => true,
    }
}

// Appends a line where acts begin late.
fn push_earlier(page: &mut Page, is_late: bool) -> Result<(), AllocError>
    ensures before { page.new.before ≡ page.old.before }
    ensures text { OnOk result (page.new.text ≡ page.old.text ++ earlier_text is_late) }
{
    if is_late {
        return push_line(page, &Piece::Word("EARLIER ACTS ARE NOT RECORDED"), &[]);
    }
    Ok(())
}

#[derive(Drop)]
struct MatterTrail<'a> {
    today: Day,
    matter: MatterNo,
    acts: &'a [MatterAct],
}

impl Printed for MatterTrail<'_> {
    ghost printed = { λ t. matter_trail_text t.today t.matter t.acts.now };

    fn push_to(&self, page: &mut Page) -> Result<(), AllocError> {
        let fields = [Piece::Matter(self.matter), Piece::Day(self.today)];
        push_line(page, &Piece::Word("TRAIL"), &fields)?;
        push_earlier(page, begins_late(self.acts))?;
        page.push_lines(self.acts)
    }
}

#[derive(Drop)]
struct Trail<'a> {
    today: Day,
    is_late: bool,
    acts: &'a [MatterAct],
    dismissals: &'a [Dismissal],
}

impl Printed for Trail<'_> {
    ghost printed = { λ t. trail_text t.today t.is_late t.acts.now t.dismissals.now };

    fn push_to(&self, page: &mut Page) -> Result<(), AllocError> {
        push_heading(page, "TRAIL", self.today)?;
        push_earlier(page, self.is_late)?;
        page.push_lines(self.acts)?;
        page.push_lines(self.dismissals)
    }
}

/// Appends the trail on a business day. A line says so if the acts begin late (`is_late`). For each of these acts, in their order, it has its business day, the matter or
/// the entry, who did it and what was done, with the person whose seat it is, or the client's part. Then, for each of
/// these dismissals, in their order, it has its business day, `-`, the cashier, and the bank line as it was in the
/// report of the exceptions.
///
/// The only error is out of memory; `out` is then unchanged.
pub fn trail_text(
    today: Day,
    is_late: bool,
    acts: &[MatterAct],
    dismissals: &[Dismissal],
    out: &mut Vec<u8>,
) -> Result<(), AllocError>
    ensures ok { OnOk result
        (out.new.items ≡ out.old.items ++ trail_text today is_late acts.now dismissals.now) }
    ensures err { OnErr result (out.new.items ≡ out.old.items) }
{
    append(
        out,
        &Trail {
            today,
            is_late,
            acts,
            dismissals,
        },
    )
}

/// Appends the line of one act, as it is in the trail.
///
/// The only error is out of memory; `out` is then unchanged.
pub fn act_line(act: &MatterAct, out: &mut Vec<u8>) -> Result<(), AllocError>
    ensures ok { OnOk result (out.new.items ≡ out.old.items ++ act_line act.now) }
    ensures err { OnErr result (out.new.items ≡ out.old.items) }
{
    append(out, act)
}

/// Appends the line of one dismissal, as it is in the trail.
///
/// The only error is out of memory; `out` is then unchanged.
pub fn dismissal_line(dismissal: &Dismissal, out: &mut Vec<u8>) -> Result<(), AllocError>
    ensures ok { OnOk result (out.new.items ≡ out.old.items ++ dismissal_line dismissal.now) }
    ensures err { OnErr result (out.new.items ≡ out.old.items) }
{
    append(out, dismissal)
}

/// Appends the trail of a matter, of which these are the acts, on a business day. A line says so if they do not begin
/// with its opening.
///
/// The only error is out of memory; `out` is then unchanged.
pub fn matter_trail_text(
    today: Day,
    matter: MatterNo,
    acts: &[MatterAct],
    out: &mut Vec<u8>,
) -> Result<(), AllocError>
    ensures ok { OnOk result (out.new.items ≡ out.old.items ++ matter_trail_text today matter acts.now) }
    ensures err { OnErr result (out.new.items ≡ out.old.items) }
{
    append(
        out,
        &MatterTrail {
            today,
            matter,
            acts,
        },
    )
}
