//! The body of a matter's acts.

ghost use Rattle.std.specs.Prelude.{◌≡◌, ◌++◌, IfOk, OnOk, map};
ghost use Rattle.std.specs.Option.{option_copied};
ghost use Rattle.serde_json.specs.Data.{string as text_data};
ghost use Rattle.matter_rows.specs.Rows.{role_name as role_word};
ghost use Rattle.trail_laws.specs.Signed.{begins_with_opening};
ghost use Rattle.json_bodies.specs.Acts.{act_object, acts_body, acts_object, caller_name, deed_name};
ghost use Rattle.json_bodies.specs.Acts.{part_offered, person_seated, role_given};
ghost use Rattle.json_bodies.specs.Json.{array_of, or_null, value_tokens};
ghost use Rattle.json_bodies.specs.Values.{data_of};

use crate::bodies::{Value, cents_or_null, entry_or_null, new_body, role_name, write_object};
use json::Writer;
use std::alloc::{AllocError, Global};
use trust_base::{CentsOrZero, PersonId};
use trust_matter::{Act, Caller, Deed, Role};

#[tactic(auto, using(crate::proofs::TextFacts::utf8_person))]
fn person(person: &PersonId) -> Value<'_>
    ensures { data_of result ≡ text_data person.now }
{
    let Ok(text) = str::from_utf8(person.as_slice()) else {
        unreachable!()
    };
    Value::Text(text)
}

fn person_or_null(found: Option<&PersonId>) -> Value<'_>
    ensures { data_of result ≡ or_null text_data (option_copied found.entry) }
{
    match found {
        Some(found) => person(found),
        None => Value::Null,
    }
}

fn role_or_null(role: Option<Role>) -> Value<'static>
    ensures { data_of result ≡ or_null (λ r. text_data (role_word r)) role }
{
    match role {
        Some(role) => Value::Text(role_name(role)),
        None => Value::Null,
    }
}

// The cashier, or a person by name.
fn caller(caller: &Caller) -> Value<'_>
    ensures { data_of result ≡ text_data (caller_name caller.now) }
{
    match caller {
        Caller::Cashier => Value::Text("cashier"),
        Caller::Person(name) => person(name),
    }
}

// What was done, as a word.
fn deed_name(deed: &Deed) -> &'static str
    ensures { result.now ≡ deed_name deed.now }
{
    match deed {
        Deed::Opened(_) => "opened",
        Deed::Seated(_) => "seated",
        Deed::Unseated(_) => "unseated",
        Deed::Closed => "closed",
        Deed::Deposited => "deposited",
        Deed::Cancelled => "cancelled",
        Deed::Cleared => "cleared",
        Deed::Returned => "returned",
        Deed::Proposed => "proposed",
        Deed::Approved => "approved",
        Deed::Declined => "declined",
        Deed::Withdrawn => "withdrawn",
        Deed::Voided => "voided",
        Deed::Earned => "earned",
        Deed::Disputed => "disputed",
        Deed::Claimed => "claimed",
        Deed::Offered(_) => "offered",
        Deed::Accepted => "accepted",
        Deed::Awarded => "awarded",
    }
}

// Whose seat was given or removed, if any.
fn person_seated(deed: &Deed) -> Option<&PersonId>
    ensures { option_copied result ≡ person_seated deed.now }
{
    match deed {
        Deed::Opened(lawyer) => Some(lawyer),
        Deed::Seated(seat) => Some(&seat.person),
        Deed::Unseated(person) => Some(person),
        Deed::Closed
        | Deed::Deposited
        | Deed::Cancelled
        | Deed::Cleared
        | Deed::Returned
        | Deed::Proposed
        | Deed::Approved
        | Deed::Declined
        | Deed::Withdrawn
        | Deed::Voided
        | Deed::Earned
        | Deed::Disputed
        | Deed::Claimed
        | Deed::Offered(_)
        | Deed::Accepted
        | Deed::Awarded => None,
    }
}

// The role of a seat that was given, if any.
fn role_given(deed: &Deed) -> Option<Role>
    ensures { result ≡ role_given deed.now }
{
    match deed {
        Deed::Opened(_) => Some(Role::Lawyer),
        Deed::Seated(seat) => Some(seat.role),
        Deed::Unseated(_)
        | Deed::Closed
        | Deed::Deposited
        | Deed::Cancelled
        | Deed::Cleared
        | Deed::Returned
        | Deed::Proposed
        | Deed::Approved
        | Deed::Declined
        | Deed::Withdrawn
        | Deed::Voided
        | Deed::Earned
        | Deed::Disputed
        | Deed::Claimed
        | Deed::Offered(_)
        | Deed::Accepted
        | Deed::Awarded => None,
    }
}

// The part of a claim that the client was offered, if any.
fn part_offered(deed: &Deed) -> Option<CentsOrZero>
    ensures { result ≡ part_offered deed.now }
{
    match deed {
        Deed::Offered(part) => Some(*part),
        Deed::Opened(_)
        | Deed::Seated(_)
        | Deed::Unseated(_)
        | Deed::Closed
        | Deed::Deposited
        | Deed::Cancelled
        | Deed::Cleared
        | Deed::Returned
        | Deed::Proposed
        | Deed::Approved
        | Deed::Declined
        | Deed::Withdrawn
        | Deed::Voided
        | Deed::Earned
        | Deed::Disputed
        | Deed::Claimed
        | Deed::Accepted
        | Deed::Awarded => None,
    }
}

fn write_act(alloc: Global, out: &mut Writer, act: &Act) -> Result<(), AllocError>
    ensures before { out.new.before ≡ out.old.before }
    ensures tokens { OnOk result (out.new.tokens ≡ out.old.tokens ++ value_tokens (act_object act.now)) }
{
    write_object(
        alloc,
        out,
        &[
            ("caller", caller(&act.caller)),
            ("day", Value::Day(act.day)),
            ("deed", Value::Text(deed_name(&act.deed))),
            ("entry", entry_or_null(act.entry)),
            ("person", person_or_null(person_seated(&act.deed))),
            ("role", role_or_null(role_given(&act.deed))),
            ("to_client", cents_or_null(part_offered(&act.deed))),
        ],
    )
}

// Writes an array of the acts, in their order.
fn write_acts(alloc: Global, out: &mut Writer, acts: &[Act]) -> Result<(), AllocError>
    ensures before { out.new.before ≡ out.old.before }
    ensures tokens { OnOk result
        (out.new.tokens ≡ out.old.tokens ++ value_tokens (array_of (map act_object acts.now))) }
{
    out.begin_array()?;
    for act in acts {
        write_act(alloc, out, act)?;
    }
    out.end_array()
}

// Whether the first act is the opening of the matter.
fn begins_with_opening(acts: &[Act]) -> bool
    ensures { result ≡ begins_with_opening acts.now }
{
    match acts.first() {
        Some(act) => matches!(act.deed, Deed::Opened(_)),
        None => false,
    }
}

// Writes an object with the array of the acts, and whether earlier ones are not recorded.
fn write_acts_object(alloc: Global, out: &mut Writer, acts: &[Act]) -> Result<(), AllocError>
    ensures before { out.new.before ≡ out.old.before }
    ensures tokens { OnOk result (out.new.tokens ≡ out.old.tokens ++ value_tokens (acts_object acts.now)) }
{
    out.begin_object()?;
    out.key("acts")?;
    write_acts(alloc, out, acts)?;
    out.key("earlier")?;
    out.boolean(!begins_with_opening(acts))?;
    out.end_object()
}

/// The body of a matter's acts, in the order of acceptance.
///
/// The only error is out of memory.
pub fn acts_body(alloc: Global, acts: &[Act]) -> Result<Vec<u8>, AllocError>
    ensures { IfOk result (λ bytes. bytes.items ≡ acts_body acts.now) }
{
    let mut out = new_body(alloc)?;
    write_acts_object(alloc, &mut out, acts)?;
    Ok(out.into_inner())
}
