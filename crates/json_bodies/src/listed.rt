//! What a list says of a matter, what waits in a matter, and the body of all its entries.

ghost use Rattle.std.specs.Prelude.{◌≡◌, ◌∷◌, ◌++◌, ◌+ℤ◌, ◌-ℤ◌, ◌↔◌, ℕ, true, [], codes, map, pos, IfOk, IsTrue, OnOk};
ghost use Rattle.std.specs.List.{flat_map};
ghost use Rattle.matter_parts.specs.Parts.{entries_kept, IsPart, IsWhole};
ghost use Rattle.matter_rows.specs.Rows.{Rows, closed_on, entry_at};
ghost use Rattle.matter_rows.specs.Balances.{held, left_in, left_of, total_of};
ghost use Rattle.matter_rows.specs.Sound.{Sound};
ghost use Rattle.json_bodies.specs.Bodies.{balance_sums, client_value, opened_value};
ghost use Rattle.json_bodies.specs.Json.{array_of, day_value, member_tokens, members_between, object_of, or_null, sum_value, value_tokens};
ghost use Rattle.json_bodies.specs.Listed.{entries_body, fund_left_value, kept_object, left_now, listed_members, listed_object};
ghost use Rattle.json_bodies.specs.Listed.{others_value, proposed_on, role_value, waiting_in, waiting_object, waits};
ghost use Rattle.json_bodies.specs.Values.{data_of};

use crate::bodies::{
    Value, client, day_or_null, new_body, opened, role_name, write_entry, write_members,
    write_object,
};
use json::Writer;
use std::alloc::{AllocError, Global};
use trust_base::{EntryNo, MatterNo};
use trust_matter::{
    Balances, Caller, ClaimState, Entry, Figures, Fund, Kept, Matter, Payment, PaymentState,
    balances,
};

// What the caller is in the matter; null for a person without a seat.
fn role(matter: &Matter, caller: &Caller) -> Value<'static>
    ensures { data_of result ≡ role_value caller.now matter.now.seats }
{
    match caller {
        Caller::Cashier => Value::Text("cashier"),
        Caller::Person(person) => match matter.role_of(person) {
            Some(role) => Value::Text(role_name(role)),
            None => Value::Null,
        },
    }
}

// The client's ledger: the total and what is held.
fn ledger(balances: &Balances) -> Value<'static>
    ensures { data_of result ≡ sum_value (pos balances.now.total +ℤ pos balances.now.held) }
{
    Value::Sum(balances.total as i128 + balances.held as i128)
}

// The client's label, or null.
fn client_of(matter: &Matter) -> Value<'_>
    ensures { data_of result ≡ client_value matter.now.head }
{
    client(matter.head())
}

// The day on which the matter was closed, or null.
fn closing_day(matter: &Matter) -> Value<'static>
    ensures { data_of result ≡ or_null day_value (closed_on matter.now.head) }
{
    day_or_null(matter.closed_on())
}

// The day on which the matter was opened, or null.
fn opening_day(matter: &Matter) -> Value<'static>
    ensures { data_of result ≡ opened_value matter.now.head }
{
    opened(matter.head())
}

// Writes what a list says of a matter with these counts and balances.
fn write_listed_with(
    alloc: Global,
    out: &mut Writer,
    caller: &Caller,
    no: MatterNo,
    matter: &Matter,
    figures: &Figures,
    balances: &Balances,
) -> Result<(), AllocError>
    ensures before { out.new.before ≡ out.old.before }
    ensures tokens { OnOk result (out.new.tokens
        ≡ out.old.tokens ++ value_tokens
        (object_of (listed_members no matter.now.head (role_value caller.now matter.now.seats)
        figures.now.entries figures.now.pending (balance_sums balances.now)))) }
{
    write_object(
        alloc,
        out,
        &[
            ("available", Value::Cents(balances.available)),
            ("claims", Value::Cents(balances.claims)),
            ("client", client_of(matter)),
            ("closed", closing_day(matter)),
            ("disputed", Value::Cents(balances.disputed)),
            ("entries", Value::Count(figures.entries)),
            ("fees", Value::Cents(balances.fees)),
            ("held", Value::Cents(balances.held)),
            ("ledger", ledger(balances)),
            ("matter", Value::Matter(no)),
            ("opened", opening_day(matter)),
            ("pending", Value::Count(figures.pending)),
            ("role", role(matter, caller)),
            ("total", Value::Cents(balances.total)),
        ],
    )
}

/// Writes what the list of a caller's matters says of a matter: its number, its head, the caller's role, how many
/// entries it has, how many payments are proposed or issued, and its balances. No entry has to be loaded. A person
/// without a seat has the role null.
///
/// The only error is out of memory.
pub fn write_listed(
    alloc: Global,
    out: &mut Writer,
    caller: &Caller,
    no: MatterNo,
    matter: &Matter,
) -> Result<(), AllocError>
    ensures before { out.new.before ≡ out.old.before }
    ensures tokens { OnOk result ((rows : Rows) → Sound rows → IsPart matter.now rows
        → out.new.tokens ≡ out.old.tokens ++ value_tokens (listed_object caller.now no rows)) }
{
    let figures = matter.figures();
    let sums = balances(matter);
    write_listed_with(alloc, out, caller, no, matter, &figures, &sums)
}

// Whether the entry waits for a person: a proposed payment, or a claim that is not settled.
fn waits(entry: &Entry) -> bool
    ensures { result ≡ waits entry.now }
{
    match entry {
        Entry::Payment(payment) => matches!(payment.state, PaymentState::Proposed),
        Entry::Claim(claim) => !matches!(claim.state, ClaimState::Settled(_)),
        Entry::Deposit(_) | Entry::Fee(_) => false,
    }
}

// What an entry proposes to pay from a fund, in cents.
fn proposed_on(fund: Fund, entry: &Entry) -> u64
    ensures { pos result ≡ proposed_on fund entry.now }
{
    match entry {
        Entry::Payment(payment) => {
            let is_proposed = matches!(payment.state, PaymentState::Proposed);
            if is_proposed && payment.fund.is_same(fund) {
                payment.amount.get()
            } else {
                0
            }
        }
        _ => 0,
    }
}

// What payments other than this proposed one are proposed from its fund, in cents. All entries are loaded.
fn others_proposed(kept: &[Kept], payment: &Payment) -> i128
    ensures { result
        ≡ total_of (proposed_on payment.now.fund) (entries_kept kept.now) -ℤ pos payment.now.amount }
{
    let mut sum = 0i128;
    for one in kept {
        sum += proposed_on(payment.fund, &one.entry) as i128;
    }
    sum - payment.amount.get() as i128
}

// What is left of the entry with this number now, in cents; 0 if it does not exist. All entries are loaded.
fn left_under(matter: &Matter, number: EntryNo) -> u64
    ensures { (rows : Rows) → IsWhole matter.now rows
        → pos result ≡ left_in rows.entries number (entry_at rows.entries number) }
{
    match matter.find(number) {
        Some(kept) => kept.left,
        None => 0,
    }
}

// What is left of a fund now, in cents. All entries are loaded.
fn left_now(matter: &Matter, fund: Fund) -> u64
    ensures { (rows : Rows) → IsWhole matter.now rows → pos result ≡ left_now rows.entries fund }
{
    match fund {
        Fund::General => matter.figures().available,
        Fund::Fee(number) => left_under(matter, number),
        Fund::Claim(number) => left_under(matter, number),
    }
}

// What is left of the fund of a payment; null for any other entry. All entries are loaded.
fn fund_left(matter: &Matter, entry: &Entry) -> Value<'static>
    ensures { (rows : Rows) → IsWhole matter.now rows → data_of result ≡ fund_left_value rows.entries entry.now }
{
    match entry {
        Entry::Payment(payment) => Value::Cents(left_now(matter, payment.fund)),
        _ => Value::Null,
    }
}

// What other payments are proposed from the fund of a proposed payment; null for any other entry. All entries are
// loaded.
fn others(matter: &Matter, entry: &Entry) -> Value<'static>
    ensures { data_of result ≡ others_value (entries_kept matter.now.kept) entry.now }
{
    match entry {
        Entry::Payment(payment) => Value::Sum(others_proposed(matter.kept(), payment)),
        _ => Value::Null,
    }
}

// Writes the member that tells whose matter it is.
fn write_client(alloc: Global, out: &mut Writer, matter: &Matter) -> Result<(), AllocError>
    ensures before { out.new.before ≡ out.old.before }
    ensures tokens { OnOk result
        (out.new.tokens ≡ out.old.tokens ++ member_tokens (codes "client") (client_value matter.now.head)) }
{
    write_members(alloc, out, &[("client", client_of(matter))])
}

// Writes the members that tell what money there is for an entry that waits. All entries are loaded.
fn write_cover(
    alloc: Global,
    out: &mut Writer,
    matter: &Matter,
    entry: &Entry,
) -> Result<(), AllocError>
    ensures before { out.new.before ≡ out.old.before }
    ensures tokens { (rows : Rows) → IsWhole matter.now rows → OnOk result (out.new.tokens
        ≡ out.old.tokens
        ++ members_between
        ((codes "held", sum_value (held rows.entries)) ∷ (codes "left", fund_left_value rows.entries entry.now)
        ∷ (codes "others", others_value rows.entries entry.now) ∷ [])) }
{
    write_members(
        alloc,
        out,
        &[
            ("held", Value::Cents(matter.figures().held)),
            ("left", fund_left(matter, entry)),
            ("others", others(matter, entry)),
        ],
    )
}

// Writes what is told of an entry that waits. All entries are loaded.
fn write_waiting_entry(
    alloc: Global,
    out: &mut Writer,
    no: MatterNo,
    matter: &Matter,
    kept: &Kept,
) -> Result<(), AllocError>
    ensures before { out.new.before ≡ out.old.before }
    ensures tokens { (rows : Rows) → IsWhole matter.now rows
        → pos kept.now.left ≡ left_of rows.entries kept.now.number kept.now.entry
        → OnOk result (out.new.tokens
        ≡ out.old.tokens ++ value_tokens (waiting_object no rows kept.now.number kept.now.entry)) }
{
    out.begin_object()?;
    write_client(alloc, out, matter)?;
    out.key("entry")?;
    write_entry(alloc, out, no, kept.number, &kept.entry, kept.left)?;
    write_cover(alloc, out, matter, &kept.entry)?;
    out.end_object()
}

/// Writes an object for each entry of a matter that waits for a person, by number: each proposed payment, and each
/// claim that is not settled. All entries have to be loaded.
///
/// The only error is out of memory.
pub fn write_waiting(
    alloc: Global,
    out: &mut Writer,
    no: MatterNo,
    matter: &Matter,
) -> Result<(), AllocError>
    ensures before { out.new.before ≡ out.old.before }
    ensures tokens { OnOk result ((rows : Rows) → IsWhole matter.now rows
        → out.new.tokens ≡ out.old.tokens ++ flat_map value_tokens (waiting_in no rows)) }
{
    let kept = matter.kept();
    for one in kept {
        if waits(&one.entry) {
            write_waiting_entry(alloc, out, no, matter, one)?;
        }
    }
    Ok(())
}

/// Whether no payment is proposed or issued, nothing is disputed, and no claim on the general fund has anything left.
/// Then nothing waits for a person, and no entry has to be read. Allocates nothing.
pub fn nothing_waits(matter: &Matter) -> bool
    ensures counts { IsTrue result ↔ ((matter.now.figures.pending ≡ 0) × (matter.now.figures.disputed ≡ 0)
        × (matter.now.figures.claims ≡ 0)) }
    ensures nothing { result ≡ true → (m : ℕ) (rows : Rows) → Sound rows → IsPart matter.now rows
        → waiting_in m rows ≡ [] }
{
    let figures = matter.figures();
    figures.pending == 0 && figures.disputed == 0 && figures.claims == 0
}

// Writes an array of the entries, each in its current state.
fn write_entries(
    alloc: Global,
    out: &mut Writer,
    no: MatterNo,
    kept: &[Kept],
) -> Result<(), AllocError>
    ensures before { out.new.before ≡ out.old.before }
    ensures tokens { OnOk result
        (out.new.tokens ≡ out.old.tokens ++ value_tokens (array_of (map (kept_object no) kept.now))) }
{
    out.begin_array()?;
    for one in kept {
        write_entry(alloc, out, no, one.number, &one.entry, one.left)?;
    }
    out.end_array()
}

// Writes an object with the array of the entries.
fn write_entries_object(
    alloc: Global,
    out: &mut Writer,
    no: MatterNo,
    kept: &[Kept],
) -> Result<(), AllocError>
    ensures before { out.new.before ≡ out.old.before }
    ensures tokens { OnOk result (out.new.tokens
        ≡ out.old.tokens
        ++ value_tokens (object_of ((codes "entries", array_of (map (kept_object no) kept.now)) ∷ []))) }
{
    out.begin_object()?;
    out.key("entries")?;
    write_entries(alloc, out, no, kept)?;
    out.end_object()
}

/// The body of all entries of a matter in their current state, in the order of their numbers. All entries have to be
/// loaded.
///
/// The only error is out of memory.
pub fn entries_body(alloc: Global, no: MatterNo, matter: &Matter) -> Result<Vec<u8>, AllocError>
    ensures { IfOk result (λ bytes. (rows : Rows) → IsWhole matter.now rows → bytes.items ≡ entries_body no rows) }
{
    let mut out = new_body(alloc)?;
    write_entries_object(alloc, &mut out, no, matter.kept())?;
    Ok(out.into_inner())
}
