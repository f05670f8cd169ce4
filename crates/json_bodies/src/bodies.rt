//! The bodies of accepted answers: compact JSON objects, their keys sorted by their bytes.

ghost use Rattle.std.specs.Prelude.{◌≡◌, ◌++◌, [], map, IfOk, IfSome, OnOk, pos};
ghost use Rattle.std.specs.Option.{option_copied};
ghost use Rattle.serde_json.specs.Data.{string as text_data};
ghost use Rattle.serde_json.specs.Written.{compact_text};
ghost use Rattle.matter_parts.specs.Parts.{IsPart};
ghost use Rattle.matter_rows.specs.Events.{issued_on, voided_on};
ghost use Rattle.matter_rows.specs.Rows.{Rows, closed_on as closed_in, role_name as role_word};
ghost use Rattle.matter_rows.specs.Sound.{Sound};
ghost use Rattle.matter_rows.specs.declared.entry.Entry.TheVariants.{Claim as claim_entry, Deposit as deposit_entry, Fee as fee_entry, Payment as payment_entry};
ghost use Rattle.json_bodies.specs.Bodies.{against_entry as claimed_fee_in, against_name as ground_name_in, balance_sums, bank_day_value, bank_ref_value};
ghost use Rattle.json_bodies.specs.Bodies.{claim_left_value, claimant_of as claimant_in, client_value, entry_body, entry_object, fund_entry as fund_entry_in};
ghost use Rattle.json_bodies.specs.Bodies.{deposit_clearing, deposit_returning, deposit_state_name};
ghost use Rattle.json_bodies.specs.Bodies.{fund_name as fund_name_in, import_body, matter_body};
ghost use Rattle.json_bodies.specs.Bodies.{matter_members, opened_value, payment_clearing, payment_state_name};
ghost use Rattle.json_bodies.specs.Bodies.{purge_body, purge_members};
ghost use Rattle.json_bodies.specs.Bodies.{purged_on, receipt_body, undone_on};
ghost use Rattle.json_bodies.specs.Json.{amount_value, array_of, day_value, entry_value, members_between, object_of, or_null, value_tokens};
ghost use Rattle.json_bodies.specs.Values.{data_of, member_of, seat_object};

use json::Writer;
use std::alloc::{AllocError, Global};
use std::fmt;
use trust_base::{BankText, CentsOrZero, Day, Dollars, EntryNo, Label, MatterNo};
use trust_matter::{
    Against, Balances, Claim, ClaimState, Clearing, Deposit, DepositState, Entry, Fee, Fund, Head,
    Holder, Matter, Payment, PaymentState, Role, Seat, balances,
};

/// A value of an answer's object.
#[derive(Clone, Copy)]
pub enum Value<'a> {
    Null,
    Text(&'a str),
    Count(u64),
    /// An amount or a sum in cents.
    Cents(u64),
    /// A sum in cents that may be negative, or exceed a u64.
    Sum(i128),
    Day(Day),
    Entry(EntryNo),
    Matter(MatterNo),
    Seats(&'a [Seat]),
}

/// A key and its value.
pub type Member<'a> = (&'a str, Value<'a>);

#[tactic(auto, using(crate::proofs::TextFacts::utf8_label))]
fn label(label: &Label) -> Value<'_>
    ensures { data_of result ≡ text_data label.now }
{
    let Ok(text) = str::from_utf8(label.as_slice()) else {
        unreachable!()
    };
    Value::Text(text)
}

fn label_or_null(found: Option<&Label>) -> Value<'_>
    ensures { data_of result ≡ or_null text_data (option_copied found.entry) }
{
    match found {
        Some(found) => label(found),
        None => Value::Null,
    }
}

#[tactic(auto, using(crate::proofs::TextFacts::utf8_bank_text))]
fn reference(reference: &BankText) -> Value<'_>
    ensures { data_of result ≡ text_data reference.now }
{
    let Ok(text) = str::from_utf8(reference.as_slice()) else {
        unreachable!()
    };
    Value::Text(text)
}

pub(crate) fn day_or_null(day: Option<Day>) -> Value<'static>
    ensures { data_of result ≡ or_null day_value day }
{
    match day {
        Some(day) => Value::Day(day),
        None => Value::Null,
    }
}

pub(crate) fn entry_or_null(entry: Option<EntryNo>) -> Value<'static>
    ensures { data_of result ≡ or_null entry_value entry }
{
    match entry {
        Some(entry) => Value::Entry(entry),
        None => Value::Null,
    }
}

pub(crate) fn cents_or_null(cents: Option<CentsOrZero>) -> Value<'static>
    ensures { data_of result ≡ or_null amount_value cents }
{
    match cents {
        Some(cents) => Value::Cents(cents.get()),
        None => Value::Null,
    }
}

pub(crate) fn role_name(role: Role) -> &'static str
    ensures { result.now ≡ role_word role }
{
    match role {
        Role::Client => "client",
        Role::Lawyer => "lawyer",
    }
}

// Writes an object with a person and a role.
#[tactic(auto, using(crate::proofs::TextFacts::utf8_person))]
fn write_seat(out: &mut Writer, seat: &Seat) -> Result<(), AllocError>
    ensures before { out.new.before ≡ out.old.before }
    ensures tokens { OnOk result (out.new.tokens ≡ out.old.tokens ++ value_tokens (seat_object seat.now)) }
{
    let Ok(person) = str::from_utf8(seat.person.as_slice()) else {
        unreachable!()
    };
    out.begin_object()?;
    out.key("person")?;
    out.string(person)?;
    out.key("role")?;
    out.string(role_name(seat.role))?;
    out.end_object()
}

// Writes an array of the seats, in their order.
fn write_seats(out: &mut Writer, seats: &[Seat]) -> Result<(), AllocError>
    ensures before { out.new.before ≡ out.old.before }
    ensures tokens { OnOk result
        (out.new.tokens ≡ out.old.tokens ++ value_tokens (array_of (map seat_object seats.now))) }
{
    out.begin_array()?;
    for seat in seats {
        write_seat(out, seat)?;
    }
    out.end_array()
}

// Writes the text that a value is shown as.
fn write_shown<T: fmt::Display>(
    alloc: Global,
    out: &mut Writer,
    shown: &T,
) -> Result<(), AllocError>
    ensures before { out.new.before ≡ out.old.before }
    ensures tokens { OnOk result (IfSome (T.output shown.now)
        (λ text. out.new.tokens ≡ out.old.tokens ++ value_tokens (text_data text))) }
{
    out.string(format!(in alloc; "{shown}")?.as_str())
}

fn write_value(alloc: Global, out: &mut Writer, value: &Value<'_>) -> Result<(), AllocError>
    ensures before { out.new.before ≡ out.old.before }
    ensures tokens { OnOk result (out.new.tokens ≡ out.old.tokens ++ value_tokens (data_of value.now)) }
{
    match value {
        Value::Null => out.null(),
        Value::Text(text) => out.string(text),
        Value::Count(count) => out.u64(*count),
        Value::Cents(cents) => write_shown(alloc, out, &Dollars(*cents as i128)),
        Value::Sum(cents) => write_shown(alloc, out, &Dollars(*cents)),
        Value::Day(day) => write_shown(alloc, out, day),
        Value::Entry(entry) => write_shown(alloc, out, entry),
        Value::Matter(matter) => write_shown(alloc, out, matter),
        Value::Seats(seats) => write_seats(out, seats),
    }
}

/// Writes these members of an object, in their order. The only error is out of memory.
pub fn write_members(
    alloc: Global,
    out: &mut Writer,
    members: &[Member<'_>],
) -> Result<(), AllocError>
    ensures before { out.new.before ≡ out.old.before }
    ensures tokens { OnOk result
        (out.new.tokens ≡ out.old.tokens ++ members_between (map member_of members.now)) }
{
    for member in members {
        out.key(member.0)?;
        write_value(alloc, out, &member.1)?;
    }
    Ok(())
}

/// Writes an object with these members, in their order. The only error is out of memory.
pub fn write_object(
    alloc: Global,
    out: &mut Writer,
    members: &[Member<'_>],
) -> Result<(), AllocError>
    ensures before { out.new.before ≡ out.old.before }
    ensures tokens { OnOk result
        (out.new.tokens ≡ out.old.tokens ++ value_tokens (object_of (map member_of members.now))) }
{
    out.begin_object()?;
    write_members(alloc, out, members)?;
    out.end_object()
}

// A writer into an empty buffer with room for a short body. The only error is out of memory.
pub(crate) fn new_body(alloc: Global) -> Result<Writer, AllocError>
    ensures before { IfOk result (λ out. out.before ≡ []) }
    ensures tokens { IfOk result (λ out. out.tokens ≡ []) }
{
    Ok(Writer::new(Vec::with_capacity(alloc, 256)?))
}

// The compact text of an object with these members, in their order. The only error is out of memory.
fn object_text(alloc: Global, members: &[Member<'_>]) -> Result<Vec<u8>, AllocError>
    ensures { IfOk result (λ bytes. bytes.items ≡ compact_text (object_of (map member_of members.now))) }
{
    let mut out = new_body(alloc)?;
    write_object(alloc, &mut out, members)?;
    Ok(out.into_inner())
}

// The word for what a payment is paid from.
fn fund_name(fund: Fund) -> &'static str
    ensures { result.now ≡ fund_name_in fund }
{
    match fund {
        Fund::General => "general",
        Fund::Fee(_) => "fee",
        Fund::Claim(_) => "claim",
    }
}

// The entry that a payment is paid from, if any.
fn fund_entry(fund: Fund) -> Option<EntryNo>
    ensures { result ≡ fund_entry_in fund }
{
    match fund {
        Fund::General => None,
        Fund::Fee(number) | Fund::Claim(number) => Some(number),
    }
}

// The word for what a claim is on.
fn ground_name(against: &Against) -> &'static str
    ensures { result.now ≡ ground_name_in against.now }
{
    match against {
        Against::General(_) => "general",
        Against::Fee(_) => "fee",
    }
}

// The fee that is claimed, if any.
fn claimed_fee(against: &Against) -> Option<EntryNo>
    ensures { result ≡ claimed_fee_in against.now }
{
    match against {
        Against::General(_) => None,
        Against::Fee(number) => Some(*number),
    }
}

// Who claims what is available, if anyone.
fn claimant(against: &Against) -> Option<&Label>
    ensures { option_copied result ≡ claimant_in against.now }
{
    match against {
        Against::General(claimant) => Some(claimant),
        Against::Fee(_) => None,
    }
}

fn claim_receipt(
    alloc: Global,
    matter: MatterNo,
    number: EntryNo,
    claim: &Claim,
) -> Result<Vec<u8>, AllocError>
    ensures { IfOk result (λ bytes. bytes.items ≡ receipt_body matter number (claim_entry claim.now)) }
{
    object_text(
        alloc,
        &[
            ("amount", Value::Cents(claim.amount.get())),
            ("claimant", label_or_null(claimant(&claim.against))),
            ("day", Value::Day(claim.book)),
            ("entry", Value::Entry(number)),
            ("kind", Value::Text("claim")),
            ("matter", Value::Matter(matter)),
            ("of", entry_or_null(claimed_fee(&claim.against))),
            ("on", Value::Text(ground_name(&claim.against))),
            ("reason", label(&claim.reason)),
        ],
    )
}

// The day of the bank line; null if there is no bank line.
fn bank_day(clearing: Option<&Clearing>) -> Value<'static>
    ensures { data_of result ≡ bank_day_value (option_copied clearing.entry) }
{
    match clearing {
        Some(clearing) => Value::Day(clearing.bank_day),
        None => Value::Null,
    }
}

// The bank's reference; null if there is no bank line.
fn bank_ref(clearing: Option<&Clearing>) -> Value<'_>
    ensures { data_of result ≡ bank_ref_value (option_copied clearing.entry) }
{
    match clearing {
        Some(clearing) => reference(&clearing.bank_ref),
        None => Value::Null,
    }
}

// What is left of a claim; null for a claim on a fee.
fn claim_left(against: &Against, left: u64) -> Value<'static>
    ensures { data_of result ≡ claim_left_value against.now (pos left) }
{
    match against {
        Against::General(_) => Value::Cents(left),
        Against::Fee(_) => Value::Null,
    }
}

// What is told of a deposit's state: its name, the bank lines that cleared it and took it back, and the day on which it
// was cancelled or its return was booked.
fn deposit_told(
    state: &DepositState,
) -> (
    &'static str,
    Option<&Clearing>,
    Option<&Clearing>,
    Option<Day>,
)
    ensures name { result.0.now ≡ deposit_state_name state.now }
    ensures clearing { option_copied result.1 ≡ deposit_clearing state.now }
    ensures returning { option_copied result.2 ≡ deposit_returning state.now }
    ensures undone { result.3 ≡ undone_on state.now }
{
    match state {
        DepositState::Held => ("held", None, None, None),
        DepositState::Cleared(clearing) => ("cleared", Some(clearing), None, None),
        DepositState::Cancelled(day) => ("cancelled", None, None, Some(*day)),
        DepositState::Returned(back) => (
            "returned",
            Some(&back.clearing),
            Some(&back.returning),
            Some(back.undone),
        ),
    }
}

fn write_deposit(
    alloc: Global,
    out: &mut Writer,
    matter: MatterNo,
    number: EntryNo,
    deposit: &Deposit,
) -> Result<(), AllocError>
    ensures before { out.new.before ≡ out.old.before }
    ensures tokens { OnOk result (out.new.tokens
        ≡ out.old.tokens ++ value_tokens (entry_object matter number (deposit_entry deposit.now) (pos 0))) }
{
    let (state, clearing, returning, undone) = deposit_told(&deposit.state);
    write_object(
        alloc,
        out,
        &[
            ("amount", Value::Cents(deposit.amount.get())),
            ("bank_day", bank_day(clearing)),
            ("bank_ref", bank_ref(clearing)),
            ("day", Value::Day(deposit.book)),
            ("description", label(&deposit.description)),
            ("entry", Value::Entry(number)),
            ("kind", Value::Text("deposit")),
            ("matter", Value::Matter(matter)),
            ("return_day", bank_day(returning)),
            ("return_ref", bank_ref(returning)),
            ("source", label(&deposit.source)),
            ("state", Value::Text(state)),
            ("undone", day_or_null(undone)),
        ],
    )
}

fn write_fee(
    alloc: Global,
    out: &mut Writer,
    matter: MatterNo,
    number: EntryNo,
    fee: &Fee,
    left: u64,
) -> Result<(), AllocError>
    ensures before { out.new.before ≡ out.old.before }
    ensures tokens { OnOk result (out.new.tokens
        ≡ out.old.tokens ++ value_tokens (entry_object matter number (fee_entry fee.now) (pos left))) }
{
    write_object(
        alloc,
        out,
        &[
            ("amount", Value::Cents(fee.amount.get())),
            ("day", Value::Day(fee.book)),
            ("description", label(&fee.description)),
            ("entry", Value::Entry(number)),
            ("kind", Value::Text("fee")),
            ("left", Value::Cents(left)),
            ("matter", Value::Matter(matter)),
        ],
    )
}

fn write_claim(
    alloc: Global,
    out: &mut Writer,
    matter: MatterNo,
    number: EntryNo,
    claim: &Claim,
    left: u64,
) -> Result<(), AllocError>
    ensures before { out.new.before ≡ out.old.before }
    ensures tokens { OnOk result (out.new.tokens
        ≡ out.old.tokens ++ value_tokens (entry_object matter number (claim_entry claim.now) (pos left))) }
{
    // A claim with an offer is still open.
    let (state, part, settled) = match claim.state {
        ClaimState::Open => ("open", None, None),
        ClaimState::Offered(part) => ("open", Some(part), None),
        ClaimState::Settled(settlement) => ("settled", Some(settlement.part), Some(settlement.day)),
    };
    write_object(
        alloc,
        out,
        &[
            ("amount", Value::Cents(claim.amount.get())),
            ("claimant", label_or_null(claimant(&claim.against))),
            ("day", Value::Day(claim.book)),
            ("entry", Value::Entry(number)),
            ("kind", Value::Text("claim")),
            ("left", claim_left(&claim.against, left)),
            ("matter", Value::Matter(matter)),
            ("of", entry_or_null(claimed_fee(&claim.against))),
            ("on", Value::Text(ground_name(&claim.against))),
            ("reason", label(&claim.reason)),
            ("settled", day_or_null(settled)),
            ("state", Value::Text(state)),
            ("to_client", cents_or_null(part)),
        ],
    )
}

pub(crate) fn client(head: Option<&Head>) -> Value<'_>
    ensures { data_of result ≡ client_value (option_copied head.entry) }
{
    match head {
        Some(head) => match &head.holder {
            Holder::Client(client) => label(client),
            Holder::Purged(_) => Value::Null,
        },
        None => Value::Null,
    }
}

pub(crate) fn opened(head: Option<&Head>) -> Value<'static>
    ensures { data_of result ≡ opened_value (option_copied head.entry) }
{
    match head {
        Some(head) => Value::Day(head.opened),
        None => Value::Null,
    }
}

pub(crate) fn closed_on(head: Option<&Head>) -> Option<Day>
    ensures { result ≡ closed_in (option_copied head.entry) }
{
    match head {
        Some(head) => head.closed,
        None => None,
    }
}

// The body of a matter with this head, these seats, this count of entries and these balances.
fn matter_text<'a>(
    alloc: Global,
    number: MatterNo,
    head: Option<&'a Head>,
    seats: &'a [Seat],
    entries: u64,
    balances: &Balances,
) -> Result<Vec<u8>, AllocError>
    ensures { IfOk result (λ bytes.
        bytes.items ≡ compact_text
        (object_of (matter_members number (option_copied head.entry) seats.now entries (balance_sums balances.now)))) }
{
    object_text(
        alloc,
        &[
            ("available", Value::Cents(balances.available)),
            ("claims", Value::Cents(balances.claims)),
            ("client", client(head)),
            ("closed", day_or_null(closed_on(head))),
            ("disputed", Value::Cents(balances.disputed)),
            ("entries", Value::Count(entries)),
            ("fees", Value::Cents(balances.fees)),
            ("held", Value::Cents(balances.held)),
            ("matter", Value::Matter(number)),
            ("opened", opened(head)),
            ("seats", Value::Seats(seats)),
            ("total", Value::Cents(balances.total)),
        ],
    )
}

/// The body of a matter: its number, its head, its seats by person, how many entries it has, and its balances. If the
/// matter was never opened, client and opening day are null.
///
/// The only error is out of memory.
pub fn matter_body(alloc: Global, number: MatterNo, matter: &Matter) -> Result<Vec<u8>, AllocError>
    ensures { IfOk result (λ bytes. (rows : Rows) → Sound rows → IsPart matter.now rows
        → bytes.items ≡ matter_body number rows) }
{
    let sums = balances(matter);
    let entries = matter.figures().entries;
    matter_text(alloc, number, matter.head(), matter.seats(), entries, &sums)
}

fn purged_on(head: Option<&Head>) -> Option<Day>
    ensures { result ≡ purged_on (option_copied head.entry) }
{
    match head {
        Some(head) => match &head.holder {
            Holder::Client(_) => None,
            Holder::Purged(day) => Some(*day),
        },
        None => None,
    }
}

/// The body of a purged matter: its number and the day of the purge, which is null for any other matter.
///
/// The only error is out of memory.
pub fn purge_body(alloc: Global, number: MatterNo, matter: &Matter) -> Result<Vec<u8>, AllocError>
    ensures { IfOk result (λ bytes. (rows : Rows) → IsPart matter.now rows → bytes.items ≡ purge_body number rows) }
{
    purge_text(alloc, number, purged_on(matter.head()))
}

// The body of a matter that was purged on this day.
fn purge_text(alloc: Global, number: MatterNo, day: Option<Day>) -> Result<Vec<u8>, AllocError>
    ensures { IfOk result (λ bytes. bytes.items ≡ compact_text (object_of (purge_members number day))) }
{
    object_text(
        alloc,
        &[
            ("matter", Value::Matter(number)),
            ("purged", day_or_null(day)),
        ],
    )
}

/// The body of an entry as it was first made: the answer to the ask that makes it, and to a repeat of that ask.
///
/// The only error is out of memory.
pub fn receipt_body(
    alloc: Global,
    matter: MatterNo,
    number: EntryNo,
    entry: &Entry,
) -> Result<Vec<u8>, AllocError>
    ensures { IfOk result (λ bytes. bytes.items ≡ receipt_body matter number entry.now) }
{
    match entry {
        Entry::Deposit(deposit) => object_text(
            alloc,
            &[
                ("amount", Value::Cents(deposit.amount.get())),
                ("day", Value::Day(deposit.book)),
                ("description", label(&deposit.description)),
                ("entry", Value::Entry(number)),
                ("kind", Value::Text("deposit")),
                ("matter", Value::Matter(matter)),
                ("source", label(&deposit.source)),
            ],
        ),
        Entry::Payment(payment) => object_text(
            alloc,
            &[
                ("amount", Value::Cents(payment.amount.get())),
                ("day", Value::Day(payment.book)),
                ("entry", Value::Entry(number)),
                ("from", Value::Text(fund_name(payment.fund))),
                ("instrument", label(&payment.instrument)),
                ("kind", Value::Text("payment")),
                ("matter", Value::Matter(matter)),
                ("of", entry_or_null(fund_entry(payment.fund))),
                ("payee", label(&payment.payee)),
                ("purpose", label(&payment.purpose)),
            ],
        ),
        Entry::Fee(fee) => object_text(
            alloc,
            &[
                ("amount", Value::Cents(fee.amount.get())),
                ("day", Value::Day(fee.book)),
                ("description", label(&fee.description)),
                ("entry", Value::Entry(number)),
                ("kind", Value::Text("fee")),
                ("matter", Value::Matter(matter)),
            ],
        ),
        Entry::Claim(claim) => claim_receipt(alloc, matter, number, claim),
    }
}

// What is told of a payment's state: its name, the day of issue, the bank line that cleared it, the day of voiding.
fn payment_told(state: &PaymentState) -> (&'static str, Option<Day>, Option<&Clearing>, Option<Day>)
    ensures name { result.0.now ≡ payment_state_name state.now }
    ensures issued { result.1 ≡ issued_on state.now }
    ensures clearing { option_copied result.2 ≡ payment_clearing state.now }
    ensures undone { result.3 ≡ voided_on state.now }
{
    match state {
        PaymentState::Proposed => ("proposed", None, None, None),
        PaymentState::Declined => ("declined", None, None, None),
        PaymentState::Issued(day) => ("issued", Some(*day), None, None),
        PaymentState::Cleared(cleared) => (
            "cleared",
            Some(cleared.issued),
            Some(&cleared.clearing),
            None,
        ),
        PaymentState::Voided(voided) => ("voided", Some(voided.issued), None, Some(voided.undone)),
    }
}

fn write_payment(
    alloc: Global,
    out: &mut Writer,
    matter: MatterNo,
    number: EntryNo,
    payment: &Payment,
) -> Result<(), AllocError>
    ensures before { out.new.before ≡ out.old.before }
    ensures tokens { OnOk result (out.new.tokens
        ≡ out.old.tokens ++ value_tokens (entry_object matter number (payment_entry payment.now) (pos 0))) }
{
    let (state, issued, clearing, undone) = payment_told(&payment.state);
    write_object(
        alloc,
        out,
        &[
            ("amount", Value::Cents(payment.amount.get())),
            ("bank_day", bank_day(clearing)),
            ("bank_ref", bank_ref(clearing)),
            ("day", Value::Day(payment.book)),
            ("entry", Value::Entry(number)),
            ("from", Value::Text(fund_name(payment.fund))),
            ("instrument", label(&payment.instrument)),
            ("issued", day_or_null(issued)),
            ("kind", Value::Text("payment")),
            ("matter", Value::Matter(matter)),
            ("of", entry_or_null(fund_entry(payment.fund))),
            ("payee", label(&payment.payee)),
            ("purpose", label(&payment.purpose)),
            ("state", Value::Text(state)),
            ("undone", day_or_null(undone)),
        ],
    )
}

// Writes an entry in its current state, of which `left` is left, as `entry_body` does.
pub(crate) fn write_entry(
    alloc: Global,
    out: &mut Writer,
    matter: MatterNo,
    number: EntryNo,
    entry: &Entry,
    left: u64,
) -> Result<(), AllocError>
    ensures before { out.new.before ≡ out.old.before }
    ensures tokens { OnOk result
        (out.new.tokens ≡ out.old.tokens ++ value_tokens (entry_object matter number entry.now (pos left))) }
{
    match entry {
        Entry::Deposit(deposit) => write_deposit(alloc, out, matter, number, deposit),
        Entry::Payment(payment) => write_payment(alloc, out, matter, number, payment),
        Entry::Fee(fee) => write_fee(alloc, out, matter, number, fee, left),
        Entry::Claim(claim) => write_claim(alloc, out, matter, number, claim, left),
    }
}

/// The body of an entry in its current state. `left` is what is left of it in cents, if it is a fee or a claim on the
/// general fund; otherwise it is ignored.
///
/// The only error is out of memory.
pub fn entry_body(
    alloc: Global,
    matter: MatterNo,
    number: EntryNo,
    entry: &Entry,
    left: u64,
) -> Result<Vec<u8>, AllocError>
    ensures { IfOk result (λ bytes. bytes.items ≡ entry_body matter number entry.now (pos left)) }
{
    let mut out = new_body(alloc)?;
    write_entry(alloc, &mut out, matter, number, entry, left)?;
    Ok(out.into_inner())
}

/// The outcome of importing a bank statement: how many lines were applied, were repeats or are now exceptions, how many
/// records could not be read, and the day of the last closing balance that was applied or repeated. That day is None
/// where the statement has no such balance.
#[derive(Clone, Copy)]
pub struct ImportReply {
    pub applied: u64,
    pub repeated: u64,
    pub exceptions: u64,
    pub unreadable: u64,
    pub statement: Option<Day>,
}

/// The body of an import of a bank statement. The only error is out of memory.
pub fn import_body(alloc: Global, counts: &ImportReply) -> Result<Vec<u8>, AllocError>
    ensures { IfOk result (λ bytes.
        bytes.items
        ≡ import_body counts.now.applied counts.now.exceptions counts.now.repeated counts.now.statement
        counts.now.unreadable) }
{
    object_text(
        alloc,
        &[
            ("applied", Value::Count(counts.applied)),
            ("exceptions", Value::Count(counts.exceptions)),
            ("repeated", Value::Count(counts.repeated)),
            ("statement", day_or_null(counts.statement)),
            ("unreadable", Value::Count(counts.unreadable)),
        ],
    )
}
