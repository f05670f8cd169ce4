// The request of a message: what its path names, who sends it, and what its body asks.

ghost use Rattle.std.specs.Prelude.{◌≡◌, ◌⊎◌, Err, IfErr, IfOk, None, Ok, Some};
ghost use Rattle.std.specs.Option.{option_copied};
ghost use Rattle.serde_json.specs.View.{view};
ghost use Rattle.trust_matter.specs.declared.ask.Ask.{Ask};
ghost use Rattle.trust_matter.specs.declared.claim.SplitAsk.{SplitAsk};
ghost use Rattle.ask_fields.specs.Fields.{Reads};
ghost use Rattle.portal_requests.specs.Answers.{Answers};
ghost use Rattle.portal_requests.specs.Asked.{account_within, claiming_in, depositing_in, dropping_in, earning_in, entry_ask};
ghost use Rattle.portal_requests.specs.Asked.{matter_ask, opening_in};
ghost use Rattle.portal_requests.specs.Asked.{proposing_in, seating_in, splitting_in};
ghost use Rattle.portal_requests.specs.Bodies.{body_in, field_text_at, is_object, optional_text_at, text_at, text_in};
ghost use Rattle.portal_requests.specs.Bodies.{texts};
ghost use Rattle.portal_requests.specs.Callers.{caller_of};
ghost use Rattle.portal_requests.specs.Dismissals.{dismissing_in};
ghost use Rattle.portal_requests.specs.Paths.{named_in, part, period_in};
ghost use Rattle.portal_requests.specs.Requests.{acts_of, of_matter, reported_as_of, reported_within, request, trail_of};
ghost use Rattle.trust_base.specs.Texts.{day_of, matter_of};

use crate::routes::{EntryPlace, MatterPlace, Place, Routes, method};
use ask_fields::{
    ClaimTexts, PaymentTexts, read_claiming, read_depositing, read_dropping, read_earning,
    read_opening, read_proposing, read_seating, read_split,
};
use portal_messages::{Message, path};
use serde_json::Value;
use statement_csv::line_of_texts;
use std::alloc::{AllocError, Global};
use trust_base::{Day, EntryNo, Field, MatterNo, OwnedBytes, Period, PersonId, Refusal};
use trust_desk::{DayReport, PeriodReport, Report, Request};
use trust_matter::{Ask, Caller, SplitAsk};

/// Returns the matter that a path names, whether or not it has a route: the path is `/matters/` and the six digits of
/// the matter, and ends there or goes on with `/`.
pub fn named_matter(path: &[u8]) -> Option<MatterNo>
    ensures { result ≡ named_in path.now }
{
    if part(path, 0).is_empty() && part(path, 1) == b"matters".as_slice() {
        MatterNo::read(part(path, 2))
    } else {
        None
    }
}

// Returns a part of a path by its number, or nothing if there is none. What is before the first slash has number 0, so
// in `/matters/000001/entries/0002` the matter has number 2, and the entry 4.
fn part(path: &[u8], number: usize) -> &[u8]
    ensures { result.now ≡ part number path.now }
{
    path.split(|byte| *byte == b'/').nth(number).unwrap_or(&[])
}

// Returns the period from one day to another. `None` if one of the texts is no day, or the second day is earlier.
fn read_period(from: &[u8], to: &[u8]) -> Option<Period>
    ensures { result ≡ period_in from.now to.now }
{
    Period::new(Day::read(from)?, Day::read(to)?)
}

// Returns the caller, if there is exactly one value and it names one. Fails if memory runs out.
fn read_caller(alloc: Global, values: &[OwnedBytes]) -> Result<Option<Caller>, AllocError>
    ensures { IfOk result (λ found. found ≡ caller_of values.now) }
{
    if values.len() != 1 {
        return Ok(None);
    }
    let value = values[0].as_slice();
    if value == b"cashier".as_slice() {
        return Ok(Some(Caller::Cashier));
    }
    match PersonId::read(alloc, value)? {
        Some(person) => Ok(Some(Caller::Person(person))),
        None => Ok(None),
    }
}

// Whether a value is an object with no other keys than these.
fn is_object(keys: &[&str], value: &Value) -> bool
    ensures { result ≡ is_object (texts keys.now) (view value.now) }
{
    let Some(members) = value.as_object() else {
        return false;
    };
    for (key, _) in members.iter() {
        // Lent again, since a key does not live as long as the list.
        if !(&*keys).contains(&key.as_str()) {
            return false;
        }
    }
    true
}

// Returns the bytes to parse; for an empty body, those of an empty object.
fn object_text(body: &[u8]) -> &[u8]
    ensures { result.now ≡ text_in body.now }
{
    if body.is_empty() { b"{}" } else { body }
}

// Parses the object in a body. An empty body counts as an object without keys. Refuses with `BadField` of the body if
// it is no object or has another key than these, or `Memory` if memory runs out.
fn read_body(alloc: Global, keys: &[&str], body: &[u8]) -> Result<Value, Refusal>
    ensures ok { IfOk result (λ fields. body_in (texts keys.now) body.now ≡ Some (view fields)) }
    ensures err { IfErr result (λ why. (why ≡ Refusal.Memory)
        ⊎ (why ≡ Refusal.BadField Field.Body) × (body_in (texts keys.now) body.now ≡ None)) }
{
    let value = match Value::from_slice(alloc, object_text(body)) {
        Ok(value) => value,
        Err(why) => {
            if why.is_memory() {
                return Err(Refusal::Memory);
            }
            return Err(Refusal::BadField(Field::Body));
        }
    };
    if is_object(keys, &value) {
        Ok(value)
    } else {
        Err(Refusal::BadField(Field::Body))
    }
}

// Returns the bytes of the text under a key; empty if there is no text.
fn text<'a>(value: &'a Value, key: &str) -> &'a [u8]
    ensures { result.now ≡ text_at key.now (view value.now) }
{
    match value.get(key).and_then(Value::as_str) {
        Some(text) => text.as_bytes(),
        None => &[],
    }
}

// Like `text`, for a field that may be missing or null; both give `None`.
fn optional_text<'a>(value: &'a Value, key: &str) -> Option<&'a [u8]>
    ensures { option_copied result ≡ optional_text_at key.now (view value.now) }
{
    match value.get(key) {
        None | Some(Value::Null) => None,
        Some(_) => Some(text(value, key)),
    }
}

// Returns the text under a key, empty if the key is missing or null; `None` if its value is no text.
fn field_text<'a>(value: &'a Value, key: &str) -> Option<&'a [u8]>
    ensures { option_copied result ≡ field_text_at key.now (view value.now) }
{
    match value.get(key) {
        None | Some(Value::Null) => Some(&[]),
        Some(found) => match found.as_str() {
            Some(text) => Some(text.as_bytes()),
            None => None,
        },
    }
}

fn read_opening_in(alloc: Global, body: &[u8]) -> Result<Ask, Refusal>
    ensures { Reads (opening_in body.now) result }
{
    let fields = read_body(alloc, &["client", "lawyer"], body)?;
    read_opening(alloc, text(&fields, "client"), text(&fields, "lawyer"))
}

fn read_seating_in(alloc: Global, body: &[u8]) -> Result<Ask, Refusal>
    ensures { Reads (seating_in body.now) result }
{
    let fields = read_body(alloc, &["person", "role"], body)?;
    read_seating(alloc, text(&fields, "person"), text(&fields, "role"))
}

fn read_dropping_in(alloc: Global, body: &[u8]) -> Result<Ask, Refusal>
    ensures { Reads (dropping_in body.now) result }
{
    let fields = read_body(alloc, &["person"], body)?;
    read_dropping(alloc, text(&fields, "person"))
}

// Returns the ask for the statement of account from one day to another.
fn read_account(from: &[u8], to: &[u8]) -> Result<Ask, Refusal>
    ensures { Reads (account_within (period_in from.now to.now)) result }
{
    match read_period(from, to) {
        Some(period) => Ok(Ask::Account(period)),
        None => Err(Refusal::BadField(Field::Day)),
    }
}

// Returns what a place asks of a matter, with the days in a path or the fields of a body.
fn read_matter_ask(
    alloc: Global,
    place: MatterPlace,
    path: &[u8],
    body: &[u8],
) -> Result<Ask, Refusal>
    ensures { Reads (matter_ask place path.now body.now) result }
{
    let bare = match place {
        MatterPlace::Show => return Ok(Ask::Show),
        MatterPlace::Open => return read_opening_in(alloc, body),
        MatterPlace::AddSeat => return read_seating_in(alloc, body),
        MatterPlace::DropSeat => return read_dropping_in(alloc, body),
        MatterPlace::Entries => return Ok(Ask::ShowEntries),
        MatterPlace::Accounting => return Ok(Ask::Accounting),
        MatterPlace::Account => return read_account(part(path, 4), part(path, 5)),
        MatterPlace::Close => Ask::CloseMatter,
        MatterPlace::Purge => Ask::Purge,
    };
    // Without fields.
    read_body(alloc, &[], body)?;
    Ok(bare)
}

fn read_depositing_in(alloc: Global, number: EntryNo, body: &[u8]) -> Result<Ask, Refusal>
    ensures { Reads (depositing_in number body.now) result }
{
    let fields = read_body(alloc, &["amount", "source", "description"], body)?;
    let (amount, source) = (text(&fields, "amount"), text(&fields, "source"));
    read_depositing(alloc, number, amount, source, text(&fields, "description"))
}

fn read_proposing_in(alloc: Global, number: EntryNo, body: &[u8]) -> Result<Ask, Refusal>
    ensures { Reads (proposing_in number body.now) result }
{
    let keys = ["amount", "from", "of", "payee", "purpose", "instrument"];
    let fields = read_body(alloc, &keys, body)?;
    let texts = PaymentTexts {
        amount: text(&fields, "amount"),
        from: text(&fields, "from"),
        of: optional_text(&fields, "of"),
        payee: text(&fields, "payee"),
        purpose: text(&fields, "purpose"),
        instrument: text(&fields, "instrument"),
    };
    read_proposing(alloc, number, &texts)
}

fn read_earning_in(alloc: Global, number: EntryNo, body: &[u8]) -> Result<Ask, Refusal>
    ensures { Reads (earning_in number body.now) result }
{
    let fields = read_body(alloc, &["amount", "description"], body)?;
    read_earning(
        alloc,
        number,
        text(&fields, "amount"),
        text(&fields, "description"),
    )
}

fn read_claiming_in(alloc: Global, number: EntryNo, body: &[u8]) -> Result<Ask, Refusal>
    ensures { Reads (claiming_in number body.now) result }
{
    let keys = ["amount", "on", "of", "claimant", "reason"];
    let fields = read_body(alloc, &keys, body)?;
    let texts = ClaimTexts {
        amount: text(&fields, "amount"),
        on: text(&fields, "on"),
        of: optional_text(&fields, "of"),
        claimant: optional_text(&fields, "claimant"),
        reason: text(&fields, "reason"),
    };
    read_claiming(alloc, number, &texts)
}

// Returns what is the client's of a claim.
fn read_split_in(alloc: Global, number: EntryNo, body: &[u8]) -> Result<SplitAsk, Refusal>
    ensures ok { IfOk result (λ split. (way : SplitAsk → Ask) → splitting_in way number body.now ≡ Ok (way split)) }
    ensures err { IfErr result (λ why. (way : SplitAsk → Ask) → Reads (splitting_in way number body.now) (Err why)) }
{
    let fields = read_body(alloc, &["to_client"], body)?;
    read_split(number, text(&fields, "to_client"))
}

// Returns what a place asks of the entry that a text names, with the fields of a body.
fn read_entry_ask(
    alloc: Global,
    place: EntryPlace,
    entry: &[u8],
    body: &[u8],
) -> Result<Ask, Refusal>
    ensures { Reads (entry_ask place entry.now body.now) result }
{
    let number = EntryNo::read(entry).ok_or(Refusal::BadField(Field::Entry))?;
    let bare = match place {
        EntryPlace::Show => return Ok(Ask::ShowEntry(number)),
        EntryPlace::Deposit => return read_depositing_in(alloc, number, body),
        EntryPlace::Propose => return read_proposing_in(alloc, number, body),
        EntryPlace::Fee => return read_earning_in(alloc, number, body),
        EntryPlace::Claim => return read_claiming_in(alloc, number, body),
        EntryPlace::Offer => return Ok(Ask::Offer(read_split_in(alloc, number, body)?)),
        EntryPlace::Accept => return Ok(Ask::Accept(read_split_in(alloc, number, body)?)),
        EntryPlace::Award => return Ok(Ask::Award(read_split_in(alloc, number, body)?)),
        EntryPlace::Cancel => Ask::CancelDeposit(number),
        EntryPlace::Approve => Ask::Approve(number),
        EntryPlace::Decline => Ask::Decline(number),
        EntryPlace::Withdraw => Ask::Withdraw(number),
        EntryPlace::Void => Ask::VoidPayment(number),
    };
    // Without fields.
    read_body(alloc, &[], body)?;
    Ok(bare)
}

// Returns the request to dismiss the line in a body. Refuses with `BadField` of the body if it has none, or a value
// that is no text, or `Memory` if memory runs out.
fn read_dismissal(alloc: Global, caller: Caller, body: &[u8]) -> Result<Request, Refusal>
    ensures { Answers (dismissing_in caller body.now) result }
{
    let keys = ["date", "reference", "bank_ref", "amount", "text"];
    let fields = read_body(alloc, &keys, body)?;
    let Some(date) = field_text(&fields, "date") else {
        return Err(Refusal::BadField(Field::Body));
    };
    let Some(reference) = field_text(&fields, "reference") else {
        return Err(Refusal::BadField(Field::Body));
    };
    let Some(bank_ref) = field_text(&fields, "bank_ref") else {
        return Err(Refusal::BadField(Field::Body));
    };
    let Some(amount) = field_text(&fields, "amount") else {
        return Err(Refusal::BadField(Field::Body));
    };
    let Some(words) = field_text(&fields, "text") else {
        return Err(Refusal::BadField(Field::Body));
    };
    match line_of_texts(alloc, date, reference, bank_ref, amount, words)? {
        Some(line) => Ok(Request::Dismiss { caller, line }),
        None => Err(Refusal::BadField(Field::Body)),
    }
}

// Returns what is asked of the matter in a path.
fn read_matter_at(
    alloc: Global,
    place: MatterPlace,
    caller: Caller,
    path: &[u8],
    body: &[u8],
) -> Result<Request, Refusal>
    ensures { Answers (of_matter caller (named_in path.now) (matter_ask place path.now body.now)) result }
{
    let Some(no) = named_matter(path) else {
        return Err(Refusal::BadField(Field::Matter));
    };
    match read_matter_ask(alloc, place, path, body) {
        Ok(ask) => Ok(Request::Matter { no, caller, ask }),
        Err(why) => Err(why),
    }
}

// Returns what is asked of the entry in a path.
fn read_entry_at(
    alloc: Global,
    place: EntryPlace,
    caller: Caller,
    path: &[u8],
    body: &[u8],
) -> Result<Request, Refusal>
    ensures { Answers (of_matter caller (named_in path.now) (entry_ask place (part 4 path.now) body.now)) result }
{
    let Some(no) = named_matter(path) else {
        return Err(Refusal::BadField(Field::Matter));
    };
    match read_entry_ask(alloc, place, part(path, 4), body) {
        Ok(ask) => Ok(Request::Matter { no, caller, ask }),
        Err(why) => Err(why),
    }
}

// Returns the request for a report as of a day.
fn read_day_report(caller: Caller, report: DayReport, day: &[u8]) -> Result<Request, Refusal>
    ensures { Answers (reported_as_of caller report (day_of day.now)) result }
{
    match Day::read(day) {
        Some(day) => Ok(Request::Report(caller, Report::AsOf(report, day))),
        None => Err(Refusal::BadField(Field::Day)),
    }
}

// Returns the request for a report from one day to another.
fn read_period_report(
    caller: Caller,
    report: PeriodReport,
    from: &[u8],
    to: &[u8],
) -> Result<Request, Refusal>
    ensures { Answers (reported_within caller report (period_in from.now to.now)) result }
{
    match read_period(from, to) {
        Some(period) => Ok(Request::Report(caller, Report::Within(report, period))),
        None => Err(Refusal::BadField(Field::Day)),
    }
}

// Returns the request for the trail of a matter.
fn read_trail(caller: Caller, matter: &[u8]) -> Result<Request, Refusal>
    ensures { Answers (trail_of caller (matter_of matter.now)) result }
{
    match MatterNo::read(matter) {
        Some(no) => Ok(Request::Trail(caller, no)),
        None => Err(Refusal::BadField(Field::Matter)),
    }
}

// Returns the request for the acts of a matter.
fn read_acts(caller: Caller, matter: Option<MatterNo>) -> Result<Request, Refusal>
    ensures { Answers (acts_of caller matter) result }
{
    match matter {
        Some(no) => Ok(Request::Acts(caller, no)),
        None => Err(Refusal::BadField(Field::Matter)),
    }
}

// Returns the bank statement in a body. Fails if memory runs out.
fn read_statement(alloc: Global, body: &[u8]) -> Result<OwnedBytes, AllocError>
    ensures { IfOk result (λ statement. statement ≡ body.now) }
{
    Ok(OwnedBytes::new(Vec::from_slice(alloc, body)?))
}

/// Returns the request of a message, or the first of these refusals: `NoRoute`, `BadMethod`, `NoCaller`, and
/// `BadField` of the matter, the entry, the day, the body or the first invalid field. Returns `Memory` if memory runs
/// out.
#[tactic(auto, unfolding(crate::specs::Requests::request))]
pub fn request_of(alloc: Global, routes: &Routes, message: &Message) -> Result<Request, Refusal>
    ensures { Answers (request message.now) result }
{
    let path = path(message.target.as_slice());
    let Some(place) = routes.place(path) else {
        return Err(Refusal::NoRoute);
    };
    if message.method.as_slice() != method(place) {
        return Err(Refusal::BadMethod);
    }
    let Some(caller) = read_caller(alloc, message.callers.as_slice())? else {
        return Err(Refusal::NoCaller);
    };
    let body = message.body.as_slice();
    match place {
        Place::Matter(place) => read_matter_at(alloc, place, caller, path, body),
        Place::Entry(place) => read_entry_at(alloc, place, caller, path, body),
        Place::Listed(list) => Ok(Request::Listed(caller, list)),
        Place::Today(report) => Ok(Request::Report(caller, Report::Today(report))),
        Place::AsOf(report) => read_day_report(caller, report, part(path, 3)),
        Place::Within(report) => read_period_report(caller, report, part(path, 3), part(path, 4)),
        Place::Trail => read_trail(caller, part(path, 3)),
        Place::Acts => read_acts(caller, named_matter(path)),
        Place::Import => {
            let statement = read_statement(alloc, body)?;
            Ok(Request::Import { caller, statement })
        }
        Place::Match(text) => {
            let statement = read_statement(alloc, body)?;
            Ok(Request::Match {
                caller,
                statement,
                text,
            })
        }
        Place::Reasons => Ok(Request::Reasons(caller)),
        Place::Dismissal => read_dismissal(alloc, caller, body),
    }
}
