// One record of a day sheet.

ghost use Rattle.std.specs.Prelude.{◌≡◌, [], false, option_map, unwrap_or};
ghost use Rattle.std.specs.List.{list_all};
ghost use Rattle.std.specs.Option.{option_copied};
ghost use Rattle.std.specs.Str.{is_utf8};
ghost use Rattle.csv.specs.Records.{field_at, fields_of};
ghost use Rattle.day_sheet.specs.Records as spec;
ghost use Rattle.ask_fields.specs.Fields.{Reads};
ghost use Rattle.trust_desk.specs.Answered.{IsReplied};
ghost use Rattle.day_sheet.specs.Records.{ask_of, asked_of, awarding_in, claiming_in, dismissing_in, form_in, form_of, has_dismissal_form, heard_of, proposing_in, text_given};

use ask_fields::{
    ClaimTexts, PaymentTexts, read_cancelling, read_claiming, read_depositing, read_dropping,
    read_opening, read_proposing, read_seating, read_showing, read_split,
};
use csv::ByteRecord;
use statement_csv::line_of_texts;
use std::alloc::Global;
use trust_base::Refusal::{self, BadField};
use trust_base::{Day, EntryNo, Field, MatterNo};
use trust_desk::{Desk, Reply, Request};
use trust_matter::{Ask, Caller};
use trust_store::Book;

/// The verbs of records.
#[derive(Clone, Copy)]
pub enum Verb {
    /// Open a matter.
    Open,
    /// Seat a person.
    Seat,
    /// Drop a person's seat.
    Drop,
    /// Book a deposit.
    Deposit,
    /// Cancel a deposit.
    Cancel,
    /// Propose a payment.
    Propose,
    /// Withdraw a proposed payment.
    Withdraw,
    /// Raise a claim on the general fund.
    Claim,
    /// Award a part of a claim to the client.
    Award,
    /// Close a matter.
    Close,
    /// Purge a matter.
    Purge,
    /// Show an entry.
    Entry,
    /// Show a matter.
    Show,
}

/// The form of a verb's records.
pub struct VerbForm {
    /// The verb's name, which is the first field.
    pub name: &'static str,
    /// The verb.
    pub verb: Verb,
    /// How many fields there are.
    pub field_count: usize,
    /// Whether the third field names an entry. Otherwise it is empty.
    pub names_entry: bool,
    /// A record with the names of its fields.
    pub pattern: &'static str,
}

/// The forms of records, one for each verb.
pub const FORMS: &[VerbForm] = &[
    VerbForm {
        name: "open",
        verb: Verb::Open,
        field_count: 5,
        names_entry: false,
        pattern: "open,MATTER,,CLIENT,LAWYER",
    },
    VerbForm {
        name: "seat",
        verb: Verb::Seat,
        field_count: 5,
        names_entry: false,
        pattern: "seat,MATTER,,PERSON,ROLE",
    },
    VerbForm {
        name: "drop",
        verb: Verb::Drop,
        field_count: 4,
        names_entry: false,
        pattern: "drop,MATTER,,PERSON",
    },
    VerbForm {
        name: "deposit",
        verb: Verb::Deposit,
        field_count: 6,
        names_entry: true,
        pattern: "deposit,MATTER,ENTRY,AMOUNT,SOURCE,DESCRIPTION",
    },
    VerbForm {
        name: "cancel",
        verb: Verb::Cancel,
        field_count: 3,
        names_entry: true,
        pattern: "cancel,MATTER,ENTRY",
    },
    VerbForm {
        name: "propose",
        verb: Verb::Propose,
        field_count: 9,
        names_entry: true,
        pattern: "propose,MATTER,ENTRY,AMOUNT,FROM,OF,PAYEE,PURPOSE,INSTRUMENT",
    },
    VerbForm {
        name: "withdraw",
        verb: Verb::Withdraw,
        field_count: 3,
        names_entry: true,
        pattern: "withdraw,MATTER,ENTRY",
    },
    VerbForm {
        name: "claim",
        verb: Verb::Claim,
        field_count: 6,
        names_entry: true,
        pattern: "claim,MATTER,ENTRY,AMOUNT,CLAIMANT,REASON",
    },
    VerbForm {
        name: "award",
        verb: Verb::Award,
        field_count: 4,
        names_entry: true,
        pattern: "award,MATTER,ENTRY,TO_CLIENT",
    },
    VerbForm {
        name: "close",
        verb: Verb::Close,
        field_count: 3,
        names_entry: false,
        pattern: "close,MATTER,",
    },
    VerbForm {
        name: "purge",
        verb: Verb::Purge,
        field_count: 3,
        names_entry: false,
        pattern: "purge,MATTER,",
    },
    VerbForm {
        name: "entry",
        verb: Verb::Entry,
        field_count: 3,
        names_entry: true,
        pattern: "entry,MATTER,ENTRY",
    },
    VerbForm {
        name: "show",
        verb: Verb::Show,
        field_count: 3,
        names_entry: false,
        pattern: "show,MATTER,",
    },
];

/// The field of a record, or empty if there is none.
pub fn field_bytes(row: &ByteRecord, i: usize) -> &[u8]
    ensures { result.now ≡ unwrap_or (field_at (fields_of row.now) i) [] }
{
    row.get(i).unwrap_or(&[])
}

/// The form that a record's verb asks of it. `None` if its first field is the name of no verb.
pub fn form_of(row: &ByteRecord) -> Option<&'static VerbForm>
    ensures { option_map (λ form. form_in form.now) result ≡ form_of (fields_of row.now) }
{
    let name = field_bytes(row, 0);
    FORMS.iter().find(|form| name == form.name.as_bytes())
}

/// Whether a field is UTF-8.
pub fn is_text(field: &[u8]) -> bool
    ensures { result ≡ is_utf8 field.now }
{
    match str::from_utf8(field) {
        Ok(_) => true,
        Err(_) => false,
    }
}

fn is_all_text(row: &ByteRecord) -> bool
    ensures { result ≡ list_all is_utf8 (fields_of row.now) }
{
    let mut is_text_so_far = true;
    for i in 0..row.len() {
        is_text_so_far &= is_text(field_bytes(row, i));
    }
    is_text_so_far
}

// The text of an optional field: `None` if it is empty.
fn given(text: &[u8]) -> Option<&[u8]>
    ensures { option_copied result ≡ text_given text.now }
{
    if text.is_empty() { None } else { Some(text) }
}

// Parses an ask to propose a payment from a fund.
fn read_payment(alloc: Global, row: &ByteRecord) -> Result<Ask, Refusal>
    ensures { Reads (proposing_in (fields_of row.now)) result }
{
    let number = EntryNo::read(field_bytes(row, 2)).ok_or(BadField(Field::Entry))?;
    let texts = PaymentTexts {
        amount: field_bytes(row, 3),
        from: field_bytes(row, 4),
        of: given(field_bytes(row, 5)),
        payee: field_bytes(row, 6),
        purpose: field_bytes(row, 7),
        instrument: field_bytes(row, 8),
    };
    read_proposing(alloc, number, &texts)
}

// Parses an ask to raise a claim on the general fund.
fn read_claim(alloc: Global, row: &ByteRecord) -> Result<Ask, Refusal>
    ensures { Reads (claiming_in (fields_of row.now)) result }
{
    let number = EntryNo::read(field_bytes(row, 2)).ok_or(BadField(Field::Entry))?;
    let texts = ClaimTexts {
        amount: field_bytes(row, 3),
        on: b"general",
        of: None,
        claimant: Some(field_bytes(row, 4)),
        reason: field_bytes(row, 5),
    };
    read_claiming(alloc, number, &texts)
}

// Parses an ask to award a part of a claim to the client.
fn read_award(row: &ByteRecord) -> Result<Ask, Refusal>
    ensures { Reads (awarding_in (fields_of row.now)) result }
{
    let number = EntryNo::read(field_bytes(row, 2)).ok_or(BadField(Field::Entry))?;
    Ok(Ask::Award(read_split(number, field_bytes(row, 3))?))
}

fn read_ask(alloc: Global, verb: Verb, row: &ByteRecord) -> Result<Ask, Refusal>
    ensures { Reads (ask_of verb (fields_of row.now)) result }
{
    match verb {
        Verb::Open => read_opening(alloc, field_bytes(row, 3), field_bytes(row, 4)),
        Verb::Seat => read_seating(alloc, field_bytes(row, 3), field_bytes(row, 4)),
        Verb::Drop => read_dropping(alloc, field_bytes(row, 3)),
        Verb::Deposit => {
            let number = EntryNo::read(field_bytes(row, 2)).ok_or(BadField(Field::Entry))?;
            let (amount, source) = (field_bytes(row, 3), field_bytes(row, 4));
            read_depositing(alloc, number, amount, source, field_bytes(row, 5))
        }
        Verb::Cancel => read_cancelling(field_bytes(row, 2)),
        Verb::Propose => read_payment(alloc, row),
        Verb::Withdraw => {
            let number = EntryNo::read(field_bytes(row, 2)).ok_or(BadField(Field::Entry))?;
            Ok(Ask::Withdraw(number))
        }
        Verb::Claim => read_claim(alloc, row),
        Verb::Award => read_award(row),
        Verb::Close => Ok(Ask::CloseMatter),
        Verb::Purge => Ok(Ask::Purge),
        Verb::Entry => read_showing(field_bytes(row, 2)),
        Verb::Show => Ok(Ask::Show),
    }
}

/// Whether a record dismisses a line.
pub fn is_dismissal(row: &ByteRecord) -> bool
    ensures { result ≡ spec.is_dismissal (fields_of row.now) }
{
    field_bytes(row, 0) == b"dismiss".as_slice()
}

// Whether it has eight fields, with the second and the third empty.
fn has_form(row: &ByteRecord) -> bool
    ensures { result ≡ has_dismissal_form (fields_of row.now) }
{
    row.len() == 8 && field_bytes(row, 1).is_empty() && field_bytes(row, 2).is_empty()
}

// Parses the request to the desk, in the cashier's name. Errors: `BadField` of the record if the verb is not followed
// by two empty fields and the five fields of a line, and out of memory.
fn read_dismissal(alloc: Global, row: &ByteRecord) -> Result<Request, Refusal>
    ensures { Reads (dismissing_in (fields_of row.now)) result }
{
    if !has_form(row) {
        return Err(BadField(Field::Record));
    }
    let line = line_of_texts(
        alloc,
        field_bytes(row, 3),
        field_bytes(row, 4),
        field_bytes(row, 5),
        field_bytes(row, 6),
        field_bytes(row, 7),
    )?;
    match line {
        Some(line) => Ok(Request::Dismiss {
            caller: Caller::Cashier,
            line,
        }),
        None => Err(BadField(Field::Record)),
    }
}

// Parses a record as a request to the desk, in the cashier's name. Errors: the first invalid field, and out of memory.
#[tactic(auto, unfolding(crate::specs::Records::asked_of))]
fn read_request(alloc: Global, row: &ByteRecord) -> Result<Request, Refusal>
    ensures { Reads (asked_of (fields_of row.now)) result }
{
    if is_dismissal(row) {
        return read_dismissal(alloc, row);
    }
    let form = form_of(row).ok_or(BadField(Field::Record))?;
    let is_of_form = row.len() == form.field_count
        && (form.names_entry || field_bytes(row, 2).is_empty())
        && is_all_text(row);
    if !is_of_form {
        return Err(BadField(Field::Record));
    }
    let Some(no) = MatterNo::read(field_bytes(row, 1)) else {
        return Err(BadField(Field::Matter));
    };
    let ask = read_ask(alloc, form.verb, row)?;
    Ok(Request::Matter {
        no,
        caller: Caller::Cashier,
        ask,
    })
}

/// Runs one record over a desk. If the reply is `Store` or `Memory`, nothing has changed.
pub fn answer_record<B: Book>(
    alloc: Global,
    row: &ByteRecord,
    desk: &mut Desk<B>,
    day: Day,
) -> Reply
    ensures { IsReplied day (heard_of (fields_of row.now)) result (B.seen desk.old) (B.seen desk.new) }
{
    match read_request(alloc, row) {
        Ok(request) => desk.answer(alloc, &request, day),
        Err(refusal) => Reply::refused(refusal),
    }
}
