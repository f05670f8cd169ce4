// How refusals are written.

ghost use Rattle.std.specs.Prelude.{◌≡◌, ◌≤◌, ◌<◌, ◌+◌, ℕ, ◌∷◌, ◌++◌, [], length, take, OnOk, OnErr};
ghost use Rattle.std.specs.Io.KnownBytes.{Appends};
ghost use Rattle.arrayvec.specs.ArrayVec.{array_vec_len};
ghost use Rattle.trust_values.specs.Texts.{amount_text};
ghost use Rattle.trust_base.specs.Refusals.{field_name, leading_member, member, middle_member, name_of, next_text, number_member, quoted, refusal_text, rule_name, trailing_member};

use crate::{EntryNo, Field, Refusal, Rule, WriteFault, send};
use arrayvec::ArrayVec;
use byte_streams::{push_number, push_piece};
use std::io::Write;
use trust_values::day_bytes;

/// The text of a refusal: at most 128 bytes, on the stack.
pub type RefusalText = ArrayVec<u8, 128>;

// Appends a sum of cents.
fn push_amount(text: &mut RefusalText, cents: u64)
    requires { array_vec_len text.old ≤ 100 }
    ensures items { text.new.items ≡ text.old.items ++ amount_text cents }
    ensures len { array_vec_len text.new ≤ array_vec_len text.old + 23 }
{
    push_number(text, cents / 100);
    let end = [
        b'.',
        b'0' + (cents % 100 / 10) as u8,
        b'0' + (cents % 100 % 10) as u8,
    ];
    push_piece(text, &end);
}

impl Field {
    /// The field's name in JSON.
    pub fn name(self) -> &'static str
        ensures value { result.now ≡ field_name self }
        ensures bound { length result.now ≤ 11 }
    {
        match self {
            Field::Matter => "matter",
            Field::Entry => "entry",
            Field::Day => "day",
            Field::Body => "body",
            Field::Client => "client",
            Field::Lawyer => "lawyer",
            Field::Person => "person",
            Field::Role => "role",
            Field::Amount => "amount",
            Field::Source => "source",
            Field::Description => "description",
            Field::From => "from",
            Field::Of => "of",
            Field::Payee => "payee",
            Field::Purpose => "purpose",
            Field::Instrument => "instrument",
            Field::On => "on",
            Field::Claimant => "claimant",
            Field::Reason => "reason",
            Field::ToClient => "to_client",
            Field::Record => "record",
            Field::Header => "header",
        }
    }
}

impl Rule {
    /// The rule's name in JSON.
    pub fn name(self) -> &'static str
        ensures value { result.now ≡ rule_name self }
        ensures bound { length result.now ≤ 7 }
    {
        match self {
            Rule::Read => "read",
            Rule::Dispute => "dispute",
            Rule::Claim => "claim",
            Rule::Propose => "propose",
            Rule::Sign => "sign",
            Rule::Office => "office",
            Rule::Firm => "firm",
        }
    }
}

// Appends a key and a string value.
fn push_member(text: &mut RefusalText, key: &[u8], value: &[u8])
    requires { array_vec_len text.old + length key.now + length value.now ≤ 123 }
    ensures items { text.new.items ≡ text.old.items ++ member key.now (quoted value.now) }
    ensures len { array_vec_len text.new ≡ array_vec_len text.old + length key.now + length value.now + 5 }
{
    push_piece(text, b"\"");
    push_piece(text, key);
    push_piece(text, b"\":\"");
    push_piece(text, value);
    push_piece(text, b"\"");
}

// Appends the next entry's number, or null.
fn push_next(text: &mut RefusalText, next: Option<EntryNo>)
    requires { array_vec_len text.old ≤ 100 }
    ensures items { text.new.items ≡ text.old.items ++ next_text next }
    ensures len { array_vec_len text.new ≤ array_vec_len text.old + 6 }
{
    match next {
        Some(entry) => {
            push_piece(text, b"\"");
            push_piece(text, &entry.digits());
            push_piece(text, b"\"");
        }
        None => push_piece(text, b"null"),
    }
}

impl Refusal {
    /// The refusal's name in JSON.
    pub fn name(&self) -> &'static str
        ensures value { result.now ≡ name_of self.now }
        ensures bound { length result.now ≤ 14 }
    {
        match self {
            Refusal::BadMessage => "BadMessage",
            Refusal::LengthRequired => "LengthRequired",
            Refusal::TooLarge => "TooLarge",
            Refusal::NoRoute => "NoRoute",
            Refusal::BadMethod => "BadMethod",
            Refusal::NoCaller => "NoCaller",
            Refusal::BadField(_) => "BadField",
            Refusal::NoMatter => "NoMatter",
            Refusal::Purged => "Purged",
            Refusal::NotAllowed(_) => "NotAllowed",
            Refusal::AlreadyOpen => "AlreadyOpen",
            Refusal::Closed => "Closed",
            Refusal::DateBackwards(_) => "DateBackwards",
            Refusal::WrongNumber(_) => "WrongNumber",
            Refusal::NoEntry => "NoEntry",
            Refusal::WrongKind => "WrongKind",
            Refusal::WrongState => "WrongState",
            Refusal::PayeeIsCash => "PayeeIsCash",
            Refusal::WrongPayee => "WrongPayee",
            Refusal::BadSplit => "BadSplit",
            Refusal::Short(_) => "Short",
            Refusal::SeatTaken => "SeatTaken",
            Refusal::NoSeat => "NoSeat",
            Refusal::LastLawyer => "LastLawyer",
            Refusal::NotEmpty => "NotEmpty",
            Refusal::TooEarly(_) => "TooEarly",
            Refusal::NoStatement => "NoStatement",
            Refusal::PeriodPurged => "PeriodPurged",
            Refusal::Store => "Store",
            Refusal::Memory => "Memory",
        }
    }

    // Appends the value whose key sorts before `name`.
    fn push_leading(&self, text: &mut RefusalText)
        requires { array_vec_len text.old ≤ 1 }
        ensures items { text.new.items ≡ text.old.items ++ leading_member self.now }
        ensures len { array_vec_len text.new ≤ array_vec_len text.old + 34 }
    {
        match self {
            Refusal::BadField(field) => push_member(text, b"field", field.name().as_bytes()),
            Refusal::DateBackwards(last) => push_member(text, b"last", &day_bytes(last.get())),
            Refusal::Short(left) => {
                push_piece(text, b"\"left\":\"");
                push_amount(text, *left);
                push_piece(text, b"\"");
            }
            Refusal::TooEarly(day) => push_member(text, b"day", &day_bytes(day.get())),
            _ => return,
        }
        push_piece(text, b",");
    }

    // Appends the value whose key sorts between `name` and `number`.
    fn push_middle(&self, text: &mut RefusalText)
        requires { array_vec_len text.old ≤ 58 }
        ensures items { text.new.items ≡ text.old.items ++ middle_member self.now }
        ensures len { array_vec_len text.new ≤ array_vec_len text.old + 14 }
    {
        if let Refusal::WrongNumber(next) = self {
            push_piece(text, b",\"next\":");
            push_next(text, *next);
        }
    }

    // Appends the value whose key sorts after `number`.
    fn push_trailing(&self, text: &mut RefusalText)
        requires { array_vec_len text.old ≤ 103 }
        ensures items { text.new.items ≡ text.old.items ++ trailing_member self.now }
        ensures len { array_vec_len text.new ≤ array_vec_len text.old + 17 }
    {
        if let Refusal::NotAllowed(rule) = self {
            push_piece(text, b",");
            push_member(text, b"rule", rule.name().as_bytes());
        }
    }

    // Appends the number with its key.
    fn push_number_member(&self, text: &mut RefusalText)
        requires { array_vec_len text.old ≤ 72 }
        ensures items { text.new.items ≡ text.old.items ++ number_member self.now }
        ensures len { array_vec_len text.new ≤ array_vec_len text.old + 31 }
    {
        push_piece(text, b",\"refusal\":");
        push_number(text, self.number() as u64);
    }

    /// The refusal as a compact JSON object (RFC 8259), with keys in ascending byte order.
    #[tactic(auto, unfolding(crate::specs::Refusals::refusal_text))]
    pub fn json(&self) -> RefusalText
        ensures { result.items ≡ refusal_text self.now }
    {
        let mut text = RefusalText::new();
        push_piece(&mut text, b"{");
        self.push_leading(&mut text);
        push_member(&mut text, b"name", self.name().as_bytes());
        self.push_middle(&mut text);
        self.push_number_member(&mut text);
        self.push_trailing(&mut text);
        push_piece(&mut text, b"}");
        text
    }

    /// Writes the refusal as JSON. On a fault, only the first bytes of it were written. Allocates nothing.
    pub fn write_json<W: Write>(&self, writer: &mut W) -> Result<(), WriteFault>
        ensures ok { OnOk result (Appends (W.contents writer.old) (W.contents writer.new) (refusal_text self.now)) }
        ensures err { OnErr result ((n : ℕ) × (n < length (refusal_text self.now))
            × Appends (W.contents writer.old) (W.contents writer.new) (take n (refusal_text self.now))) }
    {
        let text = self.json();
        send(writer, text.as_slice())
    }
}
