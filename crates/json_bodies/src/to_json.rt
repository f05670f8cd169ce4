//! One trait for all that is written as JSON, and the values that bodies are made of.

ghost use Rattle.std.specs.Prelude.{◌≡◌, ◌++◌, ◌∷◌, [], map, IfOk, IfSome, OnOk};
ghost use Rattle.std.specs.Str.{IsUtf8};
ghost use Rattle.serde_json.specs.Data.{string as text_data};
ghost use Rattle.serde_json.specs.Written.{compact_text};
ghost use Rattle.json_bodies.specs.Json.{array_of, count_value, day_value, members_between, object_of, or_null, sum_value, value_tokens};

use json::Writer;
use std::alloc::{AllocError, Global};
use std::fmt;
use trust_base::{BankAmount, BankText, Day, Dollars, Label, LineText};

/// What is written as JSON.
pub(crate) trait ToJson {
    ghost use Rattle.serde_json.specs.Data.{Data};

    /// Its value.
    ghost told: { Self → Data };

    /// Writes it. The only error is out of memory.
    fn write(&self, alloc: Global, out: &mut Writer) -> Result<(), AllocError>
        ensures before { out.new.before ≡ out.old.before }
        ensures tokens { OnOk result (out.new.tokens ≡ out.old.tokens ++ value_tokens (told self.now)) };
}

/// Members of an object, in their order.
pub(crate) trait Members {
    ghost use Rattle.std.specs.Prelude.{ℕ, List};
    ghost use Rattle.serde_json.specs.Data.{Data};

    /// Their keys and values.
    ghost members: { Self → List (List ℕ × Data) };

    /// Writes them without brackets. The only error is out of memory.
    fn write_members(&self, alloc: Global, out: &mut Writer) -> Result<(), AllocError>
        ensures before { out.new.before ≡ out.old.before }
        ensures tokens { OnOk result (out.new.tokens ≡ out.old.tokens ++ members_between (members self.now)) };
}

/// A member and those after it. It has its value and not a reference to it: each reference is a lifetime that a proof
/// has to follow through all members before it.
#[derive(Drop)]
pub(crate) struct Member<T, M> {
    pub(crate) key: &'static str,
    pub(crate) value: T,
    pub(crate) rest: M,
}

/// An object of these members.
#[derive(Drop)]
pub(crate) struct Object<M> {
    pub(crate) members: M,
}

/// The members of an object by their keys.
macro_rules! members {
    () => { () };
    ($key:literal : $value:expr $(, $keys:literal : $values:expr)*) => {
        $crate::to_json::Member {
            key: $key,
            value: $value,
            rest: $crate::to_json::members!($($keys : $values),*),
        }
    };
}

pub(crate) use members;

/// An object by its keys, which are sorted by their bytes.
macro_rules! object {
    ($($key:literal : $value:expr),* $(,)?) => {
        $crate::to_json::Object {
            members: $crate::to_json::members!($($key : $value),*),
        }
    };
}

pub(crate) use object;

impl Members for () {
    ghost members = { λ _. [] };

    fn write_members(&self, _alloc: Global, _out: &mut Writer) -> Result<(), AllocError> {
        Ok(())
    }
}

impl<T: ToJson, M: Members> Members for Member<T, M> {
    ghost members = { λ m. (m.key.now, T.told m.value) ∷ M.members m.rest };

    fn write_members(&self, alloc: Global, out: &mut Writer) -> Result<(), AllocError> {
        out.key(self.key)?;
        self.value.write(alloc, out)?;
        self.rest.write_members(alloc, out)
    }
}

impl<M: Members> ToJson for Object<M> {
    ghost told = { λ o. object_of (M.members o.members) };

    fn write(&self, alloc: Global, out: &mut Writer) -> Result<(), AllocError> {
        out.begin_object()?;
        self.members.write_members(alloc, out)?;
        out.end_object()
    }
}

impl<T: ToJson> ToJson for &T {
    ghost told = { λ r. T.told r.now };

    fn write(&self, alloc: Global, out: &mut Writer) -> Result<(), AllocError> {
        (**self).write(alloc, out)
    }
}

impl<T: ToJson> ToJson for Option<T> {
    ghost told = { or_null T.told };

    fn write(&self, alloc: Global, out: &mut Writer) -> Result<(), AllocError> {
        match self {
            Some(value) => value.write(alloc, out),
            None => out.null(),
        }
    }
}

impl<T: ToJson> ToJson for &[T] {
    ghost told = { λ s. array_of (map T.told s.now) };

    fn write(&self, alloc: Global, out: &mut Writer) -> Result<(), AllocError> {
        out.begin_array()?;
        for value in *self {
            value.write(alloc, out)?;
        }
        out.end_array()
    }
}

impl<T: ToJson> ToJson for Vec<T> {
    ghost told = { λ v. array_of (map T.told v.items) };

    fn write(&self, alloc: Global, out: &mut Writer) -> Result<(), AllocError> {
        self.as_slice().write(alloc, out)
    }
}

impl ToJson for u64 {
    ghost told = { count_value };

    fn write(&self, _alloc: Global, out: &mut Writer) -> Result<(), AllocError> {
        out.u64(*self)
    }
}

impl ToJson for &str {
    ghost told = { λ s. text_data s.now };

    fn write(&self, _alloc: Global, out: &mut Writer) -> Result<(), AllocError> {
        out.string(self)
    }
}

// Writes the text that a value is shown as.
fn write_shown<T: fmt::Display>(
    alloc: Global,
    out: &mut Writer,
    shown: &T,
) -> Result<(), AllocError>
    ensures before { out.new.before ≡ out.old.before }
    ensures tokens { OnOk result (IfSome (T.output shown.now)
        (λ text. out.new.tokens ≡ out.old.tokens ++ value_tokens (text_data text))) }
{
    out.string(format!(in alloc; "{shown}")?.as_str())
}

impl ToJson for Day {
    ghost told = { day_value };

    fn write(&self, alloc: Global, out: &mut Writer) -> Result<(), AllocError> {
        write_shown(alloc, out, self)
    }
}

impl ToJson for BankAmount {
    ghost told = { sum_value };

    fn write(&self, alloc: Global, out: &mut Writer) -> Result<(), AllocError> {
        write_shown(alloc, out, self)
    }
}

// A signed number is a sum in cents.
impl ToJson for i64 {
    ghost told = { sum_value };

    fn write(&self, alloc: Global, out: &mut Writer) -> Result<(), AllocError> {
        write_shown(alloc, out, &Dollars(*self as i128))
    }
}

// Writes a text.
fn write_text(out: &mut Writer, text: &[u8]) -> Result<(), AllocError>
    requires { IsUtf8 text.now }
    ensures before { out.new.before ≡ out.old.before }
    ensures tokens { OnOk result (out.new.tokens ≡ out.old.tokens ++ value_tokens (text_data text.now)) }
{
    let Ok(text) = str::from_utf8(text) else {
        unreachable!()
    };
    out.string(text)
}

impl ToJson for Label {
    ghost told = { text_data };

    #[tactic(auto, using(crate::proofs::TextFacts::utf8_label))]
    fn write(&self, _alloc: Global, out: &mut Writer) -> Result<(), AllocError> {
        write_text(out, self.as_slice())
    }
}

impl ToJson for BankText {
    ghost told = { text_data };

    #[tactic(auto, using(crate::proofs::TextFacts::utf8_bank_text))]
    fn write(&self, _alloc: Global, out: &mut Writer) -> Result<(), AllocError> {
        write_text(out, self.as_slice())
    }
}

impl ToJson for LineText {
    ghost told = { text_data };

    #[tactic(auto, using(crate::proofs::TextFacts::utf8_line_text))]
    fn write(&self, _alloc: Global, out: &mut Writer) -> Result<(), AllocError> {
        write_text(out, self.as_slice())
    }
}

/// A writer into an empty buffer with room for a short body. The only error is out of memory.
pub(crate) fn new_body(alloc: Global) -> Result<Writer, AllocError>
    ensures before { IfOk result (λ out. out.before ≡ []) }
    ensures tokens { IfOk result (λ out. out.tokens ≡ []) }
{
    Ok(Writer::new(Vec::with_capacity(alloc, 256)?))
}

/// The compact text of a value. The only error is out of memory.
pub(crate) fn json_text<T: ToJson>(alloc: Global, value: &T) -> Result<Vec<u8>, AllocError>
    ensures { IfOk result (λ bytes. bytes.items ≡ compact_text (T.told value.now)) }
{
    let mut out = new_body(alloc)?;
    value.write(alloc, &mut out)?;
    Ok(out.into_inner())
}
