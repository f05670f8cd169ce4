// Texts that are checked once, when they are made.

ghost use Rattle.std.specs.Prelude.{◌≡◌, ◌↔◌, List, ℕ, Bool, IfOk, IfErr, IsSome, IsOk, IsTrue, OnErr};
ghost use Rattle.std.specs.Str.{bytes_eq};
ghost use Rattle.trust_base.specs.Names.{text_if};

use std::alloc::{AllocError, Global};
use std::marker::{Model, PhantomData};

/// A rule for which bytes are valid.
pub trait Form {
    ghost use Rattle.std.specs.Prelude.{List, ℕ, Bool};

    /// Whether these bytes are valid.
    ghost admits: { List ℕ → Bool };

    /// Whether these bytes are valid.
    fn admits(text: &[u8]) -> bool
        ensures { result ≡ admits text.now };
}

/// Bytes that are valid by the rule `F`.
///
/// Contracts see it as the list of its bytes.
#[derive(Drop)]
pub struct Text<F: Form> {
    bytes: Vec<u8>,
    form: PhantomData<F>,
}

impl<F: Form> Model for Text<F> {
    ghost Value = { List ℕ };

    ghost view = { λ t. t.bytes.items };

    ghost invariant = { λ t. IsTrue (F.admits t.bytes.items) };
}

impl<F: Form> Text<F> {
    /// Copies the bytes as a text, or returns None if they are invalid. Allocates only if they are valid. The only
    /// error is out of memory.
    pub fn read(alloc: Global, text: &[u8]) -> Result<Option<Text<F>>, AllocError>
        ensures value { IfOk result (λ found. found ≡ text_if (F.admits text.now) text.now) }
        ensures form { IfOk result (λ found. IsSome found ↔ IsTrue (F.admits text.now)) }
        ensures err { OnErr result (IsTrue (F.admits text.now)) }
    {
        if !F::admits(text) {
            return Ok(None);
        }
        let bytes = Vec::from_slice(alloc, text)?;
        Ok(Some(Text {
            bytes,
            form: PhantomData,
        }))
    }

    /// Takes the bytes as a text, or returns them if they are invalid. Allocates nothing.
    pub fn from_vec(bytes: Vec<u8>) -> Result<Text<F>, Vec<u8>>
        ensures form { IsOk result ↔ IsTrue (F.admits bytes.items) }
        ensures ok { IfOk result (λ text. text ≡ bytes.items) }
        ensures err { IfErr result (λ back. back ≡ bytes) }
    {
        if F::admits(&bytes) {
            Ok(Text {
                bytes,
                form: PhantomData,
            })
        } else {
            Err(bytes)
        }
    }

    /// Unwraps the bytes. Allocates nothing.
    pub fn into_vec(self) -> Vec<u8>
        ensures { result.items ≡ self }
    {
        self.bytes
    }

    /// The bytes.
    pub fn as_slice(&self) -> &[u8]
        ensures value { result.now ≡ self.now }
        ensures form { IsTrue (F.admits self.now) }
    {
        self.bytes.as_slice()
    }

    /// A copy. The only error is out of memory.
    pub fn copied(&self) -> Result<Text<F>, AllocError>
        ensures { IfOk result (λ same. same ≡ self.now) }
    {
        let bytes = self.bytes.clone()?;
        Ok(Text {
            bytes,
            form: PhantomData,
        })
    }

    /// Whether both have the same bytes.
    pub fn is_same(&self, other: &Text<F>) -> bool
        ensures { result ≡ bytes_eq self.now other.now }
    {
        self.bytes == other.bytes
    }
}
