// A message.

ghost use Rattle.std.specs.Prelude.{◌≡◌, List, ℕ, [], ◌∷◌, ◌++◌, OnOk, OnErr};

use std::alloc::{AllocError, Global};
use std::marker::Model;
use trust_base::OwnedBytes;

/// Texts of a message, in order. Contracts see the list of them.
#[derive(Drop)]
pub struct Texts {
    texts: Vec<OwnedBytes>,
}

impl Model for Texts {
    ghost Value = { List (List ℕ) };

    ghost view = { λ t. t.texts.items };
}

impl Texts {
    /// An empty list of texts. Does not allocate.
    pub fn new(alloc: Global) -> Texts
        ensures { result ≡ [] }
    {
        Texts {
            texts: Vec::new(alloc),
        }
    }

    /// Appends a text. Fails if memory runs out, with the texts unchanged.
    pub fn push(&mut self, text: OwnedBytes) -> Result<(), AllocError>
        ensures ok { OnOk result (self.new ≡ self.old ++ text ∷ []) }
        ensures err { OnErr result (self.new ≡ self.old) }
    {
        match self.texts.push(text) {
            Ok(()) => Ok(()),
            Err(_) => Err(AllocError),
        }
    }

    /// The texts.
    pub fn as_slice(&self) -> &[OwnedBytes]
        ensures { result.now ≡ self.now }
    {
        self.texts.as_slice()
    }
}

/// The parts of an HTTP/1.1 request that matter here (RFC 9112). All other fields of its head are ignored.
pub struct Message {
    /// The method, in the case in which it was sent.
    pub method: OwnedBytes,
    /// The request target, with its query.
    pub target: OwnedBytes,
    /// The values of the fields `x-caller`, in order.
    pub callers: Texts,
    /// The body, as many bytes as `Content-Length` says.
    pub body: OwnedBytes,
}

impl Drop for Message {
    fn drop(self) {
        let Message {
            method: _method,
            target: _target,
            callers: _callers,
            body: _body,
        } = self;
    }
}
