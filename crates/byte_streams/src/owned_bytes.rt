// Owned bytes.

ghost use Rattle.std.specs.Prelude.{◌≡◌, List, ℕ};

use std::marker::Model;

/// Owned bytes of any content: a body, a text, a statement. Contracts see them as the list of these bytes.
#[derive(Drop)]
pub struct OwnedBytes {
    bytes: Vec<u8>,
}

impl Model for OwnedBytes {
    ghost Value = { List ℕ };

    ghost view = { λ t. t.bytes.items };
}

impl OwnedBytes {
    /// Wraps these bytes. Allocates nothing.
    pub fn new(bytes: Vec<u8>) -> OwnedBytes
        ensures { result ≡ bytes.items }
    {
        OwnedBytes { bytes }
    }

    /// The bytes.
    pub fn as_slice(&self) -> &[u8]
        ensures { result.now ≡ self.now }
    {
        self.bytes.as_slice()
    }

    /// Unwraps the bytes. Allocates nothing.
    pub fn into_vec(self) -> Vec<u8>
        ensures { result.items ≡ self }
    {
        self.bytes
    }
}
