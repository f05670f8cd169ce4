// Names of persons.

ghost use Rattle.std.specs.Prelude.{◌≡◌, ◌↔◌, IsTrue};
ghost use Rattle.std.specs.Cmp.Lexicographic.{slice_cmp};
ghost use Rattle.std.specs.List.{list_all};
ghost use Rattle.std.specs.Ordering.{nat_cmp};
ghost use Rattle.std.specs.declared.cmp.Ordering.TheVariants.{Less};
ghost use Rattle.trust_base.specs.Names.{is_person_byte, is_person_text};

use crate::MAX_PERSON;
use crate::text::{Form, Text};

/// The name of a person, a client or a lawyer: 1 to 32 of `a` to `z`, `0` to `9`, `.` and `-`, but not `cashier`.
///
/// Contracts see it as the list of its bytes.
pub type PersonId = Text<PersonForm>;

/// The rule for persons' names: which bytes are valid.
#[derive(Drop)]
pub struct PersonForm;

// Whether a byte may occur in a person's name.
fn is_name_byte(byte: u8) -> bool
    ensures { result ≡ is_person_byte byte }
{
    matches!(byte, b'a'..=b'z' | b'0'..=b'9' | b'.' | b'-')
}

// Whether each byte may occur in a person's name.
fn has_name_bytes(text: &[u8]) -> bool
    ensures { result ≡ list_all is_person_byte text.now }
{
    text.iter().all(|byte| is_name_byte(*byte))
}

impl Form for PersonForm {
    ghost admits = { is_person_text };

    #[tactic(auto, unfolding(crate::specs::Names::is_person_text))]
    fn admits(text: &[u8]) -> bool {
        !text.is_empty()
            && text.len() <= MAX_PERSON
            && has_name_bytes(text)
            && text != b"cashier".as_slice()
    }
}

impl Text<PersonForm> {
    /// Whether this name sorts before another, byte by byte.
    pub fn is_before(&self, other: &PersonId) -> bool
        ensures { IsTrue result ↔ (slice_cmp nat_cmp self.now other.now ≡ Less) }
    {
        self.as_slice().cmp(&other.as_slice()).is_lt()
    }
}
