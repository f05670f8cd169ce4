// Texts of bank lines.

ghost use Rattle.std.specs.Prelude.{◌≡◌};
ghost use Rattle.std.specs.Str.{is_utf8};
ghost use Rattle.trust_base.specs.BankTexts.{is_line_text};

use crate::MAX_LINE_TEXT;
use crate::text::{Form, Text};

/// The text of a bank line: at most 1000 bytes of UTF-8. It may be empty.
///
/// Contracts see it as the list of its bytes.
pub type LineText = Text<LineForm>;

/// The rule for line texts: which bytes are valid.
#[derive(Drop)]
pub struct LineForm;

// Whether bytes are UTF-8.
fn is_text(bytes: &[u8]) -> bool
    ensures { result ≡ is_utf8 bytes.now }
{
    match str::from_utf8(bytes) {
        Ok(_) => true,
        Err(_) => false,
    }
}

impl Form for LineForm {
    ghost admits = { is_line_text };

    #[tactic(auto, unfolding(crate::specs::BankTexts::is_line_text))]
    fn admits(text: &[u8]) -> bool {
        text.len() <= MAX_LINE_TEXT && is_text(text)
    }
}
