// References on bank lines.

ghost use Rattle.std.specs.Prelude.{◌≡◌};
ghost use Rattle.std.specs.List.{list_all};
ghost use Rattle.trust_base.specs.BankTexts.{is_bank_text, is_printed_byte};

use crate::MAX_BANK_TEXT;
use crate::text::{Form, Text};

/// A reference on a bank line: at most 64 bytes, each from 0x20 to 0x7E. It may be empty.
///
/// Contracts see it as the list of its bytes.
pub type BankText = Text<BankForm>;

/// The rule for references: which bytes are valid.
#[derive(Drop)]
pub struct BankForm;

// Whether each byte is a printable ASCII character or a space.
fn is_printed(text: &[u8]) -> bool
    ensures { result ≡ list_all is_printed_byte text.now }
{
    text.iter().all(|byte| 0x20 <= *byte && *byte <= 0x7E)
}

impl Form for BankForm {
    ghost admits = { is_bank_text };

    #[tactic(auto, unfolding(crate::specs::BankTexts::is_bank_text))]
    fn admits(text: &[u8]) -> bool {
        text.len() <= MAX_BANK_TEXT && is_printed(text)
    }
}
