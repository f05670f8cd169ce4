// Labels.

ghost use Rattle.std.specs.Prelude.{◌≡◌, ◌≤◌, length};
ghost use Rattle.std.specs.Char.{is_control};
ghost use Rattle.std.specs.List.{list_any, prefix_len, suffix_len};
ghost use Rattle.std.specs.Str.{chars};
ghost use Rattle.trust_base.specs.Names.{is_cash_label, is_firm_label, is_label_text, is_space, without_leading_spaces, without_trailing_spaces};

use crate::MAX_LABEL;
use crate::text::{Form, Text};

/// A label: 1 to 80 bytes of UTF-8, none of the characters U+0000 to U+001F or U+007F to U+009F.
///
/// Contracts see it as the list of its bytes. It is checked once, when it is made:
///
///     Label::read(alloc, b"Court Clerk")?    // Some
///     Label::read(alloc, b"")?               // None, and so is a text with a line's end
pub type Label = Text<LabelForm>;

/// The rule for labels: which bytes are valid.
#[derive(Drop)]
pub struct LabelForm;

// Whether a text contains a control character.
fn has_control(text: &str) -> bool
    ensures { result ≡ list_any is_control (chars text.now) }
{
    text.chars().any(|character| character.is_control())
}

// The number of leading spaces.
fn leading_spaces(text: &[u8]) -> usize
    ensures value { result ≡ prefix_len is_space text.now }
    ensures bound { result ≤ length text.now }
{
    text.iter().take_while(|byte| **byte == b' ').count()
}

// The number of trailing spaces.
fn trailing_spaces(text: &[u8]) -> usize
    ensures value { result ≡ suffix_len is_space text.now }
    ensures bound { result ≤ length text.now }
{
    text.iter().rev().take_while(|byte| **byte == b' ').count()
}

// The text without leading and trailing spaces.
fn trimmed(text: &[u8]) -> &[u8]
    ensures { result.now ≡ without_trailing_spaces (without_leading_spaces text.now) }
{
    let rest = &text[leading_spaces(text)..];
    &rest[..rest.len() - trailing_spaces(rest)]
}

impl Form for LabelForm {
    ghost admits = { is_label_text };

    #[tactic(auto, unfolding(crate::specs::Names::is_label_text))]
    fn admits(text: &[u8]) -> bool {
        if text.is_empty() || text.len() > MAX_LABEL {
            return false;
        }
        let Ok(text) = str::from_utf8(text) else {
            return false;
        };
        !has_control(text)
    }
}

impl Text<LabelForm> {
    /// Whether the label names cash: `cash` in any ASCII case, with any spaces U+0020 around it.
    #[tactic(auto, unfolding(crate::specs::Names::is_cash_label))]
    pub fn is_cash(&self) -> bool
        ensures { result ≡ is_cash_label self.now }
    {
        trimmed(self.as_slice()).eq_ignore_ascii_case(b"cash")
    }

    /// Whether the label is `FIRM`, the firm as payee.
    pub fn is_firm(&self) -> bool
        ensures { result ≡ is_firm_label self.now }
    {
        self.as_slice() == b"FIRM".as_slice()
    }
}
