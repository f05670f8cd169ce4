// Numbers for lookup: things that are alike have the same number.

ghost use Rattle.std.specs.Prelude.{◌≡◌};
ghost use Rattle.statement_lines.specs.Keys.{line_key as key_of_line, text_key as key_of_text};

use trust_base::Line;

// The multiplier of the hash.
const FACTOR: u64 = 1_099_511_628_211;

/// The key of a number and a text.
#[tactic(auto, unfolding(crate::specs::Keys::text_key))]
pub fn text_key(start: u64, text: &[u8]) -> u64
    ensures { result ≡ key_of_text start text.now }
{
    let mut key = start;
    for byte in text {
        key = key.wrapping_mul(FACTOR).wrapping_add(u64::from(*byte));
    }
    key
}

/// The key of a bank line, made of its date and bank reference.
pub(crate) fn line_key(line: &Line) -> u64
    ensures { result ≡ key_of_line line.now }
{
    text_key(u64::from(line.date.get()), line.bank_ref.as_slice())
}
