// Numbers written with a fixed count of digits.

ghost use Rattle.std.specs.Prelude.{◌≡◌, ◌≢◌, ℕ, ◌^◌, ◌<◌, ◌≤◌, length, IfSome, IfNone};
ghost use Rattle.byte_streams.specs.Digits.{fixed_digits};

/// Parses a number of at most nine digits. Returns None if any byte is not a digit.
pub fn read_fixed(text: &[u8]) -> Option<u32>
    requires { length text.now ≤ 9 }
    ensures below { IfSome result (λ n. n < 10 ^ length text.now) }
    ensures some { IfSome result (λ n. fixed_digits (length text.now) n ≡ text.now) }
    ensures none { IfNone result ((n : ℕ) → fixed_digits (length text.now) n ≢ text.now) }
{
    let mut value: u32 = 0;
    for digit in text {
        if *digit < b'0' || *digit > b'9' {
            return None;
        }
        value = value * 10 + (*digit - b'0') as u32;
    }
    Some(value)
}
