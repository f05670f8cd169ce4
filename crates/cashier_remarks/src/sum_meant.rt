// Guesses the amount that is meant by an invalid one in a statement.

use trust_base::BankAmount;

// An amount without its sign and what stands around it, and whether the sign says that it is below zero.
#[derive(Clone, Copy)]
struct Unsigned<'a> {
    text: &'a str,
    is_negative: bool,
}

// A text without the blanks and $ around it.
fn bare(text: &str) -> &str {
    text.trim_matches([' ', '$'])
}

// Takes the sign off an amount: a minus or a plus in front of it or behind it, or parentheses around it. A further sign
// stays in the text, where it is no digit. None if a parenthesis is not closed.
fn without_sign(text: &str) -> Option<Unsigned<'_>> {
    let signed = bare(text);
    if let Some(opened) = signed.strip_prefix('(') {
        let inside = opened.strip_suffix(')')?;
        return Some(Unsigned {
            text: bare(inside),
            is_negative: true,
        });
    }
    if let Some(rest) = signed.strip_prefix('-').or(signed.strip_suffix('-')) {
        return Some(Unsigned {
            text: bare(rest),
            is_negative: true,
        });
    }
    let rest = signed.strip_prefix('+').or(signed.strip_suffix('+'));
    Some(Unsigned {
        text: bare(rest.unwrap_or(signed)),
        is_negative: false,
    })
}

// The digits of an amount, as one number, and how many there are.
#[derive(Clone, Copy)]
struct Digits {
    value: i64,
    count: u64,
}

const NO_DIGITS: Digits = Digits { value: 0, count: 0 };

// Adds the digits of a text. None if it has anything else.
fn with_digits(before: Digits, text: &str) -> Option<Digits> {
    let mut digits = before;
    for byte in text.as_bytes() {
        match *byte {
            b'0'..=b'9' => {
                let digit = (*byte - b'0') as i64;
                digits.value = digits.value.saturating_mul(10).saturating_add(digit);
                digits.count = digits.count.saturating_add(1);
            }
            _ => return None,
        }
    }
    Some(digits)
}

// Adds what stands behind a comma: three more digits.
fn with_group(before: Digits, text: &str) -> Option<Digits> {
    let digits = with_digits(before, text)?;
    if digits.count == before.count.saturating_add(3) {
        Some(digits)
    } else {
        None
    }
}

// The cents of these dollars, with the text behind the decimal point if there is one.
fn cents_of(dollars: Digits, decimals: Option<&str>) -> Option<i64> {
    let digits = with_digits(dollars, decimals.unwrap_or(""))?;
    if digits.count == 0 {
        return None;
    }
    match digits.count.saturating_sub(dollars.count) {
        0 => Some(digits.value.saturating_mul(100)),
        1 => Some(digits.value.saturating_mul(10)),
        2 => Some(digits.value),
        _ => None,
    }
}

// What stands before the first decimal point, and what stands behind it.
fn parts_of(text: &str) -> (&str, Option<&str>) {
    match text.split_once('.') {
        Some((dollars, decimals)) => (dollars, Some(decimals)),
        None => (text, None),
    }
}

/// Returns the amount that is meant by a text such as $1,200.00, (12.5), 12.00- or 12.
pub fn sum_meant(text: &str) -> Option<BankAmount> {
    let amount = without_sign(text)?;
    let (dollars, decimals) = parts_of(amount.text);
    let mut groups = dollars.split(',');
    let mut sum = with_digits(NO_DIGITS, groups.next().unwrap_or(""))?;
    for group in groups {
        sum = with_group(sum, group)?;
    }
    let cents = cents_of(sum, decimals)?;
    BankAmount::from_number(if amount.is_negative {
        0i64.saturating_sub(cents)
    } else {
        cents
    })
}

/// Returns the amount that is meant by two texts with a comma between them, if it is positive.
pub fn sum_of_two(first: &str, second: &str) -> Option<BankAmount> {
    let signed = bare(first);
    let front = with_digits(NO_DIGITS, bare(signed.strip_prefix('+').unwrap_or(signed)))?;
    if front.count == 0 {
        return None;
    }
    let (group, decimals) = parts_of(bare(second));
    let amount = BankAmount::from_number(cents_of(with_group(front, group)?, decimals)?)?;
    if amount.get() > 0 { Some(amount) } else { None }
}
