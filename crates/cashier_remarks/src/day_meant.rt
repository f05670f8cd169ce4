// Guesses the day that is meant by an invalid one in a statement.

use trust_base::Day;

// Parses three numbers with slashes or dashes between them.
fn numbers_in(text: &str) -> Option<[u32; 3]> {
    let mut numbers = [0u32; 3];
    let mut place = 0usize;
    for byte in text.as_bytes() {
        match *byte {
            b'0'..=b'9' => {
                let number = numbers.get_mut(place)?;
                *number = number
                    .saturating_mul(10)
                    .saturating_add((*byte - b'0') as u32);
            }
            b'/' | b'-' => place = place.saturating_add(1),
            _ => return None,
        }
    }
    if place == 2 { Some(numbers) } else { None }
}

// The year for a number: two digits mean a year from 2000 on.
fn year_of(number: u32) -> u32 {
    if number < 100 { number + 2000 } else { number }
}

/// Returns the day that is meant by a text such as 3/16/2026, 03/16/26 or 2026/3/16.
pub fn day_meant(text: &str) -> Option<Day> {
    let [first, second, third] = numbers_in(text)?;
    let (year, month, day) = if first > 31 {
        (first, second, third)
    } else {
        (year_of(third), first, second)
    };
    if year > 9999 || month > 12 || day > 31 {
        return None;
    }
    Day::from_number(year * 10_000 + month * 100 + day)
}
