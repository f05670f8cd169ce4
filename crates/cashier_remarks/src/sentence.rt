// Sentences with gaps, each written `{}`, and what fills them, in order.

use std::fmt::{self, Display};

// Writes the words before the next gap, and what fills it. Returns the words behind it.
fn write_gap<'w, W: fmt::Write, A: Display>(
    f: &mut fmt::Formatter<W>,
    words: &'w str,
    filling: &A,
) -> Result<&'w str, fmt::Error> {
    let Some((before, after)) = words.split_once("{}") else {
        return Ok(words);
    };
    f.write_str(before)?;
    filling.fmt(f)?;
    Ok(after)
}

/// Writes a sentence with one gap.
pub fn write_one<W: fmt::Write, A: Display>(
    f: &mut fmt::Formatter<W>,
    words: &str,
    first: &A,
) -> fmt::Result {
    let words = write_gap(f, words, first)?;
    f.write_str(words)
}

/// Writes a sentence with two gaps.
pub fn write_two<W: fmt::Write, A: Display, B: Display>(
    f: &mut fmt::Formatter<W>,
    words: &str,
    first: &A,
    second: &B,
) -> fmt::Result {
    let words = write_gap(f, words, first)?;
    write_one(f, words, second)
}

/// Writes a sentence with three gaps.
pub fn write_three<W: fmt::Write, A: Display, B: Display, C: Display>(
    f: &mut fmt::Formatter<W>,
    words: &str,
    first: &A,
    second: &B,
    third: &C,
) -> fmt::Result {
    let words = write_gap(f, words, first)?;
    write_two(f, words, second, third)
}

/// Writes a sentence with four gaps.
pub fn write_four<W: fmt::Write, A: Display, B: Display, C: Display, D: Display>(
    f: &mut fmt::Formatter<W>,
    words: &str,
    first: &A,
    second: &B,
    third: &C,
    fourth: &D,
) -> fmt::Result {
    let words = write_gap(f, words, first)?;
    write_three(f, words, second, third, fourth)
}
