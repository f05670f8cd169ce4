// Paths, as remarks show them.

use std::fmt;

/// A path as it is, or in double quotes with its control characters escaped, because a terminal would obey them.
#[derive(Clone, Copy)]
pub struct PathText<'a>(pub &'a str);

impl fmt::Display for PathText<'_> {
    fn fmt<W: fmt::Write>(&self, f: &mut fmt::Formatter<W>) -> fmt::Result {
        let path = self.0;
        if path.is_empty() {
            f.write_str("the empty path")
        } else if is_printable(path) {
            f.write_str(path)
        } else {
            write!(f, "{path:?}")
        }
    }
}

/// Whether a text has no control characters.
pub fn is_printable(text: &str) -> bool {
    !text.chars().any(|character| character.is_control())
}
