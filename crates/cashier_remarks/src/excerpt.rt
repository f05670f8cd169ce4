// Fields, as remarks show them.

use std::fmt;

// How many bytes of a field are shown at most.
const LONGEST: usize = 40;

/// A field, or its first part, in double quotes.
#[derive(Clone, Copy)]
pub struct Excerpt<'a> {
    front: &'a str,
    is_cut: bool,
}

impl<'a> Excerpt<'a> {
    /// Makes the excerpt of a field.
    pub fn new(field: &'a str) -> Excerpt<'a> {
        let (front, rest) = field.split_at(field.floor_char_boundary(LONGEST));
        Excerpt {
            front,
            is_cut: !rest.is_empty(),
        }
    }

    /// Writes it without quotes.
    pub fn write_bare<W: fmt::Write>(&self, f: &mut fmt::Formatter<W>) -> fmt::Result {
        f.write_str(self.front)?;
        if self.is_cut {
            f.write_str("..")?;
        }
        Ok(())
    }
}

impl fmt::Display for Excerpt<'_> {
    fn fmt<W: fmt::Write>(&self, f: &mut fmt::Formatter<W>) -> fmt::Result {
        // Control characters are escaped, because a terminal would obey them.
        let front = self.front;
        if self.is_cut {
            write!(f, "{front:?}..")
        } else {
            write!(f, "{front:?}")
        }
    }
}
