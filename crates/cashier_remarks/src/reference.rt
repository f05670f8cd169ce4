// What lines of a statement name.

use crate::plain::Plain;
use firm_rows::{BalanceKind, Owner};
use std::fmt;
use trust_base::{EntryNo, MatterNo};

/// What a line of a statement names.
#[derive(Clone, Copy)]
pub enum Reference<'a> {
    /// An entry.
    Entry { matter: MatterNo, entry: EntryNo },
    /// The firm's own money.
    Firm,
    /// A balance.
    Balance(BalanceKind),
    /// This text, which names nothing.
    Stray(Plain<'a>),
}

impl<'a> Reference<'a> {
    /// The reference of a line that belongs to this.
    pub fn of_owner(owner: Owner) -> Reference<'a> {
        match owner {
            Owner::Matter { matter, entry } => Reference::Entry { matter, entry },
            Owner::Firm => Reference::Firm,
        }
    }
}

impl fmt::Display for Reference<'_> {
    fn fmt<W: fmt::Write>(&self, f: &mut fmt::Formatter<W>) -> fmt::Result {
        match self {
            Reference::Entry { matter, entry } => write!(f, "M{matter}-{entry}"),
            Reference::Firm => f.write_str("FIRM"),
            Reference::Balance(BalanceKind::Opening) => f.write_str("OPEN"),
            Reference::Balance(BalanceKind::Closing) => f.write_str("CLOSE"),
            Reference::Stray(text) => text.fmt(f),
        }
    }
}
