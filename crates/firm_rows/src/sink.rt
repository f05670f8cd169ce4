// Traits for receiving rows one at a time: of any kind, and the rows of matters.

ghost use Rattle.std.specs.Prelude.{◌≡◌, ℕ, OnOk, OnErr};
ghost use Rattle.firm_rows.specs.Firm.{Row, row_of};

use std::alloc::AllocError;
use trust_base::{EntryNo, MatterNo};
use trust_matter::{Entry, Head, Seat};

/// Receives rows of a kind in order. If memory runs out, the sink is unchanged.
pub trait RowSink<T> {
    /// The sink after a row.
    ghost taken: { Self → T → Self };

    /// Receives a row.
    fn take(&mut self, row: &T) -> Result<(), AllocError>
        ensures ok { OnOk result (self.new ≡ taken self.old row.now) }
        ensures err { OnErr result (self.new ≡ self.old) };
}

/// A row of a matter, borrowed.
#[derive(Clone, Copy)]
pub enum MatterRow<'a> {
    Head(&'a Head),
    Seat(&'a Seat),
    Entry(EntryNo, &'a Entry),
}

/// Receives the rows of a firm's matters in order. If memory runs out, the sink is unchanged. It is no `RowSink`, since
/// its rows are borrowed, and a row of a firm, of which contracts speak, has no references.
pub trait MatterRowSink {
    ghost use Rattle.std.specs.Prelude.{ℕ};
    ghost use Rattle.firm_rows.specs.Firm.{Row};

    /// The sink after a row of a matter.
    ghost taken: { Self → ℕ × Row → Self };

    /// Receives a row of a matter.
    fn matter_row(&mut self, matter: MatterNo, row: MatterRow<'_>) -> Result<(), AllocError>
        ensures ok { OnOk result (self.new ≡ taken self.old (matter, row_of row.entry)) }
        ensures err { OnErr result (self.new ≡ self.old) };
}
