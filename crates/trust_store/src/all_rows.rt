// All rows of a book.

ghost use Rattle.std.specs.Prelude.{◌≡◌, IfOk};

use crate::plain::KeptMatter;
use firm_rows::{BalanceRow, Dismissal, FirmLine, MatterAct, Movement};
use matter_parts::Matter;
use std::alloc::{AllocError, Global};
use trust_base::Line;

/// All rows of a firm as they were read, sound or not.
#[derive(Drop)]
pub struct AllRows {
    /// Each matter with all its entries, by number.
    pub matters: Vec<KeptMatter>,
    /// The movements, in the order of acceptance.
    pub movements: Vec<Movement>,
    /// The lines of the firm's own, in the order of acceptance.
    pub firm_lines: Vec<FirmLine>,
    /// The exceptions, sorted.
    pub exceptions: Vec<Line>,
    /// The balances: openings before closings, each by day.
    pub balances: Vec<BalanceRow>,
    /// The acts, in the order of acceptance.
    pub acts: Vec<MatterAct>,
    /// The dismissals, in the order of acceptance.
    pub dismissals: Vec<Dismissal>,
}

// A row that is copied where there is memory.
pub(crate) trait CopiedRow {
    fn copied_row(&self, alloc: Global) -> Result<Self, AllocError>
        ensures { IfOk result (λ copy. copy ≡ self.now) };
}

impl CopiedRow for FirmLine {
    fn copied_row(&self, _alloc: Global) -> Result<FirmLine, AllocError> {
        self.copied()
    }
}

impl CopiedRow for KeptMatter {
    fn copied_row(&self, alloc: Global) -> Result<KeptMatter, AllocError> {
        let matter: Matter = self.matter.copied(alloc)?;
        Ok(KeptMatter {
            number: self.number,
            matter,
        })
    }
}

impl CopiedRow for MatterAct {
    fn copied_row(&self, _alloc: Global) -> Result<MatterAct, AllocError> {
        self.copied()
    }
}

impl CopiedRow for Dismissal {
    fn copied_row(&self, _alloc: Global) -> Result<Dismissal, AllocError> {
        self.copied()
    }
}

impl CopiedRow for Line {
    fn copied_row(&self, _alloc: Global) -> Result<Line, AllocError> {
        self.copied()
    }
}

/// Copies of rows, in order.
pub(crate) fn copies<T: CopiedRow + Drop>(alloc: Global, rows: &[T]) -> Result<Vec<T>, AllocError>
    ensures { IfOk result (λ copies. copies.items ≡ rows.now) }
{
    let mut copies = Vec::new(alloc);
    for row in rows {
        copies.push(row.copied_row(alloc)?)?;
    }
    Ok(copies)
}
