// The audit of all rows of a firm.

ghost use Rattle.std.specs.Prelude.{◌≡◌, ◌↔◌, None, IfOk, IfSome};
ghost use Rattle.firm_audit.specs.Flaws.{AreSound, IsFlawIn};

use crate::Flaw;
use crate::journal::journal_flaw;
use crate::matters::matters_flaw;
use crate::order::order_flaw;
use crate::own_money::own_flaw;
use std::alloc::{AllocError, Global};
use trust_store::AllRows;

/// Returns the first flaw found in all rows of a firm, or `None` exactly if they are those of a sound firm, each matter
/// complete. The flaw is there.
///
/// It looks only at the rows, whatever book they were read from. It checks that each matter is complete and sound, and
/// matters are sorted by number. Each movement must be of an entry or of the firm's own money, and each entry's
/// movements must be what it moved. A matter's movements must be in order of day, up to its last day, never sum to less
/// than zero, and add up to its ledger. The firm's own movements must be the lines of its ledger, which stays within
/// 0.00 to 500.00. Exceptions and balances must be sorted.
///
/// This takes one pass over all movements for each matter, and memory for a copy of one matter at a time. The only
/// error is out of memory.
pub fn audit(alloc: Global, rows: &AllRows) -> Result<Option<Flaw>, AllocError>
    ensures sound { IfOk result (λ found. found ≡ None ↔ AreSound rows.now) }
    ensures flaw { IfOk result (λ found. IfSome found (IsFlawIn rows.now)) }
{
    let found = matters_flaw(alloc, &rows.matters)?;
    if found.is_some() {
        return Ok(found);
    }
    let found = journal_flaw(alloc, &rows.matters, &rows.movements)?;
    if found.is_some() {
        return Ok(found);
    }
    let found = own_flaw(&rows.movements, &rows.firm_lines);
    if found.is_some() {
        return Ok(found);
    }
    Ok(order_flaw(&rows.exceptions, &rows.balances))
}
