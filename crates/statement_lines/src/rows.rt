// Reads the records of a statement after its header, one at a time.

ghost use Rattle.std.specs.Prelude.{◌≡◌, IfOk, Ok};
ghost use Rattle.statement_lines.specs.Records.{rows_of};
ghost use Rattle.statement_lines.specs.RowsLeft.{GivesRows};

use csv::{ByteRecord, Error, Reader, ReaderBuilder};
use std::alloc::{AllocError, Global};

/// Returns the record that was read. Reading from memory can only fail by running out of memory.
pub(crate) fn row_read(row: Result<ByteRecord, Error>) -> Result<ByteRecord, AllocError>
    ensures { IfOk result (λ found. row ≡ Ok found) }
{
    match row {
        Ok(found) => Ok(found),
        Err(_) => Err(AllocError),
    }
}

/// Returns a reader of the records after the first, which it skips; `None` if there is no first record. The only error
/// is out of memory.
pub(crate) fn rows_after_header<'a>(
    alloc: Global,
    statement: &'a [u8],
) -> Result<Option<Reader<&'a [u8]>>, AllocError>
    ensures { IfOk result (λ found. GivesRows found (rows_of statement.now)) }
{
    let mut reader = ReaderBuilder::new()
        .has_headers(false)
        .flexible(true)
        .from_reader(alloc, statement);
    let mut header = ByteRecord::new(alloc);
    let Ok(found) = reader.read_byte_record(&mut header) else {
        return Err(AllocError);
    };
    if !found {
        return Ok(None);
    }
    Ok(Some(reader))
}
