// The statement that is written of records.

ghost use Rattle.std.specs.Prelude.{◌≡◌, ◌++◌, ◌∷◌, [], ℕ, List, IfOk, OnOk, Option, None, Some, if◌then◌else◌};
ghost use Rattle.std.specs.Prelude.{map, option_copied, slice_get};
ghost use Rattle.csv.specs.Records.{fields_of};
ghost use Rattle.trust_base.specs.declared.line.Line.{Line};
ghost use Rattle.statement_csv.specs.Headers.{header};
ghost use Rattle.statement_lines.specs.Records.{Rows, lines_from, numbers_from, records_of, rows_of};
ghost use Rattle.statement_lines.specs.RowsLeft.{Adds, HasLeft, Holds, outcome_if};
ghost use Rattle.statement_lines.specs.declared.line_outcome.LineOutcome.{LineOutcome};
ghost use Rattle.statement_lines.specs.Written.{named_row, row_as, rows_by, text_of};

use crate::line_outcome::LineOutcome;
use crate::records::Records;
use crate::rows::{row_read, rows_after_header};
use csv::{ByteRecord, Reader, Writer, WriterBuilder};
use statement_csv::field;
use std::alloc::{AllocError, Global};
use std::io::Write;
use trust_base::BankText;

// Writes a record with these fields.
fn write_fields<W: Write + Drop>(writer: &mut Writer<W>, fields: &[&[u8]]) -> Result<(), AllocError>
    ensures { OnOk result (Adds W.contents writer.old writer.new (map (λ field. field.now) fields.now ∷ [])) }
{
    // Writing to a vector can only fail by running out of memory.
    let Ok(()) = writer.write_fields(fields) else {
        return Err(AllocError);
    };
    Ok(())
}

// Writes a record unchanged.
fn write_same<W: Write + Drop>(writer: &mut Writer<W>, row: &ByteRecord) -> Result<(), AllocError>
    ensures { OnOk result (Adds W.contents writer.old writer.new (fields_of row.now ∷ [])) }
{
    let Ok(()) = writer.write_byte_record(row) else {
        return Err(AllocError);
    };
    Ok(())
}

// Writes the record of a line with this reference.
fn write_named<W: Write + Drop>(
    writer: &mut Writer<W>,
    row: &ByteRecord,
    reference: &BankText,
) -> Result<(), AllocError>
    ensures { OnOk result (Adds W.contents writer.old writer.new (named_row reference.now (fields_of row.now) ∷ [])) }
{
    let fields = [
        field(row, 0),
        reference.as_slice(),
        field(row, 2),
        field(row, 3),
        field(row, 4),
    ];
    write_fields(writer, &fields)
}

// Writes the record of a line according to its outcome, which may be nothing.
fn write_line<W: Write + Drop>(
    writer: &mut Writer<W>,
    row: &ByteRecord,
    outcome: &LineOutcome,
) -> Result<(), AllocError>
    ensures { OnOk result (Adds W.contents writer.old writer.new (row_as (fields_of row.now) (Some outcome.now))) }
{
    match outcome {
        LineOutcome::AsItIs => write_same(writer, row),
        LineOutcome::Filled(reference) => write_named(writer, row, reference),
        LineOutcome::InBook | LineOutcome::Doubled | LineOutcome::Left => Ok(()),
    }
}

// Writes any record. One that is not a line is unchanged.
fn write_row<W: Write + Drop>(
    writer: &mut Writer<W>,
    row: &ByteRecord,
    outcome: Option<&LineOutcome>,
) -> Result<(), AllocError>
    ensures { OnOk result
        (Adds W.contents writer.old writer.new (row_as (fields_of row.now) (option_copied outcome.entry))) }
{
    match outcome {
        Some(outcome) => write_line(writer, row, outcome),
        None => write_same(writer, row),
    }
}

// Returns the outcome for the record with this number, if it is a line. `place` is that of the next line, in both
// lists.
fn outcome_at<'a>(
    numbers: &[u64],
    outcomes: &'a [LineOutcome],
    place: usize,
    number: u64,
) -> Option<&'a LineOutcome>
    ensures { option_copied result ≡ outcome_if (slice_get numbers.now place) number (slice_get outcomes.now place) }
{
    match numbers.get(place) {
        Some(line) if *line == number => outcomes.get(place),
        _ => None,
    }
}

// Writes the records that a reader has left, according to the numbers of their lines and the outcomes of these.
fn write_left<W: Write + Drop>(
    writer: &mut Writer<W>,
    rows: &mut Reader<&[u8]>,
    numbers: &[u64],
    outcomes: &[LineOutcome],
) -> Result<(), AllocError>
    ensures { (outcome_of : Line → LineOutcome) (left : Rows) → HasLeft rows.old left
        → numbers.now ≡ numbers_from 1 left → outcomes.now ≡ map outcome_of (lines_from 1 left)
        → OnOk result (Adds W.contents writer.old writer.new (rows_by outcome_of 1 left)) }
{
    let mut number = 0u64;
    let mut place = 0;
    for row in rows.byte_records() {
        let row = row_read(row)?;
        // Never overflows: a statement has fewer records than bytes.
        let Some(next) = number.checked_add(1) else {
            return Err(AllocError);
        };
        number = next;
        let outcome = outcome_at(numbers, outcomes, place, number);
        write_row(writer, &row, outcome)?;
        if outcome.is_some() {
            place += 1;
        }
    }
    Ok(())
}

// Writes a statement's records after the header, according to the numbers of its lines and their outcomes.
fn write_rows<W: Write + Drop>(
    alloc: Global,
    writer: &mut Writer<W>,
    statement: &[u8],
    numbers: &[u64],
    outcomes: &[LineOutcome],
) -> Result<(), AllocError>
    ensures { (outcome_of : Line → LineOutcome) → numbers.now ≡ numbers_from 1 (rows_of statement.now)
        → outcomes.now ≡ map outcome_of (lines_from 1 (rows_of statement.now))
        → OnOk result (Adds W.contents writer.old writer.new (rows_by outcome_of 1 (rows_of statement.now))) }
{
    let Some(mut rows) = rows_after_header(alloc, statement)? else {
        return Ok(());
    };
    write_left(writer, &mut rows, numbers, outcomes)
}

// Writes the header of a statement.
fn write_header<W: Write + Drop>(writer: &mut Writer<W>) -> Result<(), AllocError>
    ensures { OnOk result (Adds W.contents writer.old writer.new (header ∷ [])) }
{
    let names = [
        b"date".as_slice(),
        b"reference".as_slice(),
        b"bank_ref".as_slice(),
        b"amount".as_slice(),
        b"text".as_slice(),
    ];
    write_fields(writer, &names)
}

// Returns a writer into memory, for records of any length.
fn new_writer(alloc: Global) -> Writer<Vec<u8>>
    ensures { Holds (λ bytes. Some bytes.items) result [] }
{
    WriterBuilder::new()
        .flexible(true)
        .from_writer(Vec::new(alloc))
}

// Returns the text that a writer has written.
fn text_in(writer: Writer<Vec<u8>>) -> Result<Vec<u8>, AllocError>
    ensures { (text : List ℕ) → Holds (λ bytes. Some bytes.items) writer text
        → IfOk result (λ found. found.items ≡ text) }
{
    let Ok(text) = writer.into_inner() else {
        return Err(AllocError);
    };
    Ok(text)
}

/// Returns the statement for the import: the header, and the records in their order. Each line has an outcome. A record
/// with a reference, and one that is not a line, is written unchanged. One without a reference is written only if it is
/// filled, and then with that reference. A line feed ends each record. The only error is out of memory.
pub fn write_statement(
    alloc: Global,
    statement: &[u8],
    records: &Records,
    outcomes: &[LineOutcome],
) -> Result<Vec<u8>, AllocError>
    requires { records.now ≡ records_of statement.now }
    ensures { (outcome_of : Line → LineOutcome) → outcomes.now ≡ map outcome_of records.now.lines
        → IfOk result (λ text. text.items ≡ text_of (header ∷ rows_by outcome_of 1 (rows_of statement.now))) }
{
    let mut writer = new_writer(alloc);
    write_header(&mut writer)?;
    write_rows(alloc, &mut writer, statement, &records.numbers, outcomes)?;
    text_in(writer)
}
