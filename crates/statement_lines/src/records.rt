// The records of a statement after its header.

ghost use Rattle.std.specs.Prelude.{◌≡◌, ◌<◌, IfOk, OnOk, fold, length, slice_index, slice_index_or};
ghost use Rattle.csv.specs.Records.{fields_of};
ghost use Rattle.statement_lines.specs.Records.{Rows, no_records, records_of, with_record};
ghost use Rattle.statement_lines.specs.RowsLeft.{HasLeft};

use crate::rows::{row_read, rows_after_header};
use crate::statement_line::StatementLine;
use csv::{ByteRecord, Reader};
use statement_csv::read_item;
use std::alloc::{AllocError, Global};
use std::marker::Model;

/// The records of a statement after its header.
///
/// Contracts see it as the lines, their numbers and the count of all records.
#[derive(Drop)]
pub struct Records {
    /// The records that are valid lines, in their order.
    pub lines: Vec<StatementLine>,
    /// The record numbers of these lines. The first of all records has number 1.
    pub numbers: Vec<u64>,
    /// How many records there are.
    pub count: u64,
}

impl Model for Records {
    ghost use Rattle.statement_lines.specs.Records.{Records};

    ghost Value = { Records };

    ghost view = { λ r. record { lines = r.lines.items; numbers = r.numbers.items; count = r.count } };
}

/// The number of the record at a place; 0 past the end.
pub fn number_at(numbers: &[u64], place: usize) -> u64
    ensures { result ≡ slice_index numbers.now place }
{
    if place < numbers.len() {
        numbers[place]
    } else {
        0
    }
}

/// How many lines a statement has.
pub fn line_count(records: &Records) -> usize
    ensures { result ≡ length records.now.lines }
{
    records.lines.len()
}

/// The line at a place.
pub fn line_at(records: &Records, place: usize) -> &StatementLine
    requires { place < length records.now.lines }
    ensures { result.now ≡ slice_index_or records.now.lines place result.now }
{
    &records.lines[place]
}

/// The number of the record of the line at a place.
pub fn number_of(records: &Records, place: usize) -> u64
    ensures { result ≡ slice_index records.now.numbers place }
{
    number_at(&records.numbers, place)
}

impl Records {
    fn new(alloc: Global) -> Records
        ensures { result ≡ no_records }
    {
        Records {
            lines: Vec::new(alloc),
            numbers: Vec::new(alloc),
            count: 0,
        }
    }

    // Adds the next record.
    fn add(&mut self, alloc: Global, row: &ByteRecord) -> Result<(), AllocError>
        ensures { OnOk result (self.new ≡ with_record self.old (fields_of row.now)) }
    {
        // Never overflows: a statement has fewer records than bytes.
        let Some(number) = self.count.checked_add(1) else {
            return Err(AllocError);
        };
        if let Some(line) = read_item(alloc, row, number)?.into_line() {
            self.lines.push(StatementLine::of(alloc, line)?)?;
            self.numbers.push(number)?;
        }
        self.count = number;
        Ok(())
    }

    // Adds the records that a reader has left.
    fn add_rows(&mut self, alloc: Global, rows: &mut Reader<&[u8]>) -> Result<(), AllocError>
        ensures { (left : Rows) → HasLeft rows.old left → OnOk result (self.new ≡ fold with_record self.old left) }
    {
        for row in rows.byte_records() {
            let row = row_read(row)?;
            self.add(alloc, &row)?;
        }
        Ok(())
    }
}

/// Reads the records of a statement's bytes. The first is taken as the header and skipped. The only error is out of
/// memory.
pub fn records_in(alloc: Global, statement: &[u8]) -> Result<Records, AllocError>
    ensures { IfOk result (λ found. found ≡ records_of statement.now) }
{
    let mut records = Records::new(alloc);
    let Some(mut rows) = rows_after_header(alloc, statement)? else {
        return Ok(records);
    };
    records.add_rows(alloc, &mut rows)?;
    Ok(records)
}
