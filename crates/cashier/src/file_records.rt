// The records of a statement's bytes, found in order.

use crate::file_line::line_of;
use csv::{ByteRecord, Reader, ReaderBuilder};
use std::alloc::{AllocError, Global};
use std::io::Read;

/// A record that was found in the bytes of a file.
#[derive(Clone, Copy)]
pub struct Found<'a> {
    /// The line on which it begins, from 1.
    pub line: u64,
    /// The rest of the bytes from there.
    pub rest: &'a [u8],
    /// The record.
    pub row: &'a ByteRecord,
}

/// The records of a statement, from its header on. They have to be asked for in order: the reader is never taken back
/// to the start.
pub struct FileRecords<R: Drop> {
    reader: Reader<R>,
    row: ByteRecord,
    // How many records were read, including the header.
    taken: u64,
}

impl<R: Drop> Drop for FileRecords<R> {
    fn drop(self) {
        let FileRecords {
            reader: _reader,
            row: _row,
            taken: _,
        } = self;
    }
}

impl<R: Read + Drop> FileRecords<R> {
    /// The records of what a reader gives, from the first.
    pub fn new(alloc: Global, reader: R) -> FileRecords<R> {
        let mut builder = ReaderBuilder::new();
        builder.has_headers(false).flexible(true);
        FileRecords {
            reader: builder.from_reader(alloc, reader),
            row: ByteRecord::new(alloc),
            taken: 0,
        }
    }

    /// Reads records up to the one with this number; the header has number 0. Whether that one exists, and is the last
    /// that was read. Fails if memory runs out or the reader fails; after that it finds no record.
    pub fn has_read(&mut self, number: u64) -> Result<bool, AllocError> {
        let end = number.saturating_add(1);
        for _ in self.taken..end {
            match self.reader.read_byte_record(&mut self.row) {
                Ok(true) => self.taken = self.taken.saturating_add(1),
                Ok(false) => return Ok(false),
                Err(_) => return Err(AllocError),
            }
        }
        Ok(self.taken == end)
    }

    /// The record that was read last.
    pub fn row(&self) -> &ByteRecord {
        &self.row
    }

    /// The record that was read last, in the bytes that the reader gave from its start. If there was no other one, this
    /// is the end of the bytes, and the record has no fields.
    pub fn found<'a>(&'a self, bytes: &'a [u8]) -> Found<'a> {
        let (line, rest) = line_of(bytes, &self.row);
        Found {
            line,
            rest,
            row: &self.row,
        }
    }
}
