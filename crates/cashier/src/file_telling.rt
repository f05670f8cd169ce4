// Remarks about what only the bytes of a statement show.

use crate::file_records::{FileRecords, Found};
use crate::sighting::{EMPTY_MARK, Seen, Sighting, marked};
use cashier_remarks::{
    FileRemark, HeaderRemark, Remark, Remarks, has_open_quote, remark_on_header,
};
use csv::ByteRecord;
use day_sheet::field_bytes;
use std::alloc::{AllocError, Global};
use trust_base::{BankAmount, Day};

/// Makes the remark about the first record of a statement, which is no header, if it is there.
pub fn remark_on_first(found: Found<'_>, is_there: bool) -> HeaderRemark<'_> {
    if is_there {
        remark_on_header(found.line, found.rest, found.row)
    } else {
        HeaderRemark::Empty
    }
}

// Makes the marks of a record.
fn sighting_of(line: u64, row: &ByteRecord) -> Sighting {
    let day = marked(EMPTY_MARK, field_bytes(row, 0));
    Sighting {
        line,
        name: marked(EMPTY_MARK, field_bytes(row, 1)),
        mark: marked(marked(day, field_bytes(row, 2)), field_bytes(row, 3)),
    }
}

// How many line ends the bytes contain.
fn line_ends_in(bytes: &[u8]) -> u64 {
    let mut count = 0u64;
    for byte in bytes {
        if *byte == b'\n' {
            count = count.saturating_add(1);
        }
    }
    count
}

// How many line ends a record contains.
fn line_ends_of(row: &ByteRecord) -> u64 {
    let mut count = 0u64;
    for place in 0..row.len() {
        count = count.saturating_add(line_ends_in(field_bytes(row, place)));
    }
    count
}

// Reports a record that continues after its line.
fn tell_of_ends<M: Remarks>(found: &Found<'_>, remarks: &M, is_match: bool) {
    let ends = line_ends_of(found.row);
    if ends > 0 && (is_match || !has_open_quote(found.row)) {
        remarks.tell(&Remark::OfFile {
            line: found.line,
            told: FileRemark::GoesOn {
                last: found.line.saturating_add(ends),
            },
        });
    }
}

// Whether a reference may name an entry, or the firm's own money.
fn is_naming(reference: &[u8]) -> bool {
    reference.starts_with(b"M") || reference.starts_with(b"FIRM")
}

// Reports a line that repeats one before it, or has another reference than it.
fn tell_of_same<M: Remarks>(found: &Found<'_>, remarks: &M, seen: &mut Seen) {
    let row = found.row;
    if row.len() != 5
        || !is_naming(field_bytes(row, 1))
        || field_bytes(row, 2).is_empty()
        || Day::read(field_bytes(row, 0)).is_none()
    {
        return;
    }
    let sighting = sighting_of(found.line, row);
    if let Some(before) = seen.same(&sighting) {
        let line = before.line;
        let told = if before.name == sighting.name {
            FileRemark::Again { before: line }
        } else {
            FileRemark::Twice { before: line }
        };
        remarks.tell(&Remark::OfFile {
            line: found.line,
            told,
        });
    }
    seen.take(sighting);
}

// Reports a closing balance below zero: a trust account is never overdrawn.
fn tell_of_closing<M: Remarks>(found: &Found<'_>, remarks: &M) {
    let row = found.row;
    if row.len() != 5
        || field_bytes(row, 1) != b"CLOSE".as_slice()
        || Day::read(field_bytes(row, 0)).is_none()
    {
        return;
    }
    let Some(amount) = BankAmount::read(field_bytes(row, 3)) else {
        return;
    };
    if amount.get() < 0 {
        remarks.tell(&Remark::OfFile {
            line: found.line,
            told: FileRemark::Overdrawn { amount },
        });
    }
}

/// Reports what only the bytes of a statement show about its records: which continue after their lines, which have the
/// same day, bank reference and amount as one of the 64 before them, and which close it below zero. In a match no other
/// remark names a record that continues. Fails if memory runs out.
pub fn tell_of_records<M: Remarks>(
    alloc: Global,
    bytes: &[u8],
    remarks: &M,
    is_match: bool,
) -> Result<(), AllocError> {
    let mut records = FileRecords::new(alloc, bytes);
    let mut seen = Seen::new();
    for number in 1..u64::MAX {
        if !records.has_read(number)? {
            return Ok(());
        }
        let found = records.found(bytes);
        tell_of_ends(&found, remarks, is_match);
        tell_of_same(&found, remarks, &mut seen);
        tell_of_closing(&found, remarks);
    }
    Ok(())
}
