// Remarks about a statement that is matched.

use crate::file_records::FileRecords;
use crate::file_telling::{remark_on_first, tell_of_records};
use cashier_remarks::{Remark, Remarks, UnmatchedLine};
use statement_match::{Matched, Unmatched};
use std::alloc::{AllocError, Global};
use trust_base::{Field, MAX_FILE_BYTES, Refusal};

// Reports each record that a match leaves, and how many there are of each kind.
fn tell_unmatched<M: Remarks>(remarks: &M, unmatched: &Unmatched) {
    for record in &unmatched.records {
        remarks.tell(&Remark::Unmatched(UnmatchedLine(record)));
    }
    remarks.tell(&Remark::MatchCounts {
        written: unmatched.written,
        booked: unmatched.booked,
        left: unmatched.records.len() as u64,
    });
}

/// Reports what in a matched statement has to be looked at, whether what was written is longer than an import takes,
/// and what only the bytes of its file show.
pub fn tell_matched<M: Remarks>(alloc: Global, remarks: &M, file: &[u8], matched: &Matched) {
    if !remarks.are_told() {
        return;
    }
    tell_unmatched(remarks, &matched.unmatched);
    if MAX_FILE_BYTES < matched.statement.len() {
        remarks.tell(&Remark::MatchedTooLong);
    }
    if tell_of_records(alloc, file, remarks, true).is_err() {
        remarks.tell(&Remark::LinesEnd);
    }
}

// Reports another header than that of a statement. Fails if memory runs out.
fn tell_header<M: Remarks>(alloc: Global, remarks: &M, file: &[u8]) -> Result<(), AllocError> {
    let mut records = FileRecords::new(alloc, file);
    let is_there = records.has_read(0)?;
    let found = records.found(file);
    remarks.tell(&Remark::Header(remark_on_first(found, is_there)));
    Ok(())
}

/// Reports why the statement of a file is not matched.
pub fn tell_not_matched<M: Remarks>(alloc: Global, remarks: &M, file: &[u8], refusal: &Refusal) {
    if matches!(*refusal, Refusal::TooLarge) {
        remarks.tell(&Remark::MatchTooLarge);
    }
    if matches!(*refusal, Refusal::BadField(Field::Header))
        && tell_header(alloc, remarks, file).is_err()
    {
        remarks.tell(&Remark::LinesEnd);
    }
}
