// The lines of a file.

use csv::ByteRecord;

/// Returns the line of a file on which a record begins, from 1, and the rest of the file from there. Empty lines before
/// the record are skipped.
pub fn line_of<'a>(file: &'a [u8], row: &ByteRecord) -> (u64, &'a [u8]) {
    let Some(position) = row.position() else {
        return (1, file);
    };
    let mut line = position.line();
    let rest = file.get(position.byte() as usize..).unwrap_or(&[]);
    let mut empty = 0usize;
    for byte in rest {
        match *byte {
            b'\n' => line = line.saturating_add(1),
            b'\r' => (),
            _ => break,
        }
        empty = empty.saturating_add(1);
    }
    (line, rest.get(empty..).unwrap_or(&[]))
}
