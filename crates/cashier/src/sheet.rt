// Runs a day sheet.

ghost use Rattle.std.specs.Prelude.{◌≡◌, ◌≢◌, IfErr, IsOk, []};
ghost use Rattle.std.specs.Io.KnownBytes.{Appends};
ghost use Rattle.csv.specs.Records.{fields_of};
ghost use Rattle.firm_rows.specs.Firm.{Firm};
ghost use Rattle.trust_desk.specs.Answered.{IfServed};
ghost use Rattle.trust_desk.specs.Calls.{KeepsBook};
ghost use Rattle.portal_http.specs.Output.{output_of};
ghost use Rattle.desk_trail.specs.KeptTrails.{KeepsTrail};
ghost use Rattle.cashier.specs.Calls.{CountsStore, IfSure, LeavesTrail};
ghost use Rattle.cashier.specs.Sheet.{IsCounted, LargeEnds, LinesAreKept, RecordEnds, RunEnds, SheetEnds, SheetIsKept};
ghost use Rattle.cashier.specs.Sheet.{TellsLine, end_of, ran_by, sheet_records};
ghost use Rattle.day_sheet.specs.Records.{heard_of};
ghost use Rattle.trust_desk.specs.Crashes.{IsMade, MayLeave};

use crate::outcome::{write_refusal, write_reply};
use crate::sheet_telling::SheetTelling;
use cashier_remarks::{Remark, Remarks};
use csv::{ByteRecord, ReaderBuilder};
use day_sheet::answer_record;
use std::alloc::Global;
use std::io::{Read, Write};
use trust_base::{Day, InputFault, MAX_FILE_BYTES, Refusal, read_whole};
use trust_desk::{Body, Desk, Reply};
use trust_store::Book;

/// How a sheet ended.
#[derive(Clone, Copy)]
pub enum SheetEnd {
    /// Every record was accepted.
    Done,
    /// A record was refused, or the whole sheet was too large.
    Refused,
    /// A read failed. No record was run, and nothing was written.
    ReadFault,
    /// A write failed. Only a part of the lines was written. The changes of the record whose line was cut off stay.
    WriteFault,
    /// The reply to a record was `Store`. Its line was written, and no later record was run.
    Store,
    /// Memory ran out. The lines of the first records were written, each complete, and the line of the record whose
    /// reply was `Memory`, if there was one.
    NoMemory,
}

// How a run continues after the line of a record with this reply was written: whether the record was accepted, or the
// end of the run.
fn ran_of(reply: &Reply) -> Result<bool, SheetEnd>
    ensures is { result ≡ ran_by reply.now.body }
    ensures read { IfErr result (λ end. end ≢ SheetEnd.ReadFault) }
{
    match &reply.body {
        Body::Json(_) | Body::Text(_) => Ok(true),
        Body::Refused(Refusal::Store) => Err(SheetEnd::Store),
        Body::Refused(Refusal::Memory) => Err(SheetEnd::NoMemory),
        Body::Refused(_) => Ok(false),
    }
}

// Runs one record and writes its line. Returns whether it was accepted, or the end of the run.
fn run_record<W: Write, B: Book, M: Remarks>(
    alloc: Global,
    row: &ByteRecord,
    telling: &SheetTelling<'_, M>,
    writer: &mut W,
    desk: &mut Desk<B>,
    day: Day,
) -> Result<bool, SheetEnd>
    ensures ends { (B.seen desk.new).clean → (B.seen desk.old).stands
        → RecordEnds day (B.seen desk.old).firm (fields_of row.now) (B.seen desk.new).firm (W.contents writer.old)
        (W.contents writer.new) result }
    ensures read { IfErr result (λ end. end ≢ SheetEnd.ReadFault) }
    ensures kept { KeepsBook (IsCounted result) (B.seen desk.old) (B.seen desk.new) }
    ensures told { IfSure (B.seen desk.old) (B.seen desk.new) (TellsLine day (B.seen desk.old).firm
        (fields_of row.now) (W.contents writer.old) (W.contents writer.new) result) }
    ensures crash { IfSure (B.seen desk.old) (B.seen desk.new) (MayLeave (IsOk result)
        (IsMade day (B.seen desk.old).firm (heard_of (fields_of row.now)))
        (B.seen desk.old).firm (B.seen desk.new).firm (B.seen desk.old) (B.seen desk.new)) }
    ensures trail { IfServed (B.seen desk.old) (B.seen desk.new) KeepsTrail }
    ensures left { IfSure (B.seen desk.old) (B.seen desk.new) (LeavesTrail (B.seen desk.old) (B.seen desk.new)) }
{
    let reply = answer_record(alloc, row, desk, day);
    let Ok(()) = write_reply(writer, &reply) else {
        return Err(SheetEnd::WriteFault);
    };
    telling.tell(row, &reply);
    ran_of(&reply)
}

// How a sheet ends after all records were run, depending on whether one was refused.
fn end_of_all(refused: bool) -> SheetEnd
    ensures { result ≡ end_of refused }
{
    if refused {
        SheetEnd::Refused
    } else {
        SheetEnd::Done
    }
}

// Runs the records of a sheet.
fn run_records<W: Write, B: Book, M: Remarks>(
    alloc: Global,
    bytes: &[u8],
    remarks: &M,
    writer: &mut W,
    desk: &mut Desk<B>,
    day: Day,
) -> SheetEnd
    ensures ends { (B.seen desk.new).clean → (B.seen desk.old).stands
        → RunEnds day (B.seen desk.old).firm (sheet_records bytes.now) (B.seen desk.new).firm
        (W.contents writer.old) (W.contents writer.new) result }
    ensures read { result ≢ SheetEnd.ReadFault }
    ensures kept { KeepsBook (CountsStore SheetEnd.Store result) (B.seen desk.old) (B.seen desk.new) }
    ensures crash { IfSure (B.seen desk.old) (B.seen desk.new)
        (LinesAreKept day (sheet_records bytes.now) (output_of W.contents writer.old writer.new) result
        (B.seen desk.old) (B.seen desk.new)) }
    ensures trail { IfServed (B.seen desk.old) (B.seen desk.new) KeepsTrail }
    ensures left { IfSure (B.seen desk.old) (B.seen desk.new) (LeavesTrail (B.seen desk.old) (B.seen desk.new)) }
{
    let telling = SheetTelling::new(bytes, remarks);
    let mut refused = false;
    let reader = ReaderBuilder::new()
        .has_headers(false)
        .flexible(true)
        .from_reader(alloc, bytes);
    for row in reader.into_byte_records() {
        let Ok(row) = row else {
            return SheetEnd::NoMemory;
        };
        match run_record(alloc, &row, &telling, writer, desk, day) {
            Ok(accepted) => refused |= !accepted,
            Err(end) => return end,
        }
    }
    end_of_all(refused)
}

// Answers a sheet above the size limit.
fn refuse_whole<W: Write, M: Remarks>(remarks: &M, writer: &mut W) -> SheetEnd
    ensures ends { (firm : Firm) → LargeEnds firm firm (W.contents writer.old) (W.contents writer.new) result }
    ensures read { result ≢ SheetEnd.ReadFault }
    ensures stored { result ≢ SheetEnd.Store }
{
    let Ok(()) = write_refusal(writer, &Refusal::TooLarge) else {
        return SheetEnd::WriteFault;
    };
    remarks.tell(&Remark::SheetTooLarge);
    SheetEnd::Refused
}

/// Runs a day sheet over a desk on a business day: reads it whole, and writes a line for each of its records, which are
/// run as the cashier. Makes a remark about each that is not accepted; the contract does not say what it is.
///
/// Of a sheet above 4,194,304 bytes no record is run; one line is written. The output depends only on the sheet's
/// bytes, the firm's rows before and the day, however the reads and writes are split.
///
/// The following runs the records of a reader and writes their lines to a writer, with nobody told about refused ones.
/// If the reader has `open,000001,,Ada Chen,lee` twice, the second line is 409, because the matter is then open:
///
///     let end = run_sheet(alloc, &mut sheet, &NoRemarks, &mut lines, &mut desk, today);    // SheetEnd::Refused
pub fn run_sheet<R: Read, W: Write, B: Book, M: Remarks>(
    alloc: Global,
    reader: &mut R,
    remarks: &M,
    writer: &mut W,
    desk: &mut Desk<B>,
    day: Day,
) -> SheetEnd
    ensures ends { IfServed (B.seen desk.old) (B.seen desk.new)
        (SheetEnds day (R.remaining reader.old) (output_of W.contents writer.old writer.new) result) }
    ensures unread { result ≡ SheetEnd.ReadFault
        → Appends (W.contents writer.old) (W.contents writer.new) [] × (desk.new ≡ desk.old) }

    // It ends with `Store` only if a call of the book returned `Store`.
    ensures kept { KeepsBook (CountsStore SheetEnd.Store result) (B.seen desk.old) (B.seen desk.new) }

    // Each line that was written as accepted is of a record that a crash leaves done, however the sheet ended. A line
    // is written only after its change is settled.
    ensures crash { IfSure (B.seen desk.old) (B.seen desk.new)
        (SheetIsKept day (R.remaining reader.old) (output_of W.contents writer.old writer.new) result
        (B.seen desk.old) (B.seen desk.new)) }

    // The trail is kept, by the run and in what a crash leaves of it, whatever the sheet's bytes are.
    ensures trail { IfServed (B.seen desk.old) (B.seen desk.new) KeepsTrail }
    ensures left { IfSure (B.seen desk.old) (B.seen desk.new) (LeavesTrail (B.seen desk.old) (B.seen desk.new)) }
{
    match read_whole(alloc, reader, MAX_FILE_BYTES) {
        Ok(Some(bytes)) => run_records(alloc, bytes.as_slice(), remarks, writer, desk, day),
        Ok(None) => refuse_whole(remarks, writer),
        Err(InputFault::Reader) => SheetEnd::ReadFault,
        Err(InputFault::Memory) => SheetEnd::NoMemory,
    }
}
