// Imports a bank's statement.

ghost use Rattle.std.specs.Prelude.{◌≡◌, ◌≢◌, ◌⊎◌};
ghost use Rattle.std.specs.Io.KnownBytes.{Appends};
ghost use Rattle.trust_base.specs.declared.refusal.Refusal.TheVariants as refusals;
ghost use Rattle.trust_desk.specs.Answered.{IfServed};
ghost use Rattle.trust_desk.specs.Calls.{KeepsBook};
ghost use Rattle.portal_http.specs.Output.{output_of};
ghost use Rattle.cashier.specs.Calls.{CountsStore, IfSure};
ghost use Rattle.cashier.specs.Crashes.{LeavesFirst};
ghost use Rattle.cashier.specs.Sheet.{refusal_line};
ghost use Rattle.cashier.specs.Statement as spec;
ghost use Rattle.cashier.specs.Report.{refused_outcome};
ghost use Rattle.cashier.specs.Statement.{Answers, EndsByNoFault, Sent, StatementEnds, counts_line};

use crate::outcome::{Outcome, outcome_of_refusal, write_answer_line, write_refusal};
use std::alloc::Global;
use std::io::{Read, Write};
use trust_base::{Day, MAX_FILE_BYTES, Refusal};
use trust_desk::{Desk, ImportEnd, ImportReply, ImportStop, ItemWatch, import_body};
use trust_store::Book;

/// Whether a length in bytes is reported and is above the size limit of a file.
pub fn is_told_longer(length: Option<u64>) -> bool
    ensures { result ≡ spec.is_told_longer length }
{
    match length {
        Some(bytes) => bytes > MAX_FILE_BYTES as u64,
        None => false,
    }
}

// Writes the line of a refusal, which ends the run.
fn refuse<W: Write>(writer: &mut W, refusal: &Refusal) -> Outcome
    ensures { Sent (refusal_line refusal.now) (refused_outcome refusal.now) (output_of W.contents writer.old writer.new)
        result }
{
    let Ok(()) = write_refusal(writer, refusal) else {
        return Outcome::OutputFault;
    };
    outcome_of_refusal(refusal)
}

/// Imports a bank's statement over a desk on a business day, and writes one line: the counts of its items, or its
/// refusal. `length` is the length in bytes that the statement reports before it is read.
///
/// A statement that reports a length above 4,194,304 bytes is refused, and nothing of it is applied. One that reports
/// no length is read until it exceeds the limit; the items before that then stay applied, as they do after any fault.
///
/// The outcome is `Done` if every item was handled and the counts were written. It is `Refused` if the statement has
/// another header or is too large, and the line for that was written. If the store failed or memory ran out, the line
/// for that was written, and it is `StoreFault` or `MemoryFault`. If a read failed, it is `FileFault`, and nothing was
/// written. If a write failed, it is `OutputFault`, and only a part of the line was written.
///
/// `watch` is told about each item that is not applied, and about the end. The contract does not say what it is told.
pub fn run_import<R: Read + Drop, W: Write, B: Book, V: ItemWatch>(
    alloc: Global,
    reader: R,
    length: Option<u64>,
    writer: &mut W,
    desk: &mut Desk<B>,
    today: Day,
    watch: &V,
) -> Outcome
    ensures began { result ≢ Outcome.CommandLine }
    ensures ends { IfServed (B.seen desk.old) (B.seen desk.new)
        (StatementEnds today length (R.remaining reader) (output_of W.contents writer.old writer.new) result) }

    // It ends with `StoreFault` only if a call of the book returned `Store`.
    ensures kept { KeepsBook (CountsStore Outcome.StoreFault result) (B.seen desk.old) (B.seen desk.new) }

    // A crash may leave what it might have left before, or the rows after some first items. A settled book is still
    // settled, unless the store or memory ended the import. The line is written after that.
    ensures crash { IfSure (B.seen desk.old) (B.seen desk.new)
        (LeavesFirst today (R.remaining reader) result (B.seen desk.old) (B.seen desk.new)) }
{
    if is_told_longer(length) {
        watch.ended(0, &ImportStop::Limit);
        return refuse(writer, &Refusal::TooLarge);
    }
    let ran = desk.import(alloc, reader, today, watch);
    match &ran.end {
        ImportStop::Done => {
            let Ok(body) = import_body(alloc, &ran.reply) else {
                return refuse(writer, &Refusal::Memory);
            };
            let Ok(()) = write_answer_line(writer, 200, body.as_slice()) else {
                return Outcome::OutputFault;
            };
            Outcome::Done
        }
        ImportStop::Refused(refusal) => refuse(writer, refusal),
        ImportStop::Limit => refuse(writer, &Refusal::TooLarge),
        ImportStop::ReadFault => Outcome::FileFault,
    }
}
