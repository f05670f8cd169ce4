// Matches a bank's file against the book.

ghost use Rattle.std.specs.Prelude.{◌≡◌, ◌≢◌, Err, IfSome, Some};
ghost use Rattle.trust_base.specs.declared.refusal.Refusal.TheVariants as refusals;
ghost use Rattle.trust_desk.specs.Answered.{IfServed};
ghost use Rattle.trust_desk.specs.Calls.{KeepsBook};
ghost use Rattle.portal_http.specs.Output.{output_of};
ghost use Rattle.cashier.specs.Calls.{CountsStore, IfSure, LeavesSame};
ghost use Rattle.cashier.specs.Matching.{IsFound, MatchEnds, PrintsFound};
ghost use Rattle.cashier.specs.Outcome.{MatchFileEnds};

use crate::folder::{Folder, Opened};
use crate::match_telling::{tell_matched, tell_not_matched};
use crate::outcome::{Outcome, outcome_of_refusal, write_refusal};
use crate::statement::is_told_longer;
use cashier_remarks::Remarks;
use std::alloc::Global;
use std::io::{Read, Write};
use trust_base::{Day, InputFault, MAX_FILE_BYTES, Refusal, read_whole, send};
use trust_desk::{Desk, Matched};
use trust_matter::Caller;
use trust_store::Book;

// Matches the statement in a file for the cashier, or returns why not. `None` if a read failed. The book is not read if
// the file is above 4,194,304 bytes. The bytes that were matched are kept in `bytes`, for the remarks.
fn found_in<R: Read + Drop, B: Book>(
    alloc: Global,
    file: Opened<R>,
    bytes: &mut Vec<u8>,
    desk: &mut Desk<B>,
    today: Day,
) -> Option<Result<Matched, Refusal>>
    ensures found { (B.seen desk.new).clean → (B.seen desk.old).stands
        → IfSome result (IsFound today (B.seen desk.old).firm file.length (R.remaining file.reader)) }
    ensures same { (B.seen desk.new).clean → (B.seen desk.old).stands
        → (B.seen desk.new).firm ≡ (B.seen desk.old).firm }
    ensures kept { KeepsBook (CountsStore (Some (Err refusals.Store)) result) (B.seen desk.old)
        (B.seen desk.new) }
    ensures crash { IfSure (B.seen desk.old) (B.seen desk.new)
        (LeavesSame (B.seen desk.old) (B.seen desk.new)) }
{
    let Opened { mut reader, length } = file;
    if is_told_longer(length) {
        return Some(Err(Refusal::TooLarge));
    }
    match read_whole(alloc, &mut reader, MAX_FILE_BYTES) {
        Ok(Some(read)) => {
            let found = desk.match_statement(alloc, &Caller::Cashier, read.as_slice(), today);
            *bytes = read;
            Some(found)
        }
        Ok(None) => Some(Err(Refusal::TooLarge)),
        Err(InputFault::Reader) => None,
        Err(InputFault::Memory) => Some(Err(Refusal::Memory)),
    }
}

// Prints the matched statement, and reports to a person what in it has to be looked at; or prints the line of its
// refusal, and reports why.
fn print_found<W: Write, M: Remarks>(
    alloc: Global,
    bytes: &[u8],
    remarks: &M,
    writer: &mut W,
    found: &Result<Matched, Refusal>,
) -> Outcome
    ensures began { result ≢ Outcome.CommandLine }
    ensures prints { PrintsFound found.now (output_of W.contents writer.old writer.new) result }
    ensures store { result ≡ Outcome.StoreFault → found.now ≡ Err refusals.Store }
{
    match found {
        Ok(matched) => {
            let Ok(()) = send(writer, matched.statement.as_slice()) else {
                return Outcome::OutputFault;
            };
            tell_matched(alloc, remarks, bytes, matched);
            if matched.is_left() {
                Outcome::Refused
            } else {
                Outcome::Done
            }
        }
        Err(refusal) => {
            let Ok(()) = write_refusal(writer, refusal) else {
                return Outcome::OutputFault;
            };
            tell_not_matched(alloc, remarks, bytes, refusal);
            outcome_of_refusal(refusal)
        }
    }
}

// Matches the statement in a file, and prints the result.
fn match_in<R: Read + Drop, M: Remarks, W: Write, B: Book>(
    alloc: Global,
    file: Opened<R>,
    today: Day,
    remarks: &M,
    desk: &mut Desk<B>,
    writer: &mut W,
) -> Outcome
    ensures began { result ≢ Outcome.CommandLine }
    ensures ends { IfServed (B.seen desk.old) (B.seen desk.new)
        (MatchEnds today file.length (R.remaining file.reader) (output_of W.contents writer.old writer.new) result) }
    ensures kept { KeepsBook (CountsStore Outcome.StoreFault result) (B.seen desk.old) (B.seen desk.new) }
    ensures crash { IfSure (B.seen desk.old) (B.seen desk.new)
        (LeavesSame (B.seen desk.old) (B.seen desk.new)) }
{
    let mut bytes = Vec::new(alloc);
    match found_in(alloc, file, &mut bytes, desk, today) {
        Some(found) => print_found(alloc, bytes.as_slice(), remarks, writer, &found),
        None => Outcome::FileFault,
    }
}

/// Matches the bank's statement at a path, whose references may be empty, against a desk's book on a business day.
/// Prints the statement for the import, and reports to a person, line by line, what in it has to be looked at; the
/// contract does not say what is reported. Or prints the line of its refusal. The book is unchanged.
///
/// The outcome is `Done` if no record has to be looked at. It is `Refused` if one has, or if the line of a refusal was
/// written, for another header or more than 4,194,304 bytes. If the store failed or memory ran out, the line for that
/// was printed, and it is `StoreFault` or `MemoryFault`. If the file can't be opened or a read failed, it is
/// `FileFault`, and nothing was printed. If a write failed, it is `OutputFault`, and only a prefix of the text or line
/// was printed.
pub fn run_match<F: Folder, M: Remarks, W: Write, B: Book>(
    alloc: Global,
    folder: &F,
    path: &str,
    remarks: &M,
    writer: &mut W,
    desk: &mut Desk<B>,
    today: Day,
) -> Outcome
    ensures began { result ≢ Outcome.CommandLine }
    ensures ends { IfServed (B.seen desk.old) (B.seen desk.new)
        (MatchFileEnds today (F.files folder.now path.now) (output_of W.contents writer.old writer.new) result) }

    // It ends with `StoreFault` only if a call of the book returned `Store`.
    ensures kept { KeepsBook (CountsStore Outcome.StoreFault result) (B.seen desk.old) (B.seen desk.new) }
    ensures crash { IfSure (B.seen desk.old) (B.seen desk.new)
        (LeavesSame (B.seen desk.old) (B.seen desk.new)) }
{
    let Some(file) = folder.open(path) else {
        return Outcome::FileFault;
    };
    match_in(alloc, file, today, remarks, desk, writer)
}
