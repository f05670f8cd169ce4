// How a run of the program ends, and the lines of replies, which say how what was asked ended.

ghost use Rattle.std.specs.Prelude.{◌≡◌, ℕ, ◌<◌, length, take, OnOk, OnErr};
ghost use Rattle.std.specs.Io.KnownBytes.{Appends};
ghost use Rattle.std.specs.Process.{exit_status as process_status};
ghost use Rattle.cashier.specs.Report.{refused_outcome, reply_outcome};
ghost use Rattle.cashier.specs.Serving.{serving_outcome};
ghost use Rattle.cashier.specs.Outcome.{exit_status, put_outcome, store_outcome};
ghost use Rattle.cashier.specs.Outcome.{sheet_outcome, stream_outcome, words_outcome};
ghost use Rattle.cashier.specs.Sheet.{line_of, refusal_line, reply_line};

use crate::sheet::SheetEnd;
use itoa::Buffer;
use portal_http::{ServeEnd, StreamEnd};
use std::io::{ErrorKind, Write};
use std::process::ExitCode;
use trust_base::{Refusal, StoreFault, WriteFault, send};
use trust_desk::{Body, Reply};

/// How a run of the program ended.
#[derive(Clone, Copy, PartialEq, Eq, Debug)]
pub enum Outcome {
    /// Everything was done.
    Done,
    /// Something was refused.
    Refused,
    /// The command line is invalid.
    CommandLine,
    /// A file could not be opened, or a read of it or of standard input failed.
    FileFault,
    /// A write to standard output failed.
    OutputFault,
    /// The book could not be opened or put back, or the store refused a call.
    StoreFault,
    /// Memory ran out.
    MemoryFault,
    /// A port was not available, or an accept was refused.
    NetworkFault,
}

/// The exit status, as `main` returns it: 0 for done, 1 for something refused, 2 for the command line, 3 for a fault.
pub fn exit_of(outcome: Outcome) -> ExitCode
    ensures { process_status result ≡ exit_status outcome }
{
    match outcome {
        Outcome::Done => ExitCode::from(0),
        Outcome::Refused => ExitCode::from(1),
        Outcome::CommandLine => ExitCode::from(2),
        Outcome::FileFault
        | Outcome::OutputFault
        | Outcome::StoreFault
        | Outcome::MemoryFault
        | Outcome::NetworkFault => ExitCode::from(3),
    }
}

/// The outcome of a run whose words could not be read: out of memory, or a word that is not text.
pub fn outcome_of_words(kind: ErrorKind) -> Outcome
    ensures { result ≡ words_outcome kind }
{
    match kind {
        ErrorKind::OutOfMemory => Outcome::MemoryFault,
        _ => Outcome::CommandLine,
    }
}

/// The outcome of a run whose book could not be opened.
pub fn outcome_of_store(fault: StoreFault) -> Outcome
    ensures { result ≡ store_outcome fault }
{
    match fault {
        StoreFault::Store => Outcome::StoreFault,
        StoreFault::Memory => Outcome::MemoryFault,
    }
}

/// The outcome of a run after its book was put back, or could not be. A fault of that is reported only if there was no
/// other.
pub fn outcome_put_back(ended: Outcome, put: Result<(), StoreFault>) -> Outcome
    ensures { result ≡ put_outcome ended put }
{
    match put {
        Ok(()) => ended,
        Err(fault) => match ended {
            Outcome::Done | Outcome::Refused => outcome_of_store(fault),
            Outcome::CommandLine
            | Outcome::FileFault
            | Outcome::OutputFault
            | Outcome::StoreFault
            | Outcome::MemoryFault
            | Outcome::NetworkFault => ended,
        },
    }
}

/// The outcome of a run after the line of a refusal was written.
pub fn outcome_of_refusal(refusal: &Refusal) -> Outcome
    ensures { result ≡ refused_outcome refusal.now }
{
    match refusal {
        Refusal::Store => Outcome::StoreFault,
        Refusal::Memory => Outcome::MemoryFault,
        _ => Outcome::Refused,
    }
}

/// The outcome of a report whose reply was written.
pub fn outcome_of_reply(reply: &Reply) -> Outcome
    ensures { result ≡ reply_outcome reply.now.body }
{
    match &reply.body {
        Body::Json(_) | Body::Text(_) => Outcome::Done,
        Body::Refused(refusal) => outcome_of_refusal(refusal),
    }
}

/// The outcome of a sheet's run.
pub fn outcome_of_sheet(end: SheetEnd) -> Outcome
    ensures { result ≡ sheet_outcome end }
{
    match end {
        SheetEnd::Done => Outcome::Done,
        SheetEnd::Refused => Outcome::Refused,
        SheetEnd::ReadFault => Outcome::FileFault,
        SheetEnd::WriteFault => Outcome::OutputFault,
        SheetEnd::Store => Outcome::StoreFault,
        SheetEnd::NoMemory => Outcome::MemoryFault,
    }
}

/// The outcome of a stream, which depends only on its end, not on the replies to its messages.
pub fn outcome_of_stream(end: StreamEnd) -> Outcome
    ensures { result ≡ stream_outcome end }
{
    match end {
        StreamEnd::Ended => Outcome::Done,
        StreamEnd::BadFraming | StreamEnd::Limit => Outcome::Refused,
        StreamEnd::ReadFault => Outcome::FileFault,
        StreamEnd::WriteFault => Outcome::OutputFault,
        StreamEnd::NoMemory => Outcome::MemoryFault,
    }
}

/// The outcome of serving the clients of a port, which does not depend on how each one's stream ended.
pub fn outcome_of_serving(end: ServeEnd) -> Outcome
    ensures { result ≡ serving_outcome end }
{
    match end {
        ServeEnd::Done => Outcome::Done,
        ServeEnd::NetworkFault => Outcome::NetworkFault,
        ServeEnd::WriteFault => Outcome::OutputFault,
    }
}

/// Writes a status, a space, a body and a line feed. After a fault only a prefix of it was written. Does not allocate.
#[tactic(auto, unfolding(crate::specs::Sheet::line_of))]
pub fn write_answer_line<W: Write>(
    writer: &mut W,
    status: u16,
    body: &[u8],
) -> Result<(), WriteFault>
    ensures ok { OnOk result (Appends (W.contents writer.old) (W.contents writer.new) (line_of status body.now)) }
    ensures err { OnErr result ((n : ℕ) × (n < length (line_of status body.now))
        × Appends (W.contents writer.old) (W.contents writer.new) (take n (line_of status body.now))) }
{
    let mut buffer = Buffer::new();
    let Ok(()) = send(writer, buffer.format(status).as_bytes()) else {
        return Err(WriteFault);
    };
    let Ok(()) = send(writer, b" ".as_slice()) else {
        return Err(WriteFault);
    };
    let Ok(()) = send(writer, body) else {
        return Err(WriteFault);
    };
    send(writer, b"\n".as_slice())
}

/// Writes the line of a refusal. After a fault only a prefix of it was written. Does not allocate.
pub fn write_refusal<W: Write>(writer: &mut W, refusal: &Refusal) -> Result<(), WriteFault>
    ensures ok { OnOk result (Appends (W.contents writer.old) (W.contents writer.new) (refusal_line refusal.now)) }
    ensures err { OnErr result ((n : ℕ) × (n < length (refusal_line refusal.now))
        × Appends (W.contents writer.old) (W.contents writer.new) (take n (refusal_line refusal.now))) }
{
    write_answer_line(writer, refusal.status(), refusal.json().as_slice())
}

/// Writes the line of a reply, or the lines of a report as they are. After a fault only a prefix of them was written.
/// Does not allocate, so what a record changed is reported whenever it can be written.
pub fn write_reply<W: Write>(writer: &mut W, reply: &Reply) -> Result<(), WriteFault>
    ensures ok { OnOk result (Appends (W.contents writer.old) (W.contents writer.new) (reply_line reply.now)) }
    ensures err { OnErr result ((n : ℕ) × (n < length (reply_line reply.now))
        × Appends (W.contents writer.old) (W.contents writer.new) (take n (reply_line reply.now))) }
{
    match &reply.body {
        Body::Json(text) => write_answer_line(writer, reply.status, text.as_slice()),
        Body::Text(text) => send(writer, text.as_slice()),
        Body::Refused(refusal) => write_refusal(writer, refusal),
    }
}
