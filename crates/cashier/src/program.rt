// One run of the program, from its words to its outcome.

ghost use Rattle.std.specs.Prelude.{◌≡◌, ◌≢◌, ◌⊎◌, ℕ, IfErr, IfOk, List, map};
ghost use Rattle.std.specs.String.{string_bytes};
ghost use Rattle.clap.specs.Words.{Text};
ghost use Rattle.cashier.specs.Calls.{CountsStore, CountsStoreIn, IfSure};
ghost use Rattle.trust_desk.specs.Answered.{IfServed};
ghost use Rattle.trust_desk.specs.Calls.{KeepsBook};
ghost use Rattle.cashier.specs.Check.{IsCheckTrue};
ghost use Rattle.cashier.specs.Crashes.{LeavesClients, LeavesItems, LeavesRun};
ghost use Rattle.cashier.specs.Outcome.{FileEnds, Ran, words_outcome};
ghost use Rattle.cashier.specs.Runs.{HadNoBook, HasRun, RanAtPath, RanInMemory};
ghost use Rattle.cashier.specs.Serving.{PortEnds};
ghost use Rattle.command_line.specs.Program.{Means, MeansSheet, MeansStream, words_of};
ghost use Rattle.command_line.specs.declared.command.Task.{Task};
ghost use Rattle.cashier.specs.Views.{books_of, known_of};
ghost use Rattle.portal_http.specs.Clients.{clients_of};
ghost use Rattle.portal_http.specs.Output.{output_of};
ghost use Rattle.book_reports.specs.Checking.{AreReads};

use crate::applied_lines::{AppliedLines, tell_of_earlier};
use crate::beginning::{is_past, tell_of_day, tell_of_new_book, tell_of_no_book};
use crate::check::run_check;
use crate::folder::Folder;
use crate::kept::tell_of_loss;
use crate::matching::run_match;
use crate::outcome::{
    Outcome, outcome_of_serving, outcome_of_sheet, outcome_of_store, outcome_of_stream,
    outcome_of_words, outcome_put_back,
};
use crate::read_bytes::{ReadBytes, TeeReader};
use crate::report::run_report;
use crate::sheet::run_sheet;
use crate::statement::run_import;
use crate::statement_telling::StatementTelling;
use cashier_remarks::{AskedRemarks, BookRemark, Remark, Remarks};
use command_line::{CliFault, Plan, Task, command_of};
use portal_http::{Network, serve_connections, serve_stream};
use std::alloc::{AllocError, Global};
use std::io::{ErrorKind, Read, Write};
use std::rt::Clock;
use trust_base::{Day, StoreFault};
use trust_desk::{Desk, Unread};
use trust_store::{Book, NoBook, PlainBook, Stores};

/// What a run can use in addition to its standard streams.
#[derive(Drop)]
pub struct Surroundings<'a, F, C, N, M> {
    /// The files that a command line can name.
    pub folder: &'a F,
    /// The clock that times clients.
    pub clock: &'a C,
    /// The ports that a command line can name.
    pub network: &'a N,
    /// Receives the remarks, which say what a person needs to go on.
    pub remarks: &'a M,
}

/// Returns the words as strings, in order.
pub fn texts_of<'a>(alloc: Global, words: &'a [String]) -> Result<Vec<&'a str>, AllocError>
    ensures { IfOk result (λ texts. words_of texts.items ≡ map string_bytes words.entry.now) }
{
    let mut texts = Vec::new(alloc);
    for word in words {
        texts.push(word.as_str())?;
    }
    Ok(texts)
}

// Imports the statement at a path, if it can be opened. Its bytes are copied as they are read, if somebody is told of
// its lines. The lines that it applies are kept in `applied`, if that is given.
fn import_file<F: Folder, M: Remarks, W: Write, B: Book>(
    alloc: Global,
    folder: &F,
    path: &str,
    remarks: &M,
    applied: Option<&AppliedLines>,
    today: Day,
    desk: &mut Desk<B>,
    writer: &mut W,
) -> Outcome
    ensures began { result ≢ Outcome.CommandLine }
    ensures ends { IfServed (B.seen desk.old) (B.seen desk.new)
        (FileEnds today (F.files folder.now path.now) (output_of W.contents writer.old writer.new) result) }
    ensures kept { KeepsBook (CountsStore Outcome.StoreFault result) (B.seen desk.old) (B.seen desk.new) }
    ensures crash { IfSure (B.seen desk.old) (B.seen desk.new)
        (LeavesItems B.seen today (F.files folder.now path.now) result desk.old desk.new) }
{
    let Some(file) = folder.open(path) else {
        return Outcome::FileFault;
    };
    let read = ReadBytes::new(alloc);
    let told = StatementTelling::new(alloc, &read, today, remarks, applied);
    let reader = TeeReader {
        reader: file.reader,
        copy: Some(&read).filter(|_| remarks.are_told()),
    };
    run_import(alloc, reader, file.length, writer, desk, today, &told)
}

/// Serves `count` clients of a port over a desk on a business day, one after the other, and writes a line for each, the
/// name of its stream's end.
///
/// The outcome is `Done` if as many were served as requested, however their streams ended. It is `NetworkFault` if the
/// port is not available, and then nothing is served or written, or if an accept was refused. It is `OutputFault` if a
/// line could not be written, and then only a prefix of the lines was. It is never `StoreFault`, because a failure of
/// the store was answered to its message.
pub fn run_serve<F: Folder, C: Clock + Drop, N: Network, M: Remarks, W: Write, B: Book>(
    alloc: Global,
    around: Surroundings<'_, F, C, N, M>,
    port: u16,
    count: u32,
    writer: &mut W,
    desk: &mut Desk<B>,
    today: Day,
) -> Outcome
    ensures began { result ≢ Outcome.CommandLine }
    ensures store { result ≢ Outcome.StoreFault }
    ensures ends { IfServed (B.seen desk.old) (B.seen desk.new) (PortEnds today
        (clients_of count N.Listener.Writer.contents (N.ports around.entry.network.now port).comes)
        (N.ports around.entry.network.now port).refuses (output_of W.contents writer.old writer.new) result) }
    ensures kept { KeepsBook (CountsStore Outcome.StoreFault result) (B.seen desk.old) (B.seen desk.new) }

    // For each client its answers, and what a crash leaves of its messages.
    ensures crash { LeavesClients B.seen today
        (clients_of count N.Listener.Writer.contents (N.ports around.entry.network.now port).comes)
        desk.old desk.new }
{
    let Some(mut listener) = around.network.listen(port) else {
        return Outcome::NetworkFault;
    };
    around.remarks.show_at_once();
    outcome_of_serving(serve_connections(
        alloc,
        around.clock,
        &mut listener,
        count,
        writer,
        desk,
        today,
    ))
}

// Runs a plan over a desk, whatever book the plan names. The lines that an import applies are kept in `applied`, if
// that is given and somebody is told. The contract holds for any words that mean the plan.
fn run_plan<R: Read, F: Folder, C: Clock + Drop, N: Network, M: Remarks, W: Write, B: Book>(
    alloc: Global,
    plan: &Plan<'_>,
    reader: &mut R,
    around: Surroundings<'_, F, C, N, M>,
    applied: Option<&AppliedLines>,
    writer: &mut W,
    desk: &mut Desk<B>,
) -> Outcome
    ensures began { result ≢ Outcome.CommandLine }
    ensures input { (words : List Text) → Means words plan.now.today plan.now.task
        → MeansSheet words ⊎ (MeansStream words ⊎ (reader.new ≡ reader.old)) }
    ensures ends { (words : List Text) → Means words plan.now.today plan.now.task
        → IfServed (B.seen desk.old) (B.seen desk.new) (Ran words
        (known_of (R.remaining reader.old) (F.files around.entry.folder.now)
        (N.ports around.entry.network.now) N.Listener.Writer.contents)
        (output_of W.contents writer.old writer.new) result) }
    ensures sound { (B.seen desk.new).clean → (B.seen desk.old).readable → plan.now.task ≡ Task.Check
        → IsCheckTrue (B.seen desk.old) (B.seen desk.new) (output_of W.contents writer.old writer.new) result }
    ensures kept { (words : List Text) → Means words plan.now.today plan.now.task
        → KeepsBook (CountsStoreIn words result) (B.seen desk.old) (B.seen desk.new) }
    ensures crash { (words : List Text) → Means words plan.now.today plan.now.task
        → IfSure (B.seen desk.old) (B.seen desk.new) (LeavesRun B.seen words
        (known_of (R.remaining reader.old) (F.files around.entry.folder.now)
        (N.ports around.entry.network.now) N.Listener.Writer.contents)
        (output_of W.contents writer.old writer.new) result desk.old desk.new) }
{
    let today = plan.today;
    let asked = AskedRemarks {
        remarks: around.remarks,
        is_quiet: plan.is_quiet,
    };
    let remarks = &asked;
    match plan.task {
        Task::Sheet => outcome_of_sheet(run_sheet(alloc, reader, remarks, writer, desk, today)),
        Task::Import(path) => {
            import_file(
                alloc,
                around.folder,
                path,
                remarks,
                applied.filter(|_| remarks.are_told()),
                today,
                desk,
                writer,
            )
        }
        Task::Match(path) => run_match(alloc, around.folder, path, remarks, writer, desk, today),
        // It never ends with `StoreFault`: a failure of the store was answered, and is not part of how a stream ends.
        Task::Stream => outcome_of_stream(serve_stream(alloc, reader, writer, desk, today)),
        Task::Serve { port, count } => run_serve(alloc, around, port, count, writer, desk, today),
        Task::Report(command) => {
            let is_past = is_past(around.clock, today);
            run_report(alloc, command, remarks, writer, desk, today, is_past)
        }
        Task::Check => run_check(alloc, remarks, writer, desk, today),
    }
}

// Runs a plan over a new, empty book in memory, which is dropped at the end.
fn run_in_memory<R: Read, F: Folder, C: Clock + Drop, N: Network, M: Remarks, W: Write>(
    alloc: Global,
    plan: &Plan<'_>,
    reader: &mut R,
    around: Surroundings<'_, F, C, N, M>,
    writer: &mut W,
) -> Outcome
    ensures input { (words : List Text) → Means words plan.now.today plan.now.task
        → MeansSheet words ⊎ (MeansStream words ⊎ (reader.new ≡ reader.old)) }
    ensures began { result ≢ Outcome.CommandLine }
    ensures ran { (words : List Text) → Means words plan.now.today plan.now.task
        → RanInMemory (Ran words
        (known_of (R.remaining reader.old) (F.files around.entry.folder.now)
        (N.ports around.entry.network.now) N.Listener.Writer.contents)
        (output_of W.contents writer.old writer.new) result) }
{
    let remarks = around.remarks;
    let mut desk = Desk::new(PlainBook::new(alloc));
    let ended = run_plan(alloc, plan, reader, around, None, writer, &mut desk);
    tell_of_loss(remarks, plan, desk.into_book());
    ended
}

// Reports why the store failed in a run over the book at a path: which row can't be read, or that all of them can, so
// that it may be the disk.
fn tell_of_failure<M: Remarks, B: Book>(
    alloc: Global,
    remarks: &M,
    path: &str,
    today: Day,
    desk: &mut Desk<B>,
)
    ensures { AreReads (B.seen desk.old) (B.seen desk.new) }
{
    match desk.find_unread(alloc, today) {
        Ok(Unread::Elsewhere) => {
            let told = BookRemark::AllRead;
            remarks.tell(&Remark::Book { path, told })
        }
        Ok(unread) => remarks.tell(&Remark::Unread(unread)),
        Err(StoreFault::Store) => {
            let told = BookRemark::NoBook(NoBook::Failed);
            remarks.tell(&Remark::Book { path, told })
        }
        Err(StoreFault::Memory) => (),
    }
}

// Reports what the rows of a book show of a run that is over, if somebody is told: after an import, which of the lines
// that it applied stand on something else too; after a failure of the store, why it failed. The book is only read.
fn tell_of_rows<M: Remarks, B: Book>(
    alloc: Global,
    remarks: &M,
    plan: &Plan<'_>,
    path: &str,
    applied: &AppliedLines,
    ended: Outcome,
    desk: &mut Desk<B>,
)
    ensures { AreReads (B.seen desk.old) (B.seen desk.new) }
{
    if plan.is_quiet || !remarks.are_told() {
        return;
    }
    if ended == Outcome::StoreFault {
        return tell_of_failure(alloc, remarks, path, plan.today, desk);
    }
    if let Task::Import(_) = plan.task {
        tell_of_earlier(remarks, applied, desk);
    }
}

// Reports that the book of a run that ended without a fault could not be put back, if the plan is not quiet.
fn tell_of_putting<M: Remarks>(
    remarks: &M,
    plan: &Plan<'_>,
    path: &str,
    ended: Outcome,
    put: Result<(), StoreFault>,
) {
    let is_fault = outcome_put_back(ended, put) == Outcome::StoreFault;
    if is_fault && ended != Outcome::StoreFault && !plan.is_quiet {
        let told = BookRemark::NotPutBack;
        remarks.tell(&Remark::Book { path, told });
    }
}

// Runs a plan over the book at a path, if it is available, and puts the book back.
fn run_at_path<R: Read, F: Folder, C: Clock + Drop, N: Network, M: Remarks, S: Stores, W: Write>(
    alloc: Global,
    plan: &Plan<'_>,
    path: &str,
    reader: &mut R,
    around: Surroundings<'_, F, C, N, M>,
    stores: S,
    writer: &mut W,
) -> Outcome
    ensures began { result ≢ Outcome.CommandLine }
    ensures input { (words : List Text) → Means words plan.now.today plan.now.task
        → MeansSheet words ⊎ (MeansStream words ⊎ (reader.new ≡ reader.old)) }
    ensures ran { (words : List Text) → Means words plan.now.today plan.now.task
        → RanAtPath (books_of S.AtPath.seen (S.finds stores) S.puts) path.now words
        (known_of (R.remaining reader.old) (F.files around.entry.folder.now)
        (N.ports around.entry.network.now) N.Listener.Writer.contents)
        (output_of W.contents writer.old writer.new) result
        ⊎ HadNoBook ((reader.new ≡ reader.old) × (writer.new ≡ writer.old)) result }
{
    let (folder, remarks) = (around.folder, around.remarks);
    let found = folder.presence(path);
    let book = match stores.at(alloc, path) {
        Ok(book) => book,
        Err(why) => {
            tell_of_no_book(remarks, plan, path, found, why);
            return outcome_of_store(why.fault());
        }
    };
    tell_of_new_book(remarks, plan, path, found);
    let applied = AppliedLines::new(alloc);
    let mut desk = Desk::new(book);
    let ended = run_plan(
        alloc,
        plan,
        reader,
        around,
        Some(&applied),
        writer,
        &mut desk,
    );
    tell_of_rows(alloc, remarks, plan, path, &applied, ended, &mut desk);
    let put = S::put_back(desk.into_book());
    tell_of_putting(remarks, plan, path, ended, put);
    outcome_put_back(ended, put)
}

/// Runs what the words that the program was called with ask for, its name first among them, over the book at the path
/// of `--db`. If there is no `--db`, it uses a new, empty book in memory, which is dropped at the end.
///
/// The book at the path is opened once, since `Stores::at` takes the stores. What a person is told of its rows when the
/// run is over comes of that opening: it is only read for it, before it is put back.
///
/// If the words can't be read or are invalid, or memory runs out before they are parsed, nothing is read, run or
/// written, and no book is opened: the outcome is `MemoryFault` if memory ran out, and otherwise `CommandLine`. If the
/// book can't be opened, nothing is read or written, and no other file and no port is opened; the outcome is
/// `StoreFault`, or `MemoryFault` if memory ran out.
///
/// Otherwise the outcome is that of the task: how the sheet, the statement or the stream ended, or the report. It is
/// `FileFault` if the statement can't be opened. For serving clients it is that of serving, and `NetworkFault` if their
/// port is not available or an accept was refused. Standard input is only read for a sheet or a stream. The outcome of
/// a stream, or of serving clients, depends only on how it ended. It is never `StoreFault`, because a failure of the
/// store was answered to its message. Then the book is put back at its path. If that fails, and the task ended without
/// a fault, the outcome is `StoreFault` or `MemoryFault`; what was accepted is kept even then.
///
/// The firm that is left in memory is sound, as it is after each record, each line of a statement and each message.
pub fn run_called<
    R: Read,
    F: Folder,
    C: Clock + Drop,
    N: Network,
    M: Remarks,
    S: Stores + Drop,
    W: Write,
>(
    alloc: Global,
    called: &Result<Vec<String>, ErrorKind>,
    reader: &mut R,
    around: Surroundings<'_, F, C, N, M>,
    stores: S,
    writer: &mut W,
) -> Outcome
    ensures ran { IfOk called.now
        (λ words. HasRun (books_of S.AtPath.seen (S.finds stores) S.puts)
        ((reader.new ≡ reader.old) × (writer.new ≡ writer.old)) (map string_bytes words.items)
        (known_of (R.remaining reader.old) (F.files around.entry.folder.now)
        (N.ports around.entry.network.now) N.Listener.Writer.contents)
        (output_of W.contents writer.old writer.new) result) }
    ensures unread { result ≡ Outcome.CommandLine → reader.new ≡ reader.old }
    ensures unwritten { result ≡ Outcome.CommandLine → writer.new ≡ writer.old }

    // Anything but a sheet or a stream leaves standard input unread: an import, a report, serving a port, and the rest.
    ensures input { IfOk called.now
        (λ words. MeansSheet (map string_bytes words.items)
        ⊎ (MeansStream (map string_bytes words.items) ⊎ (reader.new ≡ reader.old))) }

    // Without words nothing is done.
    ensures untold { IfErr called.now (λ kind. (result ≡ words_outcome kind) × (reader.new ≡ reader.old)
        × (writer.new ≡ writer.old)) }
{
    let words = match called {
        Ok(words) => words,
        Err(kind) => return outcome_of_words(*kind),
    };
    let Ok(texts) = texts_of(alloc, words.as_slice()) else {
        return Outcome::MemoryFault;
    };
    match command_of(alloc, texts.as_slice()) {
        Ok(plan) => {
            tell_of_day(around.clock, around.remarks, &plan);
            match plan.db {
                Some(path) => run_at_path(alloc, &plan, path, reader, around, stores, writer),
                None => run_in_memory(alloc, &plan, reader, around, writer),
            }
        }
        Err(CliFault::Line) => Outcome::CommandLine,
        Err(CliFault::Memory) => Outcome::MemoryFault,
    }
}
