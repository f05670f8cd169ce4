// The books at paths of the system.

ghost use Rattle.std.specs.Prelude.{◌≡◌, ◌↔◌, false, true, IfOk, OnOk};
ghost use Rattle.sqlite.specs.Closing.{IsCopied};
ghost use Rattle.sqlite.specs.Files.{IsBlankAs, IsOpened, file_state};
ghost use Rattle.sqlite.specs.Start.{FindsIn};
ghost use Rattle.sqlite.specs.declared.error.ErrorCode.TheVariants.{OutOfMemory};
ghost use Rattle.sqlite.specs.State.{HasCleanDisk};
ghost use Rattle.sqlite_store.specs.FileStore.{view};
ghost use Rattle.sqlite_wal.specs.Files.{image_at};
ghost use Rattle.sqlite_wal.specs.Reads.{AreClean};
ghost use Rattle.system_store.specs.Runs.{IsFoundIn, IsHad, IsPutBack, IsSettled, unknown_files};

use sql_book::{OpenFault, SqlBook};
use sql_reads::fault_of;
use sqlite::{Connection, Error, ErrorCode, FileFrom, FileStore, Files, Start, Unknown};
use sqlite_disk::Disk;
use std::alloc::{AllocError, Global};
use std::fs::{self, File, OpenOptions};
use std::io::{self, ErrorKind};
use std::os::unix::fs::{MetadataExt, OpenOptionsExt};
use std::path::PathBuf;
use trust_base::StoreFault;
use trust_store::{NoBook, Stores};

// The bytes of a log's head and of the head of its first page.
const LOG_HEADS: u64 = 56;

/// A database file of the system with its log, which lies at the same path plus `-wal`. `T` stands for what the two
/// hold when they are opened.
pub type FileWith<T> = FileStore<FileFrom<T>>;

/// A database file of the system whose contents are not known.
pub type SystemFile = FileWith<Unknown>;

/// The books of the system, each in the database file at its path. Its calls are `book_at` and `copied`, which
/// promise what `Stores` requires, whatever the files hold; here the contents are not known.
///
/// A path that is a link stands for the file that it leads to. A missing or empty file gets a book without rows, unless
/// the log beside it has changes: then the book is gone, and neither is touched. A file that holds a book gives that
/// book. While a book is in use its file is locked, and another run over it gets a fault of the store. A file in whose
/// place another was put before it was locked is not used. A book that was put back is in its file alone. One that was
/// not, because the run was broken off, is in the file and the log together, and the next run finds it there (`laws`).
#[derive(Drop)]
pub struct SystemStores<'a> {
    /// The system.
    pub rt: &'a HostRuntime,
}

// Opens a connection to the database file at a path, and creates a missing file. A new file has checksums on its
// pages, so that it is refused if its bytes were changed between two runs; a file without checksums is taken as it
// is.
fn connection_at<T: Start>(
    rt: &HostRuntime,
    path: &str,
    start: T,
) -> Result<Connection<FileWith<T>>, NoBook>
    ensures mode { IfOk result (λ conn. conn.in_transaction ≡ false) }
    ensures opened { IfOk result (λ conn. HasCleanDisk (file_state conn) → IsOpened conn) }
    ensures found { IfOk result (λ conn. HasCleanDisk (file_state conn)
        → FindsIn (image_at T.Start) (file_state conn)) }
    ensures sums { IfOk result (λ conn. HasCleanDisk (file_state conn) → IsBlankAs true (image_at T.Start)
        → (view conn.store).has_sums ≡ true) }
{
    match Connection::open_from(rt, path, true, start) {
        Ok(conn) => Ok(conn),
        Err((error, _)) => Err(why_unopened(error)),
    }
}

// Why a database file could not be opened.
fn why_unopened(error: Error) -> NoBook
    ensures { result ≡ NoBook.Memory ↔ error ≡ Error.SqliteFailure OutOfMemory }
{
    match error {
        Error::SqliteFailure(ErrorCode::DatabaseBusy) => NoBook::InUse,
        Error::SqliteFailure(ErrorCode::CannotOpen) => NoBook::Unopened,
        Error::SqliteFailure(ErrorCode::NotADatabase | ErrorCode::DatabaseCorrupt) => {
            NoBook::NoDatabase
        }
        Error::SqliteFailure(ErrorCode::OutOfMemory) => NoBook::Memory,
        _ => NoBook::Failed,
    }
}

// Why no book could be taken from an opened database, or made in it.
fn why_untaken(fault: OpenFault) -> NoBook
    ensures { result ≡ NoBook.Memory ↔ fault ≡ OpenFault.Memory }
{
    match fault {
        OpenFault::NotABook => NoBook::OtherTables,
        OpenFault::Store => NoBook::Failed,
        OpenFault::Memory => NoBook::Memory,
    }
}

// Where the links of a path lead. None if nothing is there, or if it can't be found out: the store then says why.
fn real_path(rt: &HostRuntime, path: &str) -> Result<Option<PathBuf>, NoBook> {
    match fs::canonicalize(rt, path) {
        Ok(real) => Ok(Some(real)),
        Err(error) if error.kind() == ErrorKind::OutOfMemory => Err(NoBook::Memory),
        Err(_) => Ok(None),
    }
}

// Whether a path has no file, or an empty one, while the log beside it has changes. A log without changes is shorter
// than the heads of a log and of its first page.
fn is_log_alone(alloc: Global, rt: &HostRuntime, path: &str) -> Result<bool, AllocError> {
    let is_missing = match fs::metadata(rt, path) {
        Ok(file) => file.is_file() && file.len() == 0,
        Err(error) => error.kind() == ErrorKind::NotFound,
    };
    if !is_missing {
        return Ok(false);
    }
    let log = format!(in alloc; "{path}-wal")?;
    match fs::metadata(rt, &log) {
        Ok(file) => Ok(file.is_file() && file.len() > LOG_HEADS),
        Err(_) => Ok(false),
    }
}

// Whether the store refuses a name, which SQLite takes for something else than a file.
fn is_no_path(path: &str) -> bool {
    path == ":memory:" || path.starts_with("file:")
}

// Makes an empty file at a path, with the permissions that the store gives to a file that it makes.
fn made_at(rt: &HostRuntime, path: &str) -> io::Result<File> {
    let mut options = OpenOptions::new();
    options.read(true).write(true).create_new(true).mode(0o644);
    options.open(rt, path)
}

// The file at a path without links, or a new one, held open so that no other file gets its number. None if it can't be
// had: then the store says why.
fn file_at(rt: &HostRuntime, path: &str) -> Option<File> {
    match fs::symlink_metadata(rt, path) {
        Ok(found) if found.is_file() => File::open(rt, path).ok(),
        Err(error) if error.kind() == ErrorKind::NotFound && !is_no_path(path) => {
            made_at(rt, path).ok()
        }
        Ok(_) | Err(_) => None,
    }
}

// Whether a file has no byte.
fn is_empty(file: &File) -> bool {
    file.metadata().is_ok_and(|found| found.len() == 0)
}

// Whether a path names this file.
fn names(rt: &HostRuntime, path: &str, file: &File) -> bool {
    match (file.metadata(), fs::symlink_metadata(rt, path)) {
        (Ok(held), Ok(named)) => held.dev() == named.dev() && held.ino() == named.ino(),
        (Ok(_) | Err(_), Ok(_) | Err(_)) => false,
    }
}

// Opens a connection to the database file at a path without links. What is at the path is looked at before the file is
// locked and again behind that, so that nobody who put another file in its place meanwhile loses what is booked.
fn connection_there<T: Start>(
    rt: &HostRuntime,
    path: &str,
    start: T,
) -> Result<Connection<FileWith<T>>, NoBook>
    ensures mode { IfOk result (λ conn. conn.in_transaction ≡ false) }
    ensures opened { IfOk result (λ conn. HasCleanDisk (file_state conn) → IsOpened conn) }
    ensures found { IfOk result (λ conn. HasCleanDisk (file_state conn)
        → FindsIn (image_at T.Start) (file_state conn)) }
{
    let held = file_at(rt, path);
    let was_empty = held.as_ref().is_some_and(is_empty);
    let conn = connection_at(rt, path, start)?;
    match held {
        Some(file) if names(rt, path, &file) => Ok(conn),
        Some(_) | None => {
            // What begins a database in an empty file is taken out of the log, which is another file's now.
            if was_empty {
                let _ = copied(conn);
            }
            Err(NoBook::InUse)
        }
    }
}

/// Opens the book at a path whose files hold what `start` stands for: the book that they hold, or a new one without
/// rows if they hold no table. The error says why there is no usable book: `LogAlone` if there is no book at the path,
/// but changes of one in the log beside it; `InUse` also if the file was replaced while it was opened.
pub fn book_at<T: Start>(
    alloc: Global,
    rt: &HostRuntime,
    path: &str,
    start: T,
) -> Result<SqlBook<FileWith<T>>, NoBook>
    ensures had { IfOk result (IsHad (image_at T.Start)) }
{
    let real = real_path(rt, path)?;
    let path = real.as_ref().map_or(path, PathBuf::as_str);
    match is_log_alone(alloc, rt, path) {
        Ok(true) => return Err(NoBook::LogAlone),
        Ok(false) => {}
        Err(_) => return Err(NoBook::Memory),
    }
    let conn = connection_there(rt, path, start)?;
    match SqlBook::adopt(alloc, conn) {
        Ok(book) => Ok(book),
        Err((OpenFault::NotABook, conn)) => match SqlBook::make(alloc, conn) {
            Ok(book) => Ok(book),
            Err((fault, _)) => Err(why_untaken(fault)),
        },
        Err((fault, _)) => Err(why_untaken(fault)),
    }
}

/// Copies the log of a connection into its database file and gives the files back. No transaction may be open. So a
/// book whose connection it is was put back: it is in the database file alone.
pub fn copied<D: Disk + Drop>(conn: Connection<FileStore<D>>) -> Result<Files<D>, Error>
    requires { conn.in_transaction ≡ false }
    ensures copied { IfOk result (λ files. AreClean D.Disk files.log files.db → IsCopied conn files) }
    ensures settled { IsSettled conn }
{
    // For the proof.
    let _settled = conn.is_autocommit();
    let _listed = conn.schema();
    match conn.close_files() {
        Ok(files) => Ok(files),
        Err((error, _)) => Err(error),
    }
}

impl Stores for SystemStores<'_> {
    type AtPath = SqlBook<SystemFile>;

    ghost finds = { λ _ _ book. IsFoundIn unknown_files book };

    ghost puts = { λ book answer. OnOk answer (IsPutBack book) };

    fn at(self, alloc: Global, path: &str) -> Result<SqlBook<SystemFile>, NoBook> {
        book_at(alloc, self.rt, path, Unknown)
    }

    fn put_back(book: SqlBook<SystemFile>) -> Result<(), StoreFault>
        ensures put { OnOk result (IsPutBack book) }
    {
        match copied(book.release()) {
            Ok(_files) => Ok(()),
            Err(error) => Err(fault_of(error)),
        }
    }
}
