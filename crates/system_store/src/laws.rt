//! Laws about one run over files and the next. Each is the contract of a function that does nothing.

ghost use Rattle.system_store.specs.Runs.{PutBooksAreFound, StoppedBooksAreFound, StoppedMovesAreFound, StoppedExtensionsAreFound};
ghost use Rattle.system_store.specs.SentAgain.{AsksAreSpentAfterStops, LinesAreOverAfterStops};

use sqlite_disk::Disk;

/// If a run gave its book back, the next run over its files, as they read now or after a crash, finds a book that
/// stands for the same rows. No run makes a new book in its place.
pub fn put_books_are_found<D: Disk, E: Disk>()
    ensures { PutBooksAreFound D.Disk E.Disk }
{}

/// If a run was broken off at any moment, the next run over what is left of its files finds a book that stands for
/// the rows of a sound firm, among those that a crash may leave at that moment. Its store must number the trees of a
/// file, as that of every connection does.
pub fn stopped_books_are_found<D: Disk, E: Disk>()
    ensures { StoppedBooksAreFound D.Disk E.Disk }
{}

/// If a run was broken off while it took a version 1 database whose tables stood for a sound firm, the next run over
/// what is left of its files takes a book that stands for the same firm, whether or not the rows had been moved.
pub fn stopped_moves_are_found<D: Disk, E: Disk>()
    ensures { StoppedMovesAreFound D.Disk E.Disk }
{}

/// If a run was broken off while it took a book of this version without the trail whose tables stood for a sound firm,
/// the next run over what is left of its files takes a book that stands for the same firm, whether or not the trail had
/// been added.
pub fn stopped_extensions_are_found<D: Disk, E: Disk>()
    ensures { StoppedExtensionsAreFound D.Disk E.Disk }
{}

/// What was accepted and acknowledged before a stop adds nothing if it is sent again in a later run, whatever ran in
/// between: an ask that makes an entry is a repeat, and so is a bank line that names one, as long as the matter is
/// not purged. So everything that was under way may be sent again.
pub fn accepted_is_spent_after_stops<D: Disk, E: Disk>()
    ensures asks { AsksAreSpentAfterStops D.Disk E.Disk }
    ensures lines { LinesAreOverAfterStops D.Disk E.Disk }
{}
