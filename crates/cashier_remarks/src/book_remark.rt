// Remarks about the book at a path.

use trust_store::NoBook;

/// What is reported about the book at a path.
#[derive(Clone, Copy)]
pub enum BookRemark {
    /// There was none, and a new one was begun.
    New,
    /// There was an empty file, and a book was begun in it.
    Emptied,
    /// No book is available.
    NoBook(NoBook),
    /// No book is available, since its file has a second name, by a hard link.
    TwoNames,
    /// Its store failed, but each row of it can be read.
    AllRead,
    /// It could not be put into its file.
    NotPutBack,
}

impl BookRemark {
    /// The words, which follow the path.
    pub fn words(self) -> &'static str {
        match self {
            BookRemark::New => "was not there: a new book was begun",
            BookRemark::Emptied => {
                "was empty: a new book was begun; if it had one, put the last backup in its place"
            }
            BookRemark::NoBook(NoBook::InUse) => {
                "is in use by another run (serve?) or another program: end that first"
            }
            BookRemark::NoBook(NoBook::Unopened) => {
                "can't be opened: its folder is missing, or the folder or the file may not be read and written"
            }
            BookRemark::NoBook(NoBook::NoDatabase) => {
                "is no book: look at --db; if it was one, its bytes were changed: put the last backup in its place"
            }
            BookRemark::NoBook(NoBook::OtherTables) => {
                "is a database of something else, or a book of another version of this program"
            }
            BookRemark::NoBook(NoBook::LogAlone) => {
                "is not there or empty, and the log beside it, of the same name and -wal, has changes of a book: \
                mount the disk or put the book back beside its log; neither was touched"
            }
            BookRemark::NoBook(NoBook::Failed) => {
                "could not be read or written: look at the disk, and whether it is full"
            }
            BookRemark::NoBook(NoBook::Memory) => "could not be opened for want of memory",
            BookRemark::TwoNames => {
                "can't be opened: the file has a second name (a hard link, or a restore that was stopped): remove \
                that name"
            }
            BookRemark::AllRead => {
                "can be read, each row of it: look whether the disk is full, then run check"
            }
            BookRemark::NotPutBack => {
                "could not be written, and the log beside it has what was accepted: keep both, and look whether \
                the disk is full"
            }
        }
    }
}
