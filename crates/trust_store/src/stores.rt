// Where the books named on a command line are found.

ghost use Rattle.std.specs.Prelude.{◌≡◌, ◌↔◌, IfOk};

use crate::book::Book;
use std::alloc::Global;
use trust_base::StoreFault;

/// Why there is no usable book at a path.
#[derive(Clone, Copy)]
pub enum NoBook {
    /// Another run has it open, or another program reads or writes it.
    InUse,
    /// The path can't be opened: its folder is missing, or reading and writing the folder or the file is not permitted.
    Unopened,
    /// What is there is not a database, or its bytes were changed by something other than a database program.
    NoDatabase,
    /// The database there has other tables, or tables of another version.
    OtherTables,
    /// Nothing is there, or an empty file, but a log beside it has changes of a book. Neither was touched.
    LogAlone,
    /// It could not be read or written.
    Failed,
    /// Memory ran out.
    Memory,
}

impl NoBook {
    /// The fault that it is of a store: `Memory` if memory ran out, otherwise `Store`.
    pub fn fault(self) -> StoreFault
        ensures { result ≡ StoreFault.Memory ↔ self ≡ NoBook.Memory }
    {
        match self {
            NoBook::InUse
            | NoBook::Unopened
            | NoBook::NoDatabase
            | NoBook::OtherTables
            | NoBook::LogAlone
            | NoBook::Failed => StoreFault::Store,
            NoBook::Memory => StoreFault::Memory,
        }
    }
}

/// Where books that outlive a run are stored, each at a path.
pub trait Stores {
    ghost use Rattle.std.specs.Prelude.{List, Result, ℕ};
    ghost use Rattle.trust_base.specs.declared.refusal.StoreFault.{StoreFault};

    /// A book stored at a path.
    type AtPath: Book;

    /// The books that may be found at a path.
    ghost finds: { Self → List ℕ → Self.AtPath → Type 0 };

    /// What became of a book that was put back, given the result.
    ghost puts: { Self.AtPath → Result Unit StoreFault → Type 0 };

    /// Opens the book at a path. If there is none, creates one without rows. The error says why there is no usable
    /// book; nothing that is at the path is changed then. The rows of an existing book are not looked at.
    ///
    /// It takes the stores, so that a run to which they are given opens one book, once.
    fn at(self, alloc: Global, path: &str) -> Result<Self::AtPath, NoBook>
        ensures found { IfOk result (λ book. (Self.AtPath.seen book).sure → finds self path.now book) }
        ensures serves { IfOk result (λ book. (Self.AtPath.seen book).sure → (Self.AtPath.seen book).clean) };

    /// Puts a book back at its path, so that its rows are found there, and in no other file beside it.
    ///
    /// `Store` means that it could not be written there; `Memory` means out of memory. Even then nothing that the book
    /// accepted is lost: it is beside the path, where `at` finds it.
    fn put_back(book: Self::AtPath) -> Result<(), StoreFault>
        ensures put { puts book result };
}
