// The files that a command line can name.

ghost use Rattle.std.specs.Prelude.{IfSome, option_map};
ghost use Rattle.std.specs.Io.KnownBytes.{Keeps};

use std::io::Read;

/// A file opened for reading.
#[derive(Drop)]
pub struct Opened<R: Drop> {
    /// Its bytes, from the start.
    pub reader: R,
    /// Its length in bytes, if it reports one; a pipe does not.
    pub length: Option<u64>,
}

/// What is at a path.
#[derive(Clone, Copy)]
pub enum Presence {
    /// Nothing is there.
    Missing,
    /// An empty file.
    Empty,
    /// A file that has a second name, by a hard link.
    TwoNames,
    /// Something else, or it can't be found out.
    There,
}

/// Opens the files that a command line names.
pub trait Folder {
    ghost use Rattle.cashier.specs.Views.{Files};

    /// An opened file.
    type File: Read + Drop;

    /// What is known of the files.
    ghost files: { Self → Files };

    /// Opens the file at a path for reading. Returns `None` if it can't be opened.
    fn open(&self, path: &str) -> Option<Opened<Self::File>>
        ensures bytes { IfSome result
            (λ file. Keeps (files self.now path.now).bytes (Self.File.remaining file.reader)) }
        ensures told { (files self.now path.now).opens (option_map (λ file. file.length) result) };

    /// What is at a path. It only affects what a person is told.
    fn presence(&self, _path: &str) -> Presence {
        Presence::There
    }
}
