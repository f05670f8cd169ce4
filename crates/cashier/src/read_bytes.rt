// The bytes of a file, kept as they are read, so that what a person is told of the file needs no other reading of it.

use std::alloc::{AllocError, Global};
use std::cell::{Cell, Ref, RefCell};
use std::io;
use std::io::{Error, ErrorKind, Read};
use trust_base::MAX_FILE_BYTES;

/// The bytes that were read of a file so far, from its start: at most 4,194,304 and what one read brings more. None if
/// memory ran out for them.
#[derive(Drop)]
pub struct ReadBytes {
    alloc: Global,
    bytes: RefCell<Vec<u8>>,
    // Whether memory ran out for some of them. Then those before them are let go too.
    is_short: Cell<bool>,
}

impl ReadBytes {
    /// Before the first read.
    pub fn new(alloc: Global) -> ReadBytes {
        ReadBytes {
            alloc,
            bytes: RefCell::new(Vec::new(alloc)),
            is_short: Cell::new(false),
        }
    }

    // Adds what a read brought, if memory suffices. Whether it does.
    fn has_added(&self, brought: &[u8]) -> bool {
        let Ok(mut bytes) = self.bytes.try_borrow_mut() else {
            return false;
        };
        MAX_FILE_BYTES < bytes.len() || bytes.extend_from_slice(brought).is_ok()
    }

    // Keeps what a read brought.
    fn keep(&self, brought: &[u8]) {
        if self.is_short.get() || self.has_added(brought) {
            return;
        }
        self.is_short.set(true);
        let _ = self.bytes.try_replace(Vec::new(self.alloc));
    }

    /// The bytes. They have to be given back before more is read. Fails if memory ran out for them.
    pub fn bytes(&self) -> Result<Ref<'_, Vec<u8>>, AllocError> {
        if self.is_short.get() {
            return Err(AllocError);
        }
        match self.bytes.try_borrow() {
            Ok(bytes) => Ok(bytes),
            Err(_) => Err(AllocError),
        }
    }
}

/// A reader that copies what passes through it, if a copy is wanted. Want of memory for the copy ends no read.
///
/// Contracts see the bytes that remain of the reader under it.
#[derive(Drop)]
pub struct TeeReader<'a, R> {
    /// The reader under it.
    pub reader: R,
    /// What takes the copy.
    pub copy: Option<&'a ReadBytes>,
}

impl<R: Read> Read for TeeReader<'_, R> {
    ghost remaining = { λ tee. R.remaining tee.reader };

    fn read(&mut self, buf: &mut [u8]) -> io::Result<usize> {
        let count = self.reader.read(buf)?;
        if let Some(copy) = self.copy {
            copy.keep(&buf[..count]);
        }
        Ok(count)
    }
}

/// Gives the bytes that were read of a file, from the first. It ends where they end so far, and goes on when more were
/// read.
#[derive(Drop)]
pub struct ReplayReader<'a> {
    read: &'a ReadBytes,
    // How many bytes it gave.
    given: usize,
}

impl<'a> ReplayReader<'a> {
    /// It gives the first byte first.
    pub fn new(read: &'a ReadBytes) -> ReplayReader<'a> {
        ReplayReader { read, given: 0 }
    }
}

impl Read for ReplayReader<'_> {
    // Fails with `OutOfMemory` if memory ran out for the bytes.
    fn read(&mut self, buf: &mut [u8]) -> io::Result<usize> {
        let Ok(bytes) = self.read.bytes() else {
            return Err(Error::from(ErrorKind::OutOfMemory));
        };
        let rest = bytes.as_slice().get(self.given..).unwrap_or(&[]);
        let count = rest.len().min(buf.len());
        let (front, _) = rest.split_at(count);
        buf[..count].copy_from_slice(front);
        self.given = self.given.saturating_add(count);
        Ok(count)
    }
}
