// A reader and a writer for tests. They fail at a call that the test picks.

ghost use Rattle.std.specs.Prelude.{◌≡◌, [], Some};

use std::alloc::Global;
use std::io;
use std::io::{Error, ErrorKind, Read, Write};

/// Reads given bytes, a few per call.
#[derive(Drop)]
pub struct TrialReader<'a> {
    /// The bytes not yet read.
    pub rest: &'a [u8],
    /// The most bytes that a call returns. 0 counts as 1, since returning no byte would mean the end.
    pub most: usize,
    /// How many more calls succeed; all later ones fail.
    pub good: u64,
}

impl<'a> TrialReader<'a> {
    /// A reader of these bytes, at most `most` per call. The first `good` calls succeed; all later ones fail.
    pub fn new(bytes: &'a [u8], most: usize, good: u64) -> TrialReader<'a>
        ensures rest { result.rest.now ≡ bytes.now }
        ensures most { result.most ≡ most }
        ensures good { result.good ≡ good }
    {
        TrialReader {
            rest: bytes,
            most,
            good,
        }
    }
}

impl Read for TrialReader<'_> {
    ghost remaining = { λ r. Some r.rest.now };

    fn read(&mut self, buf: &mut [u8]) -> io::Result<usize> {
        if self.good == 0 {
            return Err(Error::from(ErrorKind::Other));
        }
        self.good -= 1;
        let n = self.rest.len().min(buf.len()).min(self.most.max(1));
        let (front, back) = self.rest.split_at(n);
        buf[..n].copy_from_slice(front);
        self.rest = back;
        Ok(n)
    }
}

/// Keeps what is written to it, a few bytes per call. A write also fails if memory runs out.
#[derive(Drop)]
pub struct TrialWriter {
    /// What was written.
    pub written: Vec<u8>,
    /// The most bytes that a call takes; may be 0.
    pub most: usize,
    /// How many more calls succeed; all later ones fail.
    pub good: u64,
}

impl TrialWriter {
    /// A writer that takes at most `most` bytes per call. The first `good` calls succeed; all later ones fail.
    pub fn new(alloc: Global, most: usize, good: u64) -> TrialWriter
        ensures written { result.written.items ≡ [] }
        ensures most { result.most ≡ most }
        ensures good { result.good ≡ good }
    {
        TrialWriter {
            written: Vec::new(alloc),
            most,
            good,
        }
    }

    /// What was written.
    pub fn as_slice(&self) -> &[u8]
        ensures { result.now ≡ self.now.written.items }
    {
        self.written.as_slice()
    }
}

impl Write for TrialWriter {
    ghost contents = { λ w. Some w.written.items };

    fn write(&mut self, buf: &[u8]) -> io::Result<usize> {
        if self.good == 0 {
            return Err(Error::from(ErrorKind::Other));
        }
        self.good -= 1;
        let n = buf.len().min(self.most);
        if self.written.extend_from_slice(&buf[..n]).is_err() {
            return Err(Error::from(ErrorKind::OutOfMemory));
        }
        Ok(n)
    }

    fn flush(&mut self) -> io::Result<()> {
        Ok(())
    }
}
