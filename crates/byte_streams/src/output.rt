// Writing bytes to the end.

ghost use Rattle.std.specs.Prelude.{ℕ, ◌<◌, length, take, OnOk, OnErr};
ghost use Rattle.std.specs.Io.KnownBytes.{Appends};

use std::io::Write;
use thiserror::Error;

/// A write failed, or took no byte.
#[derive(Clone, Copy, Debug, Error)]
#[error("a write failed, or took no byte")]
pub struct WriteFault;

/// Writes all of `text`, in as many writes as it takes. Any failed write is a fault, even an interrupted one, and so is
/// a write of zero bytes. On a fault, only the first bytes of `text` were written.
pub fn send<W: Write>(writer: &mut W, text: &[u8]) -> Result<(), WriteFault>
    ensures ok { OnOk result (Appends (W.contents writer.old) (W.contents writer.new) text.now) }
    ensures err { OnErr result ((n : ℕ) × (n < length text.now)
        × Appends (W.contents writer.old) (W.contents writer.new) (take n text.now)) }
{
    let mut done = 0;
    for _ in 0..text.len() {
        if done == text.len() {
            break;
        }
        match writer.write(&text[done..]) {
            Ok(0) => return Err(WriteFault),
            Ok(n) => done += n,
            Err(_) => return Err(WriteFault),
        }
    }
    Ok(())
}
