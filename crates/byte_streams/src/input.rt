// Reading a whole input.

ghost use Rattle.std.specs.Prelude.{◌≡◌, ℕ, List, ◌+◌, ◌<◌, ◌≤◌, ◌^◌, length, IfErr, IfOk, IfSome, MatchOption};
ghost use Rattle.std.specs.Io.KnownBytes.{Consumes, IsAtEnd};
ghost use Rattle.byte_streams.specs.Streams.{IsTakenBefore};

use std::alloc::Global;
use std::io::Read;
use thiserror::Error;

/// Why an input was not read.
#[derive(Clone, Copy, Debug, Error)]
pub enum InputFault {
    /// A read failed. An interrupted read counts as failed.
    #[error("a read failed")]
    Reader,
    /// Out of memory for the bytes read.
    #[error("memory ran out")]
    Memory,
}

/// Reads an input to its end. Returns None if it has more than `limit` bytes.
///
/// `limit` is below 2^63. Makes at most `limit` + 1 reads. On an error, at most `limit` bytes were taken from the
/// reader. If the input is too long, up to 4,096 bytes past the limit may have been taken.
pub fn read_whole<R: Read>(
    alloc: Global,
    reader: &mut R,
    limit: usize,
) -> Result<Option<Vec<u8>>, InputFault>
    requires { limit < 2 ^ 63 }
    ensures bytes { IfOk result (λ o. IfSome (R.remaining reader.old) (λ all.
        MatchOption o (limit < length all) (λ v. (v.items ≡ all) × (length all ≤ limit)))) }
    ensures end { IfOk result (λ o. IfSome o (λ _. IsAtEnd (R.remaining reader.new))) }
    ensures err { IfErr result (λ f. (bs : List ℕ) × IsTakenBefore f limit bs
        × Consumes (R.remaining reader.old) (R.remaining reader.new) bs) }
{
    let mut bytes = Vec::new(alloc);
    let mut buffer = [0u8; 4096];
    for _ in 0..limit + 1 {
        match reader.read(&mut buffer) {
            Ok(0) => return Ok(Some(bytes)),
            Ok(n) => {
                if n > limit - bytes.len() {
                    return Ok(None);
                }
                if bytes.extend_from_slice(&buffer[..n]).is_err() {
                    return Err(InputFault::Memory);
                }
            }
            Err(_) => return Err(InputFault::Reader),
        }
    }
    Ok(None)
}
