// Text built on the stack, so that nothing is allocated.

ghost use Rattle.std.specs.Prelude.{◌≡◌, ◌≤◌, ◌+◌, ◌++◌, length};
ghost use Rattle.std.specs.Fmt.{decimal};
ghost use Rattle.arrayvec.specs.ArrayVec.{array_vec_len};

use arrayvec::ArrayVec;
use itoa::Buffer;

/// Appends a piece to a text that has room for it. Allocates nothing.
pub fn push_piece<const ROOM: usize>(text: &mut ArrayVec<u8, ROOM>, piece: &[u8])
    requires { array_vec_len text.old + length piece.now ≤ ROOM }
    ensures items { text.new.items ≡ text.old.items ++ piece.now }
    ensures len { array_vec_len text.new ≡ array_vec_len text.old + length piece.now }
{
    match text.try_extend_from_slice(piece) {
        Ok(()) => (),
        Err(_) => unreachable!(),
    }
}

/// Appends a number's decimal digits, at most 20, to a text with room for 20 bytes. Allocates nothing.
pub fn push_number<const ROOM: usize>(text: &mut ArrayVec<u8, ROOM>, number: u64)
    requires { array_vec_len text.old + 20 ≤ ROOM }
    ensures items { text.new.items ≡ text.old.items ++ decimal number }
    ensures len { array_vec_len text.new ≤ array_vec_len text.old + 20 }
{
    let mut buffer = Buffer::new();
    push_piece(text, buffer.format(number).as_bytes());
}
