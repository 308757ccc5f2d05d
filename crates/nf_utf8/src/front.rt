ghost use Rattle.std.specs.Prelude.{◌≡◌, ◌+◌, ◌==◌, ◌<◌, ◌^◌, if◌then◌else◌};

use crate::carry::Carry;

/// What stands at the front of bytes, after those of a begun character.
#[derive(Clone, Copy)]
pub enum Front {
    /// The first `len` bytes complete this character.
    Char { c: char, len: usize },
    /// All the bytes are of a begun character, or there are none.
    Begun(Carry),
    /// The byte at `at` is bad, and `back` bytes of a begun character stood before it.
    Bad { at: usize, back: usize },
}

/// How many bytes a bad byte at `at` breaks off as one maximal subpart, where `back` bytes of a begun character stood before
/// it: those before it, or else the byte alone (The Unicode Standard, section 3.9).
#[inline]
pub fn subpart_len(at: usize, back: usize) -> usize
    requires { at + 1 < 2 ^ 64 }
    ensures { result ≡ (if back == 0 then at + 1 else at) }
{
    if back == 0 { at + 1 } else { at }
}
