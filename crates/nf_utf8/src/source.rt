//! Where a character stands in bytes.

ghost use Rattle.std.specs.Prelude.{◌≡◌, ◌<◌, ◌≤◌, true, ℕ, [], ◌∷◌, length, drop, encode_utf8, IsNone, IfSome};
ghost use Rattle.nf_utf8.specs.Left.{IsLeft};
ghost use Rattle.nf_utf8.specs.Replaced.{decoded_of, source_in};

use crate::carry::Carry;
use crate::front::{Front, subpart_len};

/// A character that bytes give.
#[derive(Clone, Copy)]
struct Source {
    /// How many bytes it has in UTF-8.
    size: usize,
    /// How many bytes gave it.
    len: usize,
}

/// How many of the bytes gave the first `len` bytes of the text that they give where each maximal subpart of an ill-formed
/// sequence is read as U+FFFD (The Unicode Standard, section 3.9).
pub fn source_len(bytes: &[u8], len: usize) -> usize
    ensures value { result ≡ source_in (decoded_of bytes.now) len }
    ensures within { result ≤ length bytes.now }
{
    let mut at = 0;
    let mut left = len;
    while left > 0 {
        let Some(first) = first_source(&bytes[at..]) else {
            return at;
        };
        left = left.saturating_sub(first.size);
        at += first.len;
    }
    at
}

/// The first character; none where the bytes end before it is completed.
fn first_source(bytes: &[u8]) -> Option<Source>
    ensures none { IsNone result → decoded_of bytes.now ≡ [] }
    ensures some { IfSome result (λ first. (0 < first.size) × (0 < first.len) × (first.len ≤ length bytes.now)
        × ((c : ℕ) × (first.size ≡ length (encode_utf8 c)) × IsLeft true bytes.now (c ∷ []) first.len (drop first.len bytes.now))) }
{
    match Carry::Empty.front(bytes) {
        Front::Char { len, .. } => Some(Source { size: len, len }),
        Front::Bad { at, back } => Some(Source {
            size: char::REPLACEMENT_CHARACTER.len_utf8(),
            len: subpart_len(at, back),
        }),
        Front::Begun(_) => None,
    }
}
