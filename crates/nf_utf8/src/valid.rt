//! Validation of a whole block.

ghost use Rattle.std.specs.Prelude.{◌≡◌, ◌+◌, ◌<◌, ◌≤◌, length, take};
ghost use Rattle.std.specs.Str.{IsUtf8};
ghost use Rattle.nf_utf8.specs.Reading.{text_len};

use crate::sequence::is_continuation;

/// The length of the longest front of `bytes` that is well-formed.
///
/// Bytes far after a bad one are not read, so that it costs no more than a few times the front, and a constant.
pub fn valid_len(bytes: &[u8]) -> usize
    ensures { result ≡ text_len bytes.now }
{
    let front = &bytes[..bytes.len().min(FIRST)];
    if let Err(e) = std::str::from_utf8(front) {
        // No more than three bytes begin a character and are none.
        if front.len() - e.valid_up_to() > 3 {
            return e.valid_up_to();
        }
    }
    let at = valid_parts(bytes);
    match std::str::from_utf8(&bytes[at..]) {
        Ok(_) => bytes.len(),
        Err(e) => at + e.valid_up_to(),
    }
}

/// A bad byte among so many is found at once, by a reading that stops there.
const FIRST: usize = 64;

/// The first part has about this many bytes, and each after it four times as many as the one before, up to `LARGEST`.
const SMALLEST: usize = 256;

const LARGEST: usize = 65536;

/// How many bytes at the front lie in whole parts that are well-formed, or stand before the fault in the next part.
/// At the end at most four bytes are left, those of the last character.
fn valid_parts(bytes: &[u8]) -> usize
    ensures { (result ≤ length bytes.now) × IsUtf8 (take result bytes.now) }
{
    let mut at = 0;
    let mut size = SMALLEST;
    while bytes.len() - at > 4 {
        let end = char_start(bytes, at + size.min(bytes.len() - at - 1));
        match simdutf8::compat::from_utf8(&bytes[at..end]) {
            Ok(_) => at = end,
            Err(e) => return at + e.valid_up_to(),
        }
        if size < LARGEST {
            size *= 4;
        }
    }
    at
}

/// Where the character of the byte at `at` begins, if it is well-formed: at most three bytes before.
fn char_start(bytes: &[u8], at: usize) -> usize
    requires { (3 < at) × (at < length bytes.now) }
    ensures { (result ≤ at) × (at ≤ result + 3) }
{
    if !is_continuation(bytes[at]) {
        at
    } else if !is_continuation(bytes[at - 1]) {
        at - 1
    } else if !is_continuation(bytes[at - 2]) {
        at - 2
    } else {
        at - 3
    }
}
