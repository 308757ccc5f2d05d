ghost use Rattle.std.specs.Prelude.{◌≡◌, length};
ghost use Rattle.std.specs.Fmt.{is_char_start};
ghost use Rattle.std.specs.List.{count_by};
ghost use Rattle.std.specs.Str.{chars};

use crate::ascii::ascii_prefix;
use crate::sequence::is_continuation;
use std::simd::prelude::*;

/// The bytes that are looked at together.
const LANES: usize = 32;

/// How many characters a text has: as many as it has bytes that begin one.
#[inline(never)]
pub fn char_count(text: &str) -> usize
    ensures { result ≡ length (chars text.now) }
{
    let bytes = text.as_bytes();
    let mut at = ascii_prefix(bytes);
    let mut count = at;
    while bytes.len() - at >= LANES {
        count += starts(u8x32::from_slice(&bytes[at..]));
        at += LANES;
    }
    count + starts_by_bytes(&bytes[at..])
}

/// How many of the lanes begin a character.
#[inline(always)]
fn starts(lanes: u8x32) -> usize
    ensures { result ≡ count_by is_char_start lanes }
{
    let starts = lanes.simd_lt(u8x32::splat(0x80)) | lanes.simd_ge(u8x32::splat(0xC0));
    starts.to_bitmask().count_ones() as usize
}

/// How many of the bytes begin a character, byte by byte.
#[inline]
fn starts_by_bytes(bytes: &[u8]) -> usize
    ensures { result ≡ count_by is_char_start bytes.now }
{
    let mut count = 0;
    for byte in bytes {
        if !is_continuation(*byte) {
            count += 1;
        }
    }
    count
}
