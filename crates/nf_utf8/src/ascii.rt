ghost use Rattle.std.specs.Prelude.{◌≡◌, ◌+◌, ◌<◌, ◌≤◌, ℕ, length, take, slice_index, map, leb, IsTrue};
ghost use Rattle.std.specs.Str.{IsAscii};
ghost use Rattle.std.specs.Simd.Lanes.{mask_l};

use std::simd::prelude::*;

/// The bytes that are looked at by one branch, as long as all are below 80.
const BLOCK: usize = 64;

/// Those that are looked at together before such a block, and after it.
const SMALL_BLOCK: usize = 16;

/// The length in bytes of the longest prefix of bytes below 80 (hexadecimal).
#[inline(always)]
pub fn ascii_prefix(bytes: &[u8]) -> usize
    ensures within { result ≤ length bytes.now }
    ensures ascii { IsAscii (take result bytes.now) }
    ensures longest { result < length bytes.now → 0x80 ≤ slice_index bytes.now result }
{
    let mut at = 0;
    while bytes.len() - at >= SMALL_BLOCK {
        let others = not_ascii(u8x16::from_slice(&bytes[at..]));
        if others != 0 {
            return at + others.trailing_zeros() as usize;
        }
        at = after_blocks(bytes, at + SMALL_BLOCK);
    }
    by_bytes(bytes, at)
}

/// After the blocks from `from` on before the first that has a byte of 80 or above.
#[inline(always)]
fn after_blocks(bytes: &[u8], from: usize) -> usize
    requires within { from ≤ length bytes.now }
    requires ascii { (k : ℕ) → k < from → slice_index bytes.now k < 0x80 }
    ensures further { from ≤ result }
    ensures within { result ≤ length bytes.now }
    ensures ascii { (k : ℕ) → k < result → slice_index bytes.now k < 0x80 }
{
    let mut at = from;
    while bytes.len() - at >= BLOCK && is_ascii(u8x64::from_slice(&bytes[at..])) {
        at += BLOCK;
    }
    at
}

/// Whether no byte of the block is 80 or above.
#[inline(always)]
fn is_ascii(block: u8x64) -> bool
    ensures { IsTrue result → mask_l (map (λ byte. leb 0x80 byte) block) ≡ 0 }
{
    block.simd_ge(u8x64::splat(0x80)).to_bitmask() == 0
}

/// A bit for each lane, the lowest for the first: whether its byte is 80 or above.
#[inline(always)]
fn not_ascii(lanes: u8x16) -> u64
    ensures { result ≡ mask_l (map (λ byte. leb 0x80 byte) lanes) }
{
    lanes.simd_ge(u8x16::splat(0x80)).to_bitmask()
}

/// The end of the prefix, byte by byte from `from` on.
fn by_bytes(bytes: &[u8], from: usize) -> usize
    requires within { from ≤ length bytes.now }
    requires ascii { (k : ℕ) → k < from → slice_index bytes.now k < 0x80 }
    ensures within { result ≤ length bytes.now }
    ensures ascii { IsAscii (take result bytes.now) }
    ensures longest { result < length bytes.now → 0x80 ≤ slice_index bytes.now result }
{
    let mut at = from;
    while at < bytes.len() && bytes[at] < 0x80 {
        at += 1;
    }
    at
}
