//! What the bytes from each place on are in.

ghost use Rattle.std.specs.Prelude.{◌≡◌, ◌≤◌, ◌+◌, ℕ, length, slice_index, map};
ghost use Rattle.nf_lanes.specs.Lanes.{places};
ghost use Rattle.nf_lanes.specs.Sets.{byte_sets, pair_sets};

use std::simd::prelude::*;

/// Eight sets of pairs of bytes, each a bit: by the high and the low half of a byte and of the one after it, the sets that
/// allow it.
pub struct Pairs {
    pub first_high: [u8; 16],
    pub first_low: [u8; 16],
    pub next_high: [u8; 16],
    pub next_low: [u8; 16],
}

/// The sets that the byte at each place from `at` on is in: those that both of its halves allow.
#[inline(always)]
pub fn byte_sets(high: &[u8; 16], low: &[u8; 16], bytes: &[u8], at: usize) -> u8x16
    requires room { at + 16 ≤ length bytes.now }
    ensures { result ≡ map (λ k. byte_sets high.now low.now (slice_index bytes.now k)) (places at) }
{
    look_up(high, low, u8x16::from_slice(&bytes[at..]))
}

/// The same of the pair of bytes from each place on.
#[inline(always)]
pub fn pair_sets(pairs: &Pairs, bytes: &[u8], at: usize) -> u8x16
    requires room { at + 17 ≤ length bytes.now }
    ensures { result ≡ map (λ k. pair_sets pairs.now (slice_index bytes.now k) (slice_index bytes.now (k + 1))) (places at) }
{
    let first = byte_sets(&pairs.first_high, &pairs.first_low, bytes, at);
    let next = byte_sets(&pairs.next_high, &pairs.next_low, bytes, at + 1);
    first & next
}

/// What the tables have for both halves of each lane.
#[inline(always)]
fn look_up(high: &[u8; 16], low: &[u8; 16], lanes: u8x16) -> u8x16
    ensures { result ≡ map (byte_sets high.now low.now) lanes }
{
    let by_high = u8x16::from_array(*high).swizzle_dyn_within::<16>(lanes >> u8x16::splat(4));
    let by_low = u8x16::from_array(*low).swizzle_dyn_within::<16>(lanes & u8x16::splat(15));
    by_high & by_low
}
