//! A bit for each of 16 places, the lowest for the first.

ghost use Rattle.std.specs.Prelude.{◌≡◌, ◌≢◌, ◌<◌, ◌≤◌, ◌+◌, ℕ, Bool, length, slice_index, map, not, ◌==◌, bit_and, bit_or, nat_le, IsTrue, ◌↔◌, if◌then◌else◌};
ghost use Rattle.std.specs.Int.{bit_at};
ghost use Rattle.nf_lanes.specs.Lanes.{places, bits_at, NonePass};

use std::simd::prelude::*;

/// The places that are asked together.
pub const LANES: usize = 16;

/// A bit for each lane that is not 0.
#[inline(always)]
pub fn bits(lanes: u8x16) -> u64
    ensures few { result < 65536 }
    ensures each { (h : ℕ → ℕ) (at : ℕ) → lanes ≡ map h (places at) → result ≡ bits_at (λ k. not (h k == 0)) at }
{
    lanes.simd_ne(u8x16::splat(0)).to_bitmask()
}

/// A bit for each lane that is not 0, or of which `others` has a bit of the mask.
#[inline(always)]
pub fn bits_of_either(lanes: u8x16, others: u8x16, mask: u8) -> u64
    ensures { (h g : ℕ → ℕ) (at : ℕ) → lanes ≡ map h (places at) → others ≡ map g (places at) → result ≡ bits_at (λ k. not (bit_or (h k) (bit_and (g k) mask) == 0)) at }
{
    bits(lanes | (others & u8x16::splat(mask)))
}

/// A bit for each byte from `at` on that is `least` or above.
#[inline(always)]
pub(crate) fn at_least(least: u8, bytes: &[u8], at: usize) -> u64
    requires room { at + 16 ≤ length bytes.now }
    ensures { result ≡ bits_at (λ k. nat_le least (slice_index bytes.now k)) at }
{
    let lanes = u8x16::from_slice(&bytes[at..]);
    lanes.simd_ge(u8x16::splat(least)).to_bitmask()
}

/// Whether all lanes are 0 of four times 16 places, one after the other.
#[inline(always)]
pub fn none_of(first: u8x16, second: u8x16, third: u8x16, last: u8x16) -> bool
    ensures { (h : ℕ → ℕ) (at : ℕ) → first ≡ map h (places at) → second ≡ map h (places (at + 16)) → third ≡ map h (places (at + 32)) → last ≡ map h (places (at + 48))
        → (IsTrue result ↔ NonePass (λ k. not (h k == 0)) at 64) }
{
    bits(first | second | third | last) == 0
}

/// A bit for each lane that is not 0 of four times 16 places, one after the other, the lowest for the first.
#[inline(always)]
pub(crate) fn bits_of_64(first: u8x16, second: u8x16, third: u8x16, last: u8x16) -> u64
    ensures { (h : ℕ → ℕ) (at : ℕ) → first ≡ map h (places at) → second ≡ map h (places (at + 16)) → third ≡ map h (places (at + 32)) → last ≡ map h (places (at + 48))
        → (k : ℕ) → k < 64 → bit_at result k ≡ (if not (h (at + k) == 0) then 1 else 0) }
{
    of_64(bits(first), bits(second), bits(third), bits(last))
}

/// The bits of four times 16 places, one after the other, as those of 64.
#[inline(always)]
pub(crate) fn of_64(first: u64, second: u64, third: u64, last: u64) -> u64
    requires few { (first < 65536) × (second < 65536) × (third < 65536) × (last < 65536) }
    ensures { (p : ℕ → Bool) (at : ℕ) → first ≡ bits_at p at → second ≡ bits_at p (at + 16) → third ≡ bits_at p (at + 32) → last ≡ bits_at p (at + 48)
        → (k : ℕ) → k < 64 → bit_at result k ≡ (if p (at + k) then 1 else 0) }
{
    ((last * 0x1_0000 + third) * 0x1_0000 + second) * 0x1_0000 + first
}

/// What is left of bits without the lowest that is set.
#[inline(always)]
pub fn without_lowest(set: u64) -> u64
    requires { 0 < set }
    ensures fewer { result < set }
    ensures others { (place : ℕ) → bit_at set place ≡ 1 → ((k : ℕ) → k < place → bit_at set k ≡ 0)
        → (bit_at result place ≡ 0) × ((k : ℕ) → k ≢ place → bit_at result k ≡ bit_at set k) }
{
    set & (set - 1)
}
