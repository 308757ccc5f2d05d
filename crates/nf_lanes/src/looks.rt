//! Pairs of bytes at which a text is looked up, many at once.

ghost use Rattle.std.specs.Prelude.{◌≡◌, ◌<◌, ◌≤◌, ◌+◌, ◌⊎◌, ◌^◌, ◌*◌, ℕ, IsTrue, length, slice_index, if◌then◌else◌};
ghost use Rattle.std.specs.Int.{bit_at};
ghost use Rattle.nf_lanes.specs.Scripts.{IsToldInScript};
ghost use Rattle.nf_lanes.specs.Lanes.{bits_at};
ghost use Rattle.nf_lanes.specs.Looks.{is_in, at_pair, left_after, NoneFound, NoneAfter};

use crate::lanes::{at_least, bits, bits_of_64, none_of, of_64};
use crate::scripts::{Scripts, found_in_script};
use crate::sets::{Pairs, pair_sets};
use std::simd::u8x16;

/// Of so few characters no family is asked where the first is Latin: of these most that are not ASCII have to be looked up.
const MIN_LEADS: u32 = 22;

/// Whether no pair is in the family that one of 63 bytes from `at` on begins, or the byte after it.
#[inline(always)]
pub fn none_found(family: &Pairs, bytes: &[u8], at: usize) -> bool
    requires room { at + 64 < length bytes.now }
    ensures { IsTrue result → (k : ℕ) → k < 63 → NoneFound (is_in family.now) bytes.now (at + k) }
{
    none_of(
        pair_sets(family, bytes, at),
        pair_sets(family, bytes, at + 16),
        pair_sets(family, bytes, at + 32),
        pair_sets(family, bytes, at + 48),
    )
}

/// A bit for each of 63 bytes from `at` on, the lowest for the first: of those that begin more bytes than one, each that has to be
/// looked up. Of a few of Latin all are set. Else, where the first is of no script that has a family, `wide` is asked; and then the
/// family of the script of the first that is left.
#[inline(always)]
pub fn found_leads(wide: &Pairs, scripts: &Scripts, bytes: &[u8], at: usize) -> u64
    requires room { at + 65 < length bytes.now }
    ensures leads { (k : ℕ) → k < 64 → bit_at result k ≡ 1 → (k < 63) × (0xC0 ≤ slice_index bytes.now (at + k)) }
    ensures told { (k : ℕ) → k < 63 → bit_at result k ≡ 0 → 0xC0 ≤ slice_index bytes.now (at + k)
        → NoneFound (is_in wide.now) bytes.now (at + k) ⊎ IsToldInScript scripts.now bytes.now (at + k) }
{
    let leads = lead_bits(bytes, at);
    let first = at + leads.trailing_zeros() as usize;
    let pair = u16::from_be_bytes([bytes[first], bytes[first + 1]]);
    // From U+0380 to U+1DFF the families of scripts tell of most.
    let found = if matches!(pair, 0xCE80..=0xE1B7) {
        leads
    } else if pair < 0xE300 && leads.count_ones() < MIN_LEADS {
        return leads;
    } else {
        found_by_pairs(leads, wide, bytes, at)
    };
    found_in_script(found, scripts, bytes, at)
}

/// Of the bits of 63 bytes from `at` on, the lowest for the first, those of which a pair is in the family: the pair that the byte
/// begins, or the next.
#[inline(always)]
pub fn found_by_pairs(found: u64, family: &Pairs, bytes: &[u8], at: usize) -> u64
    requires room { at + 64 < length bytes.now }
    ensures fewer { (k : ℕ) → bit_at result k ≡ 1 → bit_at found k ≡ 1 }
    ensures told { (k : ℕ) → k < 63 → bit_at found k ≡ 1 → bit_at result k ≡ 0 → NoneFound (is_in family.now) bytes.now (at + k) }
{
    let pairs = family_bits(family, bytes, at);
    found & (pairs | (pairs >> 1))
}

/// The same of the two bytes after the byte, where that is `lead`; all others are left.
#[inline(always)]
pub(crate) fn found_after(found: u64, lead: u8, family: &Pairs, bytes: &[u8], at: usize) -> u64
    requires room { at + 65 < length bytes.now }
    ensures fewer { (k : ℕ) → bit_at result k ≡ 1 → bit_at found k ≡ 1 }
    ensures told { (k : ℕ) → k < 63 → bit_at found k ≡ 1 → bit_at result k ≡ 0 → NoneAfter (is_in family.now) lead bytes.now (at + k) }
{
    let left = of_64(
        left_after(lead, family, bytes, at),
        left_after(lead, family, bytes, at + 16),
        left_after(lead, family, bytes, at + 32),
        left_after(lead, family, bytes, at + 48),
    );
    found & left
}

/// A bit for each of 16 bytes from `at` on, the lowest for the first, but each that is `lead` where the pair after it is in no set
/// of the family.
#[inline(always)]
pub fn left_after(lead: u8, family: &Pairs, bytes: &[u8], at: usize) -> u64
    requires room { at + 18 ≤ length bytes.now }
    ensures few { result < 65536 }
    ensures left { result ≡ bits_at (left_after family.now lead bytes.now) at }
{
    let others = u8x16::from_slice(&bytes[at..]) ^ u8x16::splat(lead);
    bits(others | pair_sets(family, bytes, at + 1))
}

/// A bit for each of 63 bytes from `at` on, the lowest for the first, that begins more bytes than one.
#[inline(always)]
pub fn lead_bits(bytes: &[u8], at: usize) -> u64
    requires room { at + 64 < length bytes.now }
    ensures leads { (k : ℕ) → k < 64 → bit_at result k ≡ 1 → (k < 63) × (0xC0 ≤ slice_index bytes.now (at + k)) }
    ensures all { (k : ℕ) → k < 63 → 0xC0 ≤ slice_index bytes.now (at + k) → bit_at result k ≡ 1 }
{
    let all = of_64(
        at_least(0xC0, bytes, at),
        at_least(0xC0, bytes, at + 16),
        at_least(0xC0, bytes, at + 32),
        at_least(0xC0, bytes, at + 48),
    );
    all & (u64::MAX >> 1)
}

/// A bit for each of 64 pairs from `at` on that is in a set of the family.
#[inline(always)]
fn family_bits(family: &Pairs, bytes: &[u8], at: usize) -> u64
    requires room { at + 64 < length bytes.now }
    ensures { (k : ℕ) → k < 64 → bit_at result k ≡ (if at_pair (is_in family.now) bytes.now (at + k) then 1 else 0) }
{
    bits_of_64(
        pair_sets(family, bytes, at),
        pair_sets(family, bytes, at + 16),
        pair_sets(family, bytes, at + 32),
        pair_sets(family, bytes, at + 48),
    )
}
