//! The two bytes after a lead byte, of scripts of which pairs of bytes tell little.

ghost use Rattle.std.specs.Prelude.{◌≡◌, ◌<◌, ◌+◌, ℕ, length, IfSome};
ghost use Rattle.std.specs.Int.{bit_at};
ghost use Rattle.nf_lanes.specs.Scripts.{IsAfter, IsToldInScript};

use crate::looks::{found_after, found_by_pairs};
use crate::sets::Pairs;

/// Families for the two bytes after a lead byte: a character that they find there has to be looked up; and one of pairs.
pub struct Scripts {
    /// Of characters of two bytes.
    pub narrow: Pairs,
    /// After E0 and a byte below B0: from Samaritan to Tamil.
    pub indic: Pairs,
    /// After E0 and a byte from B0 to B7: from Telugu to Sinhala.
    pub southern: Pairs,
    /// After E0 and a byte from B8 on: Thai, Lao and Tibetan.
    pub thai: Pairs,
    /// After E1: from Burmese to letters of Latin and Greek with marks.
    pub letters: Pairs,
    /// After E3: kana, and the punctuation of Chinese and Japanese.
    pub kana: Pairs,
}

/// Of the bits of 63 bytes from `at` on, the lowest for the first, those that are still found where the bytes after the lead byte of
/// the first of them are asked, or pairs, where that begins two bytes; all where none is asked after that.
#[inline(always)]
pub(crate) fn found_in_script(found: u64, scripts: &Scripts, bytes: &[u8], at: usize) -> u64
    requires room { at + 65 < length bytes.now }
    ensures fewer { (k : ℕ) → bit_at result k ≡ 1 → bit_at found k ≡ 1 }
    ensures told { (k : ℕ) → k < 63 → bit_at found k ≡ 1 → bit_at result k ≡ 0 → IsToldInScript scripts.now bytes.now (at + k) }
{
    if found == 0 {
        return 0;
    }
    let first = at + found.trailing_zeros() as usize;
    let lead = bytes[first];
    if lead < 0xE0 {
        return found_by_pairs(found, &scripts.narrow, bytes, at);
    }
    let Some(family) = family_after(scripts, lead, bytes[first + 1]) else {
        return found;
    };
    found_after(found, lead, family, bytes, at)
}

/// The family that is asked after these two bytes.
#[inline(always)]
fn family_after(scripts: &Scripts, lead: u8, next: u8) -> Option<&Pairs>
    ensures { IfSome result (λ family. IsAfter scripts.now lead family.now) }
{
    match lead {
        0xE0 if next < 0xB0 => Some(&scripts.indic),
        0xE0 if next < 0xB8 => Some(&scripts.southern),
        0xE0 => Some(&scripts.thai),
        0xE1 => Some(&scripts.letters),
        0xE3 => Some(&scripts.kana),
        _ => None,
    }
}
