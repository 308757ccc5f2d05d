//! Whether a character is assigned, by one look-up.

ghost use Rattle.std.specs.Prelude.{◌≡◌, ◌<◌, ◌≤◌, ◌+◌, ◌++◌, ℕ, List, length, slice_index, drop, encode_utf8};
ghost use Rattle.nf_forms.specs.Ucd.{is_assigned};

use crate::table::{UNASSIGNED, value};

/// Whether the character that begins at a place of a text is assigned (The Unicode Standard, section 2.4: general category other
/// than Cn), where it is not ASCII and at least four bytes stand from there on.
#[inline(always)]
pub fn is_assigned_at(text: &str, place: usize) -> bool
    requires lead { 0xC0 ≤ slice_index text.now place }
    requires fits { place + 3 < length text.now }
    ensures { (c : ℕ) (rest : List ℕ) → drop place text.now ≡ encode_utf8 c ++ rest → result ≡ is_assigned c }
{
    let bytes = text.as_bytes();
    let lead = bytes[place];
    let two = u32::from(lead) % 32 * 64 + u32::from(bytes[place + 1]) % 64;
    if lead < 0xE0 {
        return value(two) != UNASSIGNED;
    }
    let three = two * 64 + u32::from(bytes[place + 2]) % 64;
    if lead < 0xF0 {
        return value(three % 0x1_0000) != UNASSIGNED;
    }
    let four = (three * 64 + u32::from(bytes[place + 3]) % 64) % 0x20_0000;
    value(four) != UNASSIGNED
}
