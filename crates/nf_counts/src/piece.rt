//! What a text begins with, by its bytes.

ghost use Rattle.std.specs.Prelude.{◌≡◌, ◌<◌, ◌≤◌, ℕ, length, slice_index};
ghost use Rattle.nf_forms.specs.Ucd.{ucd};
ghost use Rattle.nf_counts.specs.Piece.{IsPiece};

use crate::table::{MARK, value};
use nf_facts::laws;
use nf_utf8::ascii_prefix;

/// The lead byte of U+0300 to U+033F, each of them a non-starter.
const MARKS: u8 = 0xCC;

/// Characters at the front of a text, and the value of their compatibility decomposition.
#[derive(Clone, Copy)]
pub(crate) struct Piece {
    /// How many bytes it has.
    pub len: usize,
    pub value: u32,
}

/// What a text that is not empty begins with: ASCII, or a character.
#[inline(always)]
pub(crate) fn first_piece(text: &str) -> Piece
    requires { 0 < length text.now }
    ensures { IsPiece ucd text.now result }
{
    laws::every_character_is_sound();
    let bytes = text.as_bytes();
    if bytes[0] >= 0x80 {
        return first_character(text, if bytes.len() > 2 { bytes[2] } else { 0 });
    }
    Piece {
        len: ascii_prefix(bytes),
        value: 0,
    }
}

/// The character that a text begins with, where it is not ASCII; `third` is the third byte of the text, if it has one, so that
/// no branch hangs on whether there are two or three.
#[inline(always)]
pub(crate) fn first_character(text: &str, third: u8) -> Piece
    requires high { 0x80 ≤ slice_index text.now 0 }
    requires third { 2 < length text.now → third ≡ slice_index text.now 2 }
    ensures piece { IsPiece ucd text.now result }
    ensures one { (k : ℕ) → 0 < k → k < result.len → slice_index text.now k < 0xC0 }
{
    laws::every_character_is_sound();
    let bytes = text.as_bytes();
    let lead = bytes[0];
    if lead == MARKS {
        return Piece {
            len: 2,
            value: MARK,
        };
    }
    let bits = (u32::from(lead) % 32 * 64 + u32::from(bytes[1]) % 64) * 64 + u32::from(third) % 64;
    if lead >= 0xF0 {
        let code = (bits * 64 + u32::from(bytes[3]) % 64) % 0x20_0000;
        let value = value(code);
        return Piece { len: 4, value };
    }
    let (len, code) = if lead >= 0xE0 {
        (3, bits % 0x1_0000)
    } else {
        (2, bits / 64)
    };
    let value = value(code);
    Piece { len, value }
}
