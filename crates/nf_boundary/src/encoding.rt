//! Characters as UTF-8 (The Unicode Standard, section 3.9, table 3-6), after bytes that are there.
ghost use Rattle.std.specs.Prelude.{◌≡◌, ◌+◌, ◌*◌, ◌≤◌, [], ◌∷◌, ◌++◌, length, encode_utf8, encode_utf8_all, IsSome, IsNone};

use crate::segments::Formed;
use arrayvec::ArrayVec;

/// Appends the UTF-8 of `c`, where there is room for the longest.
#[inline(always)]
pub(crate) fn append_one(formed: &mut Formed, c: char) -> Option<()>
    ensures some { IsSome result → formed.new.items ≡ formed.old.items ++ encode_utf8_all (c ∷ []) }
    ensures none { IsNone result → formed.new ≡ formed.old }
{
    if formed.remaining_capacity() < 4 {
        return None;
    }
    put_character(formed, c);
    Some(())
}

/// The same of some characters.
#[inline(always)]
pub(crate) fn append(formed: &mut Formed, characters: &[char]) -> Option<()>
    ensures some { IsSome result → formed.new.items ≡ formed.old.items ++ encode_utf8_all characters.now }
    ensures none { IsNone result → formed.new ≡ formed.old }
{
    if formed.remaining_capacity() / 4 < characters.len() {
        return None;
    }
    put_utf8(formed, characters);
    Some(())
}

/// Appends the UTF-8 of the characters.
#[inline]
pub fn put_utf8<const ROOM: usize>(room: &mut ArrayVec<u8, ROOM>, characters: &[char])
    requires { length room.old.items + 4 * length characters.now ≤ ROOM }
    ensures few { length room.new.items ≤ length room.old.items + 4 * length characters.now }
    ensures text { room.new.items ≡ room.old.items ++ encode_utf8_all characters.now }
{
    for c in characters {
        put_character(room, *c);
    }
}

/// Appends the UTF-8 of `c`, at most 4 bytes.
#[inline(always)]
pub(crate) fn put_character<const ROOM: usize>(room: &mut ArrayVec<u8, ROOM>, c: char)
    requires { length room.old.items + 4 ≤ ROOM }
    ensures few { length room.new.items ≤ length room.old.items + 4 }
    ensures text { room.new.items ≡ room.old.items ++ encode_utf8 c }
{
    let code = c as u32;
    if code < 0x80 {
        room.push(code as u8);
    } else if code < 0x800 {
        room.push((0xC0 + code / 64) as u8);
        room.push((0x80 + code % 64) as u8);
    } else if code < 0x1_0000 {
        room.push((0xE0 + code / 4096) as u8);
        room.push((0x80 + code / 64 % 64) as u8);
        room.push((0x80 + code % 64) as u8);
    } else {
        room.push((0xF0 + code / 262144) as u8);
        room.push((0x80 + code / 4096 % 64) as u8);
        room.push((0x80 + code / 64 % 64) as u8);
        room.push((0x80 + code % 64) as u8);
    }
}
