//! Ill-formed parts with little text between them, replaced many at once: to take each stretch of text and each part by
//! itself costs far more than to copy them.

ghost use Rattle.std.specs.Prelude.{◌≡◌, ◌+◌, ◌<◌, ◌≤◌, true, ℕ, [], ◌++◌, IsNone, IfSome, chars, take, drop, encode_utf8, length};
ghost use Rattle.std.specs.Str.{IsUtf8};
ghost use Rattle.std.specs.Str.Lossy.{replacement_bytes};
ghost use Rattle.nf_utf8.specs.Left.{IsLeft};
ghost use Rattle.nf_utf8.specs.Lossy.{IsStretch, IsPut};

use crate::ascii::ascii_prefix;
use crate::carry::Carry;
use crate::front::Front;
use std::marker::Model;
use std::simd::prelude::*;

/// How many bytes the room has.
const ROOM: usize = 1024;

/// Room for the UTF-8 of replaced text.
#[derive(Drop)]
pub struct LossyText {
    bytes: [u8; ROOM],
    /// How many of them are text.
    len: usize,
}

impl Model for LossyText {
    ghost use Rattle.std.specs.Prelude.{◌≤◌, take};
    ghost use Rattle.nf_utf8.specs.Room.{Room};

    ghost Value = { Room };

    ghost view = { λ room. record { items = take room.len room.bytes } };

    ghost invariant = { λ room. room.len ≤ 1024 };
}

impl LossyText {
    #[inline]
    pub fn new() -> LossyText
        ensures { result.items ≡ [] }
    {
        LossyText {
            bytes: [0; ROOM],
            len: 0,
        }
    }
}

/// How far is looked for the end of an ill-formed part. Where it is farther off, to take the text as it stands costs less.
const NEAR: usize = 64;

/// U+FFFD in UTF-8.
const REPLACEMENT: [u8; 3] = [0xEF, 0xBF, 0xBD];

/// Text, and the ill-formed part after it.
#[derive(Clone, Copy)]
struct Stretch {
    /// How many bytes the text has.
    text: usize,
    /// How many both have.
    len: usize,
}

/// A front of the bytes, up to the end of an ill-formed part, as the text that it gives where each maximal subpart of an
/// ill-formed sequence is read as U+FFFD (The Unicode Standard, section 3.9). That text is put into `lossy`, in place of what
/// it holds. Answers how many bytes the front has: none where no ill-formed part is near.
pub fn lossy_front(bytes: &[u8], lossy: &mut LossyText) -> usize
    ensures text { IsUtf8 lossy.new.items }
    ensures left { IsLeft true bytes.now (chars lossy.new.items) result (drop result bytes.now) }
    ensures within { result ≤ length bytes.now }
{
    let mut len = 0;
    let mut text = 0;
    while text <= ROOM - NEAR - REPLACEMENT.len() {
        let Some(stretch) = put_stretch(&bytes[len..], &mut lossy.bytes, text) else {
            break;
        };
        len += stretch.len;
        text = text + stretch.text + REPLACEMENT.len();
    }
    lossy.len = text;
    len
}

/// The text that was replaced.
pub fn lossy_text(lossy: &LossyText) -> &str
    requires { IsUtf8 lossy.now.items }
    ensures { result.now ≡ lossy.now.items }
{
    unsafe { std::str::from_utf8_unchecked(&lossy.bytes[..lossy.len]) }
}

/// Puts the character alone.
pub fn put_char(c: char, lossy: &mut LossyText) -> &str
    ensures { result.now ≡ encode_utf8 c }
{
    let mut bytes = [0; 4];
    let text = c.encode_utf8(&mut bytes);
    lossy.bytes[..text.len()].copy_from_slice(text.as_bytes());
    lossy.len = text.len();
    lossy_text(lossy)
}

/// The text that the bytes begin with, which may be none, and the ill-formed part after it, where that is near.
fn short_stretch(bytes: &[u8]) -> Option<Stretch>
    ensures is { IfSome result (λ stretch. IsStretch bytes.now stretch) }
    ensures few { IfSome result (λ stretch. stretch.text ≤ 64) }
{
    let near = &bytes[..bytes.len().min(NEAR)];
    let Err(error) = std::str::from_utf8(near) else {
        return None;
    };
    let text = error.valid_up_to();
    let part = error.error_len()?;
    Some(Stretch {
        text,
        len: text + part,
    })
}

/// Puts the next stretch into the room from `at` on, as text. None where no ill-formed part is near.
#[inline(always)]
fn put_stretch(bytes: &[u8], room: &mut [u8; ROOM], at: usize) -> Option<Stretch>
    requires { at + 67 ≤ 1024 }
    ensures some { IfSome result (λ stretch. IsPut bytes.now room.old at stretch room.new) }
    ensures none { IsNone result → room.new ≡ room.old }
{
    if bytes.len() < NEAR + 8 {
        return put_short(bytes, room, at);
    }
    let ascii = ascii_prefix(&bytes[..NEAR]);
    if ascii == NEAR {
        return None;
    }
    let Some(stretch) = ascii_stretch(bytes, ascii) else {
        return put_short(bytes, room, at);
    };
    // More bytes are copied than are kept: so many at once cost least.
    put_lanes(room, at, bytes);
    put_replacement(room, at + stretch.text);
    Some(stretch)
}

/// The same, out of line: little text is most often ASCII.
#[inline(never)]
fn put_short(bytes: &[u8], room: &mut [u8; ROOM], at: usize) -> Option<Stretch>
    requires { at + 67 ≤ 1024 }
    ensures some { IfSome result (λ stretch. IsPut bytes.now room.old at stretch room.new) }
    ensures none { IsNone result → room.new ≡ room.old }
{
    let stretch = short_stretch(bytes)?;
    room[at..at + stretch.text].copy_from_slice(&bytes[..stretch.text]);
    put_replacement(room, at + stretch.text);
    Some(stretch)
}

/// A short stretch whose text is so many bytes of ASCII, and maybe one other character.
#[inline(always)]
fn ascii_stretch(bytes: &[u8], ascii: usize) -> Option<Stretch>
    requires room { 72 ≤ length bytes.now }
    requires few { ascii ≤ 64 }
    requires utf8 { IsUtf8 (take ascii bytes.now) }
    ensures is { IfSome result (λ stretch. IsStretch bytes.now stretch) }
    ensures few { IfSome result (λ stretch. stretch.text ≤ 64) }
{
    match Carry::Empty.front(&bytes[ascii..ascii + 4]) {
        Front::Bad { at, .. } => Some(Stretch {
            text: ascii,
            len: ascii + at.max(1),
        }),
        Front::Char { len, .. } if ascii + len <= NEAR => stretch_after(bytes, ascii + len),
        _ => None,
    }
}

/// The stretch of so many bytes of text, where what stands after them is ill-formed.
#[inline(always)]
fn stretch_after(bytes: &[u8], text: usize) -> Option<Stretch>
    requires room { text + 4 ≤ length bytes.now }
    requires utf8 { IsUtf8 (take text bytes.now) }
    ensures { IfSome result (λ stretch. IsStretch bytes.now stretch × (stretch.text ≡ text)) }
{
    match Carry::Empty.front(&bytes[text..text + 4]) {
        Front::Bad { at, .. } => Some(Stretch {
            text,
            len: text + at.max(1),
        }),
        _ => None,
    }
}

/// Puts as many of the bytes into the room from `at` on as are moved at once.
#[inline(always)]
fn put_lanes(room: &mut [u8; ROOM], at: usize, bytes: &[u8])
    requires bytes { 64 ≤ length bytes.now }
    requires fits { at + 64 ≤ 1024 }
    ensures { (n : ℕ) → n ≤ 64 → take (at + n) room.new ≡ take at room.old ++ take n bytes.now }
{
    u8x64::from_slice(bytes).copy_to_slice(&mut room[at..at + NEAR]);
}

/// Puts U+FFFD into the room at `at`.
#[inline(always)]
fn put_replacement(room: &mut [u8; ROOM], at: usize)
    requires { at + 3 ≤ 1024 }
    ensures { take (at + 3) room.new ≡ take at room.old ++ replacement_bytes }
{
    room[at] = REPLACEMENT[0];
    room[at + 1] = REPLACEMENT[1];
    room[at + 2] = REPLACEMENT[2];
}
