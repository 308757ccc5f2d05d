//! The byte sequences of one character (The Unicode Standard, section 3.9, Table 3-7).

ghost use Rattle.std.specs.Prelude.{◌≡◌, ◌≤◌, [], ◌∷◌, ◌↔◌, IsTrue, encode_utf8};
ghost use Rattle.std.specs.Int.{IsInRange};
ghost use Rattle.nf_utf8.specs.Subpart.{IsSecond, IsContinuation, IsSubpart};
ghost use Rattle.nf_utf8.specs.Tells.{Tells};

use crate::step::Step;

#[inline(always)]
pub fn first(byte: u8) -> Step
    ensures { Tells [] byte result }
{
    match byte {
        0x00..=0x7F => Step::Char(char::from(byte)),
        0xC2..=0xF4 => Step::More,
        _ => Step::Bad { back: 0 },
    }
}

#[inline(always)]
pub fn second(a: u8, byte: u8) -> Step
    requires { IsSubpart (a ∷ []) }
    ensures { Tells (a ∷ []) byte result }
{
    if !is_second(a, byte) {
        Step::Bad { back: 1 }
    } else if a < 0xE0 {
        Step::Char(char_of_two(a, byte))
    } else {
        Step::More
    }
}

#[inline(always)]
pub fn third(a: u8, b: u8, byte: u8) -> Step
    requires { IsSubpart (a ∷ b ∷ []) }
    ensures { Tells (a ∷ b ∷ []) byte result }
{
    if !is_continuation(byte) {
        Step::Bad { back: 2 }
    } else if a < 0xF0 {
        Step::Char(char_of_three(a, b, byte))
    } else {
        Step::More
    }
}

#[inline(always)]
pub fn fourth(a: u8, b: u8, c: u8, byte: u8) -> Step
    requires { IsSubpart (a ∷ b ∷ c ∷ []) }
    ensures { Tells (a ∷ b ∷ c ∷ []) byte result }
{
    if is_continuation(byte) {
        Step::Char(char_of_four(a, b, c, byte))
    } else {
        Step::Bad { back: 3 }
    }
}

#[inline(always)]
pub fn is_second(first: u8, byte: u8) -> bool
    ensures { IsTrue result ↔ IsSecond first byte }
{
    is_continuation(byte)
        && match first {
            0xE0 => byte >= 0xA0,
            0xED => byte < 0xA0,
            0xF0 => byte >= 0x90,
            0xF4 => byte < 0x90,
            _ => true,
        }
}

#[inline(always)]
pub fn is_continuation(byte: u8) -> bool
    ensures { IsTrue result ↔ IsContinuation byte }
{
    matches!(byte, 0x80..=0xBF)
}

#[inline(always)]
#[tactic(auto, using(crate::proofs::Common::nat_tests, crate::proofs::Common::two))]
fn char_of_two(a: u8, b: u8) -> char
    requires first { IsInRange 0xC2 0xDF a }
    requires second { IsContinuation b }
    ensures { a ∷ b ∷ [] ≡ encode_utf8 result }
{
    let code = (u32::from(a) - 0xC0) * 0x40 + (u32::from(b) - 0x80);
    char::from_u32(code).unwrap()
}

#[inline(always)]
#[tactic(auto, using(crate::proofs::Common::nat_tests, crate::proofs::Common::three))]
fn char_of_three(a: u8, b: u8, c: u8) -> char
    requires first { IsInRange 0xE0 0xEF a }
    requires second { IsSecond a b }
    requires third { IsContinuation c }
    ensures { a ∷ b ∷ c ∷ [] ≡ encode_utf8 result }
{
    let code = (u32::from(a) - 0xE0) * 0x1000
        + (u32::from(b) - 0x80) * 0x40
        + (u32::from(c) - 0x80);
    char::from_u32(code).unwrap()
}

#[inline(always)]
#[tactic(auto, using(crate::proofs::Common::nat_tests, crate::proofs::Common::four))]
fn char_of_four(a: u8, b: u8, c: u8, d: u8) -> char
    requires first { IsInRange 0xF0 0xF4 a }
    requires second { IsSecond a b }
    requires third { IsContinuation c }
    requires fourth { IsContinuation d }
    ensures { a ∷ b ∷ c ∷ d ∷ [] ≡ encode_utf8 result }
{
    let code = (u32::from(a) - 0xF0) * 0x4_0000
        + (u32::from(b) - 0x80) * 0x1000
        + (u32::from(c) - 0x80) * 0x40
        + (u32::from(d) - 0x80);
    char::from_u32(code).unwrap()
}
