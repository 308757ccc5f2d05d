ghost use Rattle.std.specs.Prelude.{◌≡◌, ◌≤◌, ◌↔◌, [], IsTrue, IsSome, IfSome, length, take};
ghost use Rattle.nf_utf8.specs.Subpart.{IsSubpart};
ghost use Rattle.nf_utf8.specs.Carry.{bytes_of};
ghost use Rattle.nf_utf8.specs.Tells.{Tells, subpart_after};
ghost use Rattle.nf_utf8.specs.Front.{IsFront};

use crate::front::Front;
use crate::sequence::{self, is_continuation, is_second};
use crate::step::Step;

/// The bytes of a begun character.
#[derive(Clone, Copy, Debug)]
pub enum Carry {
    Empty,
    One(u8),
    Two(u8, u8),
    Three(u8, u8, u8),
}

impl Carry {
    /// These bytes, where they begin a character or are none.
    pub fn holding(bytes: &[u8]) -> Option<Carry>
        ensures some { IsSome result ↔ IsSubpart bytes.now }
        ensures bytes { IfSome result (λ carry. bytes_of carry ≡ bytes.now) }
    {
        match *bytes {
            [] => Some(Carry::Empty),
            [a @ 0xC2..=0xF4] => Some(Carry::One(a)),
            [a @ 0xE0..=0xF4, b] if is_second(a, b) => Some(Carry::Two(a, b)),
            [a @ 0xF0..=0xF4, b, c] if is_second(a, b) && is_continuation(c) => {
                Some(Carry::Three(a, b, c))
            }
            _ => None,
        }
    }

    /// The bytes, at the front of the array, and how many they are.
    pub fn bytes(self) -> ([u8; 3], usize)
        ensures bytes { take result.1 result.0 ≡ bytes_of self }
        ensures few { result.1 ≤ 3 }
    {
        match self {
            Carry::Empty => ([0, 0, 0], 0),
            Carry::One(a) => ([a, 0, 0], 1),
            Carry::Two(a, b) => ([a, b, 0], 2),
            Carry::Three(a, b, c) => ([a, b, c], 3),
        }
    }

    #[inline]
    pub fn len(self) -> usize
        ensures count { result ≡ length (bytes_of self) }
        ensures few { result ≤ 3 }
    {
        match self {
            Carry::Empty => 0,
            Carry::One(..) => 1,
            Carry::Two(..) => 2,
            Carry::Three(..) => 3,
        }
    }

    #[inline]
    pub fn is_empty(self) -> bool
        ensures { IsTrue result ↔ (bytes_of self ≡ []) }
    {
        matches!(self, Carry::Empty)
    }

    /// What `byte` tells after these.
    #[inline(always)]
    pub fn step(self, byte: u8) -> Step
        requires { IsSubpart (bytes_of self) }
        ensures { Tells (bytes_of self) byte result }
    {
        match self {
            Carry::Empty => sequence::first(byte),
            Carry::One(a) => sequence::second(a, byte),
            Carry::Two(a, b) => sequence::third(a, b, byte),
            Carry::Three(a, b, c) => sequence::fourth(a, b, c, byte),
        }
    }

    /// The bytes of a begun character once `byte` has told this step.
    #[inline(always)]
    pub fn after(self, byte: u8, step: Step) -> Carry
        requires { Tells (bytes_of self) byte step }
        ensures { bytes_of result ≡ subpart_after (bytes_of self) byte step }
    {
        match step {
            Step::More => match self {
                Carry::Empty => Carry::One(byte),
                Carry::One(a) => Carry::Two(a, byte),
                Carry::Two(a, b) => Carry::Three(a, b, byte),
                Carry::Three(..) => unreachable!(),
            },
            Step::Char(_) | Step::Bad { .. } => Carry::Empty,
        }
    }

    /// What `bytes` tell after these, up to the byte that completes the character or is bad.
    #[inline(always)]
    pub fn front(self, bytes: &[u8]) -> Front
        requires { IsSubpart (bytes_of self) }
        ensures { IsFront (bytes_of self) bytes.now result }
    {
        let mut carry = self;
        for (at, byte) in bytes.iter().enumerate() {
            let step = carry.step(*byte);
            match step {
                Step::More => carry = carry.after(*byte, step),
                Step::Char(c) => return Front::Char { c, len: at + 1 },
                Step::Bad { back } => return Front::Bad { at, back },
            }
        }
        Front::Begun(carry)
    }
}
