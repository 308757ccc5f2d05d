ghost use Rattle.std.specs.Prelude.{◌≡◌, ◌<◌, ◌≤◌, ◌+◌, ℕ, List, ◌↔◌, ◌++◌, Option, false, IsSome, IfSome, IfOk, IfErr, [], length, take, drop, encode_utf8_all};

use crate::carry::Carry;
use crate::chunk::{Chunk, End, IllFormed, NextText};
use crate::front::{Front, subpart_len};
use crate::lossy::{LossyText, lossy_front, lossy_text, put_char};
use crate::step::Step;
use crate::valid::valid_len;
use std::marker::Model;

/// Reads UTF-8 byte by byte, or piece by piece. Its value is the bytes that it holds: those of a begun character.
#[derive(Clone, Copy, Debug)]
pub struct Decoder {
    carry: Carry,
}

impl Model for Decoder {
    ghost use Rattle.std.specs.Prelude.{ℕ, List};
    ghost use Rattle.nf_utf8.specs.Subpart.{IsSubpart};
    ghost use Rattle.nf_utf8.specs.Carry.{bytes_of, carry_of, carry_of-bytes_of};

    ghost Value = { List ℕ };

    ghost view = { λ d. bytes_of d.carry };

    ghost invariant = { λ d. IsSubpart (bytes_of d.carry) };

    ghost inverse = { λ bytes. record { carry = carry_of bytes } };

    ghost inverse_ok = { λ d h. λ i. record { carry = carry_of-bytes_of d.carry i } };
}

impl Decoder {
    ghost use Rattle.nf_utf8.specs.Subpart.{IsSubpart};
    ghost use Rattle.nf_utf8.specs.declared.chunk.End.{End};
    ghost use Rattle.nf_utf8.specs.Reading.{text_of, ending_of};
    ghost use Rattle.nf_utf8.specs.Standing.{StandsAfter, Answers, bytes_after, ending_at};
    ghost use Rattle.nf_utf8.specs.Taking.{Takes, bytes_after_piece, first_len, Counts};
    ghost use Rattle.nf_utf8.specs.Front.{Completes, CanEnd, EndsBy};
    ghost use Rattle.nf_utf8.specs.Ending.{Bad as EndsBad};
    ghost use Rattle.nf_utf8.specs.Left.{ReadsNext};

    /// A decoder that was given nothing.
    #[inline]
    #[tactic(auto, using(crate::proofs::StandingLemmas::stands_new))]
    pub const fn new() -> Decoder
        ensures { StandsAfter result [] }
    {
        Decoder {
            carry: Carry::Empty,
        }
    }

    /// A decoder that holds these bytes; none unless they begin a character or there are none.
    pub fn holding(bytes: &[u8]) -> Option<Decoder>
        ensures some { IsSome result ↔ IsSubpart bytes.now }
        ensures holds { IfSome result (λ decoder. decoder ≡ bytes.now) }
    {
        let carry = Carry::holding(bytes)?;
        Some(Decoder { carry })
    }

    /// The bytes that it holds, at the front of the array, and how many they are.
    pub fn held(&self) -> ([u8; 3], usize)
        ensures bytes { take result.1 result.0 ≡ self.now }
        ensures few { result.1 ≤ 3 }
        ensures part { IsSubpart self.now }
    {
        self.carry.bytes()
    }

    /// Takes one byte. After a bad byte the decoder is as a new one: that byte was not kept, and pushed again it
    /// is taken as a first byte.
    #[inline]
    pub fn push(&mut self, byte: u8) -> Step
        ensures answer { (bytes : List ℕ) → StandsAfter self.old bytes → Answers bytes byte result }
        ensures only { (bytes : List ℕ) (step : Step) → StandsAfter self.old bytes → Answers bytes byte step → step ≡ result }
        ensures stands { (bytes : List ℕ) → StandsAfter self.old bytes → StandsAfter self.new (bytes_after bytes byte result) }
    {
        if self.carry.is_empty() && byte < 0x80 {
            return Step::Char(char::from(byte));
        }
        self.push_any(byte)
    }

    /// How many bytes it holds (0 to 3): those after the text read.
    #[inline]
    pub fn carried(&self) -> usize
        ensures after { (bytes : List ℕ) → StandsAfter self.now bytes → length (encode_utf8_all (text_of bytes)) + result ≡ length bytes }
        ensures ending { (bytes : List ℕ) → StandsAfter self.now bytes → ending_of bytes ≡ ending_at (length bytes) result }
        ensures few { result ≤ 3 }

        // It counts the value, and each decoder stands after some bytes.
        ensures count { result ≡ length self.now }
        ensures alone { StandsAfter self.now self.now }
    {
        self.carry.len()
    }

    /// Takes a piece, or what of it stands before a bad byte: the same as to push these bytes, in one pass.
    ///
    /// After a bad byte the decoder is as a new one. The bytes further on were not read, so that to take the rest of
    /// the piece again after each of many bad bytes costs no more than a few passes, and a constant for each.
    pub fn take<'p>(&mut self, piece: &'p [u8]) -> Chunk<'p>
        ensures takes { (bytes : List ℕ) → StandsAfter self.old bytes → Takes bytes piece.now result.first result.text.now result.end }
        ensures only { (bytes : List ℕ) (first : Option ℕ) (text : List ℕ) (end : End) → StandsAfter self.old bytes → Takes bytes piece.now first text end
            → (first ≡ result.first) × (text ≡ result.text.now) × (end ≡ result.end) }
        ensures stands { (bytes : List ℕ) → StandsAfter self.old bytes → StandsAfter self.new (bytes_after_piece bytes piece.now result.end) }

        // Where the text stands in the piece, and how many bytes there are of each.
        ensures inside { first_len self.old result.first + length result.text.now ≤ length piece.now }
        ensures text { result.text.now ≡ take (length result.text.now) (drop (first_len self.old result.first) piece.now) }
        ensures counts { Counts self.old piece.now result.first result.text.now result.end self.new }
    {
        if self.carry.is_empty() {
            return self.take_text(None, piece, 0);
        }
        match self.carry.front(piece) {
            Front::Char { c, len } => self.take_text(Some(c), piece, len),
            front => Chunk {
                first: None,
                text: "",
                end: self.end(front, 0),
            },
        }
    }

    /// Takes the piece from `from` on, after the character that is completed there.
    fn take_text<'p>(&mut self, first: Option<char>, piece: &'p [u8], from: usize) -> Chunk<'p>
        requires { from ≤ length piece.now }
        ensures takes { (held bytes : List ℕ) → Completes held piece.now first from → StandsAfter held bytes
            → Takes bytes piece.now result.first result.text.now result.end }
        ensures stands { (held bytes : List ℕ) → Completes held piece.now first from → StandsAfter held bytes
            → StandsAfter self.new (bytes_after_piece bytes piece.now result.end) }
        ensures first { result.first ≡ first }
        ensures inside { from + length result.text.now ≤ length piece.now }
        ensures text { result.text.now ≡ take (length result.text.now) (drop from piece.now) }
        ensures counts { (held : List ℕ) → Completes held piece.now first from → Counts held piece.now result.first result.text.now result.end self.new }
    {
        let rest = &piece[from..];
        let (front, after) = rest.split_at(valid_len(rest));
        let text = unsafe { std::str::from_utf8_unchecked(front) };
        Chunk {
            first,
            text,
            end: self.end(Carry::Empty.front(after), from + text.len()),
        }
    }

    /// Reads the next text of a piece: the character that the piece completes, or as much well-formed text as stands at its
    /// front. Where ill-formed bytes are replaced, also U+FFFD for each maximal subpart of an ill-formed sequence (The Unicode
    /// Standard, section 3.9), of many at once where little text stands between them. The text stands in the piece, or in
    /// the room, which is overwritten; there is none where the piece ends inside a character. Where they are not replaced a
    /// bad byte at the front is refused, and the decoder stays as it was.
    pub fn next_text<'t>(
        &mut self,
        replace: bool,
        piece: &'t [u8],
        room: &'t mut LossyText,
    ) -> Result<NextText<'t>, IllFormed>
        ensures part { IsSubpart self.new }
        ensures reads { IfOk result (λ next. ReadsNext replace self.old piece.now next.text.now next.len self.new) }
        ensures bad { IfErr result (λ bad. (replace ≡ false) × (bad.at < length piece.now) × (text_of (self.old ++ piece.now) ≡ [])
            × (ending_of (self.old ++ piece.now) ≡ EndsBad (length self.old + bad.at) 0)) }
        ensures stays { IfErr result (λ bad. self.new ≡ self.old) }
    {
        if self.carry.is_empty() {
            if replace {
                let replaced = lossy_front(piece, room);
                if replaced > 0 {
                    let text = lossy_text(room);
                    return Ok(NextText {
                        text,
                        len: replaced,
                    });
                }
            }
            let len = valid_len(piece);
            if len > 0 {
                let text = unsafe { std::str::from_utf8_unchecked(&piece[..len]) };
                return Ok(NextText { text, len });
            }
        }
        let front = self.carry.front(piece);
        match front {
            Front::Char { c, len } => {
                self.carry = Carry::Empty;
                let text = put_char(c, room);
                Ok(NextText { text, len })
            }
            Front::Begun(begun) => {
                self.carry = begun;
                Ok(NextText {
                    text: "",
                    len: piece.len(),
                })
            }
            Front::Bad { at, back } if replace => {
                self.carry = Carry::Empty;
                Ok(NextText {
                    text: "\u{FFFD}",
                    len: subpart_len(at, back),
                })
            }
            Front::Bad { at, .. } => Err(IllFormed { at }),
        }
    }

    /// Ends a piece with what stands after its first `skipped` bytes.
    fn end(&mut self, front: Front, skipped: usize) -> End
        requires { CanEnd front skipped }
        ensures { EndsBy front skipped result self.new }
    {
        match front {
            Front::Begun(carry) => {
                self.carry = carry;
                if carry.is_empty() {
                    End::Whole
                } else {
                    End::Cut
                }
            }
            Front::Bad { at, back } => {
                self.carry = Carry::Empty;
                End::Bad {
                    at: skipped + at,
                    back,
                }
            }
            Front::Char { .. } => unreachable!(),
        }
    }

    /// The same as `push`, out of line, so that its callers hold the test for ASCII alone.
    #[inline(never)]
    fn push_any(&mut self, byte: u8) -> Step
        ensures answer { (bytes : List ℕ) → StandsAfter self.old bytes → Answers bytes byte result }
        ensures stands { (bytes : List ℕ) → StandsAfter self.old bytes → StandsAfter self.new (bytes_after bytes byte result) }
    {
        let step = self.carry.step(byte);
        self.carry = self.carry.after(byte, step);
        step
    }
}

impl Default for Decoder {
    ghost use Rattle.nf_utf8.specs.Standing.{StandsAfter};

    ghost is_default = { λ d. StandsAfter d [] };

    fn default() -> Decoder {
        Decoder::new()
    }
}
