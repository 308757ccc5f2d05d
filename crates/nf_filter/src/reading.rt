ghost use Rattle.std.specs.Prelude.{◌<◌, ◌^◌};

use crate::fault::Fault;
use nf_utf8::{Decoder, LossyText, NextText};

/// The bytes read so far, as far as those to come ask for them.
#[derive(Clone, Copy, Debug, Drop)]
pub struct Reading {
    /// It holds the bytes of a begun character.
    pub decoder: Decoder,
    /// The offset of the next byte.
    pub offset: u64,
    ghost offset_fits: { offset < 2 ^ 64 },
}

impl Reading {
    ghost use Rattle.std.specs.Prelude.{◌≡◌, ◌+◌, ◌-◌, ◌<◌, ◌≤◌, ◌↔◌, false, ℕ, List, [], ◌∷◌, ◌++◌, length, Some, IfOk, IfErr, IsTrue};
    ghost use Rattle.nf_utf8.specs.Reading.{text_of, ending_of};
    ghost use Rattle.nf_utf8.specs.Standing.{StandsAfter};
    ghost use Rattle.nf_utf8.specs.Subpart.{IsSubpart};
    ghost use Rattle.nf_utf8.specs.Left.{ReadsNext};
    ghost use Rattle.nf_filter.specs.Faults.{answer_at_end, bad_byte};
    ghost use Rattle.nf_filter.specs.Kinds.{ill_formed, IsAmong};
    ghost use Rattle.nf_filter.specs.Surveys.{IsCut};

    /// No byte yet; the first has the offset `base`.
    pub const fn new(base: u64) -> Reading
        ensures offset { result.offset ≡ base }
        ensures decoder { StandsAfter result.decoder [] }
    {
        Reading {
            decoder: Decoder::new(),
            offset: base,
        }
    }

    /// Whether the offset would pass `u64::MAX` after the piece.
    #[inline]
    pub fn is_too_long(&self, piece: &[u8]) -> bool
        ensures { IsTrue result ↔ (u64.MAX < self.now.offset + length piece.now) }
    {
        self.offset.checked_add(piece.len() as u64).is_none()
    }

    /// Reads the next text of what is left of a piece. A bad byte at the front is refused, where such are not replaced.
    pub fn next_text<'t>(
        &mut self,
        replace: bool,
        rest: &'t [u8],
        room: &'t mut LossyText,
    ) -> Result<NextText<'t>, Fault>
        requires held { length self.old.decoder ≤ self.old.offset }
        requires fits { self.old.offset + length rest.now ≤ u64.MAX }
        ensures begun { IsSubpart self.new.decoder }
        ensures reads { IfOk result (λ next. ReadsNext replace self.old.decoder rest.now next.text.now next.len self.new.decoder × (self.new.offset ≡ self.old.offset + next.len)) }
        ensures kinds { IfErr result (IsAmong (ill_formed ∷ [])) }
        ensures bad { IfErr result (λ fault. (replace ≡ false) × (text_of (self.old.decoder ++ rest.now) ≡ [])
            × (Some fault ≡ bad_byte (self.old.offset - length self.old.decoder) (ending_of (self.old.decoder ++ rest.now)))) }
    {
        match self.decoder.next_text(replace, rest, room) {
            Ok(next) => {
                self.offset += next.len as u64;
                Ok(next)
            }
            Err(bad) => Err(Fault::BadByte {
                at: self.offset + bad.at as u64,
                start: self.offset - self.decoder.carried() as u64,
            }),
        }
    }

    /// Refuses an end inside a character.
    pub fn end(&self) -> Result<(), Fault>
        requires { length self.now.decoder ≤ self.now.offset }
        ensures kinds { IfErr result IsCut }
        ensures end { (base : ℕ) (bytes : List ℕ) → StandsAfter self.now.decoder bytes → self.now.offset ≡ base + length bytes
            → result ≡ answer_at_end base (tt {0}) (ending_of bytes) }
    {
        let carried = self.decoder.carried();
        if carried == 0 {
            return Ok(());
        }
        Err(Fault::Cut {
            at: self.offset,
            start: self.offset - carried as u64,
        })
    }
}
