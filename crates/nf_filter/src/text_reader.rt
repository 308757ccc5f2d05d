//! The text of bytes, for what takes it.
ghost use Rattle.std.specs.Prelude.{◌≡◌, ◌+◌, ◌≤◌, ℕ, List, [], ◌∷◌, length, IfErr, IfSome, IsNone};
ghost use Rattle.std.proofs.Common.{arith, length-append};
ghost use Rattle.nf_filter.specs.Kinds.{row, ill_formed, IsAmong};
ghost use Rattle.nf_filter.specs.Surveys.{IsOfSurvey};
ghost use Rattle.nf_filter.specs.Taker.{IsReady, HasSurveyed, ReadsText, ReadsOn};

use crate::fault::Fault;
use crate::reading::Reading;
use crate::surveyor::Surveyor;
use crate::taker::{Taker, take_text};
use nf_row::Rows;
use nf_utf8::LossyText;

/// Gives the text of the bytes to a taker.
#[derive(Drop)]
pub struct TextReader<'r, R, T> {
    pub reading: Reading,
    pub rows: &'r R,
    pub taker: T,
}

impl<R: Rows, T: Taker> Surveyor for TextReader<'_, R, T> {
    type Answer = T::Answer;

    ghost has_taken = { λ reader survey bytes. let p = R.properties reader.rows.now in
        HasSurveyed (T.has_taken p reader.taker survey.base) (T.decides p survey.base) (T.value p) survey reader.reading bytes };

    ghost is_ready = { λ reader. IsReady (T.ends_at reader.taker) reader.reading };

    ghost offset = { λ reader. reader.reading.offset };

    ghost faults = { IsOfSurvey };

    fn take(&mut self, piece: &[u8]) -> Option<Result<T::Answer, Fault>> {
        let TextReader {
            reading,
            rows,
            taker,
        } = self;
        if reading.is_too_long(piece) {
            return Some(Err(Fault::TooLong));
        }
        read_piece(reading, *rows, taker, piece)
    }

    fn end(self) -> Result<T::Answer, Fault> {
        match self.reading.end() {
            Ok(()) => Ok(self.taker.end()),
            Err(fault) => Err(fault),
        }
    }

    ghost reads = { tt };

    ghost stands = { λ reader survey bytes taken. (taken.undecided, omega (arith, taken.reads.read.offset, taken.reads.read.left.len, length-append reader.reading.decoder [])) };
}

/// Gives the taker the text of a piece, up to what decides or to a bad byte.
fn read_piece<R: Rows, T: Taker>(
    reading: &mut Reading,
    rows: &R,
    taker: &mut T,
    piece: &[u8],
) -> Option<Result<T::Answer, Fault>>
    requires ready { IsReady (T.ends_at taker.old) reading.old }
    requires fits { reading.old.offset + length piece.now ≤ u64.MAX }
    ensures ready { IsNone result → IsReady (T.ends_at taker.new) reading.new × (reading.new.offset ≡ reading.old.offset + length piece.now) }
    ensures faults { IfSome result (λ answer. IfErr answer (IsAmong (row ∷ ill_formed ∷ []))) }
    ensures reads { let p = R.properties rows.now in
        (base : ℕ) (bytes : List ℕ) → ReadsText (T.has_taken p taker.old base) base reading.old bytes piece.now
        → ReadsOn (T.has_taken p taker.new base) (T.decides p base) base reading.new bytes [] result }
{
    let mut room = LossyText::new();
    let mut left = piece;
    while !left.is_empty() {
        let at = reading.offset - reading.decoder.carried() as u64;
        let next = match reading.next_text(false, left, &mut room) {
            Ok(next) => next,
            Err(fault) => return Some(Err(fault)),
        };
        if let Some(answer) = take_text(taker, rows, at, next.text) {
            return Some(answer);
        }
        left = &left[next.len..];
    }
    None
}
