//! What the bytes after a lead byte tell, where that alone does not tell that a character passes: it has to be looked up if
//! they, or it and the next, are in some set.

ghost use Rattle.std.specs.Prelude.{◌≡◌};
ghost use Rattle.nf_lanes.specs.declared.sets.Pairs.{Pairs};
ghost use Rattle.nf_span.specs.Closer.{either_of, family_of, is_asked, pairs_of};

use crate::kana::kana_of;
use crate::scripts::{
    COMPOSED_INDIC, COMPOSED_LETTERS, COMPOSED_YI, DECOMPOSED_INDIC, DECOMPOSED_LETTERS,
    DECOMPOSED_YI,
};
use crate::wide::wide_of;
use nf_forms::Form;
use nf_lanes::Pairs;

// In forms that compose: D6 and DB before 90 to AF, D5, D8 and D9 before 90 to 9F, D9 before 8B to 8F, D2, D6 and D7 before
// 80 to 8F, DC, DD and DF, D6 before B0 to BF, D9 before B0 and B5 to B8.
static COMPOSED_PAIRS: Pairs = Pairs {
    first_high: [0, 0, 0, 0, 0, 0, 0, 0, 0, 0, 0, 0, 0, 127, 0, 0],
    first_low: [0, 0, 8, 0, 0, 2, 41, 8, 2, 70, 0, 1, 16, 16, 0, 16],
    next_high: [
        16, 16, 16, 16, 16, 16, 16, 16, 28, 19, 17, 112, 16, 16, 16, 16,
    ],
    next_low: [
        123, 59, 59, 59, 59, 123, 123, 123, 123, 59, 59, 63, 63, 63, 63, 63,
    ],
};

// In forms that decompose: D1, D6, D9 and DB before 90 to BF, D5 and D8 before 90 to 9F, D9 before 8B to 8F, D0, D6 and D7
// before 80 to 8F, D2, D3, DC, DD and DF, D8 before A2 to A6, DB before 80 to 82, D0 before 99 and B9.
static DECOMPOSED_PAIRS: Pairs = Pairs {
    first_high: [0, 0, 0, 0, 0, 0, 0, 0, 0, 0, 0, 0, 0, 255, 0, 0],
    first_low: [136, 1, 16, 16, 0, 2, 9, 8, 34, 5, 0, 65, 16, 16, 0, 16],
    next_high: [
        16, 16, 16, 16, 16, 16, 16, 16, 92, 147, 49, 145, 16, 16, 16, 16,
    ],
    next_low: [
        91, 91, 123, 59, 59, 59, 59, 27, 27, 155, 27, 31, 31, 31, 31, 31,
    ],
};

/// The sets of pairs that a lead byte from D0 to DF and the next one are.
#[inline(always)]
pub(crate) fn pairs_of(form: Form) -> &'static Pairs
    ensures { result.now ≡ pairs_of form }
{
    either_of(form, &COMPOSED_PAIRS, &DECOMPOSED_PAIRS)
}

/// Whether the two bytes after it are asked.
#[inline(always)]
pub(crate) fn is_asked(lead: u8) -> bool
    ensures { result ≡ is_asked lead }
{
    matches!(lead, 0xE0..=0xE3 | 0xEA | 0xEF)
}

/// The sets of pairs that stand after such a lead byte.
#[inline(always)]
pub(crate) fn family_of(form: Form, lead: u8) -> &'static Pairs
    ensures { result.now ≡ family_of form lead }
{
    match lead {
        0xE0 => either_of(form, &COMPOSED_INDIC, &DECOMPOSED_INDIC),
        0xE1 => either_of(form, &COMPOSED_LETTERS, &DECOMPOSED_LETTERS),
        0xE3 => kana_of(form),
        0xEA => either_of(form, &COMPOSED_YI, &DECOMPOSED_YI),
        _ => wide_of(form),
    }
}

/// The sets of forms that compose, or of the others.
#[inline(always)]
fn either_of(form: Form, composed: &'static Pairs, decomposed: &'static Pairs) -> &'static Pairs
    ensures { result.now ≡ either_of form composed.now decomposed.now }
{
    match form {
        Form::Nfc | Form::Nfkc => composed,
        Form::Nfd | Form::Nfkd => decomposed,
    }
}
