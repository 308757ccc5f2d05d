//! What the two bytes after E3 tell: of kana, and of the punctuation of Chinese and Japanese.

ghost use Rattle.std.specs.Prelude.{◌≡◌};
ghost use Rattle.nf_span.specs.Closer.{kana_of};

use crate::scripts::COMPOSED_YI;
use nf_forms::Form;
use nf_lanes::Pairs;

static NFKC_KANA: Pairs = Pairs {
    first_high: [0, 0, 0, 0, 0, 0, 0, 0, 183, 0, 8, 0, 0, 0, 0, 0],
    first_low: [
        82, 0, 32, 65, 4, 235, 222, 72, 167, 149, 196, 224, 205, 236, 195, 220,
    ],
    next_high: [0, 0, 0, 0, 0, 0, 0, 0, 208, 160, 130, 135, 0, 0, 0, 0],
    next_low: [
        152, 196, 204, 140, 140, 132, 142, 132, 198, 166, 166, 174, 166, 134, 134, 239,
    ],
};

static NFD_KANA: Pairs = Pairs {
    first_high: [0, 0, 0, 0, 0, 0, 0, 0, 255, 0, 0, 0, 0, 0, 0, 0],
    first_low: [16, 138, 37, 97, 0, 0, 0, 0, 0, 0, 0, 0, 0, 0, 0, 0],
    next_high: [0, 0, 0, 0, 0, 0, 0, 0, 192, 166, 28, 79, 0, 0, 0, 0],
    next_low: [
        107, 40, 75, 40, 35, 72, 35, 104, 129, 104, 51, 16, 182, 56, 149, 16,
    ],
};

static NFKD_KANA: Pairs = Pairs {
    first_high: [0, 0, 0, 0, 0, 0, 0, 0, 255, 0, 0, 0, 0, 0, 0, 0],
    first_low: [
        96, 73, 19, 131, 113, 125, 12, 8, 119, 126, 231, 110, 124, 231, 125, 254,
    ],
    next_high: [0, 0, 0, 0, 0, 0, 0, 0, 172, 15, 112, 241, 0, 0, 0, 0],
    next_low: [
        253, 70, 220, 102, 37, 196, 39, 230, 37, 198, 39, 38, 94, 70, 186, 166,
    ],
};

#[inline(always)]
pub(crate) fn kana_of(form: Form) -> &'static Pairs
    ensures { result.now ≡ kana_of form }
{
    match form {
        Form::Nfc => &COMPOSED_YI,
        Form::Nfkc => &NFKC_KANA,
        Form::Nfd => &NFD_KANA,
        Form::Nfkd => &NFKD_KANA,
    }
}
