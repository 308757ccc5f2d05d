//! What the two bytes after E2 or EF tell: of punctuation and symbols, and of presentation forms and fullwidth letters.

ghost use Rattle.std.specs.Prelude.{◌≡◌};
ghost use Rattle.nf_span.specs.Closer.{wide_of};

use nf_forms::Form;
use nf_lanes::Pairs;

static NFC_WIDE: Pairs = Pairs {
    first_high: [0, 0, 0, 0, 0, 0, 0, 0, 134, 0, 80, 40, 0, 0, 0, 0],
    first_low: [3, 1, 0, 164, 85, 89, 80, 97, 113, 80, 65, 80, 84, 16, 8, 0],
    next_high: [0, 0, 0, 0, 0, 0, 0, 0, 83, 201, 228, 232, 0, 0, 0, 0],
    next_low: [
        242, 243, 225, 240, 241, 224, 245, 240, 240, 244, 244, 245, 241, 240, 248, 232,
    ],
};

static NFD_WIDE: Pairs = Pairs {
    first_high: [0, 0, 0, 0, 0, 0, 0, 0, 45, 0, 128, 82, 0, 0, 0, 0],
    first_low: [
        8, 0, 0, 101, 129, 192, 129, 240, 240, 172, 168, 161, 129, 128, 2, 0,
    ],
    next_high: [0, 0, 0, 0, 0, 0, 0, 0, 168, 135, 245, 212, 0, 0, 0, 0],
    next_low: [
        221, 221, 180, 145, 180, 156, 177, 156, 156, 181, 145, 145, 180, 176, 179, 242,
    ],
};

// In the compatibility forms.
static COMPATIBILITY_WIDE: Pairs = Pairs {
    first_high: [0, 0, 0, 0, 0, 0, 0, 0, 119, 8, 129, 168, 0, 0, 0, 0],
    first_low: [
        178, 58, 104, 88, 215, 242, 165, 129, 145, 134, 134, 132, 132, 128, 128, 128,
    ],
    next_high: [0, 0, 0, 0, 0, 0, 0, 0, 203, 232, 220, 154, 0, 0, 0, 0],
    next_low: [
        222, 238, 206, 206, 219, 218, 218, 234, 202, 207, 238, 252, 221, 221, 221, 189,
    ],
};

#[inline(always)]
pub(crate) fn wide_of(form: Form) -> &'static Pairs
    ensures { result.now ≡ wide_of form }
{
    match form {
        Form::Nfc => &NFC_WIDE,
        Form::Nfd => &NFD_WIDE,
        Form::Nfkc | Form::Nfkd => &COMPATIBILITY_WIDE,
    }
}
