//! What the two bytes after E0, E1 or EA tell: of the scripts from Samaritan to Ethiopic and Cherokee, of letters with marks of
//! Latin and Greek, and of those from Yi to Hangul. The sets are products of halves of bytes, found by a search: each character
//! that may change is in one, and few of those that stand most in the languages written so.

use nf_lanes::Pairs;

// After E0.
pub(crate) static COMPOSED_INDIC: Pairs = Pairs {
    first_high: [0, 0, 0, 0, 0, 0, 0, 0, 166, 192, 205, 119, 0, 0, 0, 0],
    first_low: [
        140, 28, 12, 221, 6, 77, 128, 76, 6, 67, 6, 98, 161, 143, 178, 145,
    ],
    next_high: [0, 0, 0, 0, 0, 0, 0, 0, 242, 121, 41, 143, 0, 0, 0, 0],
    next_low: [
        40, 44, 57, 46, 17, 25, 28, 41, 42, 11, 76, 139, 173, 218, 202, 72,
    ],
};

pub(crate) static DECOMPOSED_INDIC: Pairs = Pairs {
    first_high: [0, 0, 0, 0, 0, 0, 0, 0, 82, 184, 123, 252, 0, 0, 0, 0],
    first_low: [
        9, 240, 11, 15, 42, 240, 2, 72, 130, 240, 136, 224, 84, 235, 148, 136,
    ],
    next_high: [0, 0, 0, 0, 0, 0, 0, 0, 173, 81, 37, 203, 0, 0, 0, 0],
    next_low: [
        5, 71, 69, 147, 29, 65, 147, 69, 149, 225, 201, 153, 207, 121, 65, 65,
    ],
};

// After E1.
pub(crate) static COMPOSED_LETTERS: Pairs = Pairs {
    first_high: [0, 0, 0, 0, 0, 0, 0, 0, 122, 129, 110, 179, 0, 0, 0, 0],
    first_low: [
        66, 0, 72, 137, 35, 48, 18, 80, 4, 4, 132, 4, 3, 102, 36, 218,
    ],
    next_high: [0, 0, 0, 0, 0, 0, 0, 0, 28, 181, 85, 63, 0, 0, 0, 0],
    next_low: [
        21, 180, 157, 23, 23, 23, 85, 23, 149, 87, 150, 188, 29, 189, 117, 180,
    ],
};

pub(crate) static DECOMPOSED_LETTERS: Pairs = Pairs {
    first_high: [0, 0, 0, 0, 0, 0, 0, 0, 156, 72, 82, 7, 0, 0, 0, 0],
    first_low: [20, 32, 144, 163, 2, 3, 2, 35, 3, 2, 2, 35, 98, 10, 34, 11],
    next_high: [0, 0, 0, 0, 0, 0, 0, 0, 131, 74, 50, 231, 0, 0, 0, 0],
    next_low: [
        35, 34, 10, 35, 98, 66, 18, 39, 2, 22, 6, 2, 130, 139, 10, 43,
    ],
};

// After EA, and in NFC after E3.
pub(crate) static COMPOSED_YI: Pairs = Pairs {
    first_high: [0, 0, 0, 0, 0, 0, 0, 0, 34, 82, 141, 0, 0, 0, 0, 0],
    first_low: [44, 0, 2, 140, 8, 1, 1, 4, 0, 80, 130, 20, 0, 25, 0, 24],
    next_high: [0, 0, 0, 0, 0, 0, 0, 0, 4, 3, 232, 213, 0, 0, 0, 0],
    next_low: [
        148, 148, 144, 145, 148, 192, 196, 192, 144, 26, 226, 104, 59, 107, 163, 227,
    ],
};

pub(crate) static DECOMPOSED_YI: Pairs = Pairs {
    first_high: [0, 0, 0, 0, 0, 0, 0, 0, 0, 38, 91, 242, 0, 0, 0, 0],
    first_low: [
        193, 128, 128, 201, 129, 130, 144, 192, 128, 160, 146, 196, 128, 135, 128, 133,
    ],
    next_high: [0, 0, 0, 0, 0, 0, 0, 0, 200, 130, 169, 244, 0, 0, 0, 0],
    next_low: [
        220, 204, 156, 158, 188, 168, 232, 184, 188, 165, 168, 161, 163, 163, 154, 186,
    ],
};
