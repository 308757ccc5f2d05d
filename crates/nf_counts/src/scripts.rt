//! Pairs of bytes, and the two bytes after a lead byte, at which a character is looked up; one that has none, but for what its last
//! byte begins, is an assigned starter, and its compatibility decomposition has no non-starter. The sets were found by a search:
//! each character that has to be looked up is in one, and few of those that stand most in the languages written so.

use nf_lanes::{Pairs, Scripts};

pub(crate) static SCRIPTS: Scripts = Scripts {
    // Of two bytes: most letters of Greek, Cyrillic, Armenian, Hebrew and Arabic that have no mark are told.
    narrow: Pairs {
        first_high: [0, 0, 0, 0, 0, 0, 0, 0, 0, 0, 0, 0, 222, 191, 108, 235],
        first_low: [
            228, 72, 84, 73, 66, 68, 232, 193, 84, 232, 64, 122, 69, 65, 151, 170,
        ],
        next_high: [0, 0, 0, 0, 0, 0, 0, 0, 215, 124, 250, 107, 0, 0, 0, 0],
        next_low: [
            79, 77, 89, 93, 89, 89, 89, 77, 77, 101, 79, 201, 201, 201, 201, 201,
        ],
    },
    // The first set of these three, and in the next two the second, is of what the others tell.
    indic: Pairs {
        first_high: [0, 0, 0, 0, 0, 0, 0, 0, 0, 0, 254, 1, 0, 0, 0, 0],
        first_low: [
            245, 91, 247, 253, 193, 39, 203, 53, 203, 53, 201, 55, 251, 31, 169, 119,
        ],
        next_high: [0, 0, 0, 0, 0, 0, 0, 0, 141, 125, 113, 151, 0, 0, 0, 0],
        next_low: [
            57, 171, 113, 23, 151, 55, 55, 51, 49, 69, 149, 179, 179, 181, 29, 21,
        ],
    },
    southern: Pairs {
        first_high: [0, 0, 0, 0, 0, 0, 0, 0, 0, 0, 1, 254, 0, 0, 0, 0],
        first_low: [
            133, 61, 133, 61, 133, 61, 145, 77, 183, 103, 63, 31, 127, 171, 87, 227,
        ],
        next_high: [0, 0, 0, 0, 0, 0, 0, 0, 227, 187, 79, 127, 0, 0, 0, 0],
        next_low: [
            139, 139, 83, 11, 167, 43, 11, 91, 227, 119, 79, 79, 87, 235, 123, 59,
        ],
    },
    thai: Pairs {
        first_high: [0, 0, 0, 0, 0, 0, 0, 0, 0, 0, 1, 254, 0, 0, 0, 0],
        first_low: [
            95, 195, 243, 187, 15, 99, 59, 207, 73, 213, 157, 189, 121, 85, 105, 229,
        ],
        next_high: [0, 0, 0, 0, 0, 0, 0, 0, 47, 163, 135, 215, 0, 0, 0, 0],
        next_low: [
            155, 179, 179, 155, 179, 155, 179, 179, 247, 247, 119, 215, 195, 215, 199, 215,
        ],
    },
    letters: Pairs {
        first_high: [0, 0, 0, 0, 0, 0, 0, 0, 94, 160, 175, 239, 0, 0, 0, 0],
        first_low: [
            35, 3, 231, 49, 33, 161, 33, 129, 33, 97, 179, 43, 169, 175, 69, 39,
        ],
        next_high: [0, 0, 0, 0, 0, 0, 0, 0, 89, 237, 161, 183, 0, 0, 0, 0],
        next_low: [
            141, 61, 105, 129, 141, 45, 221, 235, 53, 243, 115, 181, 117, 229, 117, 251,
        ],
    },
    kana: Pairs {
        first_high: [0, 0, 0, 0, 0, 0, 0, 0, 255, 96, 189, 25, 0, 0, 0, 0],
        first_low: [
            202, 163, 13, 21, 120, 65, 213, 250, 218, 139, 42, 160, 255, 103, 69, 55,
        ],
        next_high: [0, 0, 0, 0, 0, 0, 0, 0, 112, 78, 200, 217, 0, 0, 0, 0],
        next_low: [
            254, 164, 147, 228, 71, 208, 71, 148, 71, 180, 71, 68, 174, 132, 58, 64,
        ],
    },
};

/// Pairs of bytes that are asked of text that begins with none of these scripts: most are a lead byte and its second, of E2 and of
/// E4 to EF, and the last two where a block of 64 code points is much used and few of it are looked up. All of four bytes are found.
pub(crate) static WIDE: Pairs = Pairs {
    first_high: [0, 0, 0, 0, 0, 0, 0, 0, 16, 0, 0, 36, 117, 67, 218, 255],
    first_low: [218, 203, 193, 3, 1, 1, 1, 1, 1, 1, 136, 1, 33, 17, 205, 73],
    next_high: [0, 0, 0, 0, 0, 0, 0, 0, 99, 213, 153, 71, 0, 0, 0, 0],
    next_low: [
        105, 75, 195, 203, 75, 73, 75, 75, 195, 201, 209, 249, 155, 155, 31, 221,
    ],
};
