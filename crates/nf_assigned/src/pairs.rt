//! Pairs of bytes at which a character is looked up; one that has no such pair in one of two families, but for what its last
//! byte begins, is assigned.
//!
//! Most pairs are a lead byte and its second. The third byte is asked by pairs of the last two, where a block of 64 code
//! points is much used and has few holes, as hiragana and fullwidth letters. The first family tells most of what is written,
//! but for Greek, Hebrew and Hangul; the second tells these, most marks, and U+FFFD.

use nf_lanes::Pairs;

pub(crate) static FIRST: Pairs = Pairs {
    first_high: [0, 0, 0, 0, 0, 0, 0, 0, 72, 0, 0, 8, 20, 32, 135, 63],
    first_low: [
        23, 158, 227, 33, 96, 96, 32, 56, 0, 16, 150, 151, 45, 189, 52, 35,
    ],
    next_high: [0, 0, 0, 0, 0, 0, 0, 0, 63, 246, 182, 181, 0, 0, 0, 0],
    next_low: [
        172, 166, 180, 182, 177, 241, 53, 117, 115, 55, 51, 115, 118, 182, 181, 55,
    ],
};

pub(crate) static SECOND: Pairs = Pairs {
    first_high: [0, 0, 0, 0, 0, 0, 0, 0, 0, 0, 0, 196, 41, 216, 143, 178],
    first_low: [
        34, 166, 51, 55, 43, 128, 160, 80, 0, 0, 181, 32, 80, 152, 113, 220,
    ],
    next_high: [0, 0, 0, 0, 0, 0, 0, 0, 117, 134, 151, 90, 0, 0, 0, 0],
    next_low: [
        234, 103, 103, 103, 99, 99, 99, 235, 110, 110, 102, 62, 54, 54, 246, 246,
    ],
};
