//! Lead bytes of which some characters are unassigned, by their high and their low half: CD to CF, D4 to D7, DC to E3, EA, ED and
//! from EE on. What the others begin, of Latin, Cyrillic, Arabic, most Han and most Hangul, is assigned.

pub(crate) static HIGH: [u8; 16] = [0, 0, 0, 0, 0, 0, 0, 0, 0, 0, 0, 0, 1, 2, 4, 8];

pub(crate) static LOW: [u8; 16] = [12, 12, 12, 12, 10, 10, 10, 10, 8, 8, 12, 8, 10, 15, 15, 15];
