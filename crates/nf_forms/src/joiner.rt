/// As many non-starters may follow one another in NFKD (UAX #15, section 13).
pub const MAX_RUN: u8 = 30;

/// U+034F COMBINING GRAPHEME JOINER, which the Stream-Safe Text Process puts between two runs of non-starters that
/// would make one too long (UAX #15, section 13).
pub const JOINER: char = '\u{34F}';
