/// How a piece ends.
#[derive(Clone, Copy, Debug, PartialEq, Eq)]
pub enum End {
    /// After its last character. Nothing is carried.
    Whole,
    /// Inside a character, of which 1 to 3 bytes are carried.
    Cut,
    /// With the byte at `at` of the piece the bytes begin no well-formed text. Of the character that it breaks off,
    /// `back` bytes (0 to 3) stood before it, those of earlier pieces included. Nothing is carried, and nothing
    /// from that byte on was taken.
    Bad { at: usize, back: usize },
}

/// What a piece gives.
#[derive(Clone, Copy, Debug, PartialEq, Eq)]
pub struct Chunk<'p> {
    /// The character that was begun in earlier pieces, where this one completes it.
    pub first: Option<char>,
    /// The well-formed text after it, in the piece itself.
    pub text: &'p str,
    pub end: End,
}

/// The next text of a piece.
#[derive(Clone, Copy, Debug, PartialEq, Eq)]
pub struct NextText<'t> {
    pub text: &'t str,
    /// How many bytes of the piece were read.
    pub len: usize,
}

/// The byte at `at` of a piece is bad: with it the bytes begin no well-formed text.
#[derive(Clone, Copy, Debug, PartialEq, Eq)]
pub struct IllFormed {
    pub at: usize,
}
