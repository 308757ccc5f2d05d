/// What a byte tells.
#[derive(Clone, Copy, Debug, PartialEq, Eq)]
pub enum Step {
    /// The character goes on.
    More,
    /// The byte completes this character.
    Char(char),
    /// With this byte the bytes begin no well-formed text. Of the character that it breaks off, `back` bytes
    /// (0 to 3) stood before it.
    Bad { back: usize },
}
