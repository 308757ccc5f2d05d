use thiserror::Error;

/// Why a call was refused. Places are offsets in bytes, counted from the filter's base.
#[derive(Clone, Copy, Debug, PartialEq, Eq, Error)]
pub enum Fault {
    /// An earlier call was refused, and the filter takes no more.
    #[error("the filter was stopped by an earlier fault: make a new one")]
    Spent,
    /// The offset would pass `u64::MAX`.
    #[error("the input is longer than offsets can count")]
    TooLong,
    /// The source failed.
    #[error("the input could not be read")]
    Read,
    /// The sink failed: a part of the output was taken.
    #[error("the output could not be written")]
    Write,
    /// The character at `at` is unsound, or U+034F has to stand before it and is unsound.
    #[error("the character data is unsound for the character at byte {at}")]
    Row { at: u64 },
    /// The byte at `at` is ill-formed UTF-8, in a character begun at `start` or where one should begin.
    #[error("byte {at} is ill-formed UTF-8, in a character begun at byte {start}")]
    BadByte { at: u64, start: u64 },
    /// The input ends, at `at`, inside a character begun at `start`.
    #[error("the input ends at byte {at}, inside a character begun at byte {start}")]
    Cut { at: u64, start: u64 },
    /// The character at `at` is not assigned, and such are refused.
    #[error("the character at byte {at} is not assigned")]
    Unassigned { at: u64 },
}
