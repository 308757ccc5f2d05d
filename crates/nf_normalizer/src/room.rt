//! The caller's room, in which what settles stands as UTF-8.
use arrayvec::ArrayVec;

/// How many bytes the room has.
pub const ROOM: usize = 4096;

/// How many bytes a step may put into it, at most: before U+034F a starter and 30 marks, that character, and a
/// decomposition of 18 members, each of up to 4 bytes.
pub const STEP: usize = 200;

/// What settles, as UTF-8, in place.
pub type Room = ArrayVec<u8, ROOM>;
