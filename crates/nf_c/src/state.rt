/// A filter's state in the caller's memory. It holds no pointer, so it may be copied, sent and kept.
#[repr(C)]
#[derive(Clone, Copy, Debug)]
pub struct State {
    /// A word that zeros do not have, and that belongs to this layout.
    pub magic: u32,
    /// The version of Unicode of the data under which the state came about.
    pub unicode: u32,
    /// The offset of the first byte, and that of the next.
    pub base: u64,
    pub offset: u64,
    /// The characters taken, and how many U+034F were put.
    pub chars: u64,
    pub put: u64,
    /// The starter that is not settled, or 2^32 - 1 for none.
    pub starter: u32,
    /// The marks after it, in order of class: class times 2^21, and the code point.
    pub marks: [u32; 30],
    /// The bytes of a begun character.
    pub held: [u8; 3],
    pub held_len: u8,
    pub marks_len: u8,
    /// The non-starters that the stream-safe text's NFKD ends in.
    pub count: u8,
    /// 1 for NFC, 2 for NFD, 3 for NFKC, 4 for NFKD.
    pub form: u8,
    /// 1 where ill-formed bytes are replaced, and 2 where characters that are not assigned are refused.
    pub policy: u8,
    /// 1 once the text has ended.
    pub spent: u8,
}

/// "nfs2", in the order of bytes of a small-endian machine.
pub const MAGIC: u32 = 0x3273_666E;

/// Unicode 18.0.0, of which the kit's tables are. They carry no number of their own: who takes other tables changes it.
pub const UNICODE: u32 = 180_000;

/// The number of no starter.
pub const NO_STARTER: u32 = 0xFFFF_FFFF;
