/// Why a vector file is refused, and at which line of it, counted from 1.
#[derive(Clone, Copy, Debug, PartialEq, Eq, Hash)]
pub struct VectorFault {
    pub line: u32,
    pub kind: VectorKind,
}

/// What is wrong with a vector file, or with the reading of it.
#[derive(Clone, Copy, Debug, PartialEq, Eq, Hash)]
pub enum VectorKind {
    /// The row has fewer than five columns, or anything but blanks after the fifth.
    Fields,
    /// A column has no code point.
    Empty,
    /// A word is not 1 to 6 hexadecimal digits.
    Hex,
    /// A word's value is above 10FFFF or that of a surrogate.
    Scalar,
    /// The file has more than 67,108,864 bytes; the first byte past them stands in this line.
    Size,
    /// The source failed.
    Read,
    /// Memory ran out.
    Memory,
}

/// Memory ran out; nothing has changed.
#[derive(Clone, Copy, Debug, PartialEq, Eq, Hash)]
pub struct Memory;
