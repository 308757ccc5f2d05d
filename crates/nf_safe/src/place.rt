/// Where a text leaves the Stream-Safe Text Format.
#[derive(Clone, Copy, Debug, PartialEq, Eq)]
pub struct Place {
    /// How many characters stand before the first one that breaks the format.
    pub chars: u64,
    /// The offset of that character, in bytes.
    pub bytes: u64,
}
