/// What is measured of a text.
#[derive(Clone, Copy, Debug, PartialEq, Eq)]
pub struct Measure {
    /// Its bytes in UTF-8.
    pub bytes: u64,
    /// Its characters.
    pub chars: u64,
    /// The non-starters of its NFKD.
    pub nonstarters: u128,
    /// The longest run of them, in code points; it may pass the 30 of the Stream-Safe Text Format.
    pub longest: u128,
    /// How many U+034F the Stream-Safe Text Process puts.
    pub put: u64,
    /// Its characters that are not assigned.
    pub unassigned: u64,
}
