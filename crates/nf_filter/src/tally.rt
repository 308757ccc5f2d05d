/// What a filter has taken and put in, once it is finished.
#[derive(Clone, Copy, Debug, PartialEq, Eq)]
pub struct Tally {
    /// Bytes read.
    pub bytes: u64,
    /// Characters read.
    pub chars: u64,
    /// How many U+034F were put in.
    pub put: u64,
}
