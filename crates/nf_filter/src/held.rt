/// What a filter holds back.
#[derive(Clone, Copy, Debug, PartialEq, Eq)]
pub struct Held {
    /// Bytes of a begun character, 0 to 3.
    pub bytes: usize,
    /// Code points that are not settled, 0 to 31.
    pub pending: usize,
}
