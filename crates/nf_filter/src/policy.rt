/// What a filter makes of bytes that are not well-formed, and of characters that Unicode has not assigned.
#[derive(Clone, Copy, Debug, PartialEq, Eq)]
pub struct Policy {
    /// Each maximal subpart of an ill-formed sequence is taken as one U+FFFD (The Unicode Standard, section 3.9), and so
    /// is a character that the end cuts. Otherwise they are faults.
    pub replace: bool,
    /// A character that is not assigned (general category Cn) is refused. Otherwise it is taken as any other.
    pub assigned: bool,
}
