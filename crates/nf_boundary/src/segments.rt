use arrayvec::ArrayVec;

/// Up to 1,024 bytes of UTF-8 in a normalization form.
pub type Formed = ArrayVec<u8, 1024>;

/// A front of a text that begins at a normalization boundary and ends before another. Its form is `same`, which stands in
/// the text as it is, and after it what was put into the caller's `Formed`.
#[derive(Debug, Drop)]
pub struct Segments<'t> {
    /// The part of the front that is its own form.
    pub same: &'t str,
    /// What stands after the front. It is not empty, and begins at a boundary.
    pub rest: &'t str,
}
