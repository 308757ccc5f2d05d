use nf_normalizer::Normalizer;

/// A normalizer, and what it was given, counted.
#[derive(Drop)]
pub struct Counted {
    pub(crate) normalizer: Normalizer,
    /// The characters that it was given.
    pub chars: u64,
    /// How many U+034F were put.
    pub put: u64,
}
