/// A normalization form (The Unicode Standard, section 3.11, D118 to D121).
#[derive(Clone, Copy, Debug, PartialEq, Eq, Hash)]
pub enum Form {
    /// Canonical decomposition, then canonical composition.
    Nfc,
    /// Canonical decomposition.
    Nfd,
    /// Compatibility decomposition, then canonical composition.
    Nfkc,
    /// Compatibility decomposition.
    Nfkd,
}

impl Form {
    ghost use Rattle.std.specs.Prelude.{◌≡◌};
    ghost use Rattle.nf_forms.specs.Forms.{composes};

    /// Whether it ends in composition.
    #[inline]
    pub const fn composes(self) -> bool
        ensures { result ≡ composes self }
    {
        match self {
            Form::Nfc | Form::Nfkc => true,
            Form::Nfd | Form::Nfkd => false,
        }
    }
}
