ghost use Rattle.std.specs.Prelude.{◌≡◌, ◌≤◌};
ghost use Rattle.nf_vectors.specs.Columns.{number_of};

/// A column of a row.
#[derive(Clone, Copy, Debug, PartialEq, Eq)]
pub(crate) enum Column {
    Source,
    Nfc,
    Nfd,
    Nfkc,
    Nfkd,
}

impl Column {
    /// Its number in the file, 1 to 5.
    pub(crate) fn number(self) -> u8
        ensures { result ≡ number_of self }
    {
        match self {
            Column::Source => 1,
            Column::Nfc => 2,
            Column::Nfd => 3,
            Column::Nfkc => 4,
            Column::Nfkd => 5,
        }
    }
}

/// What there is of each of the five columns of a row.
#[derive(Clone, Copy, Debug, Drop)]
pub(crate) struct Columns<T> {
    pub(crate) source: T,
    pub(crate) nfc: T,
    pub(crate) nfd: T,
    pub(crate) nfkc: T,
    pub(crate) nfkd: T,
}

/// Where the five columns of a row stand in the text of a suite, in code points: each after the one before it.
#[derive(Clone, Copy, Debug)]
pub(crate) struct Ends {
    pub(crate) start: u32,
    pub(crate) source: u32,
    pub(crate) nfc: u32,
    pub(crate) nfd: u32,
    pub(crate) nfkc: u32,
    pub(crate) nfkd: u32,
    ghost source_after: { start ≤ source },
    ghost nfc_after: { source ≤ nfc },
    ghost nfd_after: { nfc ≤ nfd },
    ghost nfkc_after: { nfd ≤ nfkc },
    ghost nfkd_after: { nfkc ≤ nfkd },
}
