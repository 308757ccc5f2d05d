ghost use Rattle.std.specs.Prelude.{◌+◌, ◌<◌, ◌^◌, length};

use nf_utf8::source_len;

/// The bytes that gave a text.
#[derive(Clone, Copy)]
pub(crate) struct Origin<'p> {
    /// The offset of the first.
    pub begin: u64,
    pub bytes: &'p [u8],
    ghost fits: { begin + length bytes.now < 2 ^ 64 },
}

impl Origin<'_> {
    ghost use Rattle.std.specs.Prelude.{◌≡◌};
    ghost use Rattle.nf_filter.specs.Counted.{told_by};

    /// The offset of the character before which the text has `len` bytes.
    pub(crate) fn at(self, len: usize) -> u64
        ensures { result ≡ told_by self.entry.begin self.entry.bytes.now len }
    {
        self.begin + source_len(self.bytes, len) as u64
    }
}
