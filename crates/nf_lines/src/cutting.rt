//! Where bytes are cut.
ghost use Rattle.nf_lines.specs.Cut.{IsCutAt};

/// How many bytes stand up to the last line feed, with it; none where there is no line feed.
pub(crate) fn lines_len(bytes: &[u8]) -> usize
    ensures { IsCutAt bytes.now result }
{
    let mut n = bytes.len();
    while n > 0 && bytes[n - 1] != b'\n' {
        n -= 1;
    }
    n
}
