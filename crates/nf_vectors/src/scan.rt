//! Parts of a line's bytes.
ghost use Rattle.std.specs.Prelude.{◌≡◌, ◌+◌, ◌-◌, ◌<◌, ◌≤◌, ◌==◌, length, MatchOption, drop, take, ℕ};
ghost use Rattle.std.specs.List.{before_first, after_first, position_or_len, prefix_len, suffix_len};
ghost use Rattle.nf_vectors.specs.Line.{is_gap, is_blank, without_blanks_after, trimmed, content};

/// A space or a tab.
#[inline]
pub(crate) fn is_gap(byte: u8) -> bool
    ensures { result ≡ is_gap byte }
{
    byte == b' ' || byte == b'\t'
}

/// A space, a tab or CR.
#[inline]
pub(crate) fn is_blank(byte: u8) -> bool
    ensures { result ≡ is_blank byte }
{
    is_gap(byte) || byte == b'\r'
}

/// What stands before the first `separator`, and after it.
pub(crate) fn cut(bytes: &[u8], separator: u8) -> Option<(&[u8], &[u8])>
    ensures parts { MatchOption result (position_or_len (λ b. b == separator) bytes.now ≡ length bytes.now)
        (λ parts. (position_or_len (λ b. b == separator) bytes.now < length bytes.now)
        × (parts.0.now ≡ before_first (λ b. b == separator) bytes.now) × (parts.1.now ≡ after_first (λ b. b == separator) bytes.now)) }
    ensures len { MatchOption result (0 ≤ length bytes.now) (λ parts. length parts.0.now + length parts.1.now < length bytes.now) }
{
    let len = bytes.iter().take_while(|byte| **byte != separator).count();
    if len == bytes.len() {
        return None;
    }
    Some((&bytes[..len], &bytes[len + 1..]))
}

/// What stands before the first gap.
pub(crate) fn before_gap(bytes: &[u8]) -> &[u8]
    ensures { result.now ≡ before_first is_gap bytes.now }
{
    let len = bytes.iter().take_while(|byte| !is_gap(**byte)).count();
    &bytes[..len]
}

/// What a line says: without its comment and the blanks at its ends.
pub(crate) fn content(line: &[u8]) -> &[u8]
    ensures text { result.now ≡ content line.now }
    ensures len { length result.now ≤ length line.now }
{
    match cut(line, b'#') {
        Some((before, _)) => trimmed(before),
        None => trimmed(line),
    }
}

/// Without the blanks at both ends.
fn trimmed(bytes: &[u8]) -> &[u8]
    ensures text { result.now ≡ trimmed bytes.now }
    ensures len { length result.now ≤ length bytes.now }
{
    let before = bytes.iter().take_while(|byte| is_blank(**byte)).count();
    let rest = &bytes[before..];
    let after = rest
        .iter()
        .rev()
        .take_while(|byte| is_blank(**byte))
        .count();
    &rest[..rest.len() - after]
}
