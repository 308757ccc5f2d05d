//! The ASCII prefix.

use nf_utf8::ascii_prefix;

/// Prefixes of each length, at each place in the lanes, with a byte after them that is not ASCII and without.
#[test]
fn prefixes_of_each_length(rt: HostRuntime) {
    for start in 0..33usize {
        for n in 0..=100usize {
            let mut bytes = [0x61; 200];
            let end = start.wrapping_add(n);
            let whole = bytes.get(start..end).unwrap_or(b"");
            assert_eq!(rt; ascii_prefix(whole), n, "{start}");
            for other in [0x80, 0xFF] {
                if let Some(byte) = bytes.get_mut(end) {
                    *byte = other;
                }
                let cut = bytes.get(start..end.wrapping_add(1)).unwrap_or(b"");
                assert_eq!(rt; ascii_prefix(cut), n, "{start}");
                let long = bytes.get(start..).unwrap_or(b"");
                assert_eq!(rt; ascii_prefix(long), n, "{start}");
            }
        }
    }
    assert_eq!(rt; ascii_prefix(b"\x00\x7F\x80"), 2);
}
