//! What `check` says of text.
use super::{CHECK, Case, assert_cases};
use std::test::Fail;

#[test]
fn check_tells_the_place_whatever_stands_after_it(rt: HostRuntime) -> Result<(), Fail> {
    let safe = "stream-safe\n";
    let after_31 = "not stream-safe at character 31 byte 61\n";
    let after_30 = "not stream-safe at character 30 byte 60\n";
    let past_the_buffer = "not stream-safe at character 25031 byte 75061\n";
    let cases: [Case<'_>; 7] = [
        (&[], b"", 0, safe, ""),
        (&[("q", 1), ("\u{301}", 30)], b"", 0, safe, ""),
        (
            &[("q", 1), ("\u{301}", 30), ("\u{34F}\u{301}", 1)],
            b"",
            0,
            safe,
            "",
        ),
        (&[("q", 1), ("\u{301}", 31)], b"", 1, after_31, ""),
        (&[("\u{C5}", 1), ("\u{301}", 30)], b"", 1, after_30, ""),
        (&[("q", 1), ("\u{301}", 31)], b"\xFF", 1, after_31, ""),
        (
            &[("\u{6F22}", 25_000), ("q", 1), ("\u{301}", 31)],
            b"",
            1,
            past_the_buffer,
            "",
        ),
    ];
    assert_cases(&rt, rt.alloc(), &CHECK, &cases)?;
    Ok(())
}
