//! What `convert` makes of bytes under its flags.
use super::{assert_shown, run};

/// The flags, an input, and the status, the output and the line of its NFC.
type Case<'a> = (&'a [&'a str], &'a [u8], u8, &'a [u8], &'a str);

const NEITHER: &[&str] = &["nfstream", "convert", "--form", "nfc"];

const REPLACE: &[&str] = &["nfstream", "convert", "--form", "nfc", "--replace"];

const ASSIGNED: &[&str] = &["nfstream", "convert", "--form", "nfc", "--assigned"];

const BOTH: &[&str] = &[
    "nfstream",
    "convert",
    "--form",
    "nfc",
    "--replace",
    "--assigned",
];

#[test]
fn a_flag_replaces_or_refuses(rt: HostRuntime) {
    let alloc = rt.alloc();
    let cases: [Case<'_>; 9] = [
        (REPLACE, b"ab\xC3(", 0, b"ab\xEF\xBF\xBD(", ""),
        // Truncated sequences of The Unicode Standard, section 3.9.
        (
            REPLACE,
            b"\xE1\x80\xE2\xF0\x91\x92\xF1\xBFA",
            0,
            b"\xEF\xBF\xBD\xEF\xBF\xBD\xEF\xBF\xBD\xEF\xBF\xBDA",
            "",
        ),
        (
            REPLACE,
            b"\xED\xA0\x80",
            0,
            b"\xEF\xBF\xBD\xEF\xBF\xBD\xEF\xBF\xBD",
            "",
        ),
        (REPLACE, b"a\xF0\x90\x80", 0, b"a\xEF\xBF\xBD", ""),
        // A mark might have followed the a.
        (
            ASSIGNED,
            b"a\xEF\xBF\xBF",
            3,
            b"",
            "nfstream: unassigned character at 1\n",
        ),
        (NEITHER, b"a\xEF\xBF\xBF", 0, b"a\xEF\xBF\xBF", ""),
        // One for private use is assigned.
        (ASSIGNED, b"a\xEE\x80\x80", 0, b"a\xEE\x80\x80", ""),
        (
            BOTH,
            b"a\xC0\xEF\xBF\xBF",
            3,
            b"a",
            "nfstream: unassigned character at 2\n",
        ),
        (
            ASSIGNED,
            b"a\xC0\xEF\xBF\xBF",
            3,
            b"",
            "nfstream: ill-formed byte at 1, character begun at 1\n",
        ),
    ];
    for (words, input, status, out, err) in cases {
        assert!(rt; !words.is_empty());
        let mut rest = input;
        let shown = run(alloc, words, &mut rest);
        assert_shown(&rt, &shown, status, out, err);
    }
}
