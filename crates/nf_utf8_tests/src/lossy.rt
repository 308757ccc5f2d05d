//! Text with ill-formed parts, one after the other or with little text between them.
use nf_utf8::{Decoder, IllFormed, LossyText, NextText, source_len};
use std::process::Abort;
use std::test::Fail;

/// The first text of the bytes, where ill-formed ones are replaced, and how many of them gave it.
fn check(rt: &impl Abort, bytes: &[u8], text: &str, len: usize) {
    let mut room = LossyText::new();
    let next = Decoder::new().next_text(true, bytes, &mut room);
    assert_eq!(rt; next, Ok(NextText { text, len }), "{bytes:?}");
}

#[test]
fn parts_are_replaced_up_to_the_last_that_is_near(rt: HostRuntime) {
    let cases: [(&[u8], &str, usize); 10] = [
        (b"", "", 0),
        (b"A", "A", 1),
        (b"A\x80", "A\u{FFFD}", 2),
        (b"A\x80B", "A\u{FFFD}", 2),
        // Bytes that the next piece may complete are no part yet.
        (b"A\x80B\xF0\x90\x80", "A\u{FFFD}", 2),
        (
            b"\xC3\xA9\xC3\xC3\xA9A\xFF",
            "\u{E9}\u{FFFD}\u{E9}A\u{FFFD}",
            7,
        ),
        (b"\xF0\x9F\x98\x80\xF0\x9F\x98A", "\u{1F600}\u{FFFD}", 7),
        (
            b"\xE0\x80\xED\xA0\x80",
            "\u{FFFD}\u{FFFD}\u{FFFD}\u{FFFD}\u{FFFD}",
            5,
        ),
        (b"\xEF\xBF\xBD\x80", "\u{FFFD}\u{FFFD}", 4),
        // The example of "Substitution of Maximal Subparts" (The Unicode Standard, section 3.9).
        (
            b"\xE1\x80\xE2\xF0\x91\x92\xF1\xBF\x41\x80",
            "\u{FFFD}\u{FFFD}\u{FFFD}\u{FFFD}A\u{FFFD}",
            10,
        ),
    ];
    for (bytes, text, len) in cases {
        check(&rt, bytes, text, len);
    }
}

#[test]
fn parts_are_replaced_one_after_the_other(rt: HostRuntime) {
    let cases: [(&[u8], &str, usize); 9] = [
        // Bytes that the next piece may complete are no part yet.
        (b"\xF0\x90\x80", "", 3),
        (b"\x80\xC3", "\u{FFFD}", 1),
        (
            b"\x80\xBF\xC1\xF5\xFFA",
            "\u{FFFD}\u{FFFD}\u{FFFD}\u{FFFD}\u{FFFD}",
            5,
        ),
        (b"\xE0\xE0\x80A", "\u{FFFD}\u{FFFD}\u{FFFD}", 3),
        (b"\xF0\x90\x80\xF0\x90\x80A", "\u{FFFD}\u{FFFD}", 6),
        // Each character has its own second bytes.
        (b"\xE0\xA0\x80\x80", "\u{800}\u{FFFD}", 4),
        (b"\xED\xA0\x80A", "\u{FFFD}\u{FFFD}\u{FFFD}", 3),
        (b"\xED\x9F\xBF\x80", "\u{D7FF}\u{FFFD}", 4),
        (b"\xF4\x90\x80\x80A", "\u{FFFD}\u{FFFD}\u{FFFD}\u{FFFD}", 4),
    ];
    for (bytes, text, len) in cases {
        check(&rt, bytes, text, len);
    }
}

/// Where each character of the replaced text stands in the bytes.
#[test]
fn the_place_of_a_character_is_that_of_its_bytes(rt: HostRuntime) {
    // A, U+FFFD for two bytes, B, U+FFFD for one byte, and e with an acute accent.
    let bytes = b"A\xE1\x80B\x80\xC3\xA9";
    for (len, expected) in [(0, 0), (1, 1), (4, 3), (5, 4), (8, 5), (10, 7)] {
        assert_eq!(rt; source_len(bytes, len), expected, "{len}");
    }
}

/// A character that was begun before the piece is read by itself, and so is U+FFFD for what a byte breaks off.
#[test]
fn a_begun_character_is_read_by_itself(rt: HostRuntime) {
    let mut room = LossyText::new();
    for (begun, piece, replace, next, held) in [
        (
            b"\xC3".as_slice(),
            b"\xA9A".as_slice(),
            false,
            Ok(("\u{E9}", 1)),
            0,
        ),
        (b"\xF0\x9F", b"\x98", false, Ok(("", 1)), 3),
        (b"\xF0\x9F", b"\x98A", true, Ok(("\u{FFFD}", 1)), 0),
        (b"\xE1\x80", b"A", true, Ok(("\u{FFFD}", 0)), 0),
        (b"\xE1\x80", b"A", false, Err(0), 2),
        (b"\xF0", b"\x9FA", false, Err(1), 1),
    ] {
        let mut decoder = Decoder::holding(begun).unwrap_or_default();
        let expected = match next {
            Ok((text, len)) => Ok(NextText { text, len }),
            Err(at) => Err(IllFormed { at }),
        };
        assert_eq!(rt;
            decoder.next_text(replace, piece, &mut room),
            expected,
            "{begun:?} {piece:?}"
        );
        assert_eq!(rt; decoder.carried(), held, "{begun:?} {piece:?}");
    }
}

/// Where an ill-formed part ends more than 64 bytes on, it is not near.
#[test]
fn long_text_is_left(rt: HostRuntime) -> Result<(), Fail> {
    let alloc = rt.alloc();
    for (letter, count, is_near) in [
        ("a", 63, true),
        ("a", 64, false),
        ("\u{E9}", 31, true),
        ("\u{E9}", 32, false),
    ] {
        let text = letter.repeat(alloc, count)?;
        let mut front: Vec<u8> = Vec::new(alloc);
        front.extend_from_slice(text.as_bytes())?;
        front.push(0xFF)?;
        if is_near {
            let lossy = format!(in alloc; "{text}\u{FFFD}")?;
            check(&rt, front.as_slice(), lossy.as_str(), front.len());
        } else {
            check(&rt, front.as_slice(), text.as_str(), text.len());
        }
    }
    Ok(())
}

/// Latin-1 bytes, each an ill-formed part by itself, and parts after ASCII, after a letter and after ASCII that is long.
#[test]
fn parts_after_a_little_ascii_are_replaced(rt: HostRuntime) -> Result<(), Fail> {
    let alloc = rt.alloc();
    for (bytes, text) in [
        (
            b"\xE9t\xE9, na\xEFf".as_slice(),
            "\u{FFFD}t\u{FFFD}, na\u{FFFD}f",
        ),
        (b"a\x80bc\x80", "a\u{FFFD}bc\u{FFFD}"),
        (b"\xF0\x80\xE0\xA0", "\u{FFFD}\u{FFFD}\u{FFFD}"),
        (b"a\xF0\x90\x80b\xC3\xA9\x80", "a\u{FFFD}b\u{E9}\u{FFFD}"),
        (b"\xF0\x9F\x98\x80\xBF", "\u{1F600}\u{FFFD}"),
        (
            b"some forty letters and no other byte \xC3",
            "some forty letters and no other byte \u{FFFD}",
        ),
    ] {
        let mut all: Vec<u8> = Vec::new(alloc);
        for _ in 0..20 {
            all.extend_from_slice(bytes)?;
        }
        all.extend_from_slice(b"\xFF")?;
        let lossy = text.repeat(alloc, 20)?;
        let lossy = format!(in alloc; "{lossy}\u{FFFD}")?;
        check(&rt, all.as_slice(), lossy.as_str(), all.len());
    }
    Ok(())
}

/// No more is replaced than there is room for.
#[test]
fn the_room_is_filled(rt: HostRuntime) -> Result<(), Fail> {
    let alloc = rt.alloc();
    let bytes: Vec<u8> = vec![in alloc; 0xFF; 400]?;
    let full = "\u{FFFD}".repeat(alloc, 320)?;
    check(&rt, bytes.as_slice(), full.as_str(), 320);
    Ok(())
}
