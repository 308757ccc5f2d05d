//! Each kind of ill-formed sequence in the middle of text and at its end, cut at every place: how many U+FFFD it gives,
//! by hand.
use crate::kit::{REPLACE, joined, same_in_pieces};
use nf_filter::Tally;
use nf_row::Ucd;
use std::test::Fail;

/// Ill-formed sequences, and how many maximal subparts they are.
const KINDS: [(&[u8], usize); 45] = [
    // Bytes that go on with nothing.
    (b"\x80", 1),
    (b"\xBF", 1),
    (b"\x80\xBF\x80", 3),
    // Characters of two, three and four bytes, cut short.
    (b"\xC2", 1),
    (b"\xDF", 1),
    (b"\xE1", 1),
    (b"\xE1\x80", 1),
    (b"\xE0\xA0", 1),
    (b"\xED\x9F", 1),
    (b"\xEF\xBF", 1),
    (b"\xF1", 1),
    (b"\xF1\x80", 1),
    (b"\xF1\x80\xBF", 1),
    (b"\xF0\x90", 1),
    (b"\xF0\x90\x80", 1),
    (b"\xF4\x8F", 1),
    (b"\xF4\x8F\xBF", 1),
    (b"\xE2\x82\xE2\x82", 2),
    (b"\xF1\xF1\x80\xF1\x80\x80", 3),
    // Overlong.
    (b"\xC0", 1),
    (b"\xC0\x80", 2),
    (b"\xC1\xBF", 2),
    (b"\xE0", 1),
    (b"\xE0\x80", 2),
    (b"\xE0\x80\x80", 3),
    (b"\xE0\x9F\xBF", 3),
    (b"\xF0", 1),
    (b"\xF0\x80", 2),
    (b"\xF0\x80\x80", 3),
    (b"\xF0\x80\x80\x80", 4),
    (b"\xF0\x8F\xBF\xBF", 4),
    // Surrogates.
    (b"\xED", 1),
    (b"\xED\xA0", 2),
    (b"\xED\xA0\x80", 3),
    (b"\xED\xBF\xBF", 3),
    (b"\xED\xA0\x80\xED\xB0\x80", 6),
    // Above U+10FFFF.
    (b"\xF4", 1),
    (b"\xF4\x90", 2),
    (b"\xF4\x90\x80", 3),
    (b"\xF4\x90\x80\x80", 4),
    (b"\xF5", 1),
    (b"\xF5\x80\x80\x80", 4),
    (b"\xF8\x88\x80\x80\x80", 5),
    (b"\xFE\xFF", 2),
    (b"\xFF", 1),
];

/// Texts before and after it, which are their own NFC there.
const AROUND: [(&str, &str); 7] = [
    ("", ""),
    ("ab", "cd"),
    ("e", "\u{323}\u{301}"),
    ("\u{E9}", "\u{E9}"),
    ("\u{6F22}", "\u{1F600}"),
    ("abcdefghijklmnopqrstuvwxyz", ""),
    ("\u{1F600}\u{AC00}", "abcdefghijklmnopqrstuvwxyz"),
];

#[test]
fn each_kind_of_ill_formed_sequence_is_replaced(rt: HostRuntime) -> Result<(), Fail> {
    let alloc = rt.alloc();
    for (kind, times) in KINDS {
        for (front, back) in AROUND {
            let (front, back) = (front.as_bytes(), back.as_bytes());
            let bytes = joined(alloc, &[(front, 1), (kind, 1), (back, 1)])?;
            let due = joined(alloc, &[(front, 1), (b"\xEF\xBF\xBD", times), (back, 1)])?;
            let course = same_in_pieces(&rt, alloc, &Ucd, REPLACE, bytes.as_slice())?;
            assert_eq!(rt; course.written.as_slice(), due.as_slice(), "{kind:?}");
            let tally = course.answer.ok().ok_or("a fault")?;
            let chars = due.iter().filter(|byte| **byte & 0xC0 != 0x80).count();
            let expected = Tally {
                bytes: bytes.len() as u64,
                chars: chars as u64,
                put: 0,
            };
            assert_eq!(rt; tally, expected, "{kind:?}");
        }
    }
    Ok(())
}
