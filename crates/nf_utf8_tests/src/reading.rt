//! The decoder byte by byte, and by pieces cut at every place.

use crate::table::{Ending, Reading, add, by_the_table};
use nf_utf8::{Decoder, End, Step};

/// The bytes as they are read when each is pushed.
fn pushed(bytes: &[u8]) -> Reading {
    let mut decoder = Decoder::new();
    let mut text = [None; 3];
    for (at, byte) in bytes.iter().enumerate() {
        match decoder.push(*byte) {
            Step::More => {}
            Step::Char(c) => add(&mut text, Some(c)),
            Step::Bad { back } => {
                let start = at.wrapping_sub(back);
                return Reading {
                    text,
                    ending: Ending::Bad { at, start },
                };
            }
        }
    }
    Reading {
        text,
        ending: ending_after(&decoder, bytes.len()),
    }
}

/// The bytes as they are read in two pieces.
fn taken(bytes: &[u8], cut: usize) -> Reading {
    let mut decoder = Decoder::new();
    let mut text = [None; 3];
    let mut before: usize = 0;
    for piece in [bytes.get(..cut), bytes.get(cut..)] {
        let piece = piece.unwrap_or(b"");
        let chunk = decoder.take(piece);
        add(&mut text, chunk.first);
        for c in chunk.text.chars() {
            add(&mut text, Some(c));
        }
        match chunk.end {
            End::Whole | End::Cut => {}
            End::Bad { at, back } => {
                let at = before.wrapping_add(at);
                let start = at.wrapping_sub(back);
                return Reading {
                    text,
                    ending: Ending::Bad { at, start },
                };
            }
        }
        before = before.wrapping_add(piece.len());
    }
    Reading {
        text,
        ending: ending_after(&decoder, bytes.len()),
    }
}

/// The ending of this many bytes, none of which was bad.
fn ending_after(decoder: &Decoder, at: usize) -> Ending {
    match decoder.carried() {
        0 => Ending::Whole,
        carried => Ending::Cut {
            at,
            start: at.wrapping_sub(carried),
        },
    }
}

/// Whether they are read as `want`, byte by byte, at once and cut in two at every place.
fn is_read_as(bytes: &[u8], want: Reading) -> bool {
    let mut same = pushed(bytes) == want;
    for cut in 0..=bytes.len() {
        same = same && taken(bytes, cut) == want;
    }
    same
}

#[test]
fn bytes_end_where_they_should(rt: HostRuntime) {
    let bad = |at, start| Ending::Bad { at, start };
    let cut = |at, start| Ending::Cut { at, start };
    let cases: [(&[u8], Ending, Option<char>); 11] = [
        (b"\x80", bad(0, 0), None),
        (b"\xC0", bad(0, 0), None),
        (b"\xC3\x28", bad(1, 0), None),
        (b"\xE0\x80", bad(1, 0), None),
        (b"\xED\xA0\x80", bad(1, 0), None),
        (b"\xF0\x80", bad(1, 0), None),
        (b"\xF4\x90", bad(1, 0), None),
        (b"\xF5", bad(0, 0), None),
        (b"\xE2\x82\x41", bad(2, 0), None),
        (b"\xF0\x90\x80", cut(3, 0), None),
        (b"\x61\xC3", cut(2, 1), Some('a')),
    ];
    for (bytes, ending, c) in cases {
        let want = Reading {
            text: [c, None, None],
            ending,
        };
        assert!(rt; is_read_as(bytes, want), "{bytes:?}");
    }
}

#[test]
fn each_byte_is_answered(rt: HostRuntime) {
    let mut decoder = Decoder::default();
    let steps = [
        (0xE0, Step::More, 1),
        (0x80, Step::Bad { back: 1 }, 0),
        (0x80, Step::Bad { back: 0 }, 0),
        (0x41, Step::Char('A'), 0),
        (0xF0, Step::More, 1),
        (0x90, Step::More, 2),
        (0x80, Step::More, 3),
        (0x80, Step::Char('\u{10000}'), 0),
    ];
    for (byte, step, carried) in steps {
        assert_eq!(rt; decoder.push(byte), step, "{byte}");
        assert_eq!(rt; decoder.carried(), carried, "{byte}");
    }
}

#[test]
fn short_strings_read_as_the_table_says(rt: HostRuntime) {
    for a in 0..=u8::MAX {
        assert!(rt; is_read_as(&[a], by_the_table(&[a])), "{a}");
        for b in 0..=u8::MAX {
            let bytes = [a, b];
            assert!(rt; is_read_as(&bytes, by_the_table(&bytes)), "{bytes:?}");
        }
    }
}

#[test]
fn strings_of_three_bytes_read_as_the_table_says(rt: HostRuntime) {
    for a in 0..=u8::MAX {
        for b in 0..=u8::MAX {
            for c in 0..=u8::MAX {
                let bytes = [a, b, c];
                assert!(rt; is_read_as(&bytes, by_the_table(&bytes)), "{bytes:?}");
            }
        }
    }
}
