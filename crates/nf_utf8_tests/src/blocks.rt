//! What pieces give.

use nf_utf8::{Chunk, Decoder, End};

#[test]
fn each_piece_is_answered(rt: HostRuntime) {
    let give = |first, text, end| Chunk { first, text, end };
    let bad = |at, back| End::Bad { at, back };
    // Whether the decoder is a new one, the piece, what it gives, and how many bytes are carried then.
    let cases: [(bool, &[u8], Chunk<'static>, usize); 10] = [
        (true, b"\x61\xC3", give(None, "a", End::Cut), 1),
        (
            false,
            b"\x85\x62\x28",
            give(Some('\u{C5}'), "b(", End::Whole),
            0,
        ),
        (true, b"\x61\xC3", give(None, "a", End::Cut), 1),
        (false, b"\x28", give(None, "", bad(0, 1)), 0),
        (true, b"\x61\xE0\x80\x62", give(None, "a", bad(2, 1)), 0),
        (true, b"\x61\xC0", give(None, "a", bad(1, 0)), 0),
        (true, b"\xF0\x90", give(None, "", End::Cut), 2),
        (false, b"\x80", give(None, "", End::Cut), 3),
        (false, b"", give(None, "", End::Cut), 3),
        (true, b"", give(None, "", End::Whole), 0),
    ];
    let mut decoder = Decoder::new();
    for (new, piece, chunk, carried) in cases {
        if new {
            decoder = Decoder::new();
        }
        assert_eq!(rt; decoder.take(piece), chunk, "{piece:?}");
        assert_eq!(rt; decoder.carried(), carried, "{piece:?}");
    }
}

/// Characters of one to four bytes, ten bytes in all, over and over.
pub fn long_text() -> [u8; 5000] {
    let mut text = [0; 5000];
    for (i, byte) in text.iter_mut().enumerate() {
        *byte = match i % 10 {
            0 => 0x61,
            1 => 0xC3,
            2 => 0xA9,
            3 => 0xE2,
            4 => 0x82,
            6 => 0xF0,
            7 => 0x9F,
            8 => 0x98,
            9 => 0x80,
            _ => 0xAC,
        };
    }
    text
}

/// The same with a bad byte at this place.
fn broken_text(place: usize) -> [u8; 5000] {
    let mut text = long_text();
    if let Some(byte) = text.get_mut(place) {
        *byte = 0xFF;
    }
    text
}

/// How many bytes of a character stand before this place of the long text.
fn begun_at(place: usize) -> usize {
    match place % 10 {
        0 | 1 | 3 | 6 => 0,
        2 | 4 | 7 => 1,
        5 | 8 => 2,
        _ => 3,
    }
}

#[test]
fn long_pieces_end_where_they_are_cut(rt: HostRuntime) {
    let text = long_text();
    for place in 0..5000usize {
        let front = text.get(..place).unwrap_or(b"");
        let begun = begun_at(place);
        let mut decoder = Decoder::new();
        let chunk = decoder.take(front);
        let end = if begun == 0 { End::Whole } else { End::Cut };
        assert_eq!(rt; chunk.text.len(), place.wrapping_sub(begun), "{place}");
        assert_eq!(rt; chunk.end, end, "{place}");
        assert_eq!(rt; decoder.carried(), begun, "{place}");
    }
}

#[test]
fn long_pieces_end_at_a_bad_byte(rt: HostRuntime) {
    for place in (0..5000usize).step_by(7) {
        let text = broken_text(place);
        let begun = begun_at(place);
        let front = text.get(..place.wrapping_sub(begun)).unwrap_or(b"");
        let chunk = Decoder::new().take(&text);
        let end = End::Bad {
            at: place,
            back: begun,
        };
        assert_eq!(rt; chunk.text.as_bytes(), front, "{place}");
        assert_eq!(rt; chunk.end, end, "{place}");
    }
}
