//! The count of characters.

use crate::blocks::long_text;
use nf_utf8::char_count;
use std::alloc::AllocError;

/// Texts of up to a hundred characters, each the first or the last of its width, or beside the surrogates.
#[test]
fn texts_of_one_width(rt: HostRuntime) -> Result<(), AllocError> {
    let characters = [
        '\0',
        '\u{7F}',
        '\u{80}',
        '\u{7FF}',
        '\u{800}',
        '\u{D7FF}',
        '\u{E000}',
        '\u{FFFF}',
        '\u{10000}',
        '\u{10FFFF}',
    ];
    for c in characters {
        let mut text = String::new(rt.alloc());
        for n in 0..=100usize {
            assert_eq!(rt; char_count(text.as_str()), n, "{c:?}");
            text.push(c)?;
        }
    }
    Ok(())
}

/// Where the character at this place of the long text begins.
fn start_of(place: usize) -> usize {
    let before = match place % 4 {
        0 => 0,
        1 => 1,
        2 => 3,
        _ => 6,
    };
    (place / 4).wrapping_mul(10).wrapping_add(before)
}

/// Texts of up to a hundred characters of all widths, at each place in the lanes.
#[test]
fn texts_of_mixed_widths(rt: HostRuntime) {
    let bytes = long_text();
    let long = std::str::from_utf8(&bytes).unwrap_or("");
    assert_eq!(rt; char_count(long), 2000);
    for first in 0..33usize {
        for n in 0..=100usize {
            let (from, to) = (start_of(first), start_of(first.wrapping_add(n)));
            let text = long.get(from..to).unwrap_or("?");
            assert_eq!(rt; char_count(text), n, "{first}");
        }
    }
}

#[test]
fn words_are_counted(rt: HostRuntime) {
    let words = [
        ("", 0),
        ("na\u{EF}ve", 5),
        ("e\u{301}", 2),
        ("\u{39B}\u{3CC}\u{3B3}\u{3BF}\u{3C2}", 5),
        ("\u{65E5}\u{672C}\u{8A9E}", 3),
        ("\u{1F469}\u{200D}\u{1F680}!", 4),
    ];
    for (text, n) in words {
        assert_eq!(rt; char_count(text), n, "{text}");
    }
}
