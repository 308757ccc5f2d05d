//! Made-up mixtures of letters, marks and any characters, against the span found by one character after another.
use crate::sweep::{Role, parts_of, role_of};
use nf_forms::Form;
use nf_seeded::Seeded;
use std::test::Fail;
use unicode_normalization::char::canonical_combining_class;

/// Letters of many scripts, of each width.
const LETTERS: [&str; 22] = [
    "a", " ", "\u{E9}", "\u{433}", "\u{439}", "\u{5D0}", "\u{628}", "\u{623}", "\u{645}",
    "\u{669}", "\u{915}", "\u{939}", "\u{94C}", "\u{1100}", "\u{1EBF}", "\u{3002}", "\u{3044}",
    "\u{30AC}", "\u{4E2D}", "\u{AC00}", "\u{FF0C}", "\u{FFFD}",
];

/// Marks that stand alone in each form, of classes 220, 10, 30, 35, 9, 107 and 218, and a starter that counts as a mark.
const MARKS: [&str; 8] = [
    "\u{316}", "\u{5B0}", "\u{64E}", "\u{670}", "\u{94D}", "\u{E48}", "\u{302A}", "\u{FF9E}",
];

/// Blocks that have characters of all kinds: the first code point, and how many.
const BLOCKS: [(u32, u32); 12] = [
    (0x300, 0x70),
    (0x400, 0x100),
    (0x590, 0x70),
    (0x600, 0x100),
    (0x900, 0x80),
    (0x1100, 0x100),
    (0x1E00, 0x200),
    (0x3000, 0x100),
    (0xFB00, 0x100),
    (0xFE00, 0x40),
    (0xFF60, 0x60),
    (0x1D150, 0x80),
];

/// The span by the role of each character: after an own boundary a bound of 18 non-starters is counted from.
fn front_of(form: Form, text: &str) -> (&str, &str, &str) {
    let (mut class, mut count) = (0u8, 30u8);
    let (mut last, mut end) = (0usize, 0usize);
    for c in text.chars() {
        let mark = canonical_combining_class(c);
        match role_of(form, c) {
            Role::Boundary => {
                last = end;
                class = 0;
                count = 18;
            }
            Role::Mark if (mark == 0 || mark >= class) && count < 30 => {
                class = mark;
                count += 1;
            }
            _ => break,
        }
        end = end.saturating_add(c.len_utf8());
    }
    (
        text.get(..last).unwrap_or_default(),
        text.get(last..end).unwrap_or_default(),
        text.get(end..).unwrap_or_default(),
    )
}

#[test]
fn mixtures_end_where_their_characters_say(rt: HostRuntime) -> Result<(), Fail> {
    let mut seeded = Seeded::new(1);
    for round in 0..4000u32 {
        let mut text = String::new(rt.alloc());
        let letter = LETTERS[seeded.below(22) as usize];
        let others = 2 + seeded.below(40);
        for _ in 0..10 + seeded.below(190) {
            match seeded.below(others) {
                0 => {
                    let (first, len) = BLOCKS[seeded.below(12) as usize];
                    text.push(seeded.char_in(first, len).unwrap_or('b'))?;
                }
                1 => text.push_str(MARKS[seeded.below(8) as usize])?,
                2..=9 => text.push_str(LETTERS[seeded.below(22) as usize])?,
                _ => text.push_str(letter)?,
            }
        }
        for form in [Form::Nfc, Form::Nfd, Form::Nfkc, Form::Nfkd] {
            assert_eq!(rt;
                parts_of(form, &text),
                front_of(form, &text),
                "{form:?}, {round}"
            );
        }
    }
    Ok(())
}
