//! Made-up mixtures of letters and of characters of any kind, against the assigned front found by one after another.
ghost use Rattle.std.specs.Prelude.{◌<◌};

use crate::sweep::is_assigned;
use nf_assigned::assigned_front;
use nf_seeded::Seeded;
use std::test::Fail;

/// Letters of each width, of many scripts.
const LETTERS: [char; 12] = [
    'a',
    ' ',
    '\u{E9}',
    '\u{433}',
    '\u{5D0}',
    '\u{628}',
    '\u{915}',
    '\u{1EBF}',
    '\u{3044}',
    '\u{4E2D}',
    '\u{AC00}',
    '\u{1F600}',
];

/// Blocks that have holes: the first code point, and how many.
const BLOCKS: [(u32, u32); 8] = [
    (0x370, 0x90),
    (0x530, 0xD0),
    (0x900, 0x700),
    (0x2000, 0xC00),
    (0x3000, 0x200),
    (0xA480, 0x380),
    (0xD780, 0x80),
    (0xFA00, 0x600),
];

/// A letter, or, one time of so many, a character of a block.
fn next_char(seeded: &mut Seeded, letter: char, others: u32) -> char
    requires { 0 < others }
{
    if seeded.below(others) > 0 {
        return letter;
    }
    let (first, len) = seeded.pick(&BLOCKS);
    seeded.char_in(first, len).unwrap_or(letter)
}

/// How many bytes the assigned characters at the front have.
fn front_len(text: &str) -> usize {
    let mut len = 0usize;
    for c in text.chars() {
        if !is_assigned(c) {
            return len;
        }
        len = len.saturating_add(c.len_utf8());
    }
    len
}

#[test]
fn the_front_is_that_of_its_characters(rt: HostRuntime) -> Result<(), Fail> {
    let mut seeded = Seeded::new(1);
    for round in 0..6000u32 {
        let mut text = String::new(rt.alloc());
        let letter = seeded.pick(&LETTERS);
        let others = 1 + seeded.below(60);
        for _ in 0..10 + seeded.below(190) {
            text.push(next_char(&mut seeded, letter, others))?;
        }
        let front = assigned_front(&text);
        let whole = front_len(&text);
        let at_end = text.len().saturating_sub(front) <= 68;
        assert!(rt;
            (front == whole || (front < whole && at_end)) && text.is_char_boundary(front),
            "{round}"
        );
    }
    Ok(())
}
