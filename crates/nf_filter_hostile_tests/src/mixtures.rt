//! Texts of every character, and made-up texts of hostile mixtures, in pieces of made-up sizes.
ghost use Rattle.std.specs.Prelude.{◌<◌, length};

use crate::both_ways::{same_both_ways, same_over};
use crate::segments::CLUSTERS;
use crate::span::{BREAKS, SPAN};
use nf_filter_fixtures::{FORMS, joined};
use nf_row::{Patched, Plain};
use nf_seeded::Seeded;
use std::alloc::{AllocError, Global};
use std::test::Fail;

/// How many code points of a text are checked at once.
const BATCH: u32 = 128;

/// Each scalar value below U+34000 and in the first 4,096 of plane 14, and each sixteenth elsewhere: what is left out is
/// not assigned, or for private use.
fn is_taken(code: u32) -> bool {
    code < 0x3_4000 || (code >= 0xE_0000 && code < 0xE_1000) || code % 16 == 0
}

/// Appends the character between letters, after a starter with a mark, and before a mark.
fn push_surrounded(text: &mut String, c: char) -> Result<(), AllocError> {
    text.push_str("be")?;
    text.push(c)?;
    text.push_str("fa\u{323}")?;
    text.push(c)?;
    text.push_str("qx")?;
    text.push(c)?;
    text.push_str("\u{301}")
}

#[test]
fn each_character_goes_the_same_way(rt: HostRuntime) -> Result<(), Fail> {
    let alloc = rt.alloc();
    let rows = Patched::new(&[]);
    let unchanged = Plain::of(&rows).ok_or("not plain")?;
    for batch in 0..0x11_0000 / BATCH {
        let mut text = String::new(alloc);
        for code in batch * BATCH..(batch + 1) * BATCH {
            if is_taken(code)
                && let Some(c) = char::from_u32(code)
            {
                push_surrounded(&mut text, c)?;
            }
        }
        for form in FORMS {
            let answer = same_over(&rt, alloc, unchanged, form, &[text.as_bytes()]);
            assert!(rt; answer.is_ok(), "batch {batch}: {answer:?}");
        }
    }
    Ok(())
}

/// Marks of many classes and of one, half-width ones, and such as have other rows.
const MARKS: [&str; 20] = [
    "\u{301}",
    "\u{302}",
    "\u{308}",
    "\u{316}",
    "\u{323}",
    "\u{327}",
    "\u{334}",
    "\u{345}",
    "\u{5B0}",
    "\u{651}",
    "\u{93C}",
    "\u{94D}",
    "\u{F74}",
    "\u{3099}",
    "\u{FF9E}",
    "\u{FF9F}",
    "\u{F73}",
    "\u{344}",
    "\u{340}",
    "\u{1D165}",
];

/// Appends `times` of them, each chosen anew.
fn push_some(
    text: &mut String,
    seeded: &mut Seeded,
    from: &[&str],
    times: usize,
) -> Result<(), AllocError>
    requires { 0 < length from.now }
{
    for _ in 0..times {
        text.push_str(seeded.pick(from))?;
    }
    Ok(())
}

/// Appends a syllable of jamo, or a part of one.
fn push_jamo(text: &mut String, seeded: &mut Seeded) -> Result<(), AllocError> {
    for (first, len) in [(0x1100, 20), (0x1161, 22), (0x11A7, 29)] {
        if seeded.below(4) > 0
            && let Some(c) = seeded.char_in(first, len)
        {
            text.push(c)?;
        }
    }
    Ok(())
}

/// Appends a span, marks, what breaks a span, segments, or any character.
pub fn push_part(text: &mut String, seeded: &mut Seeded) -> Result<(), AllocError> {
    match seeded.below(10) {
        0..=2 => {
            let span = seeded.pick(&SPAN);
            let times = seeded.below(101) as usize;
            push_some(text, seeded, &[span], times)
        }
        3 => {
            let mark = seeded.pick(&MARKS);
            let times = seeded.below(40) as usize;
            push_some(text, seeded, &[mark], times)
        }
        4 => {
            let times = seeded.below(40) as usize;
            push_some(text, seeded, &MARKS, times)
        }
        5 => {
            let (other, times) = seeded.pick(&BREAKS);
            push_some(text, seeded, &[other], times)
        }
        6 => push_jamo(text, seeded),
        7 | 8 => {
            let times = seeded.below(60) as usize;
            push_some(text, seeded, &CLUSTERS, times)
        }
        _ => match seeded.char_in(0, 0x3_4000) {
            Some(c) => Ok(text.push(c)?),
            None => Ok(()),
        },
    }
}

/// The size of a piece, small more often than large.
fn size(seeded: &mut Seeded) -> usize {
    let most = match seeded.below(4) {
        0 => 1,
        1 => 8,
        2 => 300,
        _ => 5000,
    };
    1 + seeded.below(most) as usize
}

/// The bytes in pieces.
pub fn cut<'t>(
    alloc: Global,
    seeded: &mut Seeded,
    bytes: &'t [u8],
) -> Result<Vec<&'t [u8]>, AllocError> {
    let mut pieces = Vec::new(alloc);
    let mut rest = bytes;
    for _ in 0..bytes.len() {
        if rest.is_empty() {
            break;
        }
        let (piece, after) = rest.split_at(size(seeded).min(rest.len()));
        pieces.push(piece)?;
        rest = after;
    }
    Ok(pieces)
}

/// A text of some thousand bytes.
fn mixture(alloc: Global, seeded: &mut Seeded) -> Result<Vec<u8>, AllocError> {
    let mut text = String::new(alloc);
    for _ in 0..60 {
        push_part(&mut text, seeded)?;
    }
    joined(alloc, &[(text.as_str(), 1)])
}

#[test]
fn mixtures_go_the_same_way(rt: HostRuntime) -> Result<(), Fail> {
    let alloc = rt.alloc();
    for seed in 1..=600 {
        let mut seeded = Seeded::new(seed);
        let text = mixture(alloc, &mut seeded)?;
        for form in FORMS {
            let pieces = cut(alloc, &mut seeded, text.as_slice())?;
            let answer = same_both_ways(&rt, alloc, form, pieces.as_slice());
            assert!(rt; answer.is_ok(), "seed {seed}: {answer:?}");
        }
    }
    Ok(())
}

#[test]
fn ill_formed_mixtures_are_refused_in_the_same_way(rt: HostRuntime) -> Result<(), Fail> {
    let alloc = rt.alloc();
    for seed in 1001..=1200 {
        let mut seeded = Seeded::new(seed);
        let mut text = mixture(alloc, &mut seeded)?;
        let at = seeded.place(text.len());
        text.insert(at, 0xFF)?;
        for form in FORMS {
            let pieces = cut(alloc, &mut seeded, text.as_slice())?;
            let answer = same_both_ways(&rt, alloc, form, pieces.as_slice());
            assert!(rt; answer.is_err(), "seed {seed}: {answer:?}");
        }
    }
    Ok(())
}
