//! A measurement passes over much that it need not look at: it answers the same over the same data of which nothing is
//! known, with which each character is looked at.
use crate::mixtures::{cut, push_part};
use nf_filter::{Fault, FromReader, measure, measure_buffered};
use nf_filter_fixtures::{Pieces, joined};
use nf_row::{Patched, Ucd};
use nf_safe::Measure;
use nf_seeded::Seeded;
use std::alloc::AllocError;
use std::test::Fail;

const M: &str = "\u{301}";

const LETTERS: &str = "\u{436}\u{436}\u{436}\u{436}\u{436}\u{436}\u{436}\u{436}\u{436}\u{436}";

/// The measure of the pieces, each of which comes at once.
fn measured(pieces: &[&[u8]]) -> Result<Measure, Fault> {
    let mut buffer = [0; 5000];
    measure_buffered(&Ucd, 0, &mut Pieces::new(pieces, false), &mut buffer)
}

/// Appends one of these some times, or what other mixtures have.
fn push_some(text: &mut String, seeded: &mut Seeded) -> Result<(), AllocError> {
    let (some, most) = match seeded.below(10) {
        0 | 1 => ("a", 80),
        2 => (M, 40),
        3 => ("a\u{301}", 20),
        4 => ("a\u{E9}", 20),
        // Not assigned.
        5 => ("\u{378}", 3),
        6 => ("\u{3042}\u{3098}", 3),
        7 => ("\u{436}", 80),
        8 => ("\u{4E2D}\u{3042} ", 40),
        _ => return push_part(text, seeded),
    };
    for _ in 0..seeded.below(most) {
        text.push_str(some)?;
    }
    Ok(())
}

#[test]
fn mixtures_are_measured_in_the_same_way(rt: HostRuntime) -> Result<(), Fail> {
    let alloc = rt.alloc();
    for seed in 1..=300 {
        let mut seeded = Seeded::new(seed);
        let mut text = String::new(alloc);
        for _ in 0..80 {
            push_some(&mut text, &mut seeded)?;
        }
        let pieces = cut(alloc, &mut seeded, text.as_bytes())?;
        let looked_at = measure(&Patched::new(&[]), 0, &mut FromReader::new(text.as_bytes()));
        assert!(rt; looked_at.is_ok(), "seed {seed}");
        assert_eq!(rt; measured(pieces.as_slice()), looked_at, "seed {seed}");
    }
    Ok(())
}

/// The measure over Unicode's data, and over the same data of which nothing is known.
fn both(text: &str) -> [Result<Measure, Fault>; 2] {
    let bytes = text.as_bytes();
    let (mut first, mut second) = ([0; 64], [0; 64]);
    [
        measure_buffered(&Ucd, 0, &mut FromReader::new(bytes), &mut first),
        measure_buffered(
            &Patched::new(&[]),
            0,
            &mut FromReader::new(bytes),
            &mut second,
        ),
    ]
}

#[test]
fn each_character_is_measured_in_the_same_way(rt: HostRuntime) -> Result<(), Fail> {
    for code in 0..0x11_0000u32 {
        let Some(c) = char::from_u32(code) else {
            continue;
        };
        let mut bytes = [0; 4];
        let own: &str = c.encode_utf8(&mut bytes);
        let [known, looked_at] = both(own);
        assert_eq!(rt; known, looked_at, "{code:x}");
        // So many letters that lanes of bytes are asked.
        let between = format!(in rt.alloc(); "\u{436}{own}{LETTERS}")?;
        let [known, looked_at] = both(&between);
        assert_eq!(rt; known, looked_at, "{code:x} between letters");
    }
    Ok(())
}

#[test]
fn a_text_is_measured_wherever_it_is_cut(rt: HostRuntime) -> Result<(), Fail> {
    let parts = [
        ("a", 33),
        (M, 31),
        ("b", 40),
        ("\u{E9}\u{FFFF}", 1),
        (M, 2),
        ("c", 1),
    ];
    let text = joined(rt.alloc(), &parts)?;
    let values = Measure {
        bytes: 145,
        chars: 109,
        nonstarters: 34,
        longest: 31,
        put: 1,
        unassigned: 1,
    };
    for at in 1..text.len() {
        let (front, after) = text.split_at(at);
        assert_eq!(rt; measured(&[front, after]), Ok(values), "at {at}");
    }
    Ok(())
}
