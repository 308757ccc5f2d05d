//! Segments: each kind of them, at each place about the end of a piece and of a block, and cut at each byte.
use crate::both_ways::same_both_ways;
use nf_filter_fixtures::{FORMS, joined};
use nf_row::Form;
use std::alloc::{AllocError, Global};
use std::process::Abort;
use std::test::Fail;

/// Characters from one boundary to another, which some form changes.
pub const CLUSTERS: [&str; 20] = [
    // Letters that are taken apart, and such as are put together.
    "\u{E9}",
    "\u{1EC7}",
    "e\u{301}",
    "e\u{323}\u{302}",
    // Marks that change places, that compose with nothing, and before which a letter is taken apart.
    "e\u{302}\u{323}",
    "q\u{301}",
    "\u{EA}\u{323}",
    // Hangul: letters, a syllable, and one with a letter after it.
    "\u{1112}\u{1161}",
    "\u{1112}\u{1161}\u{11AB}",
    "\u{D55C}",
    "\u{AC00}\u{11A8}",
    // Full width; kana with a mark, of half width and not.
    "\u{FF21}",
    "\u{FF76}\u{FF9E}",
    "\u{30AB}\u{3099}",
    // Starters that compose, and such as never do.
    "\u{9C7}\u{9BE}",
    "\u{958}",
    // Rows that are marks, after a letter.
    "\u{F40}\u{F73}",
    "o\u{344}",
    "\u{FDFA}",
    "\u{FB01}\u{307}",
];

/// What begins the next piece: a character at a boundary, and such as change what stands before them.
const NEXT: [&str; 5] = ["c", "\u{301}", "\u{E9}", "\u{1161}", "\u{FF9E}"];

/// How many bytes a block has.
const BLOCK: usize = 4096;

/// Checks a text that is cut there.
fn check_cut(rt: &impl Abort, alloc: Global, form: Form, text: &[u8], at: usize) {
    let (front, back) = text.split_at(at.min(text.len()));
    let answer = same_both_ways(rt, alloc, form, &[front, back]);
    assert!(rt; answer.is_ok(), "{form:?}, cut at {at}: {answer:?}");
}

/// The same in each form.
fn check_forms(rt: &impl Abort, alloc: Global, text: &[u8], at: usize) {
    for form in FORMS {
        check_cut(rt, alloc, form, text, at);
    }
}

#[test]
fn a_piece_ends_at_each_place_after_segments(rt: HostRuntime) -> Result<(), Fail> {
    let alloc = rt.alloc();
    for cluster in CLUSTERS {
        for next in NEXT {
            for len in 0..=40 {
                check_closed(&rt, alloc, cluster, next, len)?;
            }
        }
    }
    Ok(())
}

/// Segments, so much ASCII, and after the cut what begins the next piece.
fn check_closed<'t>(
    rt: &impl Abort,
    alloc: Global,
    cluster: &'t str,
    next: &'t str,
    len: usize,
) -> Result<(), AllocError> {
    let mut text = joined(alloc, &[("a", 1), (cluster, 2), ("b", len)])?;
    let at = text.len();
    let after = joined(alloc, &[(next, 1), (cluster, 1), ("z", 1)])?;
    text.extend_from_slice(after.as_slice())?;
    check_forms(rt, alloc, text.as_slice(), at);
    Ok(())
}

#[test]
fn segments_are_cut_at_each_byte(rt: HostRuntime) -> Result<(), Fail> {
    let alloc = rt.alloc();
    for first in CLUSTERS {
        for second in CLUSTERS {
            check_pair(&rt, alloc, first, second)?;
        }
    }
    Ok(())
}

fn check_pair<'t>(
    rt: &impl Abort,
    alloc: Global,
    first: &'t str,
    second: &'t str,
) -> Result<(), AllocError> {
    let text = joined(alloc, &[("a", 1), (first, 1), (second, 1), ("b", 1)])?;
    for at in 0..=text.len() {
        check_forms(rt, alloc, text.as_slice(), at);
    }
    Ok(())
}

/// A span up to each place before the end of a block, and segments across it.
#[test]
fn a_block_ends_at_each_place_about_segments(rt: HostRuntime) -> Result<(), Fail> {
    let alloc = rt.alloc();
    for cluster in CLUSTERS {
        for before in 0..=40 {
            let len = BLOCK.saturating_sub(before);
            let text = joined(alloc, &[("a", len), (cluster, 20), ("b", 1)])?;
            check_forms(&rt, alloc, text.as_slice(), BLOCK);
        }
    }
    Ok(())
}

/// Segments alone fill blocks, from each place of the first on.
#[test]
fn blocks_are_filled_with_segments(rt: HostRuntime) -> Result<(), Fail> {
    let alloc = rt.alloc();
    for cluster in CLUSTERS {
        let times = (BLOCK / cluster.len().max(1)).saturating_add(40);
        for before in 0..=40 {
            let text = joined(alloc, &[("a", before), (cluster, times)])?;
            check_forms(&rt, alloc, text.as_slice(), text.len());
        }
    }
    Ok(())
}
