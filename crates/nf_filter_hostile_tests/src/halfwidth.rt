//! Halfwidth sound marks after one another: starters that count as marks, and of which the compatibility forms have marks.
//! By data of which all is known and of which nothing is, the same is written, and held, after each piece.
use crate::both_ways::same_over;
use nf_filter_fixtures::{FORMS, joined};
use nf_row::{Form, Patched, Plain};
use std::alloc::{AllocError, Global};
use std::process::Abort;
use std::test::Fail;

/// What stands before them.
const BEFORE: [&str; 6] = [
    "",
    "q",
    "\u{FF76}",
    "\u{30AB}",
    "\u{30AB}\u{3099}",
    "\u{FF8A}\u{301}",
];

/// Which: each alone, both, and with marks that they do and do not stand for.
const MARKS: [&str; 5] = [
    "\u{FF9E}",
    "\u{FF9F}",
    "\u{FF9E}\u{FF9F}",
    "\u{3099}\u{FF9F}",
    "\u{FF9E}\u{334}\u{301}",
];

/// How many of these stand after one another.
const COUNTS: [usize; 11] = [1, 12, 13, 15, 28, 29, 30, 31, 32, 33, 62];

/// What follows.
const AFTER: [&str; 4] = ["", "b", "\u{FF76}\u{FF9E}", "\u{3099}\u{301}"];

/// How many bytes a piece has.
const SIZES: [usize; 6] = [1, 2, 3, 4, 31, 10_000];

#[test]
fn runs_of_halfwidth_marks(rt: HostRuntime) -> Result<(), Fail> {
    let rows = Patched::new(&[]);
    let unchanged = Plain::of(&rows).ok_or("not plain")?;
    for before in BEFORE {
        for marks in MARKS {
            for (i, count) in COUNTS.iter().enumerate() {
                let parts = [(before, 1), (marks, *count), (AFTER[i % 4], 1)];
                check_text(&rt, rt.alloc(), unchanged, &parts)?;
            }
        }
    }
    Ok(())
}

/// Of these more than a block is written.
#[test]
fn long_runs_of_halfwidth_marks(rt: HostRuntime) -> Result<(), Fail> {
    let rows = Patched::new(&[]);
    let unchanged = Plain::of(&rows).ok_or("not plain")?;
    for marks in MARKS {
        let parts = [("\u{FF76}", 1), (marks, 1500), ("b", 1)];
        check_text(&rt, rt.alloc(), unchanged, &parts)?;
    }
    Ok(())
}

/// Checks the text in each form, in pieces of each size.
fn check_text(
    rt: &impl Abort,
    alloc: Global,
    unchanged: Plain<'_, Patched<'_>>,
    parts: &[(&str, usize)],
) -> Result<(), AllocError> {
    let text = joined(alloc, parts)?;
    for size in SIZES {
        for form in FORMS {
            check_pieces(rt, alloc, unchanged, form, text.as_slice(), size)?;
        }
    }
    Ok(())
}

fn check_pieces(
    rt: &impl Abort,
    alloc: Global,
    unchanged: Plain<'_, Patched<'_>>,
    form: Form,
    text: &[u8],
    size: usize,
) -> Result<(), AllocError> {
    let mut pieces = Vec::new(alloc);
    for piece in text.chunks(size.max(1)) {
        pieces.push(piece)?;
    }
    let answer = same_over(rt, alloc, unchanged, form, pieces.as_slice());
    assert!(rt;
        answer.is_ok(),
        "{form:?} of {text:?} by {size}: {answer:?}"
    );
    Ok(())
}
