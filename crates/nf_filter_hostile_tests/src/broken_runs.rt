//! A run of characters that a form leaves as they stand, broken by each kind of other character near the end of a piece and
//! of a block, with short and long runs of marks after it. By data of which all is known and of which nothing is, the same
//! is written, and held, after each piece.
use crate::both_ways::same_over;
use crate::span::{BLOCK, SPAN, filled};
use nf_filter_fixtures::{FORMS, joined};
use nf_row::{Form, Patched, Plain};
use std::alloc::{AllocError, Global};
use std::process::Abort;
use std::test::Fail;

/// What breaks it.
const OTHERS: [&str; 18] = [
    // Nothing but the marks after; marks that compose and that do not; the joiner.
    "",
    "\u{301}",
    "\u{316}",
    "\u{5B0}",
    "\u{34F}",
    // A vowel, a last letter, a syllable of letters, and starters that compose with what is before them.
    "\u{1161}",
    "\u{11A8}",
    "\u{1112}\u{1161}\u{11AB}",
    "\u{9C7}\u{9BE}",
    // Rows that begin with marks, and that end in marks.
    "\u{344}",
    "\u{F73}",
    "\u{FF9E}",
    "\u{E9}",
    "\u{B4}",
    "\u{1E9B}",
    // Other rows.
    "\u{212B}",
    "\u{FDFA}",
    "\u{958}",
];

/// How many marks stand after that.
const COUNTS: [usize; 7] = [0, 28, 29, 30, 31, 32, 33];

/// Which: in one order by class, in none, and of one class that composes with nothing.
const MARKS: [&str; 3] = ["\u{301}", "\u{301}\u{316}", "\u{5B0}"];

/// How far from an end of a piece, or of a block, the break begins.
const FAR: usize = 70;

/// A run of `len` bytes, what breaks it, so many marks, and a run again.
#[derive(Clone, Copy, Debug)]
struct Broken<'a> {
    plain: &'a str,
    len: usize,
    other: &'a str,
    marks: &'a str,
    count: usize,
}

impl Broken<'_> {
    fn text(self, alloc: Global) -> Result<Vec<u8>, AllocError> {
        let mut text = filled(alloc, self.plain, self.len)?;
        let times = self.count / self.marks.chars().count().max(1);
        let odd = self.count % self.marks.chars().count().max(1);
        let after = joined(
            alloc,
            &[
                (self.other, 1),
                (self.marks, times),
                ("\u{301}", odd),
                (self.plain, 12),
            ],
        )?;
        text.extend_from_slice(after.as_slice())?;
        Ok(text)
    }
}

#[test]
fn pieces_end_near_a_break(rt: HostRuntime) -> Result<(), Fail> {
    let rows = Patched::new(&[]);
    let unchanged = Plain::of(&rows).ok_or("not plain")?;
    for (i, other) in OTHERS.iter().enumerate() {
        for (k, count) in COUNTS.iter().enumerate() {
            for plain in [SPAN[0], SPAN[1 + (i + k) % 9]] {
                let broken = Broken {
                    plain,
                    len: FAR,
                    other: *other,
                    marks: MARKS[(i + k) % 3],
                    count: *count,
                };
                check_cuts(&rt, rt.alloc(), unchanged, broken)?;
            }
        }
    }
    Ok(())
}

/// Cuts the text at each byte from its front to 70 bytes after the run.
fn check_cuts(
    rt: &impl Abort,
    alloc: Global,
    unchanged: Plain<'_, Patched<'_>>,
    broken: Broken<'_>,
) -> Result<(), AllocError> {
    let text = broken.text(alloc)?;
    let last = broken.len.saturating_add(FAR).min(text.len());
    for at in 0..=last {
        let (front, back) = text.split_at(at);
        for form in FORMS {
            let answer = same_over(rt, alloc, unchanged, form, &[front, back]);
            assert!(rt; answer.is_ok(), "{broken:?}, cut at {at}: {answer:?}");
        }
    }
    Ok(())
}

/// Each break at each place about the end of a block. The forms, the runs, the numbers of marks and the kinds of marks take
/// turns.
#[test]
fn blocks_end_near_a_break(rt: HostRuntime) -> Result<(), Fail> {
    let rows = Patched::new(&[]);
    let unchanged = Plain::of(&rows).ok_or("not plain")?;
    for (i, other) in OTHERS.iter().enumerate() {
        for len in BLOCK - FAR..=BLOCK + FAR {
            let broken = Broken {
                plain: SPAN[(len + i) % 10],
                len,
                other: *other,
                marks: MARKS[(len + i) % 3],
                count: COUNTS[(len / 7 + i) % 7],
            };
            let form = FORMS[(len + i) % 4];
            check_block(&rt, rt.alloc(), unchanged, form, broken)?;
        }
    }
    Ok(())
}

/// Checks the text in one piece, and cut at the end of the block.
fn check_block(
    rt: &impl Abort,
    alloc: Global,
    unchanged: Plain<'_, Patched<'_>>,
    form: Form,
    broken: Broken<'_>,
) -> Result<(), AllocError> {
    let text = broken.text(alloc)?;
    let (front, back) = text.split_at(BLOCK.min(text.len()));
    for pieces in [[text.as_slice(), b""], [front, back]] {
        let answer = same_over(rt, alloc, unchanged, form, &pieces);
        assert!(rt; answer.is_ok(), "{broken:?}: {answer:?}");
    }
    Ok(())
}
