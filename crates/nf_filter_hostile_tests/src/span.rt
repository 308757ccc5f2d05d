//! Text that a form leaves as it stands, broken by what it does not: at each length, and about the end of a block.
use crate::both_ways::same_over;
use nf_filter_fixtures::{FORMS, joined};
use nf_row::{Form, Patched, Plain};
use std::alloc::{AllocError, Global};
use std::process::Abort;
use std::test::Fail;

/// A span in some form, of each width in bytes; with marks in order too.
pub const SPAN: [&str; 10] = [
    "a",
    "\u{E9}",
    "\u{43B}",
    "\u{6F22}",
    "\u{AC00}",
    "\u{D55C}",
    "\u{1F600}",
    "\u{5D1}\u{5B0}",
    "\u{628}\u{650}\u{651}",
    "\u{915}\u{93F}",
];

/// What breaks it, each so many times.
pub const BREAKS: [(&str, usize); 34] = [
    // Marks that compose, that do not, that stand out of order, and long runs of them.
    ("\u{301}", 1),
    ("\u{316}", 1),
    ("\u{5B0}", 1),
    ("\u{301}\u{316}", 1),
    ("\u{651}\u{650}", 1),
    ("\u{301}", 12),
    ("\u{301}", 13),
    ("\u{301}", 30),
    ("\u{301}", 31),
    ("\u{316}", 12),
    ("\u{316}", 13),
    ("\u{316}", 30),
    ("\u{316}", 31),
    ("\u{301}\u{316}", 16),
    ("\u{316}\u{301}", 31),
    // Marks of other rows, and starters that decompose to marks.
    ("\u{340}", 1),
    ("\u{344}", 1),
    ("\u{344}", 16),
    ("\u{F73}", 1),
    ("\u{F73}", 16),
    ("\u{FF9E}", 1),
    ("\u{FF9E}", 31),
    ("\u{34F}", 1),
    // Starters that compose with what stands before them.
    ("\u{1161}", 1),
    ("\u{1112}\u{1161}\u{11AB}", 1),
    ("\u{11A8}", 1),
    ("\u{9C7}\u{9BE}", 1),
    // Starters with other rows.
    ("\u{958}", 1),
    ("\u{FDFA}", 1),
    ("\u{212B}", 1),
    ("\u{FB01}", 1),
    ("\u{B4}", 1),
    ("\u{1E9B}\u{323}", 1),
    ("\u{AC01}", 1),
];

/// How many bytes a block has.
pub const BLOCK: usize = 4096;

/// A span of so many bytes, after ASCII where its characters do not come out.
pub fn filled(alloc: Global, span: &str, len: usize) -> Result<Vec<u8>, AllocError> {
    let width = span.len().max(1);
    joined(alloc, &[("b", len % width), (span, len / width)])
}

/// A span of `len` bytes, what breaks it, a little of a span, and the break again: there it shows what a span leaves
/// of a count.
#[derive(Clone, Copy)]
struct Seam<'a> {
    span: &'a str,
    len: usize,
    broken_by: (&'a str, usize),
}

impl Seam<'_> {
    fn text(self, alloc: Global) -> Result<Vec<u8>, AllocError> {
        let mut text = filled(alloc, self.span, self.len)?;
        let after = joined(alloc, &[self.broken_by, (self.span, 12), self.broken_by])?;
        text.extend_from_slice(after.as_slice())?;
        Ok(text)
    }

    /// The bytes of what breaks it.
    fn width(self) -> usize {
        let (other, times) = self.broken_by;
        other.len().saturating_mul(times)
    }
}

/// Checks the text in one piece.
fn check_whole(
    rt: &impl Abort,
    alloc: Global,
    unchanged: Plain<'_, Patched<'_>>,
    form: Form,
    seam: Seam<'_>,
) -> Result<(), AllocError> {
    let text = seam.text(alloc)?;
    let answer = same_over(rt, alloc, unchanged, form, &[text.as_slice()]);
    assert!(rt; answer.is_ok(), "{form:?}: {answer:?}");
    Ok(())
}

/// Checks the text in two pieces, cut at each byte from 8 before the break to 8 after it.
fn check_cuts(
    rt: &impl Abort,
    alloc: Global,
    unchanged: Plain<'_, Patched<'_>>,
    form: Form,
    seam: Seam<'_>,
) -> Result<(), AllocError> {
    let text = seam.text(alloc)?;
    let last = seam.len.saturating_add(seam.width()).saturating_add(8);
    for at in seam.len.saturating_sub(8)..=last.min(text.len()) {
        let (front, back) = text.split_at(at);
        let answer = same_over(rt, alloc, unchanged, form, &[front, back]);
        assert!(rt; answer.is_ok(), "{form:?}, cut at {at}: {answer:?}");
    }
    Ok(())
}

#[test]
fn spans_of_each_length_are_broken(rt: HostRuntime) -> Result<(), Fail> {
    let alloc = rt.alloc();
    let rows = Patched::new(&[]);
    let unchanged = Plain::of(&rows).ok_or("not plain")?;
    for span in SPAN {
        for broken_by in BREAKS {
            for form in FORMS {
                check_lengths(&rt, alloc, unchanged, form, span, broken_by)?;
            }
        }
    }
    Ok(())
}

/// The span has each length up to 100 bytes. At one of them it is cut too.
fn check_lengths(
    rt: &impl Abort,
    alloc: Global,
    unchanged: Plain<'_, Patched<'_>>,
    form: Form,
    span: &str,
    broken_by: (&str, usize),
) -> Result<(), AllocError> {
    for len in 0..=100 {
        let seam = Seam {
            span,
            len,
            broken_by,
        };
        check_whole(rt, alloc, unchanged, form, seam)?;
    }
    let seam = Seam {
        span,
        len: 40,
        broken_by,
    };
    check_cuts(rt, alloc, unchanged, form, seam)
}

/// ASCII meets each break at each place about the end of a block, in two forms in turn. Other spans meet each break
/// in each form at one place, and at each place some break.
#[test]
fn spans_are_broken_about_the_end_of_a_block(rt: HostRuntime) -> Result<(), Fail> {
    let rows = Patched::new(&[]);
    let unchanged = Plain::of(&rows).ok_or("not plain")?;
    for (i, span) in SPAN.iter().enumerate() {
        let turns = if i == 0 { 2 } else { 81 };
        for (j, broken_by) in BREAKS.iter().enumerate() {
            for (k, form) in FORMS.iter().enumerate() {
                for len in BLOCK - 40..=BLOCK + 40 {
                    if (len + i + 4 * j + k) % turns == 0 {
                        let seam = Seam {
                            span,
                            len,
                            broken_by: *broken_by,
                        };
                        check_whole(&rt, rt.alloc(), unchanged, *form, seam)?;
                    }
                }
            }
        }
    }
    Ok(())
}

#[test]
fn pieces_end_about_a_break_at_the_end_of_a_block(rt: HostRuntime) -> Result<(), Fail> {
    let rows = Patched::new(&[]);
    let unchanged = Plain::of(&rows).ok_or("not plain")?;
    for (i, broken_by) in BREAKS.iter().enumerate() {
        for (k, form) in FORMS.iter().enumerate() {
            // Each break in one form in turn.
            if (i + k) % 4 == 0 {
                let seam = Seam {
                    span: "a",
                    len: BLOCK,
                    broken_by: *broken_by,
                };
                check_cuts(&rt, rt.alloc(), unchanged, *form, seam)?;
            }
        }
    }
    Ok(())
}
