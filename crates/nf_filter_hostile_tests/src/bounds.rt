//! A million of what makes a run longer, after a letter and alone: how many joiners are put, how much is written, and how
//! little is held.
use nf_filter::{Filter, Tally, check, measure};
use nf_filter_fixtures::{FORMS, Kept, Pieces, joined};
use nf_row::{Patched, Plain, Rows, Ucd};
use nf_safe::{Measure, Place};
use std::alloc::{AllocError, Global};
use std::process::Abort;
use std::test::Fail;

const TIMES: u64 = 1_000_000;

/// A character of which each is so many non-starters of the NFKD; the bytes of one in any form, and how many go in a run.
#[derive(Clone, Copy, Debug)]
struct Mark {
    text: &'static str,
    nonstarters: u64,
    written: u64,
    in_a_run: u64,
}

const MARKS: [Mark; 4] = [
    Mark {
        text: "\u{301}",
        nonstarters: 1,
        written: 2,
        in_a_run: 30,
    },
    // U+0308 U+0301 in each form.
    Mark {
        text: "\u{344}",
        nonstarters: 2,
        written: 4,
        in_a_run: 15,
    },
    // A starter; U+0F71 U+0F72 in each form.
    Mark {
        text: "\u{F73}",
        nonstarters: 2,
        written: 6,
        in_a_run: 15,
    },
    // A starter, which is U+3099 in the compatibility forms.
    Mark {
        text: "\u{FF9E}",
        nonstarters: 1,
        written: 3,
        in_a_run: 30,
    },
];

#[test]
fn a_million_marks_are_parted_and_few_are_held(rt: HostRuntime) -> Result<(), Fail> {
    let alloc = rt.alloc();
    for mark in MARKS {
        for letter in ["q", ""] {
            // One kind of mark is tried alone too.
            if letter.is_empty() && mark.text != MARKS[0].text {
                continue;
            }
            let text = joined(alloc, &[(letter, 1), (mark.text, 1_000_000)])?;
            // The last of the runs is not followed by a joiner.
            let put = (TIMES - 1) / mark.in_a_run.max(1);
            let before = letter.len() as u64;
            let tally = Tally {
                bytes: text.len() as u64,
                chars: TIMES.saturating_add(before),
                put,
            };
            let marks = mark.written.saturating_mul(TIMES);
            let written = before
                .saturating_add(marks)
                .saturating_add(put.saturating_mul(2));
            check_text(&rt, alloc, text.as_slice(), tally, written)?;
            check_survey(&rt, alloc, text.as_slice(), before, mark, tally)?;
        }
    }
    Ok(())
}

/// Feeds the text in each form to a filter of each kind.
fn check_text(
    rt: &impl Abort,
    alloc: Global,
    text: &[u8],
    tally: Tally,
    written: u64,
) -> Result<(), AllocError> {
    let unchanged = Patched::new(&[]);
    let plain = Plain::of(&Ucd).expect(rt, "plain");
    for form in FORMS {
        check_filter(rt, alloc, Filter::new(&Ucd, form, 0), text, tally, written);
        check_filter(
            rt,
            alloc,
            Filter::fast(plain, form, 0),
            text,
            tally,
            written,
        );
        check_filter(
            rt,
            alloc,
            Filter::new(&unchanged, form, 0),
            text,
            tally,
            written,
        );
    }
    Ok(())
}

/// Feeds pieces of 1,000 bytes.
fn check_filter<R: Rows>(
    rt: &impl Abort,
    alloc: Global,
    filter: Filter<'_, R>,
    text: &[u8],
    tally: Tally,
    written: u64,
) {
    let mut filter = filter;
    let mut sink = Kept::new(alloc);
    let mut len = 0u64;
    for piece in text.chunks(1000) {
        assert_eq!(rt; filter.feed(piece, &mut sink), Ok(()));
        let held = filter.held();
        assert!(rt; held.bytes <= 3 && held.pending <= 31, "{held:?}");
        len = len.saturating_add(sink.bytes.len() as u64);
        sink.bytes.clear();
    }
    assert_eq!(rt; filter.finish(&mut sink), Ok(tally));
    len = len.saturating_add(sink.bytes.len() as u64);
    assert_eq!(rt; len, written);
}

/// The text leaves the format where the first joiner is put.
fn check_survey(
    rt: &impl Abort,
    alloc: Global,
    text: &[u8],
    before: u64,
    mark: Mark,
    tally: Tally,
) -> Result<(), AllocError> {
    let pieces: Vec<&[u8]> = text.chunks(1000).collect(alloc)?;
    let width = mark.text.len() as u64;
    let place = Place {
        chars: mark.in_a_run.saturating_add(before),
        bytes: mark.in_a_run.saturating_mul(width).saturating_add(before),
    };
    let mut source = Pieces::new(pieces.as_slice(), true);
    assert_eq!(rt; check(&Ucd, 0, &mut source), Ok(Some(place)));
    assert_eq!(rt; source.given, 1);
    let nonstarters = u128::from(mark.nonstarters.saturating_mul(TIMES));
    let measured = Measure {
        bytes: tally.bytes,
        chars: tally.chars,
        nonstarters,
        longest: nonstarters,
        put: tally.put,
        unassigned: 0,
    };
    let mut source = Pieces::new(pieces.as_slice(), false);
    assert_eq!(rt; measure(&Ucd, 0, &mut source), Ok(measured));
    Ok(())
}
