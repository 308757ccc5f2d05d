//! Of what a filter wrote, a second one of the same form changes nothing.
use nf_filter_fixtures::{WAYS, course_by, filter_of, joined};
use nf_row::Ucd;
use std::alloc::{AllocError, Global};
use std::process::Abort;
use std::test::Fail;

const J: &str = "\u{34F}";

const M: &str = "\u{301}";

/// Filters the pieces, and then what came out: the same bytes come out again, and nothing is put into them.
fn check_twice(rt: &impl Abort, alloc: Global, pieces: &[&[u8]]) -> Result<(), AllocError> {
    for (form, is_fast) in WAYS {
        let first = course_by(alloc, filter_of(&Ucd, form, 0, is_fast), pieces)?;
        assert!(rt; first.answer.is_ok());
        let written = first.written.as_slice();
        let second = course_by(alloc, filter_of(&Ucd, form, 0, is_fast), &[written])?;
        assert_eq!(rt; second.answer.map(|tally| tally.put), Ok(0));
        assert_eq!(rt; second.written.as_slice(), written);
    }
    Ok(())
}

#[test]
fn what_was_written_passes_unchanged(rt: HostRuntime) -> Result<(), Fail> {
    let alloc = rt.alloc();
    let texts: [&[(&str, usize)]; 20] = [
        &[],
        &[("A\u{30A}", 1)],
        &[("\u{1E9B}\u{323}", 1)],
        &[("a\u{302}\u{323}", 1)],
        &[("q", 1), (M, 31)],
        &[("q", 1), (M, 30)],
        &[("a", 1), (M, 31)],
        &[("q", 1), (M, 30), ("\u{323}", 1)],
        &[("q", 1), (M, 29), ("\u{344}", 1)],
        &[("q", 1), (M, 28), ("\u{344}", 1)],
        &[("\u{FF9E}", 31)],
        &[("\u{30AB}\u{FF9E}", 1)],
        &[("\u{FDFA}", 1)],
        &[("\u{1112}\u{1161}\u{11AB}", 1)],
        &[("\u{AC00}\u{11A7}", 1)],
        &[("\u{1100}\u{300}\u{1161}", 1)],
        &[("q", 1), (M, 30), (J, 1), (M, 1)],
        &[("q", 1), (M, 61)],
        &[("\u{301}\u{323}", 1)],
        &[("\u{C5}", 1), (M, 30)],
    ];
    for text in texts {
        check_twice(&rt, alloc, &[joined(alloc, text)?.as_slice()])?;
    }
    Ok(())
}

#[test]
fn a_million_marks_that_were_written_pass_unchanged(rt: HostRuntime) -> Result<(), Fail> {
    let alloc = rt.alloc();
    for letter in ["q", ""] {
        let text = joined(alloc, &[(letter, 1), (M, 1_000_000)])?;
        let pieces: Vec<&[u8]> = text.chunks(1000).collect(alloc)?;
        check_twice(&rt, alloc, pieces.as_slice())?;
    }
    Ok(())
}

const LETTERS: [&str; 10] = [
    "a", "\u{301}", "\u{302}", "\u{323}", "\u{1EA1}", "\u{1100}", "\u{1161}", "\u{11A8}",
    "\u{AC00}", "\u{FF9E}",
];

/// Every text of at most four of the letters: each digit of a number names one.
#[test]
fn short_texts_that_were_written_pass_unchanged(rt: HostRuntime) -> Result<(), Fail> {
    let alloc = rt.alloc();
    for (len, count) in [(0, 1), (1, 10), (2, 100), (3, 1000), (4, 10_000u32)] {
        for number in 0..count {
            let mut text = String::new(alloc);
            let mut rest = number;
            for _ in 0..len {
                text.push_str(LETTERS[(rest % 10) as usize])?;
                rest /= 10;
            }
            check_twice(&rt, alloc, &[text.as_bytes()])?;
        }
    }
    Ok(())
}
