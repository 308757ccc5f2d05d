//! Streams of a mebibyte that are nearly nothing but marks: few bytes of them are kept.
use nf_filter_fixtures::{FORMS, joined};
use nf_normalized::FormChecker;
use nf_row::Form;
use nf_safe::Place;
use std::process::Abort;
use std::test::Fail;

const MEBIBYTE: usize = 1024 * 1024;

/// Feeds a checker the text in pieces of this size: at the end it answers the place, or none.
fn assert_few_kept(rt: &impl Abort, form: Form, text: &[u8], size: usize, place: Option<Place>) {
    let mut checker = FormChecker::new(form, false, 0);
    let mut rest = text;
    for _ in 0..text.len() {
        if rest.is_empty() {
            break;
        }
        let (piece, after) = rest.split_at(size.min(rest.len()));
        let told = checker.feed(piece);
        assert!(rt; told == Ok(None) || told == Ok(place), "{form:?}: {told:?}");
        assert!(rt; checker.held() <= 315);
        rest = after;
    }
    assert_eq!(rt; checker.finish(), Ok(place), "{form:?}");
}

#[test]
fn a_run_is_not_kept_whole(rt: HostRuntime) -> Result<(), Fail> {
    // The joiner would be put after 30 marks.
    let after_30 = Place {
        chars: 31,
        bytes: 61,
    };
    let text = joined(rt.alloc(), &[("q", 1), ("\u{301}", MEBIBYTE / 2)])?;
    for form in FORMS {
        for size in [1, 7, 4096] {
            assert_few_kept(&rt, form, text.as_slice(), size, Some(after_30));
        }
    }
    Ok(())
}

/// Marks in runs of 30: of two bytes, after joiners, and of four, after letters.
#[test]
fn runs_that_are_short_enough_are_not_kept(rt: HostRuntime) -> Result<(), Fail> {
    for (starter, mark) in [("\u{34F}", "\u{301}"), ("q", "\u{1D165}")] {
        let run = joined(rt.alloc(), &[(starter, 1), (mark, 30)])?;
        let mut text = Vec::new(rt.alloc());
        for _ in 0..MEBIBYTE / run.len().max(1) {
            text.extend_from_slice(run.as_slice())?;
        }
        for form in FORMS {
            for size in [1, 7, 4096] {
                assert_few_kept(&rt, form, text.as_slice(), size, None);
            }
        }
    }
    Ok(())
}
