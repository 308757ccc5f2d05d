//! What is written before the end, and what waits for it.
use nf_filter::{Held, Tally};
use nf_filter_fixtures::{WAYS, course_by, filter_of, joined};
use nf_row::{Form, Ucd};
use std::alloc::{AllocError, Global};
use std::process::Abort;
use std::test::Fail;

/// Pieces in a form: what is written before the end, how many code points wait, and all that is written.
#[derive(Clone, Copy)]
struct Case<'a> {
    form: Form,
    pieces: &'a [&'a [u8]],
    settled: &'a str,
    pending: usize,
    written: &'a str,
    tally: Tally,
}

fn tally(bytes: u64, chars: u64, put: u64) -> Tally {
    Tally { bytes, chars, put }
}

#[test]
fn what_can_change_is_held_back(rt: HostRuntime) -> Result<(), Fail> {
    let alloc = rt.alloc();
    let dotted = [
        (Form::Nfc, "\u{1E9B}\u{323}"),
        (Form::Nfd, "\u{17F}\u{323}\u{307}"),
        (Form::Nfkc, "\u{1E69}"),
        (Form::Nfkd, "s\u{323}\u{307}"),
    ];
    for (form, written) in dotted {
        let case = Case {
            form,
            pieces: &[b"\xE1\xBA\x9B\xCC\xA3"],
            settled: "",
            pending: 3,
            written,
            tally: tally(5, 2, 0),
        };
        check(&rt, alloc, &case)?;
    }
    let cases = [
        Case {
            form: Form::Nfc,
            pieces: &[b"A\xCC", b"\x8A"],
            settled: "",
            pending: 2,
            written: "\u{C5}",
            tally: tally(3, 2, 0),
        },
        Case {
            form: Form::Nfc,
            pieces: &[b"\xE1\x84\x92", b"\xE1\x85\xA1", b"\xE1\x86\xAB"],
            settled: "",
            pending: 1,
            written: "\u{D55C}",
            tally: tally(9, 3, 0),
        },
        Case {
            form: Form::Nfc,
            pieces: &[b"\xEA\xB0\x80\xE1\x86\xA7"],
            settled: "\u{AC00}",
            pending: 1,
            written: "\u{AC00}\u{11A7}",
            tally: tally(6, 2, 0),
        },
        Case {
            form: Form::Nfc,
            pieces: &[b"\xE1\x84\x80\xCC\x80\xE1\x85\xA1"],
            settled: "\u{1100}\u{300}",
            pending: 1,
            written: "\u{1100}\u{300}\u{1161}",
            tally: tally(8, 3, 0),
        },
        Case {
            form: Form::Nfc,
            pieces: &[b"\xCC\x81\xCC\xA3"],
            settled: "",
            pending: 2,
            written: "\u{323}\u{301}",
            tally: tally(4, 2, 0),
        },
        // The longest decomposition: 17 of its 18 code points are settled at once.
        Case {
            form: Form::Nfkd,
            pieces: &[b"\xEF\xB7\xBA"],
            settled: "\u{635}\u{644}\u{649} \u{627}\u{644}\u{644}\u{647} \u{639}\u{644}\u{64A}\u{647} \u{648}\u{633}\u{644}",
            pending: 1,
            written: "\u{635}\u{644}\u{649} \u{627}\u{644}\u{644}\u{647} \u{639}\u{644}\u{64A}\u{647} \u{648}\u{633}\u{644}\u{645}",
            tally: tally(3, 1, 0),
        },
    ];
    for case in cases {
        check(&rt, alloc, &case)?;
    }
    Ok(())
}

fn check(rt: &impl Abort, alloc: Global, case: &Case<'_>) -> Result<(), AllocError> {
    for is_fast in [false, true] {
        let filter = filter_of(&Ucd, case.form, 0, is_fast);
        let course = course_by(alloc, filter, case.pieces)?;
        assert_eq!(rt; course.settled.as_slice(), case.settled.as_bytes());
        assert_eq!(rt;
            course.held,
            Held {
                bytes: 0,
                pending: case.pending
            }
        );
        assert_eq!(rt; course.written.as_slice(), case.written.as_bytes());
        assert_eq!(rt; course.answer, Ok(case.tally));
    }
    Ok(())
}

#[test]
fn a_starter_waits_with_thirty_marks(rt: HostRuntime) -> Result<(), Fail> {
    let alloc = rt.alloc();
    let run = joined(alloc, &[("q", 1), ("\u{301}", 30)])?;
    for (form, is_fast) in WAYS {
        let filter = filter_of(&Ucd, form, 0, is_fast);
        let course = course_by(alloc, filter, &[run.as_slice()])?;
        assert_eq!(rt; course.settled.len(), 0);
        assert_eq!(rt;
            course.held,
            Held {
                bytes: 0,
                pending: 31
            }
        );
        assert_eq!(rt; course.written.as_slice(), run.as_slice());
        assert_eq!(rt; course.answer, Ok(tally(61, 31, 0)));
    }
    Ok(())
}
