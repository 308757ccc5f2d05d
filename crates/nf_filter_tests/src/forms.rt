use nf_filter::Tally;
use nf_filter_fixtures::{course_by, filter_of, joined};
use nf_row::{Form, Ucd};
use std::test::Fail;

const J: &str = "\u{34F}";

const M: &str = "\u{301}";

fn tally(bytes: u64, chars: u64, put: u64) -> Tally {
    Tally { bytes, chars, put }
}

/// A form, a text, what comes out, and the tally.
type Case<'a> = (Form, &'a [(&'a str, usize)], &'a [(&'a str, usize)], Tally);

#[test]
fn texts_come_out_in_their_form(rt: HostRuntime) -> Result<(), Fail> {
    let alloc = rt.alloc();
    let cases: [Case<'_>; 26] = [
        (Form::Nfc, &[("", 1)], &[("", 1)], tally(0, 0, 0)),
        (Form::Nfd, &[("", 1)], &[("", 1)], tally(0, 0, 0)),
        (Form::Nfkc, &[("", 1)], &[("", 1)], tally(0, 0, 0)),
        (Form::Nfkd, &[("", 1)], &[("", 1)], tally(0, 0, 0)),
        (
            Form::Nfc,
            &[("a\u{302}\u{323}", 1)],
            &[("\u{1EAD}", 1)],
            tally(5, 3, 0),
        ),
        (
            Form::Nfc,
            &[("q", 1), (M, 31)],
            &[("q", 1), (M, 30), (J, 1), (M, 1)],
            tally(63, 32, 1),
        ),
        (
            Form::Nfc,
            &[("q", 1), (M, 30)],
            &[("q", 1), (M, 30)],
            tally(61, 31, 0),
        ),
        (
            Form::Nfc,
            &[("a", 1), (M, 31)],
            &[("\u{E1}", 1), (M, 29), (J, 1), (M, 1)],
            tally(63, 32, 1),
        ),
        (
            Form::Nfc,
            &[("q", 1), (M, 30), ("\u{323}", 1)],
            &[("q", 1), (M, 30), (J, 1), ("\u{323}", 1)],
            tally(63, 32, 1),
        ),
        (
            Form::Nfd,
            &[("q", 1), (M, 29), ("\u{344}", 1)],
            &[("q", 1), (M, 29), (J, 1), ("\u{308}\u{301}", 1)],
            tally(61, 31, 1),
        ),
        (
            Form::Nfd,
            &[("q", 1), (M, 28), ("\u{344}", 1)],
            &[("q", 1), (M, 28), ("\u{308}\u{301}", 1)],
            tally(59, 30, 0),
        ),
        (
            Form::Nfc,
            &[("\u{FF9E}", 31)],
            &[("\u{FF9E}", 30), (J, 1), ("\u{FF9E}", 1)],
            tally(93, 31, 1),
        ),
        (
            Form::Nfkc,
            &[("\u{30AB}\u{FF9E}", 1)],
            &[("\u{30AC}", 1)],
            tally(6, 2, 0),
        ),
        (
            Form::Nfc,
            &[("\u{1E9B}\u{323}", 1)],
            &[("\u{1E9B}\u{323}", 1)],
            tally(5, 2, 0),
        ),
        (
            Form::Nfd,
            &[("\u{1E9B}\u{323}", 1)],
            &[("\u{17F}\u{323}\u{307}", 1)],
            tally(5, 2, 0),
        ),
        (
            Form::Nfkc,
            &[("\u{1E9B}\u{323}", 1)],
            &[("\u{1E69}", 1)],
            tally(5, 2, 0),
        ),
        (
            Form::Nfkd,
            &[("\u{1E9B}\u{323}", 1)],
            &[("s\u{323}\u{307}", 1)],
            tally(5, 2, 0),
        ),
        (
            Form::Nfc,
            &[("A\u{30A}", 1)],
            &[("\u{C5}", 1)],
            tally(3, 2, 0),
        ),
        (
            Form::Nfc,
            &[("\u{FDFA}", 1)],
            &[("\u{FDFA}", 1)],
            tally(3, 1, 0),
        ),
        (
            Form::Nfc,
            &[("q", 1), (M, 30), (J, 1), (M, 1)],
            &[("q", 1), (M, 30), (J, 1), (M, 1)],
            tally(65, 33, 0),
        ),
        (
            Form::Nfc,
            &[("q", 1), (M, 61)],
            &[("q", 1), (M, 30), (J, 1), (M, 30), (J, 1), (M, 1)],
            tally(123, 62, 2),
        ),
        (
            Form::Nfc,
            &[("\u{301}\u{323}", 1)],
            &[("\u{323}\u{301}", 1)],
            tally(4, 2, 0),
        ),
        (
            Form::Nfd,
            &[("q", 1), (M, 31)],
            &[("q", 1), (M, 30), (J, 1), (M, 1)],
            tally(63, 32, 1),
        ),
        (
            Form::Nfkc,
            &[("q", 1), (M, 31)],
            &[("q", 1), (M, 30), (J, 1), (M, 1)],
            tally(63, 32, 1),
        ),
        (
            Form::Nfkd,
            &[("q", 1), (M, 31)],
            &[("q", 1), (M, 30), (J, 1), (M, 1)],
            tally(63, 32, 1),
        ),
        (
            Form::Nfd,
            &[("\u{C5}", 1), (M, 30)],
            &[("A\u{30A}", 1), (M, 29), (J, 1), (M, 1)],
            tally(62, 31, 1),
        ),
    ];
    for (form, input, output, tally) in cases {
        let bytes = joined(alloc, input)?;
        let output = joined(alloc, output)?;
        for is_fast in [false, true] {
            let filter = filter_of(&Ucd, form, 0, is_fast);
            let course = course_by(alloc, filter, &[bytes.as_slice()])?;
            assert_eq!(rt; course.written.as_slice(), output.as_slice());
            assert_eq!(rt; course.answer, Ok(tally));
        }
    }
    Ok(())
}
