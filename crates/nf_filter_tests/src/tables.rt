use nf_filter::{Fault, Held};
use nf_filter_fixtures::{FORMS, course_of, joined};
use nf_row::Change::{Canonical, Class, Compat, Pair};
use nf_row::{Change, Form, Patched};
use std::test::Fail;

const M: char = '\u{301}';

const NINETEEN: [char; 19] = ['a'; 19];

/// Changes to the data, a text that is composed under them, what comes out, and how much of it before the end.
type Case<'a> = (&'a [Change<'a>], &'a str, &'a str, &'a str);

#[test]
fn composites_come_from_the_table(rt: HostRuntime) -> Result<(), Fail> {
    let chain = [Pair('a', 'b', Some('c')), Pair('c', 'd', Some('e'))];
    let cases: [Case<'_>; 4] = [
        (&chain, "abd", "e", ""),
        (&chain, "a\u{301}b", "\u{E1}b", "\u{E1}"),
        (
            &[Pair('q', 'r', Some('s'))],
            "q\u{301}r",
            "q\u{301}r",
            "q\u{301}",
        ),
        (&[Pair('\u{1EA1}', 'b', Some('c'))], "a\u{323}b", "c", ""),
    ];
    for form in [Form::Nfc, Form::Nfkc] {
        for (changes, input, output, settled) in cases {
            let rows = Patched::new(changes);
            let course = course_of(rt.alloc(), &rows, form, &[input.as_bytes()])?;
            assert_eq!(rt; course.settled.as_slice(), settled.as_bytes());
            assert_eq!(rt;
                course.held,
                Held {
                    bytes: 0,
                    pending: 1
                }
            );
            assert_eq!(rt; course.written.as_slice(), output.as_bytes());
        }
    }
    Ok(())
}

#[test]
fn a_pair_that_makes_a_mark_does_not_compose(rt: HostRuntime) -> Result<(), Fail> {
    let rows = Patched::new(&[Pair('q', M, Some('\u{323}'))]);
    for form in FORMS {
        let course = course_of(rt.alloc(), &rows, form, &[b"q\xCC\x81"])?;
        assert_eq!(rt; course.written.as_slice(), b"q\xCC\x81".as_slice());
    }
    Ok(())
}

#[test]
fn a_row_that_begins_with_a_mark_goes_on_a_run(rt: HostRuntime) -> Result<(), Fail> {
    let alloc = rt.alloc();
    let row = [M, 'y'];
    let changes = [Canonical('x', &row), Compat('x', &row)];
    let rows = Patched::new(&changes);
    let course = course_of(alloc, &rows, Form::Nfd, &[b"qx"])?;
    assert_eq!(rt; course.settled.as_slice(), "q\u{301}".as_bytes());
    assert_eq!(rt; course.written.as_slice(), "q\u{301}y".as_bytes());
    let input = joined(alloc, &[("q", 1), ("\u{301}", 30), ("x", 1)])?;
    let output = joined(alloc, &[("q", 1), ("\u{301}", 30), ("\u{34F}\u{301}y", 1)])?;
    let course = course_of(alloc, &rows, Form::Nfd, &[input.as_slice()])?;
    assert_eq!(rt; course.written.as_slice(), output.as_slice());
    Ok(())
}

#[test]
fn unsound_characters_are_refused_by_place(rt: HostRuntime) -> Result<(), Fail> {
    let changes = [Compat('x', &NINETEEN)];
    let rows = Patched::new(&changes);
    for form in FORMS {
        let course = course_of(rt.alloc(), &rows, form, &[b"ax"])?;
        assert_eq!(rt; course.answer, Err(Fault::Row { at: 1 }));
        assert_eq!(rt; course.written.len(), 0);
    }
    Ok(())
}

#[test]
fn an_unsound_joiner_is_refused_where_it_would_be_put(rt: HostRuntime) -> Result<(), Fail> {
    let alloc = rt.alloc();
    let changes = [Class('\u{34F}', 230)];
    let rows = Patched::new(&changes);
    let long = joined(alloc, &[("q", 1), ("\u{301}", 31)])?;
    for form in FORMS {
        let course = course_of(alloc, &rows, form, &[long.as_slice()])?;
        assert_eq!(rt; course.answer, Err(Fault::Row { at: 61 }));
        assert_eq!(rt; course.written.len(), 0);
        let course = course_of(alloc, &rows, form, &[b"ab"])?;
        assert_eq!(rt; course.written.as_slice(), b"ab".as_slice());
        assert!(rt; course.answer.is_ok());
    }
    Ok(())
}
