//! Character data that breaks each part of soundness, and data that is sound and hostile.
use crate::pieces::{Text, bytes_of, check_text};
use nf_filter::{Fault, Filter, FromReader, check, drive, measure};
use nf_filter_fixtures::{FORMS, Kept, course_of, joined};
use nf_row::Change::{Assigned, Canonical, Class, Compat, Pair};
use nf_row::{Change, Form, Patched, Plain, Rows};
use nf_safe::Place;
use std::alloc::{AllocError, Global};
use std::process::Abort;
use std::test::Fail;

const M: char = '\u{301}';

const J: char = '\u{34F}';

const LONG: [char; 19] = ['a'; 19];

/// Rows of a character that break a part of soundness: its lengths, how it begins, how it ends, and whether it has a
/// starter.
const LIES: [(&[char], &[char]); 7] = [
    (&[], &[]),
    (&['a'], &LONG),
    (&LONG, &['a']),
    (&[M, 'y'], &['a']),
    (&['y', M], &['a']),
    (&[M], &[M, 'y', M]),
    (&['y'], &[]),
];

#[test]
fn a_character_whose_rows_lie_is_refused_at_its_place(rt: HostRuntime) -> Result<(), Fail> {
    for c in ['x', '\u{E9}', '\u{6F22}', M, '\u{AC00}', '\u{10FFFF}'] {
        for (canonical, compat) in LIES {
            let changes = [Canonical(c, canonical), Compat(c, compat)];
            check_lie(&rt, rt.alloc(), &Patched::new(&changes), c)?;
        }
    }
    Ok(())
}

/// Texts with the character: what is told of them, and what is written.
fn check_lie<R: Rows>(rt: &impl Abort, alloc: Global, rows: &R, c: char) -> Result<(), AllocError> {
    let plain = Plain::of(rows);
    let row = |at| Fault::Row { at };
    let cases: [(&[u8], &[u8], Fault, &str); 5] = [
        (b"q", b"", row(1), ""),
        (b"q", b"\xC0", row(1), ""),
        (b"q\xC0", b"", Fault::BadByte { at: 1, start: 1 }, ""),
        (b"pq", b"", row(2), "p"),
        (b"", b"ab", row(0), ""),
    ];
    for (front, after, fault, written) in cases {
        let mut text = joined(alloc, &[])?;
        text.extend_from_slice(front)?;
        text.extend_from_slice(c.encode_utf8(&mut [0; 4]).as_bytes())?;
        text.extend_from_slice(after)?;
        check_text_of(
            rt,
            alloc,
            rows,
            plain,
            text.as_slice(),
            front.len(),
            fault,
            written,
        )?;
    }
    let cut = Fault::Cut { at: 3, start: 2 };
    check_text_of(rt, alloc, rows, plain, b"ab\xC3", 2, cut, "a")
}

/// Each form refuses a text in the same way, in one piece and in two, and so do a check and a measurement.
fn check_text_of<R: Rows>(
    rt: &impl Abort,
    alloc: Global,
    rows: &R,
    plain: Option<Plain<'_, R>>,
    text: &[u8],
    at: usize,
    fault: Fault,
    written: &str,
) -> Result<(), AllocError> {
    let (front, back) = text.split_at(at.min(text.len()));
    for form in FORMS {
        check_course(rt, alloc, rows, form, &[front, back], fault, written)?;
        check_course(rt, alloc, rows, form, &[text, b""], fault, written)?;
        if let Some(plain) = plain {
            check_fast(rt, alloc, plain, form, text, fault, written);
        }
    }
    let checked = check(rows, 0, &mut FromReader::new(text)).err();
    let measured = measure(rows, 0, &mut FromReader::new(text)).err();
    assert_eq!(rt; (checked, measured), (Some(fault), Some(fault)), "{text:?}");
    Ok(())
}

fn check_course<R: Rows>(
    rt: &impl Abort,
    alloc: Global,
    rows: &R,
    form: Form,
    pieces: &[&[u8]],
    fault: Fault,
    written: &str,
) -> Result<(), AllocError> {
    let course = course_of(alloc, rows, form, pieces)?;
    assert_eq!(rt; course.answer.err(), Some(fault), "{pieces:?}");
    assert_eq!(rt; course.written.as_slice(), written.as_bytes());
    Ok(())
}

fn check_fast<R: Rows>(
    rt: &impl Abort,
    alloc: Global,
    plain: Plain<'_, R>,
    form: Form,
    text: &[u8],
    fault: Fault,
    written: &str,
) {
    let mut sink = Kept::new(alloc);
    let filter = Filter::fast(plain, form, 0);
    let answer = drive(filter, &mut FromReader::new(text), &mut sink);
    assert_eq!(rt; answer.err(), Some(fault), "{text:?}");
    assert_eq!(rt; sink.bytes.as_slice(), written.as_bytes());
}

/// Rows and a class with which a joiner is not alone its own rows, or no starter.
const JOINERS: [Change<'static>; 6] = [
    Compat(J, &[J, J]),
    Canonical(J, &[J, J]),
    Canonical(J, &['a']),
    Compat(J, &[M]),
    Compat(J, &LONG),
    Class(J, 230),
];

#[test]
fn a_joiner_that_lies_is_refused_where_one_is_put(rt: HostRuntime) -> Result<(), Fail> {
    for lie in JOINERS {
        check_joiner(&rt, rt.alloc(), &Patched::new(&[lie]))?;
    }
    Ok(())
}

/// A text that asks for no joiner goes through, and one that does is refused. A check puts none.
fn check_joiner(rt: &impl Abort, alloc: Global, rows: &Patched<'_>) -> Result<(), AllocError> {
    let long = joined(alloc, &[("q", 1), ("\u{301}", 31)])?;
    let long = long.as_slice();
    let fault = Fault::Row { at: 61 };
    for form in FORMS {
        let short = course_of(alloc, rows, form, &[b"qx"])?;
        assert!(rt; short.written.as_slice() == b"qx".as_slice() && short.answer.is_ok());
        check_course(rt, alloc, rows, form, &[long], fault, "")?;
    }
    let place = Place {
        chars: 31,
        bytes: 61,
    };
    let checked = check(rows, 0, &mut FromReader::new(long));
    assert_eq!(rt; checked, Ok(Some(place)));
    let measured = measure(rows, 0, &mut FromReader::new(long));
    assert_eq!(rt; measured.err(), Some(fault));
    Ok(())
}

const FULL: [char; 18] = [M; 18];

/// Data that is sound and unlike Unicode's, and texts that meet it. By the definitions on whole texts.
const HOSTILE: [(&[Change<'static>], Text<'static>); 12] = [
    // A letter that takes in all letters, or all marks, after it.
    (
        &[Pair('a', 'a', Some('a'))],
        (&[("a", 9), ("b", 1), ("a", 3)], b""),
    ),
    (
        &[Pair('q', M, Some('q'))],
        (&[("q", 1), ("\u{301}", 33)], b""),
    ),
    (
        &[Pair('q', M, Some('r')), Pair('r', M, Some('q'))],
        (&[("q", 1), ("\u{301}", 33)], b""),
    ),
    // The joiner that is put composes with what is before it, and with what is after it.
    (
        &[Pair('\u{FF9E}', J, Some('z'))],
        (&[("\u{FF9E}", 32)], b""),
    ),
    (
        &[Pair(J, '\u{FF9E}', Some('z'))],
        (&[("\u{FF9E}", 32)], b""),
    ),
    (
        &[Pair(J, M, Some('z'))],
        (&[("q", 1), ("\u{301}", 33)], b""),
    ),
    // Rows of as many marks as there may be.
    (
        &[Canonical('\u{E9}', &FULL), Compat('\u{E9}', &FULL)],
        (&[("q\u{E9}\u{E9}\u{301}\u{E9}a", 1)], b""),
    ),
    (
        &[Compat('\u{E9}', &FULL)],
        (&[("q\u{E9}\u{E9}\u{301}\u{E9}a", 1)], b""),
    ),
    // A letter for a mark, a mark for a letter, and a mark of the last class.
    (
        &[Class(M, 0)],
        (&[("q", 1), ("\u{301}", 33), ("\u{323}a", 1)], b""),
    ),
    (
        &[Class('\u{E9}', 1), Class('\u{6F22}', 255)],
        (&[("q\u{6F22}\u{E9}", 17)], b""),
    ),
    // Hangul that is taken apart otherwise, and composes otherwise.
    (
        &[
            Canonical('\u{AC00}', &['\u{1161}', '\u{1100}']),
            Compat('\u{AC00}', &['\u{1161}', '\u{1100}']),
            Pair('\u{1161}', '\u{1100}', Some('h')),
        ],
        (&[("\u{AC00}\u{11A8}\u{1161}\u{1100}", 2)], b""),
    ),
    // Nothing is assigned: no form asks for that.
    (
        &[Assigned('\u{E9}', false)],
        (&[("\u{E9}\u{301}", 3)], b"\xC3"),
    ),
];

#[test]
fn hostile_data_goes_by_the_definitions(rt: HostRuntime) -> Result<(), Fail> {
    let alloc = rt.alloc();
    for (changes, text) in HOSTILE {
        let rows = Patched::new(changes);
        check_text(&rt, alloc, &rows, bytes_of(alloc, text)?.as_slice())?;
    }
    Ok(())
}
