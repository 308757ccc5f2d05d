//! Every text cut in every way, against the definitions on whole texts.
use nf_filter::{Fault, Filter};
use nf_filter_fixtures::{Due, FORMS, Kept, after, joined};
use nf_row::Change::{Canonical, Class, Compat, Pair};
use nf_row::{Change, Form, Patched, Plain, Rows, Ucd};
use std::alloc::{AllocError, Global};
use std::process::Abort;
use std::test::Fail;

/// Near the last offset, so that places and offsets pass through all 64 bits.
const BASE: u64 = u64::MAX - 4096;

const J: &str = "\u{34F}";

const M: &str = "\u{301}";

/// Strings, each so many times, and bytes after them.
pub type Text<'a> = (&'a [(&'a str, usize)], &'a [u8]);

/// Texts that hold what is hard: marks out of order, long runs, what composes across pieces, long decompositions, and such
/// after text that stays as it is.
pub const TEXTS: [Text<'static>; 27] = [
    (&[], b""),
    (&[], b"A\xCC\x8A"),
    (&[], b"\xE1\xBA\x9B\xCC\xA3"),
    (&[], b"a\xCC\x82\xCC\xA3"),
    (&[("q", 1), (M, 30)], b""),
    (&[("q", 1), (M, 31)], b""),
    (&[("a", 1), (M, 31)], b""),
    (&[("q", 1), (M, 30), ("\u{323}", 1)], b""),
    (&[("q", 1), (M, 28), ("\u{344}", 1)], b""),
    (&[("q", 1), (M, 29), ("\u{344}", 1)], b""),
    (&[("\u{FF9E}", 31)], b""),
    (&[], b"\xE3\x82\xAB\xEF\xBE\x9E"),
    (&[("\u{FDFA}", 2)], b""),
    (&[("\u{1112}\u{1161}\u{11AB}", 1)], b""),
    (&[("\u{AC00}\u{11A7}", 1)], b""),
    (&[("\u{1100}\u{300}\u{1161}", 1)], b""),
    (&[("q", 1), (M, 30), (J, 1), (M, 1)], b""),
    (&[("q", 1), (M, 61)], b""),
    (&[], b"\xCC\x81\xCC\xA3"),
    (&[("\u{C5}", 1), (M, 30)], b""),
    (&[], b"ab"),
    (&[], b"abcdef"),
    (&[("a\u{302}\u{323}b\u{1E9B}\u{323}\u{301}\u{323}", 1)], b""),
    (&[("\u{FDFA}\u{1D15F}\u{10FFFF}\u{FEFF}\0", 1)], b""),
    (&[("a", 33), (M, 1), ("\u{E9}", 9)], b""),
    (&[("\u{6F22}", 11), ("\u{D55C}\u{AC00}\u{11A8}", 3)], b""),
    (&[("\u{43B}\u{1F600}", 6), ("\u{FDFA}", 1), ("a", 17)], b""),
];

/// Texts with ill-formed bytes, and such as end inside a character.
const ILL_FORMED: [Text<'static>; 10] = [
    (&[], b"ab\xC3("),
    (&[], b"\xE0\x80"),
    (&[], b"\xC0"),
    (&[], b"\xED\xA0\x80"),
    (&[], b"\xF0\x90\x80"),
    (&[("q", 1), (M, 31)], b"\xFFab"),
    (&[("q", 1), (M, 31)], b"\xF4\x90\x80"),
    (&[("\u{D55C}\u{1161}\u{30A}", 1)], b"\xF1\x80\x80\xC0"),
    (&[(M, 31)], b"\xE2\x82"),
    (&[("a", 20), ("\u{6F22}", 6)], b"\xE2\x82(ab"),
];

const ROW: [char; 2] = ['\u{301}', 'y'];

/// Changes to the data, and texts that meet them.
const CHANGED: [(&[Change<'static>], &[Text<'static>]); 10] = [
    (
        &[Compat('x', &['a'; 19])],
        &[(&[], b"ax"), (&[], b"axb\xC0"), (&[], b"a\xC0x")],
    ),
    (&[Canonical('x', &[])], &[(&[("e\u{301}x\u{301}", 1)], b"")]),
    (
        &[Pair('q', '\u{301}', Some('\u{323}'))],
        &[(&[("q", 1), (M, 1)], b"")],
    ),
    (
        &[Canonical('x', &ROW), Compat('x', &ROW)],
        &[
            (&[("qx", 1)], b""),
            (&[("q", 1), (M, 30), ("x", 1)], b""),
            (&[("q", 1), (M, 29), ("x", 2)], b""),
        ],
    ),
    (
        &[Class('\u{34F}', 230)],
        &[
            (&[("q", 1), (M, 31)], b""),
            (&[], b"ab"),
            (&[("a", 1), (J, 1)], b""),
            (&[("q", 1), (M, 31)], b"\xC0"),
        ],
    ),
    (
        &[Pair('a', 'b', Some('c')), Pair('c', 'd', Some('e'))],
        &[(&[], b"abd"), (&[("a\u{301}b", 1)], b"")],
    ),
    (&[Pair('q', 'r', Some('s'))], &[(&[("q\u{301}r", 1)], b"")]),
    (
        &[Pair('\u{323}', '\u{301}', Some('s'))],
        &[(&[("\u{301}\u{323}q", 1)], b"")],
    ),
    (
        &[Pair('\u{1EA1}', 'b', Some('c'))],
        &[(&[("a\u{323}b", 1)], b"")],
    ),
    (
        &[Class('y', 9), Class('z', 230)],
        &[(&[("qzy\u{301}zyb", 1)], b"")],
    ),
];

/// Checks a filter, and a fast one too where ASCII is plain.
fn check_pieces<R: Rows>(
    rt: &impl Abort,
    alloc: Global,
    rows: &R,
    plain: Option<Plain<'_, R>>,
    form: Form,
    pieces: &[&[u8]],
    after: &[Due],
) {
    check_filter(rt, alloc, Filter::new(rows, form, BASE), pieces, after);
    if let Some(plain) = plain {
        check_filter(rt, alloc, Filter::fast(plain, form, BASE), pieces, after);
    }
}

/// Feeds the pieces in turn, and checks after each, and after the end, that the filter has done what it is to do:
/// `after[n]` after n bytes.
fn check_filter<R: Rows>(
    rt: &impl Abort,
    alloc: Global,
    filter: Filter<'_, R>,
    pieces: &[&[u8]],
    after: &[Due],
) {
    let mut filter = filter;
    let mut sink = Kept::new(alloc);
    let mut fed = 0usize;
    let mut offset = BASE;
    for piece in pieces {
        fed = fed.saturating_add(piece.len());
        let due = after.get(fed).expect(rt, "a text");
        assert_eq!(rt; filter.feed(piece, &mut sink), due.answer);
        assert_eq!(rt; sink.bytes.as_slice(), due.written.as_bytes());
        assert_eq!(rt; filter.held(), due.held);
        assert_eq!(rt; filter.spent(), due.answer.is_err());
        if due.answer.is_err() {
            assert_eq!(rt; filter.offset(), offset);
            assert_eq!(rt; filter.feed(b"a", &mut sink), Err(Fault::Spent));
            break;
        }
        offset = BASE.saturating_add(fed as u64);
        assert_eq!(rt; filter.offset(), offset);
    }
    let due = after.get(fed).expect(rt, "a text");
    assert_eq!(rt; filter.finish(&mut sink), due.end);
    assert_eq!(rt; sink.bytes.as_slice(), due.whole.as_bytes());
}

/// Checks the text cut in two at every place, cut off at every place, and byte by byte, in each form, by a fast filter
/// too where ASCII is plain.
pub fn check_text<R: Rows>(
    rt: &impl Abort,
    alloc: Global,
    rows: &R,
    text: &[u8],
) -> Result<(), AllocError> {
    let plain = Plain::of(rows);
    for form in FORMS {
        let mut afters = Vec::new(alloc);
        for len in 0..=text.len() {
            afters.push(after(alloc, rows, form, BASE, &text[..len])?)?;
        }
        let afters = afters.as_slice();
        for len in 0..=text.len() {
            let (front, back) = text.split_at(len);
            check_pieces(rt, alloc, rows, plain, form, &[front], afters);
            check_pieces(rt, alloc, rows, plain, form, &[front, back], afters);
            check_pieces(rt, alloc, rows, plain, form, &[front, b"", back], afters);
        }
        let bytes: Vec<&[u8]> = text.chunks(1).collect(alloc)?;
        check_pieces(rt, alloc, rows, plain, form, bytes.as_slice(), afters);
    }
    Ok(())
}

pub fn bytes_of(alloc: Global, text: Text<'_>) -> Result<Vec<u8>, AllocError> {
    let (parts, end) = text;
    let mut bytes = joined(alloc, parts)?;
    bytes.extend_from_slice(end)?;
    Ok(bytes)
}

#[test]
fn texts_in_pieces_come_out_by_the_definitions(rt: HostRuntime) -> Result<(), Fail> {
    let alloc = rt.alloc();
    for text in TEXTS {
        check_text(&rt, alloc, &Ucd, bytes_of(alloc, text)?.as_slice())?;
    }
    Ok(())
}

#[test]
fn ill_formed_bytes_in_pieces_have_their_places(rt: HostRuntime) -> Result<(), Fail> {
    let alloc = rt.alloc();
    for text in ILL_FORMED {
        check_text(&rt, alloc, &Ucd, bytes_of(alloc, text)?.as_slice())?;
    }
    Ok(())
}

#[test]
fn other_data_hold_in_pieces_too(rt: HostRuntime) -> Result<(), Fail> {
    let alloc = rt.alloc();
    for (changes, texts) in CHANGED {
        let rows = Patched::new(changes);
        for text in texts {
            check_text(&rt, alloc, &rows, bytes_of(alloc, *text)?.as_slice())?;
        }
    }
    Ok(())
}
