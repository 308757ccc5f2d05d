//! A source that gives more at every call.
use crate::pieces::bytes_of;
use crate::turns::{WAYS, filtered};
use nf_filter_fixtures::{Course, FORMS, Kept, course_of};
use nf_row::{Form, Patched};
use std::alloc::{AllocError, Global};
use std::process::Abort;
use std::test::Fail;

/// One byte, two, and so on: up to the most that is asked for.
#[test]
fn a_source_gives_more_at_every_call(rt: HostRuntime) -> Result<(), Fail> {
    let alloc = rt.alloc();
    for text in [
        ("a\u{301}", 9000),
        ("q\u{301}\u{316}\u{E9}", 3000),
        ("\u{1112}\u{1161}\u{11AB}", 2000),
        ("\u{FDFA}\u{6F22}\u{FF9E}", 2000),
    ] {
        let text = bytes_of(alloc, (&[text], b""))?;
        let pieces = growing(alloc, text.as_slice())?;
        for form in FORMS {
            let due = course_of(alloc, &Patched::new(&[]), form, &[text.as_slice()])?;
            check_growing(&rt, alloc, form, pieces.as_slice(), &due);
        }
    }
    Ok(())
}

/// The text in pieces of one byte, two, and so on.
fn growing<'t>(alloc: Global, text: &'t [u8]) -> Result<Vec<&'t [u8]>, AllocError> {
    let mut pieces = Vec::new(alloc);
    let mut rest = text;
    for len in 1..=4096usize {
        let (piece, after) = rest.split_at(len.min(rest.len()));
        pieces.push(piece)?;
        rest = after;
    }
    Ok(pieces)
}

fn check_growing(rt: &impl Abort, alloc: Global, form: Form, pieces: &[&[u8]], due: &Course) {
    for way in WAYS {
        let mut sink = Kept::with_step(alloc, usize::MAX, 1);
        let answer = filtered(rt, way, form, pieces, &mut sink);
        assert_eq!(rt; answer, due.answer, "{way:?} {form:?}");
        assert!(rt; sink.bytes == due.written, "{way:?} {form:?}");
    }
}
