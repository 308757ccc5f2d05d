//! Ill-formed bytes after text that a form leaves as it stands: they have their places, wherever pieces and blocks end.
use crate::both_ways::same_over;
use crate::span::{BLOCK, SPAN, filled};
use nf_filter::Fault;
use nf_filter_fixtures::{BASE, FORMS};
use nf_row::{Patched, Plain};
use std::alloc::{AllocError, Global};
use std::process::Abort;
use std::test::Fail;

/// Bytes that are ill-formed after a character, and the place in them of the first that is.
const BAD: [(&[u8], u64); 8] = [
    (b"\xFF", 0),
    (b"\x80", 0),
    (b"\xC0\x80", 0),
    (b"\xC3(", 1),
    (b"\xE2\x82(", 2),
    (b"\xED\xA0\x80", 1),
    (b"\xF0\x90\x80\xC0", 3),
    (b"\xF4\x90", 1),
];

/// Bytes of a character that is not whole.
const BEGUN: [&[u8]; 4] = [b"\xC3", b"\xE2\x82", b"\xF0\x9F", b"\xF0\x9F\x98"];

/// Lengths of the text before them.
const LENGTHS: [usize; 14] = [
    0,
    1,
    2,
    3,
    15,
    16,
    17,
    31,
    32,
    33,
    FAR,
    BLOCK - FAR,
    BLOCK,
    BLOCK + FAR,
];

/// So far before them a piece ends first.
const FAR: usize = 70;

#[test]
fn ill_formed_bytes_have_their_places_after_a_span(rt: HostRuntime) -> Result<(), Fail> {
    let alloc = rt.alloc();
    let rows = Patched::new(&[]);
    let unchanged = Plain::of(&rows).ok_or("not plain")?;
    for span in SPAN {
        for len in LENGTHS {
            let text = filled(alloc, span, len)?;
            check_bad(&rt, alloc, unchanged, text.as_slice(), span)?;
            check_begun(&rt, alloc, unchanged, text.as_slice())?;
        }
    }
    Ok(())
}

fn check_bad(
    rt: &impl Abort,
    alloc: Global,
    unchanged: Plain<'_, Patched<'_>>,
    text: &[u8],
    span: &str,
) -> Result<(), AllocError> {
    let start = BASE.saturating_add(text.len() as u64);
    for (bad, place) in BAD {
        let at = start.saturating_add(place);
        let fault = Fault::BadByte { at, start };
        check_fault(rt, alloc, unchanged, text, bad, span, fault)?;
    }
    Ok(())
}

fn check_begun(
    rt: &impl Abort,
    alloc: Global,
    unchanged: Plain<'_, Patched<'_>>,
    text: &[u8],
) -> Result<(), AllocError> {
    let start = BASE.saturating_add(text.len() as u64);
    for begun in BEGUN {
        let at = start.saturating_add(begun.len() as u64);
        let fault = Fault::Cut { at, start };
        check_fault(rt, alloc, unchanged, text, begun, "", fault)?;
    }
    Ok(())
}

/// Cuts the bytes in two, from 70 before those that are no text: at each place, or at each ninth of a long text, the forms in
/// turn.
fn check_fault(
    rt: &impl Abort,
    alloc: Global,
    unchanged: Plain<'_, Patched<'_>>,
    text: &[u8],
    bad: &[u8],
    after: &str,
    fault: Fault,
) -> Result<(), AllocError> {
    let bytes = [text, bad, after.as_bytes()].concat(alloc)?;
    let bytes = bytes.as_slice();
    let step = if text.len() <= FAR { 1 } else { 9 };
    for at in (text.len().saturating_sub(FAR)..=bytes.len()).step_by(step) {
        let (front, back) = bytes.split_at(at.min(bytes.len()));
        let form = FORMS[at % 4];
        let answer = same_over(rt, alloc, unchanged, form, &[front, back]);
        assert_eq!(rt; answer, Err(fault), "{form:?}, cut at {at}");
    }
    Ok(())
}
