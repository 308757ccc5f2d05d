//! Texts in pieces of every size, through outputs in which a byte always gets on.
use crate::kit::{NFC, NFKD, fed};
use std::alloc::{AllocError, Global};
use std::process::Abort;
use std::test::Fail;
use unicode_normalization::{to_nfc, to_nfd, to_nfkc, to_nfkd};

/// Latin with marks in the wrong order, Hangul letters, and characters that grow, to 33 bytes the longest of them.
const TEXT: &str =
    "Vie\u{302}\u{323}t \u{1112}\u{1161}\u{11AB}\u{FDFA}\u{FDFA}\u{1D160}\u{FB01}\u{E9}\u{1E9B}\u{323} z";

fn same(
    rt: &impl Abort,
    alloc: Global,
    form: u32,
    text: &[u8],
    due: &[u8],
) -> Result<(), AllocError> {
    let (mut small, mut middle, mut large) = ([0; 256], [0; 300], [0; 4096]);
    for cut in 1..=text.len() {
        let by_small = fed(rt, alloc, form, text, cut, &mut small)?;
        let by_middle = fed(rt, alloc, form, text, cut, &mut middle)?;
        let by_large = fed(rt, alloc, form, text, cut, &mut large)?;
        assert!(rt; by_small.as_slice() == due, "form {form}, by {cut} bytes");
        assert!(rt; by_middle.as_slice() == due, "form {form}, by {cut} bytes");
        assert!(rt; by_large.as_slice() == due, "form {form}, by {cut} bytes");
    }
    Ok(())
}

#[test]
fn pieces_of_every_size_give_the_form(rt: HostRuntime) -> Result<(), Fail> {
    let alloc = rt.alloc();
    let text = TEXT.as_bytes();
    same(&rt, alloc, 1, text, to_nfc(alloc, TEXT)?.as_bytes())?;
    same(&rt, alloc, 2, text, to_nfd(alloc, TEXT)?.as_bytes())?;
    same(&rt, alloc, 3, text, to_nfkc(alloc, TEXT)?.as_bytes())?;
    same(&rt, alloc, 4, text, to_nfkd(alloc, TEXT)?.as_bytes())?;
    Ok(())
}

/// 35 times U+0301 and U+0323: after each 30 a joiner stands, and of these those of class 220 come first.
#[test]
fn long_runs_are_parted(rt: HostRuntime) -> Result<(), Fail> {
    let alloc = rt.alloc();
    let mut text = Vec::new(alloc);
    let mut due = Vec::new(alloc);
    text.extend_from_slice(b"q")?;
    due.extend_from_slice(b"q")?;
    for _ in 0..35 {
        text.extend_from_slice(b"\xCC\x81\xCC\xA3")?;
    }
    for (times, joiner) in [(15, true), (15, true), (5, false)] {
        for _ in 0..times {
            due.extend_from_slice(b"\xCC\xA3")?;
        }
        for _ in 0..times {
            due.extend_from_slice(b"\xCC\x81")?;
        }
        if joiner {
            due.extend_from_slice(b"\xCD\x8F")?;
        }
    }
    same(&rt, alloc, NFC, text.as_slice(), due.as_slice())?;
    same(&rt, alloc, NFKD, text.as_slice(), due.as_slice())?;
    Ok(())
}
