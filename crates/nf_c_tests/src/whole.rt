//! Whole texts by one call.
use crate::kit::{AS_IS, ASSIGNED, NFC, NFKD, REPLACE, told};
use nf_c::{Moved, Status, check, check_form, convert};
use std::alloc::{AllocError, Global};
use std::process::Abort;
use std::test::Fail;

const NFD: u32 = 2;

const NFKC: u32 = 3;

#[test]
fn a_whole_text_is_converted_in_just_its_room(rt: HostRuntime) -> Result<(), Fail> {
    let (mut four, mut three, mut two) = ([0; 4], [0; 3], [0; 2]);
    let done = convert(NFC, AS_IS, b"ae\xCC\x81b", &mut four);
    assert_eq!(rt; done, told(Status::Done, 5, 4, 0, 0));
    assert!(rt; four == *b"a\xC3\xA9b");
    let full = convert(NFC, AS_IS, b"ae\xCC\x81b", &mut three);
    assert_eq!(rt; full, told(Status::Full, 5, 3, 0, 0));
    let less = convert(NFC, AS_IS, b"ae\xCC\x81b", &mut two);
    assert_eq!(rt; less, told(Status::Full, 4, 1, 0, 0));
    let replaced = convert(NFC, REPLACE, b"\xFF", &mut four);
    assert_eq!(rt; replaced, told(Status::Done, 1, 3, 0, 0));
    Ok(())
}

/// How much is left of so many times its bytes, where a text of 40 times `some` is converted.
fn left(
    rt: &impl Abort,
    alloc: Global,
    form: u32,
    growth: usize,
    some: &[u8],
) -> Result<usize, AllocError> {
    let mut text = Vec::new(alloc);
    for _ in 0..40 {
        text.extend_from_slice(some)?;
    }
    let room = text.len().saturating_mul(growth);
    let mut output = Vec::from_elem(alloc, 0, room)?;
    let done = convert(form, REPLACE, text.as_slice(), output.as_mut_slice());
    assert_eq!(rt; done.status, Status::Done);
    Ok(room.saturating_sub(done.written))
}

/// The bounds of `NF_BOUND` are room enough for characters that grow most, for joiners and for replaced bytes, and are reached.
#[test]
fn no_form_is_larger_than_its_bound(rt: HostRuntime) -> Result<(), Fail> {
    let alloc = rt.alloc();
    let texts: [&[u8]; 6] = [
        b"\xCE\x90",
        b"\xF0\x9D\x85\xA0",
        b"\xEF\xB7\xBA\xCD\x84",
        b"\xCD\x84",
        b"\xEA\xB0\x81",
        b"\xFF",
    ];
    for some in texts {
        left(&rt, alloc, NFC, 3, some)?;
        left(&rt, alloc, 2, 3, some)?;
        left(&rt, alloc, 3, 11, some)?;
        left(&rt, alloc, NFKD, 11, some)?;
    }
    let canonical = left(&rt, alloc, 2, 3, b"\xCE\x90")?;
    let compat = left(&rt, alloc, NFKD, 11, b"\xEF\xB7\xBA")?;
    assert_eq!(rt; (canonical, compat), (0, 0));
    Ok(())
}

#[test]
fn what_cannot_be_converted_is_refused(rt: HostRuntime) -> Result<(), Fail> {
    let mut output = [0; 8];
    let bad = convert(NFC, AS_IS, b"ab\xFF", &mut output);
    assert_eq!(rt; bad, told(Status::BadByte, 2, 1, 2, 2));
    let cut = convert(NFC, AS_IS, b"ab\xC3", &mut output);
    assert_eq!(rt; cut, told(Status::Cut, 3, 1, 3, 2));
    let form = convert(9, AS_IS, b"a", &mut output);
    assert_eq!(rt; form, told(Status::NoForm, 0, 0, 0, 0));
    let policy = convert(NFC, 9, b"a", &mut output);
    assert_eq!(rt; policy, told(Status::NoPolicy, 0, 0, 0, 0));
    Ok(())
}

/// How a text of so many bytes, all as they are to be, is told.
fn kept(read: usize) -> Moved {
    told(Status::Done, read, 0, 0, 0)
}

/// How a change of the character at this byte is told.
fn changed(at: u64) -> Moved {
    told(Status::NotNormalized, 0, 0, at, at)
}

/// A letter with 31 marks that it does not compose with is in NFC, and not stream-safe.
#[test]
fn the_place_where_a_text_leaves_the_format_is_told(rt: HostRuntime) -> Result<(), Fail> {
    let mut text = Vec::new(rt.alloc());
    text.extend_from_slice(b"q")?;
    for _ in 0..30 {
        text.extend_from_slice(b"\xCC\x81")?;
    }
    assert_eq!(rt; check(text.as_slice()), kept(61));
    assert_eq!(rt; check_form(NFC, AS_IS, text.as_slice()), kept(61));
    text.extend_from_slice(b"\xCC\x81")?;
    let left = check(text.as_slice());
    assert_eq!(rt; left, told(Status::Unsafe, 0, 0, 61, 61));
    assert_eq!(rt; check_form(NFC, AS_IS, text.as_slice()), changed(61));
    let bad = check(b"ab\xC3(");
    assert_eq!(rt; bad, told(Status::BadByte, 0, 0, 3, 2));
    let cut = check(b"ab\xC3");
    assert_eq!(rt; cut, told(Status::Cut, 0, 0, 3, 2));
    Ok(())
}

/// Composed, decomposed, and with U+FB01, which only NFKC and NFKD decompose.
#[test]
fn the_first_character_that_a_form_changes_is_told(rt: HostRuntime) -> Result<(), Fail> {
    let (composed, decomposed) = (b"a\xC3\xA9b", b"ae\xCC\x81b");
    let (compat, plain) = (b"\xE6\x97\xA5\xEF\xAC\x81", b"\xE6\x97\xA5fi");
    for form in [NFC, NFKC] {
        assert_eq!(rt; check_form(form, AS_IS, composed), kept(4));
        assert_eq!(rt; check_form(form, AS_IS, decomposed), changed(1));
    }
    for form in [NFD, NFKD] {
        assert_eq!(rt; check_form(form, AS_IS, composed), changed(1));
        assert_eq!(rt; check_form(form, AS_IS, decomposed), kept(5));
    }
    for form in [NFC, NFD] {
        assert_eq!(rt; check_form(form, AS_IS, compat), kept(6));
    }
    for form in [NFKC, NFKD] {
        assert_eq!(rt; check_form(form, AS_IS, compat), changed(3));
        assert_eq!(rt; check_form(form, AS_IS, plain), kept(5));
        assert_eq!(rt; check_form(form, ASSIGNED, b""), kept(0));
    }
    Ok(())
}

/// A fault that comes before the place is settled is told, and no later one.
#[test]
fn the_first_fault_or_change_is_told(rt: HostRuntime) -> Result<(), Fail> {
    let bad = check_form(NFD, AS_IS, b"ab\xC3(\xC3\xA9");
    assert_eq!(rt; bad, told(Status::BadByte, 0, 0, 3, 2));
    let unsettled = check_form(NFC, AS_IS, b"e\xCC\x81\xFF");
    assert_eq!(rt; unsettled, told(Status::BadByte, 0, 0, 3, 3));
    let cut = check_form(NFD, AS_IS, b"ab\xC3");
    assert_eq!(rt; cut, told(Status::Cut, 0, 0, 3, 2));
    let unassigned = check_form(NFD, ASSIGNED, b"a\xCD\xB8\xC3\xA9");
    assert_eq!(rt; unassigned, told(Status::Unassigned, 0, 0, 1, 1));
    assert_eq!(rt; check_form(NFD, AS_IS, b"a\xCD\xB8\xC3\xA9"), changed(3));
    for after in [b"\xC3\xA9ab\xFF", b"\xC3\xA9ab\xC3"] {
        assert_eq!(rt; check_form(NFD, AS_IS, after), changed(0));
    }
    assert_eq!(rt; check_form(NFD, ASSIGNED, b"\xC3\xA9a\xCD\xB8"), changed(0));
    Ok(())
}

#[test]
fn what_cannot_be_checked_is_refused(rt: HostRuntime) -> Result<(), Fail> {
    for form in [0, 5] {
        assert_eq!(rt;
            check_form(form, AS_IS, b"a"),
            told(Status::NoForm, 0, 0, 0, 0)
        );
    }
    for policy in [REPLACE, 3, 4] {
        assert_eq!(rt;
            check_form(NFC, policy, b"a"),
            told(Status::NoPolicy, 0, 0, 0, 0)
        );
    }
    Ok(())
}
