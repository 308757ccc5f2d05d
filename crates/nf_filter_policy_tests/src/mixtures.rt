//! Long text of assigned characters, which both parts of a policy leave alone, and made-up mixtures of all kinds of bytes,
//! under each policy.
use crate::kit::{AS_IS, ASSIGNED, BOTH, REPLACE, course_of, filter_of, joined, same_in_pieces};
use crate::subparts::read;
use nf_filter::Policy;
use nf_row::Ucd;
use nf_seeded::Seeded;
use std::alloc::{AllocError, Global};
use std::process::Abort;
use std::test::Fail;
use unicode_normalization::to_nfc;

/// A thousand characters that are their own NFC, a word of each script in turn: U+03B1 to U+03C9, U+AC00 to U+B3CF and
/// U+4E00 to U+55CF.
fn friendly(alloc: Global) -> Result<String, AllocError> {
    let mut text = String::new(alloc);
    for n in 0..1000u32 {
        let code = match n / 8 % 4 {
            0 => 0x3B1 + n % 25,
            1 => 0xAC00 + n * 2,
            2 => 0x4E00 + n * 2,
            _ => 0x20 + n % 95,
        };
        text.push(char::from_u32(code).unwrap_or_default())?;
    }
    Ok(text)
}

#[test]
fn a_friendly_text_stays_as_it_is(rt: HostRuntime) -> Result<(), Fail> {
    let alloc = rt.alloc();
    let text = friendly(alloc)?;
    let bytes = text.as_bytes();
    assert_eq!(rt; text.chars().count(), 1000);
    for policy in [AS_IS, REPLACE, ASSIGNED, BOTH] {
        for is_fast in [false, true] {
            for size in [1, 7, 64, 4096] {
                let pieces: Vec<&[u8]> = bytes.chunks(size).collect(alloc)?;
                let filter = filter_of(&rt, &Ucd, policy, is_fast);
                let course = course_of(&rt, alloc, filter, pieces.as_slice());
                let tally = course.answer.ok().ok_or("a fault")?;
                assert_eq!(rt; (tally.chars, tally.put), (1000, 0));
                assert!(rt; course.written.as_slice() == bytes, "{policy:?}, {size}");
            }
        }
    }
    Ok(())
}

/// ASCII, letters and marks that compose, Hangul, Han, private use, unassigned characters, U+FFFD, and ill-formed
/// sequences of each kind.
const PARTS: [&[u8]; 34] = [
    b"a",
    b"e",
    b"\n",
    b"plain words",
    b"\xC3\xA9",
    b"\xCC\x81",
    b"\xCC\xA3",
    b"\xCE\xB1",
    b"\xE1\x84\x80",
    b"\xE1\x85\xA1",
    b"\xE1\x86\xA8",
    b"\xEA\xB0\x80",
    b"\xE6\xBC\xA2",
    b"\xE2\x84\xAB",
    b"\xEE\x80\x80",
    b"\xF0\x9F\x98\x80",
    b"\xF0\x9D\x85\x9E",
    b"\xEF\xBF\xBD",
    b"\xCD\xB8",
    b"\xEF\xBF\xBF",
    b"\xF3\xB0\x80\x80",
    b"\x80",
    b"\xBF",
    b"\xC0\xAF",
    b"\xC3",
    b"\xE2\x82",
    b"\xE0\x80",
    b"\xED\xA0\x80",
    b"\xF0",
    b"\xF0\x9F",
    b"\xF0\x9F\x98",
    b"\xF4\x90",
    b"\xF5",
    b"\xFF",
];

/// A text of at most 40 bytes. One in two has no ill-formed sequence, but for where its last character is cut.
fn mixture(alloc: Global, seeded: &mut Seeded) -> Result<Vec<u8>, AllocError> {
    let (front, _) = PARTS.split_at(if seeded.below(2) == 0 { 18 } else { 34 });
    let len = seeded.place(40);
    let mut bytes = Vec::new(alloc);
    for _ in 0..len {
        for byte in seeded.pick(front) {
            if bytes.len() < len {
                bytes.push(*byte)?;
            }
        }
    }
    Ok(bytes)
}

/// However the bytes are cut and by either filter, the answer is that of the plain reading, and without a fault so is the
/// form. Answers whether there was none.
fn check_mixture(
    rt: &impl Abort,
    alloc: Global,
    policy: Policy,
    bytes: &[u8],
) -> Result<bool, AllocError> {
    let course = same_in_pieces(rt, alloc, &Ucd, policy, bytes)?;
    let (text, answer) = read(alloc, policy, bytes)?;
    assert_eq!(rt; course.answer, answer, "{policy:?}, {bytes:?}");
    let form = to_nfc(alloc, text.as_str())?;
    let (written, form) = (course.written.as_slice(), form.as_bytes());
    let is_due = match answer {
        Ok(_) => written == form,
        Err(_) => written.len() == course.settled.len() && form.starts_with(written),
    };
    assert!(rt; is_due, "{policy:?}, {bytes:?}");
    Ok(answer.is_ok())
}

#[test]
fn mixtures_go_by_the_plain_reading(rt: HostRuntime) -> Result<(), Fail> {
    let alloc = rt.alloc();
    for policy in [AS_IS, REPLACE, ASSIGNED, BOTH] {
        let mut seeded = Seeded::new(1);
        let mut refused = 0;
        for _ in 0..5000 {
            let bytes = mixture(alloc, &mut seeded)?;
            if !check_mixture(&rt, alloc, policy, bytes.as_slice())? {
                refused = u32::saturating_add(refused, 1);
            }
        }
        // Many are refused and many are not, but for the policy that refuses none.
        let is_mixed = if policy == REPLACE {
            refused == 0
        } else {
            refused > 500 && refused < 4500
        };
        assert!(rt; is_mixed, "{policy:?}: {refused}");
    }
    Ok(())
}

/// Parts up to so many bytes: more than are replaced at once.
fn long_mixture(alloc: Global, seeded: &mut Seeded, len: usize) -> Result<Vec<u8>, AllocError> {
    let mut bytes = Vec::new(alloc);
    for _ in 0..len {
        let part = seeded.pick(&PARTS);
        if bytes.len() < len {
            bytes.extend_from_slice(part)?;
        }
    }
    Ok(bytes)
}

/// Fed in pieces of this size, the bytes give their plain reading's form.
fn check_by_size(rt: &impl Abort, alloc: Global, bytes: &[u8], size: usize) -> Result<(), Fail> {
    let pieces: Vec<&[u8]> = bytes.chunks(size.max(1)).collect(alloc)?;
    let filter = filter_of(rt, &Ucd, REPLACE, true);
    let course = course_of(rt, alloc, filter, pieces.as_slice());
    let (text, answer) = read(alloc, REPLACE, bytes)?;
    assert_eq!(rt; course.answer, answer, "{bytes:?}, {size}");
    let form = to_nfc(alloc, text.as_str())?;
    assert!(rt;
        course.written.as_slice() == form.as_bytes(),
        "{bytes:?}, {size}"
    );
    Ok(())
}

#[test]
fn long_mixtures_go_by_the_plain_reading(rt: HostRuntime) -> Result<(), Fail> {
    let alloc = rt.alloc();
    let mut seeded = Seeded::new(2);
    for _ in 0..60 {
        let bytes = long_mixture(alloc, &mut seeded, 4000)?;
        for size in [1, 61, 1021, 4096] {
            check_by_size(&rt, alloc, bytes.as_slice(), size)?;
        }
    }
    Ok(())
}

/// Text of each length up to some that is not near, between ill-formed parts of one byte, of two and of three.
#[test]
fn stretches_of_each_length_go_by_the_plain_reading(rt: HostRuntime) -> Result<(), Fail> {
    let alloc = rt.alloc();
    let parts: [&[u8]; 4] = [b"\xFF", b"\xC3", b"\xE2\x82", b"\xF0\x9F\x98"];
    for len in 0..80 {
        for part in parts {
            let letters = joined(
                alloc,
                &[
                    (part, 1),
                    (b"a", len),
                    (part, 1),
                    (b"a", len),
                    (b"\xC3\xA9", 1),
                ],
            )?;
            let bytes = joined(alloc, &[(letters.as_slice(), 20)])?;
            check_by_size(&rt, alloc, bytes.as_slice(), 4096)?;
        }
    }
    Ok(())
}
