//! Every string of two bytes, and many of three, with each maximal subpart of an ill-formed sequence replaced.
use crate::kit::{REPLACE, same_in_pieces};
use crate::subparts::read;
use nf_row::Ucd;
use std::alloc::{AllocError, Global};
use std::process::Abort;
use std::test::Fail;
use unicode_normalization::to_nfc;

/// The bytes are taken however they are cut, and their form is that of the plain reading.
fn check_string(rt: &impl Abort, alloc: Global, bytes: &[u8]) -> Result<(), AllocError> {
    let course = same_in_pieces(rt, alloc, &Ucd, REPLACE, bytes)?;
    let (text, answer) = read(alloc, REPLACE, bytes)?;
    assert_eq!(rt; course.answer, answer, "{bytes:?}");
    let form = to_nfc(alloc, text.as_str())?;
    assert!(rt;
        course.written.as_slice() == form.as_bytes(),
        "{bytes:?}: {form}"
    );
    Ok(())
}

#[test]
fn strings_of_two_bytes_are_replaced(rt: HostRuntime) -> Result<(), Fail> {
    for a in 0..=u8::MAX {
        for b in 0..=u8::MAX {
            check_string(&rt, rt.alloc(), &[a, b])?;
        }
    }
    Ok(())
}

/// The ends of the ranges of Table 3-7, and bytes beside them.
const TELLING: [u8; 23] = [
    0x00, 0x41, 0x7F, 0x80, 0x8F, 0x90, 0x9F, 0xA0, 0xBF, 0xC0, 0xC1, 0xC2, 0xCC, 0xDF, 0xE0, 0xE1,
    0xED, 0xEF, 0xF0, 0xF1, 0xF4, 0xF5, 0xFF,
];

#[test]
fn strings_of_three_telling_bytes_are_replaced(rt: HostRuntime) -> Result<(), Fail> {
    for a in TELLING {
        for b in TELLING {
            for c in TELLING {
                check_string(&rt, rt.alloc(), &[a, b, c])?;
            }
        }
    }
    Ok(())
}

/// Strings of four bytes that begin as the longest sequences do.
#[test]
fn strings_of_four_telling_bytes_are_replaced(rt: HostRuntime) -> Result<(), Fail> {
    for first in [0xE1, 0xF0, 0xF1, 0xF4] {
        for a in TELLING {
            for b in TELLING {
                for c in [0x41, 0x80, 0xBF, 0xC2, 0xF0] {
                    check_string(&rt, rt.alloc(), &[first, a, b, c])?;
                }
            }
        }
    }
    Ok(())
}
