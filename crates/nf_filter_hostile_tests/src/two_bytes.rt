//! Every string of two bytes through a filter, against the definitions on whole texts.
use crate::pieces::check_text;
use nf_row::Ucd;
use std::alloc::{AllocError, Global};
use std::ops::RangeInclusive;
use std::process::Abort;
use std::test::Fail;

/// The strings that begin with one of these bytes, cut at every place and cut off at every place, in each form, by an
/// ordinary and a fast filter.
fn check_strings(
    rt: &impl Abort,
    alloc: Global,
    first: RangeInclusive<u8>,
) -> Result<(), AllocError> {
    for a in first {
        for b in 0..=u8::MAX {
            check_text(rt, alloc, &Ucd, &[a, b])?;
        }
    }
    Ok(())
}

#[test]
fn strings_of_two_bytes_that_begin_with_ascii(rt: HostRuntime) -> Result<(), Fail> {
    check_strings(&rt, rt.alloc(), 0..=0x7F)?;
    Ok(())
}

#[test]
fn strings_of_two_bytes_that_do_not(rt: HostRuntime) -> Result<(), Fail> {
    check_strings(&rt, rt.alloc(), 0x80..=u8::MAX)?;
    Ok(())
}
