//! Every scalar value, alone and between a letter and a mark.
use crate::both::due;
use nf_filter::FromReader;
use nf_filter_fixtures::FORMS;
use nf_normalized::check_form;
use std::alloc::{AllocError, Global};
use std::ops::RangeInclusive;
use std::process::Abort;
use std::test::Fail;

fn assert_due(rt: &impl Abort, alloc: Global, text: &str) {
    let bytes = text.as_bytes();
    for form in FORMS {
        let told = check_form(form, false, 0, &mut FromReader::new(bytes));
        assert_eq!(rt; told, due(alloc, form, false, bytes), "{form:?}: {text:?}");
    }
}

fn sweep(rt: &impl Abort, alloc: Global, codes: RangeInclusive<u32>) -> Result<(), AllocError> {
    for code in codes {
        if let Some(c) = char::from_u32(code) {
            let mut text = String::new(alloc);
            text.push(c)?;
            assert_due(rt, alloc, &text);
            let mut text = String::new(alloc);
            text.push('a')?;
            text.push(c)?;
            text.push('\u{301}')?;
            assert_due(rt, alloc, &text);
        }
    }
    Ok(())
}

#[test]
fn each_scalar_value_is_in_the_forms_that_leave_it(rt: HostRuntime) -> Result<(), Fail> {
    sweep(&rt, rt.alloc(), 0..=0x2_FFFF)?;
    Ok(())
}

#[test]
fn so_is_each_of_the_planes_after(rt: HostRuntime) -> Result<(), Fail> {
    sweep(&rt, rt.alloc(), 0x3_0000..=0x10_FFFF)?;
    Ok(())
}
