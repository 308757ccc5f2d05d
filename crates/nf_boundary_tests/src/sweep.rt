//! Scalar values between letters, and letters with marks, against the forms of whole texts.
use crate::reference::{FORMS, checked};
use nf_forms::Form;
use std::alloc::Global;
use std::process::Abort;
use std::test::Fail;
use unicode_normalization::Form as TableForm;
use unicode_normalization::char::{canonical_combining_class, decomposition};

/// Each scalar value below U+34000 and in the first 4,096 of plane 14, and each sixteenth elsewhere: what is left out is
/// not assigned, or for private use.
fn is_taken(code: u32) -> bool {
    code < 0x3_4000 || (code >= 0xE_0000 && code < 0xE_1000) || code % 16 == 0
}

/// Whether it is a starter whose compatibility decomposition begins with a starter.
fn is_boundary(c: char) -> bool {
    let mut room = [c; 3];
    let compat = decomposition(c, TableForm::Nfkd, &mut room);
    let begins = compat
        .first()
        .is_some_and(|d| canonical_combining_class(*d) == 0);
    begins && canonical_combining_class(c) == 0
}

/// In a form that does not compose, so much is known as is a boundary.
#[test]
fn each_scalar_value(rt: HostRuntime) -> Result<(), Fail> {
    for code in 0..0x11_0000u32 {
        if is_taken(code)
            && let Some(c) = char::from_u32(code)
        {
            let text = format!(in rt.alloc(); "{c}b")?;
            for form in FORMS {
                let after = checked(&rt, rt.alloc(), form, &text)?;
                if form == Form::Nfd || form == Form::Nfkd {
                    assert_eq!(rt; after == Some("b"), is_boundary(c), "{form:?}, {code:x}");
                }
            }
        }
    }
    Ok(())
}

/// Marks of many classes, some of which compose, and starters that do.
const SECOND: [&str; 16] = [
    "\u{300}",
    "\u{301}",
    "\u{308}",
    "\u{323}",
    "\u{327}",
    "\u{334}",
    "\u{345}",
    "\u{653}",
    "\u{93C}",
    "\u{9BE}",
    "\u{1161}",
    "\u{11A8}",
    "\u{3099}",
    "\u{309A}",
    "\u{FF9E}",
    "\u{110BA}",
];

#[test]
fn letters_with_marks(rt: HostRuntime) -> Result<(), Fail> {
    for code in 0..0x3100u32 {
        with_marks(&rt, rt.alloc(), code)?;
    }
    Ok(())
}

#[test]
fn halfwidth_and_fullwidth_forms_with_marks(rt: HostRuntime) -> Result<(), Fail> {
    for code in 0xFF00..0x1_0000u32 {
        with_marks(&rt, rt.alloc(), code)?;
    }
    Ok(())
}

fn with_marks<T: Abort>(rt: &T, alloc: Global, code: u32) -> Result<(), Fail> {
    let Some(c) = char::from_u32(code) else {
        return Ok(());
    };
    for second in SECOND {
        let text = format!(in alloc; "{c}{second}\u{301}b")?;
        for form in FORMS {
            checked(rt, alloc, form, &text)?;
        }
    }
    Ok(())
}
