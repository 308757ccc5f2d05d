//! Segments against the forms of whole texts.
use nf_boundary::{Formed, Segments, first_segments};
use nf_entry::Entry;
use nf_forms::Form;
use std::alloc::{AllocError, Global};
use std::process::Abort;
use std::test::Fail;
use unicode_normalization::{to_nfc, to_nfd, to_nfkc, to_nfkd};

pub const FORMS: [Form; 4] = [Form::Nfc, Form::Nfd, Form::Nfkc, Form::Nfkd];

/// What stands before a front: a letter and a mark, with which a mark, and a letter's mark, could change places.
const BEFORE: &str = "e\u{323}";

pub fn form_of(form: Form, alloc: Global, text: &str) -> Result<String, AllocError> {
    match form {
        Form::Nfc => to_nfc(alloc, text),
        Form::Nfd => to_nfd(alloc, text),
        Form::Nfkc => to_nfkc(alloc, text),
        Form::Nfkd => to_nfkd(alloc, text),
    }
}

/// What was put, which is UTF-8.
pub fn text_of(put: &Formed) -> &str {
    std::str::from_utf8(put.as_slice()).unwrap_or("not UTF-8")
}

/// The segments that the text begins with, by the entry of its first character.
pub fn segments_of<'t>(form: Form, text: &'t str, put: &mut Formed) -> Option<Segments<'t>> {
    let first = text.chars().next()?;
    first_segments(form, text, Entry::of(first), put)
}

/// What stands after the segments that the text begins with, if they are told: the front has the form that is said, and so has what
/// stands before and after it, each alone.
pub fn checked<'t, T: Abort>(
    rt: &T,
    alloc: Global,
    form: Form,
    text: &'t str,
) -> Result<Option<&'t str>, Fail> {
    let mut put = Formed::new();
    let Some(segments) = segments_of(form, text, &mut put) else {
        return Ok(None);
    };
    let front = text.strip_suffix(segments.rest).unwrap_or("");
    assert!(rt;
        !front.is_empty() && !segments.rest.is_empty(),
        "{form:?}: {text:?}"
    );
    let formed = format!(in alloc; "{}{}", segments.same, text_of(&put))?;
    assert_eq!(rt; formed, form_of(form, alloc, front)?, "{form:?}: {front:?}");
    let before = form_of(form, alloc, BEFORE)?;
    let after = form_of(form, alloc, segments.rest)?;
    let whole = format!(in alloc; "{BEFORE}{text}")?;
    assert_eq!(rt;
        form_of(form, alloc, &whole)?,
        format!(in alloc; "{before}{formed}{after}")?,
        "{form:?}: {text:?}"
    );
    Ok(Some(segments.rest))
}
