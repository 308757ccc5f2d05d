//! Every scalar value, alone and after a letter, against the definitions: the quick check, and whole decompositions.
use nf_forms::Form;
use nf_span::span_text;
use std::iter;
use std::test::Fail;
use unicode_normalization::char::{canonical_combining_class, decomposition};
use unicode_normalization::{
    Form as TableForm, QuickCheck, is_nfc_quick, is_nfd_quick, is_nfkc_quick, is_nfkd_quick,
};

/// What a character is to a span.
#[derive(Clone, Copy, Debug, PartialEq, Eq)]
pub(crate) enum Role {
    Boundary,
    Mark,
    Ends,
}

fn passes(form: Form, c: char) -> bool {
    let alone = iter::once(c);
    let answer = match form {
        Form::Nfc => is_nfc_quick(alone),
        Form::Nfd => is_nfd_quick(alone),
        Form::Nfkc => is_nfkc_quick(alone),
        Form::Nfkd => is_nfkd_quick(alone),
    };
    answer == QuickCheck::Yes
}

/// A starter that passes is an own boundary where its compatibility decomposition begins with a starter, and counts as a mark where
/// that has none; a non-starter stays where it is its own decompositions.
pub(crate) fn role_of(form: Form, c: char) -> Role {
    let (mut first, mut second) = ([c; 3], [c; 3]);
    let canonical = decomposition(c, TableForm::Nfd, &mut first);
    let compat = decomposition(c, TableForm::Nfkd, &mut second);
    if !passes(form, c) {
        return Role::Ends;
    }
    let begins = compat
        .first()
        .is_some_and(|d| canonical_combining_class(*d) == 0);
    let own = canonical == [c].as_slice() && compat == [c].as_slice();
    match (canonical_combining_class(c) == 0, begins, own) {
        (true, true, _) => Role::Boundary,
        (true, false, _) | (false, _, true) => Role::Mark,
        _ => Role::Ends,
    }
}

/// What is settled of the span that a text begins with, its tail, and the rest of the text.
pub(crate) fn parts_of(form: Form, text: &str) -> (&str, &str, &str) {
    let span = span_text(form, text).split();
    (span.settled, span.tail, span.rest)
}

/// The entry of the tail's first character is told wherever there is a tail.
#[test]
fn the_tail_begins_with_a_known_character(rt: HostRuntime) {
    for (text, known) in [
        ("", false),
        ("\u{301}", false),
        ("a", true),
        ("ab\u{316}", true),
        ("\u{5D0}\u{5B0}", true),
    ] {
        assert_eq!(rt;
            span_text(Form::Nfc, text).split().known.is_some(),
            known,
            "{text:?}"
        );
    }
}

#[test]
fn each_scalar_value(rt: HostRuntime) -> Result<(), Fail> {
    for form in [Form::Nfc, Form::Nfd, Form::Nfkc, Form::Nfkd] {
        for code in 0..0x11_0000u32 {
            let Some(c) = char::from_u32(code) else {
                continue;
            };
            let mut bytes = [0; 4];
            let own: &str = c.encode_utf8(&mut bytes);
            let after = format!(in rt.alloc(); "a{own}")?;
            let expected = match role_of(form, c) {
                Role::Boundary => (("", own, ""), ("a", own, "")),
                Role::Mark => (("", "", own), ("", after.as_str(), "")),
                Role::Ends => (("", "", own), ("", "a", own)),
            };
            assert_eq!(rt;
                (parts_of(form, own), parts_of(form, &after)),
                expected,
                "{form:?}, {code:x}"
            );
        }
    }
    Ok(())
}
