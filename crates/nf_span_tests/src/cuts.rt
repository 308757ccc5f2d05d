//! Texts whose span was found by hand, from UnicodeData.txt and DerivedNormalizationProps.txt.
use crate::sweep::parts_of;
use nf_forms::Form;
use nf_span::span_text;
use std::alloc::Global;
use std::process::Abort;
use std::test::Fail;

const TWELVE: &str =
    "\u{316}\u{316}\u{316}\u{316}\u{316}\u{316}\u{316}\u{316}\u{316}\u{316}\u{316}\u{316}";

/// The settled part, the tail and the rest of the text that they make up.
type Cut = (&'static str, &'static str, &'static str);

fn check<T: Abort>(rt: &T, alloc: Global, form: Form, cuts: &[Cut]) -> Result<(), Fail> {
    for (settled, tail, rest) in cuts {
        let text = format!(in alloc; "{settled}{tail}{rest}")?;
        assert_eq!(rt;
            parts_of(form, &text),
            (*settled, *tail, *rest),
            "{form:?}: {text:?}"
        );
    }
    Ok(())
}

/// U+0301 may compose, so it ends the front in a form that composes. The classes of U+0334, U+0327, U+0316 and U+0301
/// are 1, 202, 220 and 230.
#[test]
fn nfc(rt: HostRuntime) -> Result<(), Fail> {
    let cuts = [
        ("", "", ""),
        ("ab", "c", ""),
        ("a", "\u{E9}\u{316}", ""),
        ("", "e", "\u{301}b"),
        ("\u{AC00}", "\u{AC01}", "\u{11A8}"),
        ("", "", "\u{316}a"),
        ("", "", "\u{344}a"),
        ("a", "b\u{334}\u{316}\u{316}", ""),
        ("a", "b\u{316}", "\u{334}c"),
        ("a\u{316}", "b\u{334}", "\u{1161}"),
        ("\u{FF76}", "\u{3042}\u{FF9E}", ""),
        ("", "", "\u{FF9E}a"),
        ("\u{FF76}\u{FF9E}\u{FF9F}", "\u{FF77}\u{FF9E}\u{FF9E}", ""),
        ("\u{FF76}\u{FF9E}\u{FF61}", "\u{FFA1}\u{FF9F}", "\u{301}"),
        ("a", "b\u{316}\u{FF9E}\u{334}", "\u{301}"),
        ("\u{A0}", "\u{FB01}", "\u{1F71}"),
        ("\u{1F600}", "\u{10FFFF}", "\u{2F800}"),
    ];
    check(&rt, rt.alloc(), Form::Nfc, &cuts)
}

#[test]
fn nfd(rt: HostRuntime) -> Result<(), Fail> {
    let cuts = [
        ("", "", ""),
        ("ab", "e\u{301}", ""),
        ("", "e\u{327}\u{301}", ""),
        ("", "e\u{301}", "\u{327}"),
        ("e\u{301}", "a", "\u{E9}"),
        ("\u{1100}\u{1161}", "\u{11A8}", "\u{AC00}"),
        ("", "", "\u{301}"),
        ("", "\u{FF76}\u{FF9F}", ""),
        ("\u{FF76}\u{FF9E}", "\u{FF8A}\u{FF9F}\u{301}", "\u{304C}"),
        (
            "\u{FF66}\u{FF9E}\u{FF9F}\u{FF67}\u{FF9F}",
            "\u{FF9D}",
            "\u{E9}",
        ),
        ("\u{A0}", "\u{FB01}", "\u{C5}"),
    ];
    check(&rt, rt.alloc(), Form::Nfd, &cuts)
}

#[test]
fn compatible_forms(rt: HostRuntime) -> Result<(), Fail> {
    let composed = [
        ("a", "\u{E9}\u{316}", "\u{A0}"),
        ("", "b", "\u{FB01}"),
        ("", "\u{30AB}", "\u{FF9E}"),
    ];
    check(&rt, rt.alloc(), Form::Nfkc, &composed)?;
    let decomposed = [
        ("a", "e\u{301}", "\u{A0}"),
        ("", "b", "\u{FB01}"),
        ("", "\u{30AB}\u{3099}", "\u{FF9F}"),
    ];
    check(&rt, rt.alloc(), Form::Nfkd, &decomposed)
}

/// Eighteen, which is as many as a decomposition can have, and twelve make thirty.
#[test]
fn twelve_marks_follow(rt: HostRuntime) -> Result<(), Fail> {
    for form in [Form::Nfc, Form::Nfd, Form::Nfkc, Form::Nfkd] {
        let mut text = format!(in rt.alloc(); "ab{TWELVE}")?;
        let twelve = span_text(form, &text).split();
        assert_eq!(rt;
            (twelve.settled, twelve.tail.len(), twelve.rest),
            ("a", 25, "")
        );
        text.push_str("\u{316}c")?;
        let more = span_text(form, &text).split();
        assert_eq!(rt;
            (more.settled, more.tail.len(), more.rest),
            ("a", 25, "\u{316}c")
        );
    }
    Ok(())
}

/// U+FF9E and U+FF9F are starters in the canonical forms, and count as marks: thirty with the eighteen that any character may
/// end in.
#[test]
fn twelve_halfwidth_marks_follow(rt: HostRuntime) -> Result<(), Fail> {
    for form in [Form::Nfc, Form::Nfd] {
        let text = format!(in rt.alloc(); "a\u{FF76}{TWELVE}\u{FF9E}c")?;
        let none = span_text(form, &text).split();
        assert_eq!(rt;
            (none.settled, none.tail.len(), none.rest),
            ("a", 27, "\u{FF9E}c")
        );
        let marks = "\u{FF9E}\u{FF9F}".repeat(rt.alloc(), 6)?;
        let text = format!(in rt.alloc(); "a\u{FF76}{marks}\u{FF9E}c")?;
        let twelve = span_text(form, &text).split();
        assert_eq!(rt;
            (twelve.settled, twelve.tail.len(), twelve.rest),
            ("a", 39, "\u{FF9E}c")
        );
    }
    Ok(())
}
