//! The same of texts with halfwidth marks, and of marks that are out of order or many.
use crate::fronts::{TWELVE, check, is_none};
use crate::reference::{FORMS, checked};
use nf_forms::Form;
use std::test::Fail;

/// U+FF9E and U+FF9F are their own rows in the canonical forms, and a span goes on with them.
#[test]
fn halfwidth_marks_stay(rt: HostRuntime) -> Result<(), Fail> {
    let kept = "a\u{FF76}\u{FF9E}\u{FF8A}\u{FF9F}\u{FF9E}\u{FF77}c\u{FF8A}\u{FF9F}";
    let composed = [
        ("\u{FF76}\u{FF9E}", "", "", "b"),
        ("\u{FF76}\u{FF9E}", "", "", "x\u{FF9E}\u{301}y"),
        ("\u{FF76}\u{FF9E}", "e\u{301}", "\u{E9}", "b"),
        (kept, "", "", "b"),
    ];
    check(&rt, rt.alloc(), Form::Nfc, &composed)?;
    let decomposed = [
        ("\u{FF76}\u{FF9E}", "", "", "b"),
        ("\u{FF76}\u{FF9E}x\u{FF9E}\u{301}", "", "", "y"),
        ("\u{FF76}\u{FF9E}", "\u{E9}", "e\u{301}", "b"),
        (kept, "", "", "b"),
    ];
    check(&rt, rt.alloc(), Form::Nfd, &decomposed)
}

/// A row has at most 18 members, so that 12 marks make no run too long after any character.
#[test]
fn twelve_halfwidth_marks_stay(rt: HostRuntime) -> Result<(), Fail> {
    let marks = "\u{FF9E}".repeat(rt.alloc(), 12)?;
    let twelve = format!(in rt.alloc(); "\u{FF76}{marks}b")?;
    assert_eq!(rt; checked(&rt, rt.alloc(), Form::Nfc, &twelve)?, Some("b"));
    let marks = "\u{FF9E}".repeat(rt.alloc(), 13)?;
    let thirteen = format!(in rt.alloc(); "\u{FF76}{marks}b")?;
    assert_eq!(rt; is_none(Form::Nfc, &thirteen), true);
    Ok(())
}

/// As many marks may be left as stand in a run.
#[test]
fn thirteen_marks_are_left(rt: HostRuntime) -> Result<(), Fail> {
    let twelve = format!(in rt.alloc(); "b{TWELVE}c")?;
    assert_eq!(rt; checked(&rt, rt.alloc(), Form::Nfc, &twelve)?, Some("c"));
    let thirteen = format!(in rt.alloc(); "a\u{301}{TWELVE}\u{316}c")?;
    assert_eq!(rt; checked(&rt, rt.alloc(), Form::Nfc, &thirteen)?, Some("c"));
    Ok(())
}

/// The classes of U+0334, U+093C, U+094D, U+05B0, U+05B7, U+05BC, U+0327, U+0323, U+0301, U+0300 and U+0302, and U+0345 are
/// 1, 7, 9, 10, 17, 21, 202, 220, 230 and 240.
#[test]
fn marks_out_of_order(rt: HostRuntime) -> Result<(), Fail> {
    let points = "\u{5D0}\u{5B7}\u{5BC}\u{5B0}";
    let ordered = "\u{5D0}\u{5B0}\u{5B7}\u{5BC}";
    let (virama, nukta) = (
        "\u{915}\u{301}\u{94D}\u{93C}",
        "\u{915}\u{93C}\u{94D}\u{301}",
    );
    let (four, stable) = (
        "x\u{301}\u{300}\u{334}\u{323}",
        "x\u{334}\u{323}\u{301}\u{300}",
    );
    let composed = [
        ("", "a\u{301}\u{323}", "\u{1EA1}\u{301}", "b"),
        ("", four, stable, "b"),
        (
            "",
            "e\u{301}\u{327}x\u{301}\u{323}",
            "\u{229}\u{301}x\u{323}\u{301}",
            "b",
        ),
        (
            "",
            "a\u{323}\u{323}\u{334}\u{302}",
            "\u{1EAD}\u{334}\u{323}",
            "b",
        ),
        ("", "c\u{345}\u{301}\u{327}", "\u{1E09}\u{345}", "b\u{323}"),
        ("", points, ordered, "\u{5D1}"),
        ("", virama, nukta, "\u{915}"),
    ];
    check(&rt, rt.alloc(), Form::Nfc, &composed)?;
    check(&rt, rt.alloc(), Form::Nfkc, &composed)?;
    let decomposed = [
        ("", "a\u{301}\u{323}", "a\u{323}\u{301}", "b"),
        ("", four, stable, "b"),
        (
            "",
            "e\u{301}\u{327}x\u{301}\u{323}",
            "e\u{327}\u{301}x\u{323}\u{301}",
            "b",
        ),
        (
            "",
            "a\u{323}\u{323}\u{334}\u{302}",
            "a\u{334}\u{323}\u{323}\u{302}",
            "b",
        ),
        (
            "",
            "c\u{345}\u{301}\u{327}",
            "c\u{327}\u{301}\u{345}",
            "\u{E9}",
        ),
        ("", points, ordered, "\u{5D1}"),
        ("", virama, nukta, "\u{958}"),
    ];
    check(&rt, rt.alloc(), Form::Nfd, &decomposed)?;
    check(&rt, rt.alloc(), Form::Nfkd, &decomposed)
}

/// At most 30 marks (UAX #15, section 13).
#[test]
fn thirty_marks_out_of_order(rt: HostRuntime) -> Result<(), Fail> {
    let marks = "\u{301}\u{323}".repeat(rt.alloc(), 15)?;
    let thirty = format!(in rt.alloc(); "q{marks}b")?;
    let more = format!(in rt.alloc(); "q{marks}\u{323}b")?;
    for form in FORMS {
        assert_eq!(rt; checked(&rt, rt.alloc(), form, &thirty)?, Some("b"));
        assert_eq!(rt; is_none(form, &more), true);
    }
    Ok(())
}

/// U+0340 is U+0300, U+0344 is U+0308 and U+0301, and U+0F73, a starter, is U+0F71 and U+0F72, which no form composes again. The
/// classes of U+0F71, U+0F72 and U+0F74 are 129, 130 and 132.
#[test]
fn marks_that_decompose(rt: HostRuntime) -> Result<(), Fail> {
    let composed = [
        ("", "a\u{340}", "\u{E0}", "b"),
        ("", "a\u{344}", "\u{E4}\u{301}", "b"),
        (
            "",
            "a\u{301}\u{323}\u{344}",
            "\u{1EA1}\u{301}\u{308}\u{301}",
            "b",
        ),
        (
            "",
            "\u{F40}\u{F74}\u{F73}",
            "\u{F40}\u{F71}\u{F72}\u{F74}",
            "b",
        ),
    ];
    check(&rt, rt.alloc(), Form::Nfc, &composed)?;
    check(&rt, rt.alloc(), Form::Nfkc, &composed)?;
    let decomposed = [
        ("", "a\u{344}", "a\u{308}\u{301}", "b"),
        (
            "",
            "\u{F40}\u{F74}\u{F73}",
            "\u{F40}\u{F71}\u{F72}\u{F74}",
            "b",
        ),
    ];
    check(&rt, rt.alloc(), Form::Nfd, &decomposed)?;
    check(&rt, rt.alloc(), Form::Nfkd, &decomposed)
}

/// After a character with a decomposition 12 marks are known to make no run too long, and 30 after one that has none.
#[test]
fn marks_up_to_the_run(rt: HostRuntime) -> Result<(), Fail> {
    let text = format!(in rt.alloc(); "\u{958}{TWELVE}b")?;
    assert_eq!(rt; checked(&rt, rt.alloc(), Form::Nfc, &text)?, Some("b"));
    let text = format!(in rt.alloc(); "\u{958}{TWELVE}\u{316}b")?;
    assert_eq!(rt; is_none(Form::Nfc, &text), true);
    let text = format!(in rt.alloc(); "a{TWELVE}{TWELVE}\u{344}\u{344}\u{344}b")?;
    assert_eq!(rt; checked(&rt, rt.alloc(), Form::Nfc, &text)?, Some("b"));
    let text = format!(in rt.alloc(); "a{TWELVE}{TWELVE}\u{344}\u{344}\u{344}\u{344}b")?;
    assert_eq!(rt; is_none(Form::Nfc, &text), true);
    Ok(())
}
