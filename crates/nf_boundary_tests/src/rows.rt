//! The same of characters whose form is their decomposition, in forms that compose.
use crate::fronts::{check, check_none};
use crate::reference::checked;
use nf_forms::Form;
use std::test::Fail;

/// In a form that composes, a character that it changes is closed where its decomposition begins with a starter that passes the
/// quick check. The form of that is what the marks in it, and those after it, leave: U+212B is the letter U+00C5, U+0958 and
/// U+FB2A stay apart, and U+2126 takes in U+0301.
#[test]
fn rows_between_boundaries(rt: HostRuntime) -> Result<(), Fail> {
    let fronts = [
        ("", "\u{2126}", "\u{3A9}", "b"),
        (
            "b",
            "\u{2126}\u{F900}e\u{301}",
            "\u{3A9}\u{8C48}\u{E9}",
            "c",
        ),
        ("ab", "\u{2126}", "\u{3A9}", "c"),
        ("a", "\u{2126}", "\u{3A9}", "\u{2126}\u{301}"),
        // One character between two, and more only where bytes leave it open that the next composes.
        ("", "\u{2126}a\u{2126}", "\u{3A9}a\u{3A9}", "bc\u{2126}"),
        (
            "",
            "\u{2126}a\u{2126}be\u{301}",
            "\u{3A9}a\u{3A9}b\u{E9}",
            "c",
        ),
        (
            "",
            "\u{2126}\u{4E00}\u{F900}",
            "\u{3A9}\u{4E00}\u{8C48}",
            "b\u{301}",
        ),
        ("", "\u{212B}", "\u{C5}", "b"),
        ("", "\u{FB2A}", "\u{5E9}\u{5C1}", "b"),
        ("", "\u{958}\u{958}", "\u{915}\u{93C}\u{915}\u{93C}", "b"),
        ("", "\u{2126}\u{301}", "\u{38F}", "b"),
        ("", "\u{1FD3}a\u{1FD3}", "\u{390}a\u{390}", "b"),
    ];
    check(&rt, rt.alloc(), Form::Nfc, &fronts)?;
    check(&rt, rt.alloc(), Form::Nfkc, &fronts)
}

/// A compatibility decomposition may have several starters, each with marks.
#[test]
fn rows_of_several_starters(rt: HostRuntime) -> Result<(), Fail> {
    let compatible = [
        ("a", "\u{FB03}\u{FF21}", "ffiA", "x"),
        ("", "\u{FF76}\u{FF8A}", "\u{30AB}\u{30CF}", "x"),
        ("", "\u{FF21}", "A", "\u{FF21}\u{301}"),
        ("", "\u{FF76}\u{FF9E}", "\u{30AC}", "b"),
        ("", "\u{1E9B}", "\u{1E61}", "b"),
        ("", "\u{1E9B}\u{323}", "\u{1E69}", "b"),
        ("a", "\u{1C4}", "D\u{17D}", "b"),
        ("", "\u{3313}", "\u{30AE}\u{30EB}\u{30C0}\u{30FC}", "b"),
        (
            "",
            "\u{FDFA}\u{344}",
            "\u{635}\u{644}\u{649} \u{627}\u{644}\u{644}\u{647} \u{639}\u{644}\u{64A}\u{647} \u{648}\u{633}\u{644}\u{645}\u{308}\u{301}",
            "x",
        ),
    ];
    check(&rt, rt.alloc(), Form::Nfkc, &compatible)?;
    check_none(&rt, Form::Nfkc, &["\u{FF9E}b"]);
    let left = [("", "\u{FDFA}\u{344}", "\u{FDFA}\u{308}\u{301}", "x")];
    check(&rt, rt.alloc(), Form::Nfc, &left)
}

/// As many decompositions of 33 bytes each as leave room for the longest, of 72, which is 29, or as begin before the 897th byte.
#[test]
fn rows_up_to_the_room(rt: HostRuntime) -> Result<(), Fail> {
    let rows = "\u{FDFA}".repeat(rt.alloc(), 31)?;
    let text = format!(in rt.alloc(); "{rows}b")?;
    assert_eq!(rt;
        checked(&rt, rt.alloc(), Form::Nfkc, &text)?,
        Some("\u{FDFA}\u{FDFA}\u{FDFA}b")
    );
    assert_eq!(rt;
        checked(&rt, rt.alloc(), Form::Nfkd, &text)?,
        Some("\u{FDFA}\u{FDFA}b")
    );
    Ok(())
}
