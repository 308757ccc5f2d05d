//! Texts whose segments were found by hand, from UnicodeData.txt and DerivedNormalizationProps.txt.
use crate::reference::{checked, segments_of, text_of};
use nf_boundary::Formed;
use nf_forms::Form;
use std::alloc::Global;
use std::process::Abort;
use std::test::Fail;

pub(crate) const TWELVE: &str =
    "\u{316}\u{316}\u{316}\u{316}\u{316}\u{316}\u{316}\u{316}\u{316}\u{316}\u{316}\u{316}";

/// What stands as it is, what the form changes, its form, and the rest of the text that they make up.
type Front = (&'static str, &'static str, &'static str, &'static str);

pub(crate) fn check<T: Abort>(
    rt: &T,
    alloc: Global,
    form: Form,
    fronts: &[Front],
) -> Result<(), Fail> {
    for (same, changed, formed, rest) in fronts {
        let text = format!(in alloc; "{same}{changed}{rest}")?;
        let mut put = Formed::new();
        let segments = segments_of(form, &text, &mut put);
        assert!(rt; segments.is_some(), "{form:?}: {text:?}");
        if let Some(segments) = segments {
            assert_eq!(rt;
                (segments.same, text_of(&put), segments.rest),
                (*same, *formed, *rest),
                "{form:?}: {text:?}"
            );
        }
        checked(rt, alloc, form, &text)?;
    }
    Ok(())
}

pub(crate) fn is_none(form: Form, text: &str) -> bool {
    segments_of(form, text, &mut Formed::new()).is_none()
}

pub(crate) fn check_none<T: Abort>(rt: &T, form: Form, texts: &[&str]) {
    for text in texts {
        assert!(rt; is_none(form, text), "{form:?}: {text:?}");
    }
}

/// The classes of U+0334, U+0316, U+0323 and U+0301 are 1, 220, 220 and 230; U+0078 and U+0301 have no composite.
#[test]
fn composed(rt: HostRuntime) -> Result<(), Fail> {
    let fronts = [
        ("ab", "", "", "c"),
        ("Vi", "e\u{323}\u{302}", "\u{1EC7}", "t"),
        ("", "x\u{301}", "x\u{301}", "y"),
        ("", "a\u{316}\u{301}", "\u{E1}\u{316}", "b"),
        ("", "a\u{301}\u{301}", "\u{E1}\u{301}", "b"),
        ("", "a\u{334}\u{323}\u{301}", "\u{1EA1}\u{334}\u{301}", "b"),
        (
            "",
            "\u{1112}\u{1161}\u{11AB}\u{1100}\u{1173}\u{11AF}",
            "\u{D55C}\u{AE00}",
            " ",
        ),
        ("", "\u{9C7}\u{9BE}", "\u{9CB}", "\u{995}"),
        ("\u{EA}", "e\u{301}", "\u{E9}", "\u{EA}\u{323}"),
        ("a", "b\u{323}\u{334}", "\u{1E05}\u{334}", "c"),
        // A letter that the form leaves as it is, and a mark that it has to take in.
        ("", "\u{EA}\u{323}", "\u{1EC7}", "t"),
        // One character between two that compose, where it is not ASCII.
        (
            "",
            "e\u{301}ae\u{301}\u{4E00}a\u{301}",
            "\u{E9}a\u{E9}\u{4E00}\u{E1}",
            "cde\u{301}b",
        ),
        // ASCII before a mark that is near, and before one that is not.
        (
            "",
            "e\u{301}cole\u{301}",
            "\u{E9}col\u{E9}",
            "s, et puis encore",
        ),
        (
            "",
            "e\u{301}",
            "\u{E9}",
            "abcdefghijklmnopqrstuvwxyzabcdefghijklmnopqrstuvwxyzabcdefghijkle\u{301}s, et puis",
        ),
        // The last letter of Cyrillic before a mark is left for it.
        (
            "\u{434}",
            "\u{438}\u{306}\u{433}\u{434}\u{435}\u{438}\u{306}",
            "\u{439}\u{433}\u{434}\u{435}\u{439}",
            "\u{43B}\u{43C}\u{43D}\u{43E}\u{43F}\u{440}\u{441}",
        ),
    ];
    check(&rt, rt.alloc(), Form::Nfc, &fronts)?;
    check(&rt, rt.alloc(), Form::Nfkc, &fronts)
}

/// U+1112, U+1161 and U+11AB make up U+D55C, without the third U+D558; U+1100 and U+1173, U+ADF8. Of the letters, U+1113,
/// U+1176, U+11A7 and U+11C3 are in no syllable.
#[test]
fn syllables(rt: HostRuntime) -> Result<(), Fail> {
    let fronts = [
        (
            "",
            "\u{1112}\u{1161}\u{1112}\u{1161}",
            "\u{D558}\u{D558}",
            "a",
        ),
        (
            "a",
            "\u{1112}\u{1161}\u{11AB}\u{1112}\u{1161}\u{1100}\u{1173}",
            "\u{D55C}\u{D558}\u{ADF8}",
            "\u{D55C}",
        ),
        (
            "\u{1112}\u{1100}",
            "\u{1112}\u{1161}",
            "\u{D558}",
            "\u{1100}",
        ),
        (
            "",
            "\u{1112}\u{1161}\u{11AB}\u{301}",
            "\u{D55C}\u{301}",
            "b",
        ),
        ("", "\u{1112}\u{1161}", "\u{D558}", "\u{11A7}b"),
        ("", "\u{1112}\u{1161}", "\u{D558}", "\u{11C3}b"),
        ("", "\u{1112}\u{1161}", "\u{D558}", "\u{1113}b"),
        ("\u{1112}\u{1176}", "\u{1112}\u{1161}", "\u{D558}", "b"),
    ];
    check(&rt, rt.alloc(), Form::Nfc, &fronts)?;
    check(&rt, rt.alloc(), Form::Nfkc, &fronts)
}

/// A vowel composes with a leading consonant alone, and a trailing consonant with a syllable of two letters that no mark
/// parts from it: any other is left, and what stands after it meets it alone. U+11A8 and U+D558 make up U+D559; U+1161 and
/// U+0301 have no composite. U+09BE composes with U+09C7 alone of these letters.
#[test]
fn letters_that_do_not_compose(rt: HostRuntime) -> Result<(), Fail> {
    let fronts = [
        ("", "\u{1112}\u{1161}\u{1161}", "\u{D558}\u{1161}", "b"),
        (
            "",
            "\u{1112}\u{1161}\u{11AB}\u{1161}\u{11AB}\u{1112}\u{1161}\u{11A8}\u{11A8}",
            "\u{D55C}\u{1161}\u{11AB}\u{D559}\u{11A8}",
            "\u{1112}\u{1161}",
        ),
        (
            "",
            "\u{1112}\u{1161}\u{301}\u{11AB}\u{301}",
            "\u{D558}\u{301}\u{11AB}\u{301}",
            "b",
        ),
        ("", "\u{1112}\u{11AB}", "\u{1112}\u{11AB}", "b"),
        ("", "a\u{1161}\u{11AB}", "a\u{1161}\u{11AB}", "b"),
        (
            "",
            "a\u{301}\u{1161}\u{327}\u{301}e\u{301}",
            "\u{E1}\u{1161}\u{327}\u{301}\u{E9}",
            "b",
        ),
        (
            "",
            "\u{995}\u{9BE}\u{9C7}\u{9BE}\u{9BE}",
            "\u{995}\u{9BE}\u{9CB}\u{9BE}",
            "\u{995}",
        ),
        // Marks out of order after such a letter, and one that decomposes.
        (
            "",
            "a\u{1161}\u{301}\u{327}",
            "a\u{1161}\u{327}\u{301}",
            "b",
        ),
        (
            "",
            "a\u{301}\u{1161}\u{344}",
            "\u{E1}\u{1161}\u{308}\u{301}",
            "b",
        ),
    ];
    check(&rt, rt.alloc(), Form::Nfc, &fronts)?;
    check(&rt, rt.alloc(), Form::Nfkc, &fronts)?;
    let texts = ["\u{1161}\u{1161}b", "\u{1112}\u{1161}\u{1161}"];
    check_none(&rt, Form::Nfc, &texts);
    check_none(&rt, Form::Nfkc, &texts);
    Ok(())
}

/// As many as there is room for, or the front ends before them. With each letter a new run of marks begins.
#[test]
fn letters_up_to_the_room(rt: HostRuntime) -> Result<(), Fail> {
    let vowels = "\u{1161}".repeat(rt.alloc(), 340)?;
    let text = format!(in rt.alloc(); "a{vowels}b")?;
    assert_eq!(rt; checked(&rt, rt.alloc(), Form::Nfc, &text)?, Some("b"));
    let text = format!(in rt.alloc(); "e\u{301}e\u{301}a{vowels}b")?;
    let after = format!(in rt.alloc(); "a{vowels}b")?;
    assert_eq!(rt;
        checked(&rt, rt.alloc(), Form::Nfc, &text)?,
        Some(after.as_str())
    );
    let text = format!(in rt.alloc(); "a{vowels}\u{1161}b")?;
    assert_eq!(rt; is_none(Form::Nfc, &text), true);
    let text = format!(in rt.alloc(); "b{TWELVE}\u{1161}{TWELVE}c")?;
    assert_eq!(rt; checked(&rt, rt.alloc(), Form::Nfc, &text)?, Some("c"));
    Ok(())
}

#[test]
fn decomposed(rt: HostRuntime) -> Result<(), Fail> {
    let fronts = [
        ("ab", "", "", "c"),
        ("Vi", "\u{1EC7}", "e\u{323}\u{302}", "t"),
        (
            "",
            "\u{D55C}\u{AE00}",
            "\u{1112}\u{1161}\u{11AB}\u{1100}\u{1173}\u{11AF}",
            " ",
        ),
        ("", "\u{D55C}", "\u{1112}\u{1161}\u{11AB}", "\u{E9}\u{301}"),
        ("a", "\u{E9}\u{301}", "e\u{301}\u{301}", "b"),
        ("e\u{301}", "\u{E9}", "e\u{301}", "e\u{301}"),
        // One character between two that are changed, where it is not ASCII.
        (
            "",
            "\u{E9}a\u{E9}\u{4E00}\u{D55C}",
            "e\u{301}ae\u{301}\u{4E00}\u{1112}\u{1161}\u{11AB}",
            "\u{4E00}\u{4E01}\u{E9}b",
        ),
        // ASCII before such a letter that is near, and before one that is not.
        (
            "",
            "\u{E9}col\u{1EC7}",
            "e\u{301}cole\u{323}\u{302}",
            "s, et puis encore",
        ),
        (
            "",
            "\u{E9}",
            "e\u{301}",
            "abcdefghijklmnopqrstuvwxyzabcdefghijklmnopqrstuvwxyzabcdefghijkl\u{E9}s, et puis",
        ),
        // A character of which bytes tell that it stays, and one of which they do not.
        (
            "",
            "\u{E9}\u{2019}cole\u{E9}",
            "e\u{301}\u{2019}colee\u{301}",
            " et puis encore",
        ),
        ("", "\u{E9}", "e\u{301}", "\u{3C0}cole\u{E9} et puis encore"),
    ];
    check(&rt, rt.alloc(), Form::Nfd, &fronts)?;
    check(&rt, rt.alloc(), Form::Nfkd, &fronts)?;
    let compatible = [
        ("a", "\u{FB01}\u{FF21}", "fiA", "x"),
        (
            "",
            "\u{FDFA}",
            "\u{635}\u{644}\u{649} \u{627}\u{644}\u{644}\u{647} \u{639}\u{644}\u{64A}\u{647} \u{648}\u{633}\u{644}\u{645}",
            "x",
        ),
    ];
    check(&rt, rt.alloc(), Form::Nfkd, &compatible)
}

/// Nothing is told where the text does not begin at a boundary, or none comes after.
#[test]
fn none(rt: HostRuntime) {
    check_none(
        &rt,
        Form::Nfc,
        &[
            "",
            "a",
            "\u{301}a",
            "e\u{301}",
            "\u{1100}\u{1161}",
            "a\u{301}\u{323}",
            "a\u{344}",
        ],
    );
    check_none(
        &rt,
        Form::Nfd,
        &["", "a", "\u{301}a", "\u{E9}", "\u{F73}b", "\u{FF9E}b"],
    );
}
