//! What `check --form` says of text.
use super::{CHECK_NFC, Case, FORMS, Parts, assert_cases, assert_shown, repeated, run};
use std::alloc::Global;
use std::process::Abort;
use std::test::Fail;

/// The character and the byte that are told, where the text is not in the form.
type Told = Option<(u32, u32)>;

/// Lets a text be checked for NFC, NFD, NFKC and NFKD.
fn assert_told(
    rt: &impl Abort,
    alloc: Global,
    texts: Parts<'_>,
    due: [Told; 4],
) -> Result<(), Fail> {
    let input = repeated(alloc, texts)?;
    for (form, told) in FORMS.into_iter().zip(due) {
        let line = match told {
            None => format!(in alloc; "{form}\n")?,
            Some((character, byte)) => {
                format!(in alloc; "not {form} at character {character} byte {byte}\n")?
            }
        };
        let words = ["nfstream", "check", "--form", form];
        let shown = run(alloc, words.as_slice(), &mut input.as_slice());
        assert_shown(rt, &shown, u8::from(told.is_some()), line.as_bytes(), "");
    }
    Ok(())
}

#[test]
fn each_form_has_its_place(rt: HostRuntime) -> Result<(), Fail> {
    let (none, first) = ([None; 4], [Some((0, 0)); 4]);
    let cases: [(Parts<'_>, [Told; 4]); 18] = [
        (&[], none),
        (
            &[("Vi\u{1EC7}t", 1)],
            [None, Some((2, 2)), None, Some((2, 2))],
        ),
        (
            &[("Vie\u{323}\u{302}t", 1)],
            [Some((2, 2)), None, Some((2, 2)), None],
        ),
        // The circumflex stands before the dot below.
        (
            &[("Vie\u{302}\u{323}t", 1)],
            [Some((2, 2)), Some((3, 3)), Some((2, 2)), Some((3, 3))],
        ),
        (&[("\u{212B}", 1)], first),
        // Marks of the classes 220, 230, 220 and 202: the last comes first, and the dot below composes.
        (
            &[("a\u{323}\u{301}\u{316}\u{327}", 1)],
            [Some((0, 0)), Some((1, 1)), Some((0, 0)), Some((1, 1))],
        ),
        // A ligature.
        (
            &[("a\u{FB01}", 1)],
            [None, None, Some((1, 1)), Some((1, 1))],
        ),
        (&[("\u{D55C}", 1)], [None, Some((0, 0)), None, Some((0, 0))]),
        (
            &[("\u{1112}\u{1161}\u{11AB}", 1)],
            [Some((0, 0)), None, Some((0, 0)), None],
        ),
        // A letter with a nukta, which is excluded from composition.
        (&[("\u{958}", 1)], first),
        (&[("\u{915}\u{93C}", 1)], none),
        // The joiner would be put after 30 marks.
        (&[("q", 1), ("\u{301}", 30)], none),
        (&[("q", 1), ("\u{301}", 31)], [Some((31, 61)); 4]),
        (&[("q", 1), ("\u{301}", 30), ("\u{34F}\u{301}", 1)], none),
        // The ring counts. Composed, the letter takes in it and the first acute.
        (
            &[("A\u{30A}", 1), ("\u{301}", 30)],
            [Some((0, 0)), Some((31, 61)), Some((0, 0)), Some((31, 61))],
        ),
        // One that is not assigned has no other form.
        (&[("a\u{378}", 1)], none),
        // Past the buffer.
        (
            &[("\u{6F22}", 25_000), ("\u{212B}b", 1)],
            [Some((25_000, 75_000)); 4],
        ),
        (&[("\u{6F22}", 25_000), ("b", 70_000)], none),
    ];
    for (texts, due) in cases {
        assert_told(&rt, rt.alloc(), texts, due)?;
    }
    Ok(())
}

const FIRST: &str = "not nfc at character 0 byte 0\n";

#[test]
fn a_fault_is_told_where_no_place_has_settled_before_it(rt: HostRuntime) -> Result<(), Fail> {
    let bad_at_0 = "nfstream: ill-formed byte at 0, character begun at 0\n";
    let bad_at_3 = "nfstream: ill-formed byte at 3, character begun at 3\n";
    let cut_at_2 = "nfstream: input ends at 2 inside a character begun at 1\n";
    let cut_at_4 = "nfstream: input ends at 4 inside a character begun at 3\n";
    let cases: [Case<'_>; 6] = [
        (&[], b"\xFF\xE2\x84\xABb", 3, "", bad_at_0),
        (&[("\u{212B}b", 1)], b"\xFF", 1, FIRST, ""),
        // A mark might have followed the sign.
        (&[("\u{212B}", 1)], b"\xFF", 3, "", bad_at_3),
        (&[("a", 1)], b"\xC3", 3, "", cut_at_2),
        (&[("\u{212B}b", 1)], b"\xC3", 1, FIRST, ""),
        (&[("\u{212B}", 1)], b"\xC3", 3, "", cut_at_4),
    ];
    assert_cases(&rt, rt.alloc(), &CHECK_NFC, &cases)?;
    Ok(())
}

#[test]
fn an_unassigned_character_is_a_fault_where_that_is_asked(rt: HostRuntime) -> Result<(), Fail> {
    let at_0 = "nfstream: unassigned character at 0\n";
    let at_1 = "nfstream: unassigned character at 1\n";
    let at_3 = "nfstream: unassigned character at 3\n";
    let cases: [Case<'_>; 6] = [
        (&[("a\u{378}", 1)], b"", 3, "", at_1),
        (&[("a\u{378}", 1)], b"\xFF", 3, "", at_1),
        (&[("\u{378}\u{212B}b", 1)], b"", 3, "", at_0),
        (&[("\u{212B}b\u{378}", 1)], b"", 1, FIRST, ""),
        (&[("\u{212B}\u{378}", 1)], b"", 3, "", at_3),
        // One for private use is assigned.
        (&[("a\u{E000}", 1)], b"", 0, "nfc\n", ""),
    ];
    for words in [
        ["nfstream", "check", "--form=nfc", "--assigned"],
        ["nfstream", "check", "--assigned", "--form=nfc"],
    ] {
        assert_cases(&rt, rt.alloc(), &words, &cases)?;
    }
    Ok(())
}
