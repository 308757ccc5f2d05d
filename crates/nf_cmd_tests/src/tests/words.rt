//! The words of the command line.
use super::{assert_shown, run};

#[test]
fn words_that_are_no_command_are_refused(rt: HostRuntime) {
    let alloc = rt.alloc();
    let mistakes: [&[&str]; 36] = [
        &["nfstream"],
        &["nfstream", "--form", "nfc"],
        &["nfstream", "normalize"],
        &["nfstream", "--version"],
        &["nfstream", "help", "normalize"],
        &["nfstream", "convert"],
        &["nfstream", "convert", "--form"],
        &["nfstream", "convert", "--form="],
        &["nfstream", "convert", "--form", "nfx"],
        &["nfstream", "convert", "--form", "NFC"],
        &["nfstream", "convert", "--fo", "nfc"],
        &["nfstream", "convert", "--form", "nfc", "--form", "nfd"],
        &["nfstream", "convert", "--form", "nfc", "text"],
        &["nfstream", "convert", "--replace"],
        &["nfstream", "convert", "--form", "--replace", "nfc"],
        &["nfstream", "convert", "--form", "nfc", "--replace=x"],
        &["nfstream", "convert", "--form", "nfc", "--assigned="],
        &["nfstream", "convert", "--form", "nfc", "--assigned", "true"],
        &["nfstream", "convert", "--form", "nfc", "--repl"],
        &["nfstream", "convert", "--form", "nfc", "-r"],
        &[
            "nfstream",
            "convert",
            "--form",
            "nfc",
            "--replace",
            "--replace",
        ],
        &[
            "nfstream",
            "convert",
            "--assigned",
            "--form",
            "nfc",
            "--replace",
            "--assigned",
        ],
        &["nfstream", "--replace", "convert", "--form", "nfc"],
        &["nfstream", "check", "--form"],
        &["nfstream", "check", "--form", "nfx"],
        &["nfstream", "check", "--form", "nfc", "--form", "nfd"],
        &["nfstream", "check", "--form", "nfc", "text"],
        &["nfstream", "check", "--form", "nfc", "--replace"],
        &["nfstream", "check", "--form", "nfc", "--line-buffered"],
        &["nfstream", "check", "--replace"],
        &["nfstream", "check", "--assigned"],
        &["nfstream", "measure", "--form", "nfc"],
        &["nfstream", "check", "text"],
        &["nfstream", "measure", "--base", "1"],
        &["nfstream", "check", "measure"],
        &["nfstream", "test", "NormalizationTest.txt"],
    ];
    for words in mistakes {
        assert!(rt; !words.is_empty());
        let mut input = b"a".as_slice();
        let shown = run(alloc, words, &mut input);
        assert_eq!(rt; shown.status, 2, "{words:?}");
        assert_eq!(rt; shown.out.len(), 0, "{words:?}");
        assert!(rt; shown.err.starts_with(b"error: "), "{words:?}");
        assert_eq!(rt; input.len(), 1, "{words:?}");
    }
}

#[test]
fn assigned_wants_a_form_to_check(rt: HostRuntime) {
    let words = ["nfstream", "check", "--assigned"];
    let shown = run(rt.alloc(), words.as_slice(), &mut b"a".as_slice());
    let line =
        "error: the following required arguments were not provided:\n  --form <FORM>\n\nUsage: nfstream check ";
    assert!(rt; shown.err.starts_with(line.as_bytes()), "{shown:?}");
}

#[test]
fn a_form_may_follow_an_equals_sign(rt: HostRuntime) {
    let words = ["nfstream", "convert", "--form=nfkd"];
    let input = "\u{FB01}\u{C5}";
    let shown = run(rt.alloc(), words.as_slice(), &mut input.as_bytes());
    assert_shown(&rt, &shown, 0, b"fiA\xCC\x8A", "");
}

#[test]
fn flags_stand_in_any_order(rt: HostRuntime) {
    let alloc = rt.alloc();
    let (form, replace, assigned) = ("--form=nfd", "--replace", "--assigned");
    for (first, second, third) in [
        (form, replace, assigned),
        (form, assigned, replace),
        (replace, form, assigned),
        (replace, assigned, form),
        (assigned, form, replace),
        (assigned, replace, form),
    ] {
        let words = ["nfstream", "convert", first, second, third];
        let shown = run(alloc, words.as_slice(), &mut "\u{C5}".as_bytes());
        assert_shown(&rt, &shown, 0, b"A\xCC\x8A", "");
    }
    for flag in [replace, assigned] {
        let words = ["nfstream", "convert", flag, "--form", "nfd"];
        let shown = run(alloc, words.as_slice(), &mut "\u{C5}".as_bytes());
        assert_shown(&rt, &shown, 0, b"A\xCC\x8A", "");
        let words = ["nfstream", "convert", "--form", "nfd", flag];
        let shown = run(alloc, words.as_slice(), &mut "\u{C5}".as_bytes());
        assert_shown(&rt, &shown, 0, b"A\xCC\x8A", "");
    }
}

#[test]
fn help_goes_to_the_output(rt: HostRuntime) {
    let alloc = rt.alloc();
    let asked: [(&[&str], &str); 19] = [
        (&["nfstream", "--help"], "convert"),
        (&["nfstream", "-h"], "convert"),
        (&["nfstream", "help"], "convert"),
        (&["nfstream", "help"], "measure"),
        (&["nfstream", "help", "convert"], "--form <FORM>"),
        (&["nfstream", "check", "--help"], "Stream-Safe Text Format"),
        (&["nfstream", "check", "--help"], "--form <FORM>"),
        (&["nfstream", "check", "--help"], "needs --form\n"),
        (
            &["nfstream", "help", "check"],
            "nfstream check --form nfc < FILE",
        ),
        (&["nfstream", "test", "--help"], "NormalizationTest.txt"),
        (&["nfstream", "--help"], "nfstream check < FILE"),
        (&["nfstream", "convert", "--help"], "from standard input"),
        (&["nfstream", "check", "--help"], "from standard input"),
        (&["nfstream", "measure", "--help"], "from standard input"),
        (&["nfstream", "test", "--help"], "from standard input"),
        (
            &["nfstream", "convert", "--help"],
            "[possible values: nfc, nfd, nfkc, nfkd]",
        ),
        (
            &["nfstream", "convert", "--help"],
            "--replace        Reads each ill-formed sequence as U+FFFD instead of refusing it\n",
        ),
        (
            &["nfstream", "convert", "--help"],
            "--assigned       Refuses characters that Unicode has not assigned\n",
        ),
        (
            &["nfstream", "convert", "--help"],
            "--line-buffered  Writes each line whole as soon as its line feed is read\n",
        ),
    ];
    for (words, part) in asked {
        let shown = run(alloc, words, &mut b"a".as_slice());
        assert_eq!(rt; shown.status, 0, "{words:?}");
        assert_eq!(rt; shown.err.len(), 0, "{words:?}");
        let text = std::str::from_utf8(shown.out.as_slice()).expect(&rt, "text");
        assert!(rt; text.contains(part), "{text}");
        assert!(rt; text.contains("Usage: nfstream"), "{text}");
        assert!(rt; text.contains("\n\nStatus:\n  0  "), "{text}");
    }
}
