//! What `convert` makes of bytes.
use super::{FORMS, Parts, assert_shown, converted, repeated, texts};
use std::alloc::{AllocError, Global};
use std::process::Abort;
use std::test::Fail;
use unicode_normalization::{to_nfc, to_nfd, to_nfkc, to_nfkd};

/// An input, and its NFC, NFD, NFKC and NFKD.
type Forms<'a> = (Parts<'a>, Parts<'a>, Parts<'a>, Parts<'a>, Parts<'a>);

fn assert_forms(rt: &impl Abort, alloc: Global, cases: &[Forms<'_>]) -> Result<(), AllocError> {
    for (texts, nfc, nfd, nfkc, nfkd) in cases {
        let input = repeated(alloc, *texts)?;
        for (form, made) in [
            ("nfc", *nfc),
            ("nfd", *nfd),
            ("nfkc", *nfkc),
            ("nfkd", *nfkd),
        ] {
            let made = repeated(alloc, made)?;
            let shown = converted(alloc, form, input.as_slice());
            assert_shown(rt, &shown, 0, made.as_slice(), "");
        }
    }
    Ok(())
}

#[test]
fn each_text_has_its_four_forms(rt: HostRuntime) -> Result<(), Fail> {
    let ring: Parts<'_> = &[("\u{C5}", 1)];
    let apart: Parts<'_> = &[("A\u{30A}", 1)];
    let cases: [Forms<'_>; 7] = [
        (&[], &[], &[], &[], &[]),
        (ring, ring, apart, ring, apart),
        (apart, ring, apart, ring, apart),
        (&[("\u{212B}", 1)], ring, apart, ring, apart),
        // A long s: the compatibility forms make an s of it.
        (
            &[("\u{1E9B}\u{323}", 1)],
            &[("\u{1E9B}\u{323}", 1)],
            &[("\u{17F}\u{323}\u{307}", 1)],
            &[("\u{1E69}", 1)],
            &[("s\u{323}\u{307}", 1)],
        ),
        // The ring of the letter counts. Composed, it takes in the first acute.
        (
            &[("\u{C5}", 1), ("\u{301}", 30)],
            &[("\u{1FA}", 1), ("\u{301}", 28), ("\u{34F}\u{301}", 1)],
            &[("A\u{30A}", 1), ("\u{301}", 29), ("\u{34F}\u{301}", 1)],
            &[("\u{1FA}", 1), ("\u{301}", 28), ("\u{34F}\u{301}", 1)],
            &[("A\u{30A}", 1), ("\u{301}", 29), ("\u{34F}\u{301}", 1)],
        ),
        // Halfwidth marks count, though they are no marks by themselves.
        (
            &[("\u{FF9E}", 31)],
            &[("\u{FF9E}", 30), ("\u{34F}\u{FF9E}", 1)],
            &[("\u{FF9E}", 30), ("\u{34F}\u{FF9E}", 1)],
            &[("\u{3099}", 30), ("\u{34F}\u{3099}", 1)],
            &[("\u{3099}", 30), ("\u{34F}\u{3099}", 1)],
        ),
    ];
    assert_forms(&rt, rt.alloc(), &cases)?;
    Ok(())
}

#[test]
fn a_mark_too_many_gets_a_joiner(rt: HostRuntime) -> Result<(), Fail> {
    let alloc = rt.alloc();
    let cases: [(Parts<'_>, Parts<'_>); 4] = [
        // U+0344 is two marks.
        (
            &[("q", 1), ("\u{301}", 28), ("\u{344}", 1)],
            &[("q", 1), ("\u{301}", 28), ("\u{308}\u{301}", 1)],
        ),
        (
            &[("q", 1), ("\u{301}", 29), ("\u{344}", 1)],
            &[("q", 1), ("\u{301}", 29), ("\u{34F}\u{308}\u{301}", 1)],
        ),
        // The joiner is put before the form is made.
        (
            &[("q", 1), ("\u{301}", 30), ("\u{323}", 1)],
            &[("q", 1), ("\u{301}", 30), ("\u{34F}\u{323}", 1)],
        ),
        // A joiner of the input stays.
        (
            &[("q", 1), ("\u{301}", 30), ("\u{34F}\u{301}", 1)],
            &[("q", 1), ("\u{301}", 30), ("\u{34F}\u{301}", 1)],
        ),
    ];
    for (texts, made) in cases {
        assert_forms(&rt, alloc, &[(texts, made, made, made, made)])?;
    }
    Ok(())
}

/// The form of the whole text as the kit has it.
fn whole_form(alloc: Global, form: &str, text: &str) -> Result<String, AllocError> {
    match form {
        "nfc" => to_nfc(alloc, text),
        "nfd" => to_nfd(alloc, text),
        "nfkc" => to_nfkc(alloc, text),
        _ => to_nfkd(alloc, text),
    }
}

/// The input is a text, or one that is canonically equivalent to it.
fn assert_form(
    rt: &impl Abort,
    alloc: Global,
    form: &str,
    input: &str,
    text: &str,
) -> Result<(), AllocError> {
    let made = whole_form(alloc, form, text)?;
    let shown = converted(alloc, form, input.as_bytes());
    assert_shown(rt, &shown, 0, made.as_bytes(), "");
    Ok(())
}

#[test]
fn real_texts_have_their_forms(rt: HostRuntime) -> Result<(), Fail> {
    let alloc = rt.alloc();
    for text in [
        texts::FRENCH,
        texts::VIETNAMESE,
        texts::KOREAN,
        texts::ARABIC,
        texts::HINDI,
    ] {
        let apart = to_nfd(alloc, text)?;
        assert!(rt; apart.as_str() != text);
        for form in FORMS {
            assert_form(&rt, alloc, form, text, text)?;
            assert_form(&rt, alloc, form, apart.as_str(), text)?;
        }
    }
    Ok(())
}

#[test]
fn a_text_longer_than_the_buffer_goes_through(rt: HostRuntime) -> Result<(), Fail> {
    let alloc = rt.alloc();
    // The first ring stands across the end of the buffer.
    let text = repeated(
        alloc,
        &[("x", 65_535), ("\u{C5}", 2048), ("\u{AC00}", 25_000)],
    )?;
    let shown = converted(alloc, "nfc", text.as_slice());
    assert_shown(&rt, &shown, 0, text.as_slice(), "");
    Ok(())
}
