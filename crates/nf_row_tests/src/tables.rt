use nf_row::{
    Change, NonStarters, Patched, Rows, Ucd, all_sound, class_may_compose, composite, known_entry,
    own_class,
};
use std::iter;
use std::process::Abort;
use std::test::Fail;
use unicode_normalization::{QuickCheck, is_nfc_quick};

/// Classes by UnicodeData.txt.
#[test]
fn combining_classes(rt: HostRuntime) {
    for (c, class) in [
        ('\u{300}', 230),
        ('\u{301}', 230),
        ('\u{302}', 230),
        ('\u{307}', 230),
        ('\u{308}', 230),
        ('\u{30A}', 230),
        ('\u{323}', 220),
        ('\u{3099}', 8),
        ('\u{93C}', 7),
        ('\u{34F}', 0),
        ('\u{FF9E}', 0),
        ('\u{FDFA}', 0),
        ('\u{1100}', 0),
        ('\u{1161}', 0),
        ('\u{11A7}', 0),
        ('\u{11AB}', 0),
    ] {
        assert_eq!(rt; Ucd.class(c), class, "{c:?}");
    }
}

/// The longest row, by UnicodeData.txt, and each of the 11,172 syllables, by the arithmetic of The Unicode Standard,
/// section 3.12.
#[test]
fn rows(rt: HostRuntime) -> Result<(), Fail> {
    let longest = [
        '\u{635}', '\u{644}', '\u{649}', ' ', '\u{627}', '\u{644}', '\u{644}', '\u{647}', ' ',
        '\u{639}', '\u{644}', '\u{64A}', '\u{647}', ' ', '\u{648}', '\u{633}', '\u{644}',
        '\u{645}',
    ];
    let row = Ucd.compat('\u{FDFA}').ok().ok_or("too long")?;
    assert_eq!(rt; row.as_slice(), longest.as_slice());
    for index in 0..11_172u32 {
        let (l, v, t) = (
            0x1100 + index / 588,
            0x1161 + index % 588 / 28,
            0x11A7 + index % 28,
        );
        let syllable = char::from_u32(0xAC00 + index).ok_or("a surrogate")?;
        let row = Ucd.canonical(syllable).ok().ok_or("too long")?;
        let same = Ucd.compat(syllable).ok().ok_or("too long")?;
        let expected = [l, v, t];
        let members = if t == 0x11A7 { 2 } else { 3 };
        assert_eq!(rt; row.as_slice(), same.as_slice());
        assert!(rt;
            row.iter()
                .map(|c| *c as u32)
                .eq(expected.iter().copied().take(members)),
            "at {index}"
        );
    }
    Ok(())
}

/// The composites of two starters or a starter and a mark, which of Unicode's are the pairs of the table.
#[test]
fn pairs(rt: HostRuntime) {
    for (a, b, expected) in [
        ('A', '\u{30A}', Some('\u{C5}')),
        ('\u{1100}', '\u{1161}', Some('\u{AC00}')),
        ('\u{AC00}', '\u{11A8}', Some('\u{AC01}')),
        ('\u{AC00}', '\u{11A7}', None),
        ('\u{AC01}', '\u{11A8}', None),
        ('q', '\u{301}', None),
        // A singleton and an exclusion are no composites.
        ('A', 'A', None),
        ('\u{915}', '\u{93C}', None),
    ] {
        assert_eq!(rt;
            (Ucd.pair(a, b), composite(&Ucd, a, b)),
            (expected, expected),
            "{a:?}, {b:?}"
        );
    }
}

/// The 66 noncharacters are not assigned, the 137,468 private use characters are.
#[test]
fn noncharacters_and_private_use(rt: HostRuntime) {
    let (mut noncharacters, mut private) = (0u32, 0u32);
    for code in 0..0x11_0000u32 {
        let Some(c) = char::from_u32(code) else {
            continue;
        };
        if code & 0xFFFE == 0xFFFE || (0xFDD0..=0xFDEF).contains(&code) {
            noncharacters = noncharacters.saturating_add(1);
            assert!(rt; !Ucd.assigned(c), "{code:x}");
        } else if (0xE000..=0xF8FF).contains(&code) || code >= 0xF_0000 {
            private = private.saturating_add(1);
            assert!(rt; Ucd.assigned(c), "{code:x}");
        }
    }
    assert_eq!(rt; (noncharacters, private), (66, 137_468));
}

/// A class is of no character that may compose where each of its characters has the answer Yes of NFC in
/// DerivedNormalizationProps.txt.
#[test]
fn classes_that_compose(rt: HostRuntime) {
    let mut composing = [false; 256];
    for code in 0..0x11_0000u32 {
        let Some(c) = char::from_u32(code) else {
            continue;
        };
        if is_nfc_quick(iter::once(c)) != QuickCheck::Yes {
            composing[usize::from(Ucd.class(c))] = true;
        }
    }
    for class in 0..=255u8 {
        assert_eq!(rt;
            class_may_compose(&Ucd, class),
            composing[usize::from(class)],
            "{class}"
        );
    }
}

/// Of data under changes nothing is known, and soundness is looked for in the rows.
#[test]
fn nothing_is_known_of_changed_data(rt: HostRuntime) {
    let changes = [Change::Class('a', 1)];
    let rows = Patched::new(&changes);
    assert!(rt; known_entry(&rows, 'b').is_none() && known_entry(&Ucd, 'b').is_some());
    assert!(rt; class_may_compose(&rows, 2) && !class_may_compose(&Ucd, 2));
    assert!(rt; !all_sound(&rows) && all_sound(&Ucd));
}

/// Classes and decompositions by UnicodeData.txt.
#[test]
fn own_classes(rt: HostRuntime) {
    for (c, class) in [
        ('a', Some(0)),
        ('\u{34F}', Some(0)),
        ('\u{1161}', Some(0)),
        ('\u{3042}', Some(0)),
        ('\u{301}', Some(230)),
        ('\u{334}', Some(1)),
        ('\u{3099}', Some(8)),
        // A canonical decomposition, of a starter and of a mark; a compatibility one, of a starter and of marks alone.
        ('\u{E9}', None),
        ('\u{340}', None),
        ('\u{FB01}', None),
        ('\u{FF9E}', None),
        // Starters that decompose to marks; by arithmetic.
        ('\u{F73}', None),
        ('\u{AC00}', None),
    ] {
        assert_eq!(rt; own_class(known_entry(&Ucd, c)), class, "{c:?}");
    }
    assert_eq!(rt; own_class(None), None);
}

#[test]
fn ends_of_one_member(rt: HostRuntime) {
    for (starts, marks) in [(true, 0), (false, 1)] {
        let ends = NonStarters::of_one(starts);
        assert_eq!(rt;
            (ends.has_starter, ends.lead, ends.trail),
            (starts, marks, marks)
        );
    }
}
