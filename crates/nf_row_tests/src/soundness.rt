use crate::parts::{Broken, broken_parts};
use nf_row::Change::{Canonical, Class, Compat};
use nf_row::{JOINER, NonStarters, Patched, RowRoom, Rows, Ucd, sound, sound_row};
use std::test::Fail;
use unicode_normalization::Form as TableForm;
use unicode_normalization::char::decomposition;

const MARK: char = '\u{301}';

const NINETEEN: [char; 19] = ['a'; 19];

const EIGHTEEN: [char; 18] = ['a'; 18];

/// Whether each way to ask it says that the character is sound; none where they differ.
fn says_sound<R: Rows>(rows: &R, c: char) -> Option<bool> {
    let says = sound(rows, c);
    let agree = sound_row(rows, c, &mut RowRoom::new()).is_some() == says;
    agree.then_some(says)
}

/// Rows of one character and a class of the joiner's, and the part of soundness that they break.
#[test]
fn each_part_of_soundness_is_needed(rt: HostRuntime) {
    let nothing = Broken::NOTHING;
    let length = Broken {
        length: true,
        ..nothing
    };
    let lead = Broken {
        lead: true,
        ..nothing
    };
    let trail = Broken {
        trail: true,
        ..nothing
    };
    let starter = Broken {
        starter: true,
        ..nothing
    };
    let joiner = Broken {
        joiner: true,
        ..nothing
    };
    let cases: [(char, &[char], &[char], u8, Broken); 8] = [
        ('x', &['x'], &EIGHTEEN, 0, nothing),
        ('x', &[], &[], 0, length),
        ('x', &['x'], &NINETEEN, 0, length),
        ('x', &[MARK, 'y'], &['x'], 0, lead),
        ('x', &['y', MARK], &['x'], 0, trail),
        ('x', &[MARK], &[MARK, 'y', MARK], 0, starter),
        (JOINER, &[JOINER], &[JOINER, JOINER], 0, joiner),
        (JOINER, &[JOINER], &[JOINER], 230, joiner),
    ];
    for (c, canonical, compat, class, broken) in cases {
        let changes = [
            Canonical(c, canonical),
            Compat(c, compat),
            Class(JOINER, class),
        ];
        let rows = Patched::new(&changes);
        assert_eq!(rt;
            (
                broken_parts(&rows, c, canonical, compat),
                says_sound(&rows, c)
            ),
            (broken, Some(broken == nothing)),
            "{c:?}: {canonical:?}, {compat:?}"
        );
    }
}

/// Every scalar value, by the parts over the tables' own slices. None of Unicode's characters is unsound.
#[test]
fn every_character_of_unicode_is_sound(rt: HostRuntime) {
    let mut asked = 0u32;
    for code in 0..0x11_0000u32 {
        let Some(c) = char::from_u32(code) else {
            continue;
        };
        let (mut first, mut second) = ([c; 3], [c; 3]);
        let canonical = decomposition(c, TableForm::Nfd, &mut first);
        let compat = decomposition(c, TableForm::Nfkd, &mut second);
        assert_eq!(rt;
            (broken_parts(&Ucd, c, canonical, compat), sound(&Ucd, c)),
            (Broken::NOTHING, true),
            "at {code:x}"
        );
        asked = asked.saturating_add(1);
    }
    assert_eq!(rt; asked, 1_112_064);
}

#[test]
fn a_sound_character_comes_with_its_row_and_ends(rt: HostRuntime) -> Result<(), Fail> {
    // U+0344 is two marks in each form; U+00A8 and U+FF9E are their own canonical rows.
    // In the row of U+3300 a mark stands between starters.
    let cases: [(char, &[char], (bool, usize, usize)); 5] = [
        ('a', &['a'], (true, 0, 0)),
        ('\u{344}', &['\u{308}', MARK], (false, 2, 2)),
        ('\u{A8}', &[' ', '\u{308}'], (true, 0, 1)),
        ('\u{FF9E}', &['\u{3099}'], (false, 1, 1)),
        (
            '\u{3300}',
            &['\u{30A2}', '\u{30CF}', '\u{309A}', '\u{30FC}', '\u{30C8}'],
            (true, 0, 0),
        ),
    ];
    for (c, row, ends) in cases {
        let mut room = RowRoom::new();
        let read = sound_row(&Ucd, c, &mut room).ok_or("unsound")?;
        assert_eq!(rt; (read.row, numbers(read.ends)), (row, ends));
        let mut room = RowRoom::new();
        let read = sound_row(&Patched::new(&[]), c, &mut room).ok_or("unsound")?;
        assert_eq!(rt; (read.row, numbers(read.ends)), (row, ends));
    }
    Ok(())
}

fn numbers(ends: NonStarters) -> (bool, usize, usize) {
    (ends.has_starter, ends.lead, ends.trail)
}
