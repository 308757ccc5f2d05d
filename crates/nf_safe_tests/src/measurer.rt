use nf_row::Change::{Class, Compat};
use nf_row::{JOINER, Patched, Rows, Rule, Ucd, Unsound};
use nf_safe::{Measure, Measurer};
use std::process::Abort;

const MARK: char = '\u{301}';

const NINETEEN: [char; 19] = ['a'; 19];

/// Characters and how often they stand; what is measured of them, in the order of `measure`; and the character at which
/// that ends because it is refused.
type Case<'a> = (&'a [(char, u32)], [u64; 6], Option<char>);

/// Bytes, characters, non-starters, longest run, joiners put, unassigned.
fn measure(values: [u64; 6]) -> Measure {
    Measure {
        bytes: values[0],
        chars: values[1],
        nonstarters: u128::from(values[2]),
        longest: u128::from(values[3]),
        put: values[4],
        unassigned: values[5],
    }
}

/// Measures a text up to the first character that is refused.
fn measured<T: Abort, R: Rows>(
    rt: &T,
    rows: &R,
    text: &[(char, u32)],
) -> (Measure, Option<Unsound>) {
    let mut measurer = Measurer::default();
    for (c, times) in text {
        for _ in 0..*times {
            assert!(rt; measurer.values().bytes <= u64::MAX - c.len_utf8() as u64);
            if let Err(refusal) = measurer.see(rows, *c) {
                return (measurer.values(), Some(refusal));
            }
        }
    }
    (measurer.values(), None)
}

fn check<T: Abort, R: Rows>(rt: &T, rows: &R, cases: &[Case]) {
    for (text, values, refused) in cases {
        let refusal = refused.map(|c| Unsound { c, rule: Rule::A1 });
        assert_eq!(rt;
            measured(rt, rows, text),
            (measure(*values), refusal),
            "{text:?}"
        );
    }
}

#[test]
fn texts_are_measured(rt: HostRuntime) {
    check(
        &rt,
        &Ucd,
        &[
            (&[], [0, 0, 0, 0, 0, 0], None),
            (&[('q', 1), (MARK, 31)], [63, 32, 31, 31, 1, 0], None),
            // U+FFFF is a noncharacter, and U+E000 is for private use.
            (&[('\u{FFFF}', 1)], [3, 1, 0, 0, 0, 1], None),
            (&[('\u{E000}', 1)], [3, 1, 0, 0, 0, 0], None),
            (&[('\u{C5}', 1), (MARK, 1)], [4, 2, 2, 2, 0, 0], None),
            (
                &[('q', 1), (MARK, 30), (JOINER, 1), (MARK, 1)],
                [65, 33, 31, 30, 0, 0],
                None,
            ),
            (&[('q', 1), (MARK, 70)], [141, 71, 70, 70, 2, 0], None),
            // Marks of NFKD alone.
            (&[('\u{FF9E}', 31)], [93, 31, 31, 31, 1, 0], None),
        ],
    );
}

#[test]
fn nothing_is_measured_of_what_is_refused(rt: HostRuntime) {
    let changes = [Class(JOINER, 230), Compat('x', &NINETEEN)];
    check(
        &rt,
        &Patched::new(&changes),
        &[
            (&[('a', 1), ('x', 1)], [1, 1, 0, 0, 0, 0], Some('x')),
            // An unsound joiner is refused where it stands, and where it would be put.
            (&[(JOINER, 1)], [0, 0, 0, 0, 0, 0], Some(JOINER)),
            (&[('q', 1), (MARK, 30)], [61, 31, 30, 30, 0, 0], None),
            (
                &[('q', 1), (MARK, 31)],
                [61, 31, 30, 30, 0, 0],
                Some(JOINER),
            ),
        ],
    );
}

/// After marks a front goes on, up to the first character before which U+034F is put.
#[test]
fn a_front_is_measured_by_look_ups(rt: HostRuntime) {
    // Marks that are seen one by one, a text after them, what is left of it, and what is measured.
    let cases: [(u32, &str, &str, [u64; 6]); 11] = [
        (0, "", "", [0, 0, 0, 0, 0, 0]),
        (0, "\u{E9}\u{301}abcdef", "", [10, 8, 2, 2, 0, 0]),
        (0, "\u{AC01}\u{5D0}\u{5B8}", "", [7, 3, 1, 1, 0, 0]),
        (0, "\u{1D5}\u{3300}", "", [5, 2, 3, 2, 0, 0]),
        (0, "a\u{FF9E}\u{378}", "", [6, 3, 1, 1, 0, 1]),
        (30, "\u{3310}\u{20000}", "", [67, 32, 32, 30, 0, 0]),
        (28, "\u{301}\u{301}a\u{301}", "", [63, 32, 31, 30, 0, 0]),
        (29, "\u{301}\u{301}a", "\u{301}a", [60, 30, 30, 30, 0, 0]),
        (40, "\u{301}\u{301}a\u{301}", "", [87, 44, 43, 42, 1, 0]),
        (30, "\u{40000}a", "", [65, 32, 30, 30, 0, 1]),
        (2, "\u{FB01}\u{4E2D}q", "", [11, 5, 2, 2, 0, 0]),
    ];
    for (marks, text, left, values) in cases {
        let mut measurer = Measurer::new();
        for _ in 0..marks {
            assert!(rt; measurer.values().bytes <= u64::MAX - MARK.len_utf8() as u64);
            assert_eq!(rt; measurer.see(&Ucd, MARK), Ok(()));
        }
        assert!(rt; measurer.values().bytes <= u64::MAX - text.len() as u64);
        assert_eq!(rt; measurer.see_counted(&Ucd, text), left, "{marks} {text}");
        assert_eq!(rt; measurer.values(), measure(values), "{marks} {text}");
    }
}
