use nf_row::Change::Compat;
use nf_row::{JOINER, Patched, Rows, Rule, Ucd, Unsound};
use nf_safe::{Checker, Place};
use std::process::Abort;

const MARK: char = '\u{301}';

const NINETEEN: [char; 19] = ['a'; 19];

const EIGHTEEN: [char; 18] = ['a'; 18];

/// A character, how many times it comes, the last answer, and the offset after it.
type Steps = (char, u32, Result<Option<Place>, Unsound>, u64);

/// Sees the characters of a text that begins at `base`. A place that is answered is kept; a refusal leaves none.
fn check<T: Abort, R: Rows>(rt: &T, rows: &R, base: u64, steps: &[Steps]) {
    let mut checker = Checker::new(base);
    for (c, times, answer, offset) in steps {
        let mut last = Ok(None);
        for _ in 0..*times {
            assert!(rt; checker.offset() <= u64::MAX - c.len_utf8() as u64);
            last = checker.see(rows, *c);
        }
        assert_eq!(rt;
            (last, checker.place(), checker.offset()),
            (*answer, answer.unwrap_or(None), *offset),
            "{c:?}"
        );
    }
}

const fn place(chars: u64, bytes: u64) -> Result<Option<Place>, Unsound> {
    Ok(Some(Place { chars, bytes }))
}

#[test]
fn the_place_of_a_mark_too_many_stays(rt: HostRuntime) {
    check(
        &rt,
        &Ucd,
        100,
        &[
            ('q', 1, Ok(None), 101),
            (MARK, 30, Ok(None), 161),
            (MARK, 1, place(31, 161), 161),
            (MARK, 40, place(31, 161), 161),
            ('q', 40, place(31, 161), 161),
            (JOINER, 40, place(31, 161), 161),
        ],
    );
    // The mark of a letter counts.
    check(
        &rt,
        &Ucd,
        0,
        &[('\u{C5}', 1, Ok(None), 2), (MARK, 30, place(30, 60), 60)],
    );
}

#[test]
fn an_unsound_character_is_refused_and_skipped(rt: HostRuntime) {
    let refusal = Err(Unsound {
        c: 'x',
        rule: Rule::A1,
    });
    let changes = [Compat('x', &NINETEEN), Compat('y', &EIGHTEEN)];
    let cases: [&[Steps]; 3] = [
        &[
            ('a', 1, Ok(None), 1),
            ('x', 1, refusal, 1),
            ('a', 1, Ok(None), 2),
        ],
        // After a place nothing is refused.
        &[
            ('q', 1, Ok(None), 1),
            (MARK, 31, place(31, 61), 61),
            ('x', 1, place(31, 61), 61),
        ],
        &[('y', 1, Ok(None), 1)],
    ];
    for steps in cases {
        check(&rt, &Patched::new(&changes), 0, steps);
    }
}

/// Of so many letters bytes tell that they are in the format.
const LETTERS: &str = "bbbbbbbbbbbbbbbbbbbbbbbbbbbbbbbbbbbbbbbbbbbbbbbb";

const MARKED: &str = "\u{301}\u{301}bbbbbbbbbbbbbbbbbbbbbbbbbbbbbbbbbbbbbbbbbbb\u{301}";

/// The front ends before the character at which the text leaves the format.
#[test]
fn a_front_is_checked_by_look_ups(rt: HostRuntime) {
    // Marks that are seen one by one, a text after them, what is left of it, and the answer to one more mark after that.
    let cases: [(u32, &str, &str, Result<Option<Place>, Unsound>); 10] = [
        (0, "", "", Ok(None)),
        (30, LETTERS, "", Ok(None)),
        (28, MARKED, "", Ok(None)),
        (29, MARKED, &MARKED[2..], place(30, 160)),
        (30, "ab\u{4E2D}\u{301}", "", Ok(None)),
        (29, "\u{301}", "", place(30, 160)),
        (29, "\u{301}\u{301}a", "\u{301}a", place(30, 160)),
        (3, "\u{301}\u{40000}", "", Ok(None)),
        (30, "\u{378}\u{3310}", "", Ok(None)),
        (30, "\u{FF9E}", "\u{FF9E}", place(30, 160)),
    ];
    for (marks, text, left, answer) in cases {
        let mut checker = Checker::new(100);
        for _ in 0..marks {
            assert!(rt; checker.offset() <= u64::MAX - MARK.len_utf8() as u64);
            assert_eq!(rt; checker.see(&Ucd, MARK), Ok(None));
        }
        assert!(rt; checker.place().is_none() && checker.offset() <= u64::MAX - text.len() as u64);
        assert_eq!(rt; checker.see_counted(&Ucd, text), left, "{marks} {text}");
        assert!(rt; checker.offset() <= u64::MAX - MARK.len_utf8() as u64);
        assert_eq!(rt; checker.see(&Ucd, MARK), answer, "{marks} {text}");
    }
}

/// Bytes tell of Unicode's data alone: of data under changes no front is known, even of a character that is as it was.
#[test]
fn nothing_is_counted_of_changed_data(rt: HostRuntime) {
    let changes = [Compat('a', &['b'])];
    let rows = Patched::new(&changes);
    assert_eq!(rt; Checker::new(0).see_counted(&Ucd, "b"), "");
    assert_eq!(rt; Checker::new(0).see_counted(&rows, "b"), "b");
}
