use nf_row::Change::Compat;
use nf_row::{NonStarters, Patched, Rows, Ucd};
use nf_safe::Counter;
use std::process::Abort;
use std::test::Fail;

const MARK: char = '\u{301}';

/// A character, how many times it comes, what each of these steps answers, and the count after them.
type Steps = (char, u32, bool, u8);

/// Counts the characters by their rows, and by the ends of their rows.
fn check<T: Abort, R: Rows>(rt: &T, rows: &R, steps: &[Steps]) -> Result<(), Fail> {
    let (mut by_row, mut by_ends) = (Counter::new(), Counter::default());
    for (c, times, answer, count) in steps {
        let k = rows.compat(*c).ok().ok_or("too long")?;
        for _ in 0..*times {
            let answers = (
                by_row.step(rows, &k),
                by_ends.step_by(NonStarters::of_members(rows, k.as_slice())),
            );
            assert_eq!(rt; answers, (*answer, *answer), "{c:?}");
        }
        assert_eq!(rt;
            (by_row.count(), by_ends.count()),
            (*count, *count),
            "{c:?}"
        );
    }
    Ok(())
}

#[test]
fn a_character_counts_with_all_that_it_brings(rt: HostRuntime) -> Result<(), Fail> {
    let cases: [&[Steps]; 4] = [
        // U+0344 brings two marks.
        &[
            ('q', 1, false, 0),
            (MARK, 29, false, 29),
            ('\u{344}', 1, true, 2),
        ],
        // A mark that only NFKD shows.
        &[('\u{FF9E}', 30, false, 30), ('\u{FF9E}', 1, true, 1)],
        // A letter leaves the marks that it ends in.
        &[('\u{C5}', 1, false, 1)],
        // A starter needs no joiner.
        &[(MARK, 30, false, 30), ('q', 1, false, 0)],
    ];
    for steps in cases {
        check(&rt, &Ucd, steps)?;
    }
    Ok(())
}

#[test]
fn a_row_counts_by_its_ends(rt: HostRuntime) -> Result<(), Fail> {
    let changes = [
        Compat('v', &[MARK; 12]),
        Compat('x', &[MARK, MARK, 'y', MARK]),
        Compat('z', &[MARK; 18]),
    ];
    let steps = [
        ('q', 1, false, 0),
        ('z', 1, false, 18),
        ('z', 1, true, 18),
        ('v', 1, false, 30),
        ('x', 1, true, 1),
        ('x', 1, false, 1),
        ('\u{C5}', 1, false, 1),
        (MARK, 1, false, 2),
    ];
    check(&rt, &Patched::new(&changes), &steps)
}
