use nf_row::Change::{Assigned, Canonical, Class, Compat, Pair};
use nf_row::{Change, NonStarters, Patched, Rows, Ucd, composite, has_starter, lead, trail};
use std::process::Abort;
use std::test::Fail;

const MARK: char = '\u{301}';

const NINETEEN: [char; 19] = ['a'; 19];

/// What is said of `c`, and of it with a mark after: its class, the first member of either row (none of a row that is
/// too long), what the table of composites has, and whether it is assigned.
type Answers = (u8, Option<char>, Option<char>, Option<char>, bool);

/// Asks every question through the bound.
fn answers<R: Rows>(rows: &R, c: char) -> Answers {
    let canonical = rows.canonical(c).ok().and_then(|row| row.first().copied());
    let compat = rows.compat(c).ok().and_then(|row| row.first().copied());
    (
        rows.class(c),
        canonical,
        compat,
        rows.pair(c, MARK),
        rows.assigned(c),
    )
}

fn check<'a, T: Abort>(rt: &T, changes: &'a [Change<'a>], cases: &[(char, Answers)]) {
    for (c, expected) in cases {
        assert_eq!(rt; answers(&Patched::new(changes), *c), *expected, "{c:?}");
    }
}

#[test]
fn the_first_change_that_names_its_argument_answers(rt: HostRuntime) {
    let plain = (0, Some('q'), Some('q'), None, true);
    assert_eq!(rt; answers(&Ucd, 'q'), plain);
    check(&rt, &[], &[('q', plain)]);

    let named = [
        Class('p', 9),
        Class('q', 7),
        Class('q', 8),
        Canonical('q', &['r']),
        Compat('q', &['s']),
        Pair(MARK, 'q', Some('t')),
        Pair('q', 'r', Some('v')),
        Pair('q', MARK, Some('u')),
        Assigned('q', false),
        Assigned('q', true),
    ];
    let changed = (7, Some('r'), Some('s'), Some('u'), false);
    let acute = (0, Some('e'), Some('e'), Some('\u{E9}'), true);
    check(&rt, &named, &[('q', changed), ('e', acute)]);

    // A change can also take a composite away, and a row of nineteen is too long.
    let others = [
        Pair('e', MARK, None),
        Compat('q', &NINETEEN),
        Canonical('r', &NINETEEN),
    ];
    check(
        &rt,
        &others,
        &[
            ('e', (0, Some('e'), Some('e'), None, true)),
            ('q', (0, Some('q'), None, None, true)),
            ('r', (0, None, Some('r'), Some('\u{155}'), true)),
        ],
    );
}

#[test]
fn runs_of_a_row(rt: HostRuntime) -> Result<(), Fail> {
    let cases: [(&[char], usize, usize, bool); 2] = [
        (&[MARK, MARK, 'y', 'z', MARK], 2, 1, true),
        (&[MARK, MARK], 2, 2, false),
    ];
    for (members, begins, ends, starts) in cases {
        let changes = [Compat('x', members)];
        let rows = Patched::new(&changes);
        let row = rows.compat('x').ok().ok_or("too long")?;
        let both = NonStarters::of_members(&rows, row.as_slice());
        assert_eq!(rt;
            (
                lead(&rows, &row),
                trail(&rows, &row),
                has_starter(&rows, &row)
            ),
            (begins, ends, starts)
        );
        assert_eq!(rt;
            (both.lead, both.trail, both.has_starter),
            (begins, ends, starts)
        );
    }
    Ok(())
}

#[test]
fn a_composite_is_a_starter(rt: HostRuntime) {
    let changes = [Pair('q', MARK, Some('\u{323}')), Pair('a', 'b', Some('c'))];
    let rows = Patched::new(&changes);
    for (a, b, expected) in [
        ('q', MARK, None),
        ('a', 'b', Some('c')),
        ('A', '\u{30A}', Some('\u{C5}')),
    ] {
        assert_eq!(rt; composite(&rows, a, b), expected);
    }
}
