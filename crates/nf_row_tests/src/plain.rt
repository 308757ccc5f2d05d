use nf_row::Change::{Assigned, Canonical, Class, Compat, Pair};
use nf_row::{Change, Patched, Plain, Rows, Ucd};
use std::test::Fail;

/// Whether the data is seen to be plain, with one change made to it.
fn is_plain(change: Change<'_>) -> bool {
    Plain::of(&Patched::new(&[change])).is_some()
}

#[test]
fn the_data_of_unicode_is_plain(rt: HostRuntime) {
    assert!(rt; Plain::of(&Ucd).is_some());
    assert!(rt; Plain::of(&Patched::new(&[])).is_some());
    assert!(rt; is_plain(Pair('q', '\u{301}', Some('\u{323}'))));
}

/// U+0080 is the first character after ASCII.
#[test]
fn one_change_in_ascii_is_seen(rt: HostRuntime) {
    for (c, plain) in [
        ('\0', false),
        ('a', false),
        ('\u{7F}', false),
        ('\u{80}', true),
    ] {
        for change in [
            Pair(c, 'b', Some('c')),
            Pair('b', c, Some('c')),
            Pair(c, c, Some('c')),
            Class(c, 1),
            Assigned(c, false),
            Compat(c, &['b']),
            Canonical(c, &[]),
            Canonical(c, &['b']),
        ] {
            assert_eq!(rt; is_plain(change), plain, "{change:?}");
        }
    }
}

#[test]
fn its_rows_are_those_that_were_looked_at(rt: HostRuntime) -> Result<(), Fail> {
    let changes = [Class('\u{80}', 7)];
    let rows = Patched::new(&changes);
    let plain = Plain::of(&rows).ok_or("not plain")?;
    assert_eq!(rt;
        (plain.rows().class('\u{80}'), plain.rows().class('\u{301}')),
        (7, 230)
    );
    Ok(())
}
