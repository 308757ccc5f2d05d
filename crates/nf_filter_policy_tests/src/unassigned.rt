//! Characters that are not assigned: which fault, where, and what was written before it, by hand.
use crate::kit::{AS_IS, ASSIGNED, BOTH, filter_of, joined, same_in_pieces};
use nf_filter::Fault::Unassigned;
use nf_filter::{Fault, Policy, Tally};
use nf_filter_fixtures::Kept;
use nf_row::Change::{Assigned, Compat};
use nf_row::{Change, Patched, Ucd};
use std::alloc::{AllocError, Global};
use std::process::Abort;
use std::test::Fail;

const LONG: [char; 19] = ['a'; 19];

/// An unassigned letter that is unsound, too.
const LETTER: [Change<'static>; 2] = [Assigned('x', false), Compat('x', &LONG)];

/// The letter that is assigned and unsound.
const UNSOUND: [Change<'static>; 1] = [Compat('x', &LONG)];

const REPLACEMENT: [Change<'static>; 1] = [Assigned('\u{FFFD}', false)];

const JOINER: [Change<'static>; 1] = [Assigned('\u{34F}', false)];

const NONE: [Change<'static>; 0] = [];

/// Changes to the data, a policy, a text, the fault, and what was written before it.
const REFUSED: [(&[Change<'static>], Policy, &[u8], Fault, &[u8]); 24] = [
    // U+FFFF and U+1FFFE.
    (
        &NONE,
        ASSIGNED,
        b"\x61\xEF\xBF\xBF",
        Unassigned { at: 1 },
        b"",
    ),
    (
        &NONE,
        ASSIGNED,
        b"\xF0\x9F\xBF\xBE\x61",
        Unassigned { at: 0 },
        b"",
    ),
    (&NONE, BOTH, b"\x61\xEF\xBF\xBF", Unassigned { at: 1 }, b""),
    (
        &NONE,
        ASSIGNED,
        b"\x61\x62\xEF\xBF\xBF\xC0",
        Unassigned { at: 2 },
        b"\x61",
    ),
    (
        &NONE,
        BOTH,
        b"\x61\x62\xEF\xBF\xBF\xC0",
        Unassigned { at: 2 },
        b"\x61",
    ),
    // U+0378, after what settles and what does not.
    (
        &NONE,
        ASSIGNED,
        b"abc\xCD\xB8def",
        Unassigned { at: 3 },
        b"ab",
    ),
    (
        &NONE,
        ASSIGNED,
        b"e\xCC\x81\xCD\xB8",
        Unassigned { at: 3 },
        b"",
    ),
    (
        &NONE,
        ASSIGNED,
        b"e\xCC\x81a\xCD\xB8",
        Unassigned { at: 4 },
        b"\xC3\xA9",
    ),
    // The first of two, and one before and one after an ill-formed byte.
    (
        &NONE,
        ASSIGNED,
        b"\xCD\xB8\xCD\xB8",
        Unassigned { at: 0 },
        b"",
    ),
    (
        &NONE,
        ASSIGNED,
        b"\x61\xC0\xEF\xBF\xBF",
        Fault::BadByte { at: 1, start: 1 },
        b"",
    ),
    (
        &NONE,
        BOTH,
        b"\x61\xC0\xEF\xBF\xBF",
        Unassigned { at: 2 },
        b"\x61",
    ),
    (
        &NONE,
        ASSIGNED,
        b"ab\xEF\xBF",
        Fault::Cut { at: 4, start: 2 },
        b"a",
    ),
    (
        &NONE,
        ASSIGNED,
        b"ab\xEF\xBFc",
        Fault::BadByte { at: 4, start: 2 },
        b"a",
    ),
    (
        &NONE,
        BOTH,
        b"ab\xEF\xBFc\xCD\xB8",
        Unassigned { at: 5 },
        b"ab\xEF\xBF\xBD",
    ),
    // After many ill-formed parts, with no text between them and with some.
    (
        &NONE,
        BOTH,
        b"\x80\x80\xF0\x90\x80\xCD\xB8",
        Unassigned { at: 5 },
        b"\xEF\xBF\xBD\xEF\xBF\xBD",
    ),
    (
        &NONE,
        BOTH,
        b"\x80a\x80bc\xE0\xCD\xB8\x80",
        Unassigned { at: 6 },
        b"\xEF\xBF\xBDa\xEF\xBF\xBDbc",
    ),
    // It comes before an unsound row of the same character, and after one of an earlier character.
    (&LETTER, ASSIGNED, b"\x61\x78", Unassigned { at: 1 }, b""),
    (&LETTER, AS_IS, b"\x61\x78", Fault::Row { at: 1 }, b""),
    (
        &UNSOUND,
        ASSIGNED,
        b"\x61\x78\xCD\xB8",
        Fault::Row { at: 1 },
        b"",
    ),
    (
        &UNSOUND,
        ASSIGNED,
        b"\x61\xCD\xB8\x78",
        Unassigned { at: 1 },
        b"",
    ),
    // U+FFFD is looked at where it is put, and where it stands in the text.
    (
        &REPLACEMENT,
        BOTH,
        b"\x61\xC3\x28",
        Unassigned { at: 1 },
        b"",
    ),
    (
        &REPLACEMENT,
        BOTH,
        b"\x61\x62\xC3",
        Unassigned { at: 2 },
        b"\x61",
    ),
    (&REPLACEMENT, BOTH, b"\x80\x80", Unassigned { at: 0 }, b""),
    (
        &REPLACEMENT,
        ASSIGNED,
        b"\x61\x62\xEF\xBF\xBD",
        Unassigned { at: 2 },
        b"\x61",
    ),
];

#[test]
fn the_first_character_that_is_not_taken_is_told(rt: HostRuntime) -> Result<(), Fail> {
    for (changes, policy, bytes, fault, written) in REFUSED {
        let rows = Patched::new(changes);
        let course = same_in_pieces(&rt, rt.alloc(), &rows, policy, bytes)?;
        assert_eq!(rt; course.answer, Err(fault), "{bytes:?}");
        assert_eq!(rt; course.written.as_slice(), written, "{bytes:?}");
        if changes.is_empty() {
            let by_ucd = same_in_pieces(&rt, rt.alloc(), &Ucd, policy, bytes)?;
            assert!(rt; by_ucd == course, "{bytes:?}: {by_ucd:?}");
        }
    }
    Ok(())
}

/// The filter is stopped for good by the feed that meets the character, or by the end where that puts U+FFFD.
#[test]
fn the_feed_that_meets_it_tells(rt: HostRuntime) {
    for is_fast in [false, true] {
        let mut sink = Kept::new(rt.alloc());
        let mut filter = filter_of(&rt, &Ucd, ASSIGNED, is_fast);
        assert_eq!(rt; filter.feed(b"\x61\x62\xEF\xBF", &mut sink), Ok(()));
        assert_eq!(rt;
            filter.feed(b"\xBF\xC0", &mut sink),
            Err(Unassigned { at: 2 })
        );
        assert!(rt; filter.spent());
        assert_eq!(rt; filter.feed(b"\x61", &mut sink), Err(Fault::Spent));
        assert_eq!(rt; filter.finish(&mut sink), Err(Fault::Spent));
        assert_eq!(rt; sink.bytes.as_slice(), b"\x61".as_slice());

        let rows = Patched::new(&REPLACEMENT);
        let mut sink = Kept::new(rt.alloc());
        let mut filter = filter_of(&rt, &rows, BOTH, is_fast);
        assert_eq!(rt; filter.feed(b"\x61\x62\xC3", &mut sink), Ok(()));
        assert_eq!(rt; filter.finish(&mut sink), Err(Unassigned { at: 2 }));
        assert_eq!(rt; sink.bytes.as_slice(), b"\x61".as_slice());
    }
}

/// The bytes are taken under the policy, and give these.
fn check_taken(
    rt: &impl Abort,
    alloc: Global,
    changes: &[Change<'_>],
    policy: Policy,
    bytes: &[u8],
    written: &[u8],
    tally: Tally,
) -> Result<(), AllocError> {
    let rows = Patched::new(changes);
    let course = same_in_pieces(rt, alloc, &rows, policy, bytes)?;
    assert_eq!(rt; course.answer, Ok(tally), "{bytes:?}");
    assert_eq!(rt; course.written.as_slice(), written);
    Ok(())
}

#[test]
fn characters_for_private_use_are_taken(rt: HostRuntime) -> Result<(), Fail> {
    // U+E000, U+F8FF, U+F0000 and U+10FFFD; also a control and an ignorable character.
    let text = "a\u{E000}\u{F8FF}\u{F0000}\u{10FFFD}\u{85}\u{E0001}";
    let tally = Tally {
        bytes: 21,
        chars: 7,
        put: 0,
    };
    for policy in [ASSIGNED, BOTH] {
        let alloc = rt.alloc();
        let bytes = text.as_bytes();
        check_taken(&rt, alloc, &NONE, policy, bytes, bytes, tally)?;
        let short = Tally {
            bytes: 4,
            chars: 2,
            put: 0,
        };
        let bytes = b"\x61\xEE\x80\x80";
        check_taken(&rt, alloc, &NONE, policy, bytes, bytes, short)?;
    }
    Ok(())
}

/// The U+034F that is put between long runs is not asked for; one that stands in the text is.
#[test]
fn a_joiner_that_is_put_need_not_be_assigned(rt: HostRuntime) -> Result<(), Fail> {
    let alloc = rt.alloc();
    let (mark, joiner): (&[u8], &[u8]) = (b"\xCC\x81", b"\xCD\x8F");
    let long = joined(alloc, &[(b"q", 1), (mark, 31)])?;
    let due = joined(alloc, &[(b"q", 1), (mark, 30), (joiner, 1), (mark, 1)])?;
    let tally = Tally {
        bytes: 63,
        chars: 32,
        put: 1,
    };
    for policy in [ASSIGNED, BOTH] {
        check_taken(
            &rt,
            alloc,
            &JOINER,
            policy,
            long.as_slice(),
            due.as_slice(),
            tally,
        )?;
        let rows = Patched::new(&JOINER);
        let course = same_in_pieces(&rt, alloc, &rows, policy, due.as_slice())?;
        assert_eq!(rt; course.answer, Err(Unassigned { at: 61 }));
    }
    Ok(())
}
