//! Ill-formed bytes that are replaced: what is written, held and answered, by hand.
use crate::kit::{REPLACE, course_of, filter_of, same_in_pieces};
use nf_filter::{Fault, Held, Tally};
use nf_filter_fixtures::{Course, Kept};
use nf_row::Change::Compat;
use nf_row::{Patched, Ucd};
use std::test::Fail;

fn tally(bytes: u64, chars: u64) -> Result<Tally, Fault> {
    Ok(Tally {
        bytes,
        chars,
        put: 0,
    })
}

/// The bytes, how many bytes are written before the end, all that is written, and how many characters they give.
const REPLACED: [(&[u8], usize, &str, u64); 7] = [
    // The example of "Substitution of Maximal Subparts".
    (
        b"\xE1\x80\xE2\xF0\x91\x92\xF1\xBF\x41",
        12,
        "\u{FFFD}\u{FFFD}\u{FFFD}\u{FFFD}A",
        5,
    ),
    (b"\xED\xA0\x80", 6, "\u{FFFD}\u{FFFD}\u{FFFD}", 3),
    (b"\x61\xF0\x90\x80", 0, "a\u{FFFD}", 2),
    (b"", 0, "", 0),
    (b"\x80", 0, "\u{FFFD}", 1),
    // What is put composes with nothing, and takes the marks after it.
    (b"e\xFF\xCC\x81", 1, "e\u{FFFD}\u{301}", 3),
    (b"e\xCC\x81\xC3e\xCC\x81", 5, "\u{E9}\u{FFFD}\u{E9}", 5),
];

#[test]
fn each_maximal_subpart_is_one_character(rt: HostRuntime) -> Result<(), Fail> {
    for (bytes, settled, written, chars) in REPLACED {
        let filter = filter_of(&rt, &Ucd, REPLACE, false);
        let course = course_of(&rt, rt.alloc(), filter, &[bytes]);
        assert_eq!(rt; course.settled.len(), settled, "{bytes:?}");
        assert_eq!(rt; course.written.as_slice(), written.as_bytes());
        assert_eq!(rt;
            course.answer,
            tally(bytes.len() as u64, chars),
            "{bytes:?}"
        );
        same_in_pieces(&rt, rt.alloc(), &Ucd, REPLACE, bytes)?;
    }
    Ok(())
}

#[test]
fn a_begun_character_is_held_until_it_breaks_off(rt: HostRuntime) {
    for is_fast in [false, true] {
        let mut sink = Kept::new(rt.alloc());
        let mut filter = filter_of(&rt, &Ucd, REPLACE, is_fast);
        assert_eq!(rt; filter.feed(b"\xE2\x82", &mut sink), Ok(()));
        assert_eq!(rt; sink.bytes.len(), 0);
        let begun = Held {
            bytes: 2,
            pending: 0,
        };
        assert_eq!(rt; filter.held(), begun);
        assert_eq!(rt; filter.feed(b"\x41", &mut sink), Ok(()));
        assert_eq!(rt; sink.bytes.as_slice(), b"\xEF\xBF\xBD".as_slice());
        let pending = Held {
            bytes: 0,
            pending: 1,
        };
        assert_eq!(rt; filter.held(), pending);
        assert_eq!(rt; filter.offset(), 3);
        assert_eq!(rt; filter.finish(&mut sink), tally(3, 2));
        assert_eq!(rt; sink.bytes.as_slice(), b"\xEF\xBF\xBD\x41".as_slice());
    }
}

/// U+FFFD is looked at as any other character is: here its compatibility row is too long.
#[test]
fn what_is_put_may_be_unsound(rt: HostRuntime) {
    let long = ['a'; 19];
    let changes = [Compat('\u{FFFD}', &long)];
    let rows = Patched::new(&changes);
    let cases: [(&[&[u8]], u64, &[u8]); 4] = [
        (&[b"\x61\xC3", b"\x28"], 1, b""),
        (&[b"\x61\x62\xC3"], 2, b"\x61"),
        (&[b"\x61\x62\xC3\x28"], 2, b"\x61"),
        (&[b"\x61\x62", b"\xF0", b"\x90", b"\x80"], 2, b"\x61"),
    ];
    for is_fast in [false, true] {
        for (pieces, at, written) in cases {
            let filter = filter_of(&rt, &rows, REPLACE, is_fast);
            let Course {
                written: bytes,
                answer,
                ..
            } = course_of(&rt, rt.alloc(), filter, pieces);
            assert_eq!(rt; answer, Err(Fault::Row { at }));
            assert_eq!(rt; bytes.as_slice(), written);
        }
    }
}

/// The fault comes with the byte that breaks a begun character off, and with the end where there is none.
#[test]
fn what_is_put_is_refused_where_it_is_put(rt: HostRuntime) {
    let long = ['a'; 19];
    let changes = [Compat('\u{FFFD}', &long)];
    let rows = Patched::new(&changes);
    for is_fast in [false, true] {
        let mut sink = Kept::new(rt.alloc());
        let mut filter = filter_of(&rt, &rows, REPLACE, is_fast);
        assert_eq!(rt; filter.feed(b"\x61\xC3", &mut sink), Ok(()));
        let fault = Fault::Row { at: 1 };
        assert_eq!(rt; filter.feed(b"\x28", &mut sink), Err(fault));
        assert_eq!(rt; filter.finish(&mut sink), Err(Fault::Spent));
        assert_eq!(rt; sink.bytes.len(), 0);

        let mut filter = filter_of(&rt, &rows, REPLACE, is_fast);
        assert_eq!(rt; filter.feed(b"\x61\x62\xC3", &mut sink), Ok(()));
        assert_eq!(rt; sink.bytes.as_slice(), b"\x61".as_slice());
        let fault = Fault::Row { at: 2 };
        assert_eq!(rt; filter.finish(&mut sink), Err(fault));
        assert_eq!(rt; sink.bytes.as_slice(), b"\x61".as_slice());
    }
}
