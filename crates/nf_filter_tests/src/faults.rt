//! Refusals: which, where, and what stands after them.
use nf_filter::{Fault, Held, Tally};
use nf_filter_fixtures::{Kept, WAYS, filter_of};
use nf_row::Ucd;

const NOTHING: Held = Held {
    bytes: 0,
    pending: 0,
};

#[test]
fn a_bad_byte_stops_the_filter_for_good(rt: HostRuntime) {
    for (form, is_fast) in WAYS {
        let mut sink = Kept::new(rt.alloc());
        let mut filter = filter_of(&Ucd, form, 0, is_fast);
        assert_eq!(rt; filter.feed(b"ab\xC3", &mut sink), Ok(()));
        assert_eq!(rt; sink.bytes.as_slice(), b"a".as_slice());
        assert_eq!(rt;
            filter.held(),
            Held {
                bytes: 1,
                pending: 1
            }
        );
        assert_eq!(rt; filter.offset(), 3);
        assert!(rt; !filter.spent());
        assert_eq!(rt;
            filter.feed(b"(", &mut sink),
            Err(Fault::BadByte { at: 3, start: 2 })
        );
        assert_eq!(rt; sink.bytes.as_slice(), b"a".as_slice());
        assert_eq!(rt; filter.offset(), 3);
        assert_eq!(rt; filter.held(), NOTHING);
        assert!(rt; filter.spent());
        assert_eq!(rt; filter.feed(b"c", &mut sink), Err(Fault::Spent));
        assert_eq!(rt; filter.finish(&mut sink), Err(Fault::Spent));
        assert_eq!(rt; sink.bytes.as_slice(), b"a".as_slice());
    }
}

#[test]
fn ill_formed_bytes_have_their_places(rt: HostRuntime) {
    let bad = |at| Err(Fault::BadByte { at, start: 0 });
    let spent = Err(Fault::Spent);
    let cut = Err(Fault::Cut { at: 3, start: 0 });
    let cases: [(&[u8], Result<(), Fault>, Result<Tally, Fault>); 4] = [
        (b"\xE0\x80", bad(1), spent),
        (b"\xC0", bad(0), spent),
        (b"\xED\xA0\x80", bad(1), spent),
        (b"\xF0\x90\x80", Ok(()), cut),
    ];
    for (form, is_fast) in WAYS {
        for (bytes, fed, finished) in cases {
            let mut sink = Kept::new(rt.alloc());
            let mut filter = filter_of(&Ucd, form, 0, is_fast);
            assert_eq!(rt; filter.feed(bytes, &mut sink), fed);
            assert_eq!(rt; filter.finish(&mut sink), finished);
            assert_eq!(rt; sink.bytes.len(), 0);
        }
    }
}

#[test]
fn a_piece_past_the_last_offset_changes_nothing(rt: HostRuntime) {
    for (form, is_fast) in WAYS {
        let base = u64::MAX - 1;
        let mut sink = Kept::new(rt.alloc());
        let mut filter = filter_of(&Ucd, form, base, is_fast);
        assert_eq!(rt; filter.feed(b"ab", &mut sink), Err(Fault::TooLong));
        assert!(rt; !filter.spent());
        assert_eq!(rt; filter.held(), NOTHING);
        assert_eq!(rt; filter.offset(), base);
        assert_eq!(rt; filter.feed(b"a", &mut sink), Ok(()));
        assert_eq!(rt; filter.offset(), u64::MAX);
        assert_eq!(rt; sink.bytes.len(), 0);
        assert_eq!(rt;
            filter.finish(&mut sink),
            Ok(Tally {
                bytes: 1,
                chars: 1,
                put: 0
            })
        );
        assert_eq!(rt; sink.bytes.as_slice(), b"a".as_slice());
    }
}

#[test]
fn a_sink_that_fails_holds_the_beginning(rt: HostRuntime) {
    for (form, is_fast) in WAYS {
        let mut sink = Kept::with_room(rt.alloc(), 3);
        let mut filter = filter_of(&Ucd, form, 0, is_fast);
        assert_eq!(rt; filter.feed(b"abcdef", &mut sink), Err(Fault::Write));
        assert_eq!(rt; sink.bytes.as_slice(), b"abc".as_slice());
        assert!(rt; filter.spent());
        assert_eq!(rt; filter.held(), NOTHING);
        assert_eq!(rt; filter.offset(), 0);
        assert_eq!(rt; filter.feed(b"g", &mut sink), Err(Fault::Spent));
        assert_eq!(rt; filter.finish(&mut sink), Err(Fault::Spent));
        assert_eq!(rt; sink.bytes.as_slice(), b"abc".as_slice());
        assert_eq!(rt; sink.refused, 1);
    }
}
