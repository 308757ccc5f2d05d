//! A filter that is saved and restored between pieces, and saved fields that no filter can have.
use crate::kit::whole_form;
use arrayvec::ArrayVec;
use nf_filter::{Fault, Filter, Policy, Saved, Tally};
use nf_filter_fixtures::{FORMS, Kept};
use nf_row::{Form, Plain, Ucd};
use std::alloc::Global;
use std::process::Abort;
use std::test::Fail;

/// Marks out of order, letters and syllables of Hangul, and characters that the compatibility forms change.
const TEXT: &str =
    "e\u{301}\u{323}\u{1112}\u{1161}\u{11AB}\u{1E9B}\u{323}\u{AC00}\u{11A8}\u{FB01}o\u{308}";

/// Two bytes of a character of three, which are read as U+FFFD where nothing follows.
const CUT: &[u8] = b"\xE2\x82";

const REPLACE: Policy = Policy {
    replace: true,
    assigned: false,
};

#[test]
fn a_filter_goes_on_where_it_was_saved(rt: HostRuntime) -> Result<(), Fail> {
    let alloc = rt.alloc();
    let mut bytes = Vec::new(alloc);
    bytes.extend_from_slice(TEXT.as_bytes())?;
    bytes.extend_from_slice(CUT)?;
    let bytes = bytes.as_slice();
    let mut read = String::new(alloc);
    read.push_str(TEXT)?;
    read.push_str("\u{FFFD}")?;
    for form in FORMS {
        let due = whole_form(alloc, form, read.as_str())?;
        for at in 0..=bytes.len() {
            let (first, rest) = bytes.split_at(at);
            for len in 0..=rest.len() {
                let (second, third) = rest.split_at(len);
                let sink = saved_between(&rt, alloc, form, &[first, second, third])?;
                assert!(rt;
                    sink.bytes.as_slice() == due.as_bytes(),
                    "cut at {at}, and {len} after"
                );
            }
        }
    }
    Ok(())
}

/// What a filter gives its sink that is saved and restored after each piece.
fn saved_between(
    rt: &impl Abort,
    alloc: Global,
    form: Form,
    pieces: &[&[u8]],
) -> Result<Kept, Fail> {
    let mut sink = Kept::new(alloc);
    let mut filter = Filter::fast(Plain::of(&Ucd).ok_or("not plain")?, form, 0).policy(REPLACE);
    for piece in pieces {
        assert_eq!(rt; filter.feed(piece, &mut sink), Ok(()));
        let plain = Plain::of(&Ucd).ok_or("not plain")?;
        filter = Filter::restore(plain, filter.save()).ok_or("not restored")?;
    }
    let tally = Tally {
        bytes: 33,
        chars: 14,
        put: 0,
    };
    assert_eq!(rt; filter.finish(&mut sink), Ok(tally));
    Ok(sink)
}

/// What a filter saves that holds `q`, two marks and two bytes of a character: 7 bytes and 3 characters.
fn stood(rt: &impl Abort, alloc: Global) -> Result<Saved, Fail> {
    let mut sink = Kept::new(alloc);
    let mut filter = Filter::fast(Plain::of(&Ucd).ok_or("not plain")?, Form::Nfd, 0);
    let fed = filter.feed(b"q\xCC\x81\xCC\xA3\xE2\x82", &mut sink);
    assert_eq!(rt; fed, Ok(()));
    Ok(filter.save())
}

fn is_refused(saved: Saved) -> Result<bool, Fail> {
    let plain = Plain::of(&Ucd).ok_or("not plain")?;
    Ok(Filter::restore(plain, saved).is_none())
}

#[test]
fn what_is_saved_is_where_it_stands(rt: HostRuntime) -> Result<(), Fail> {
    let saved = stood(&rt, rt.alloc())?;
    assert_eq!(rt;
        (saved.base, saved.offset, saved.chars, saved.put),
        (0, 7, 3, 0)
    );
    assert_eq!(rt; saved.count, 2);
    assert_eq!(rt; saved.marks.len(), 2);
    assert_eq!(rt; saved.starter, Some('q'));
    assert_eq!(rt; saved.held.as_slice(), CUT);
    assert!(rt; !is_refused(saved)?);
    Ok(())
}

#[test]
fn what_no_filter_has_is_refused(rt: HostRuntime) -> Result<(), Fail> {
    let alloc = rt.alloc();
    let stood = || stood(&rt, alloc);
    let refused = [
        // Above 30, and fewer than there are marks.
        Saved {
            count: 31,
            ..stood()?
        },
        Saved {
            count: 1,
            ..stood()?
        },
        // The first byte after the next; fewer bytes than are held, and than are left for the characters.
        Saved {
            base: 8,
            ..stood()?
        },
        Saved {
            base: 6,
            ..stood()?
        },
        Saved {
            base: 3,
            ..stood()?
        },
        Saved {
            chars: 6,
            ..stood()?
        },
        // More joiners than characters.
        Saved { put: 4, ..stood()? },
        // No character, but what one leaves; and no starter, but more than the marks.
        Saved {
            chars: 0,
            ..stood()?
        },
        Saved {
            starter: None,
            ..stood()?
        },
        // In NFKD as many are pending as are counted.
        Saved {
            form: Form::Nfkd,
            count: 3,
            ..stood()?
        },
        // Not a starter.
        Saved {
            starter: Some('\u{301}'),
            ..stood()?
        },
    ];
    for saved in refused {
        assert!(rt; is_refused(saved)?);
    }
    let held = [
        Saved {
            count: 30,
            ..stood()?
        },
        Saved {
            base: 2,
            ..stood()?
        },
        Saved {
            form: Form::Nfkd,
            ..stood()?
        },
        Saved {
            chars: 5,
            ..stood()?
        },
        Saved { put: 3, ..stood()? },
    ];
    for saved in held {
        assert!(rt; !is_refused(saved)?);
    }
    Ok(())
}

#[test]
fn held_bytes_that_begin_no_character_are_refused(rt: HostRuntime) -> Result<(), Fail> {
    let cases: [(&[u8], bool); 14] = [
        (b"A", true),
        (b"\x80", true),
        (b"\xC1", true),
        (b"\xF5", true),
        (b"\xC3\xA9", true),
        (b"\xE0\x9F", true),
        (b"\xED\xA0", true),
        (b"\xF0\x8F", true),
        (b"\xF4\x90", true),
        (b"\xE2\x82\xAC", true),
        (b"", false),
        (b"\xC2", false),
        (b"\xED\x9F", false),
        (b"\xF4\x8F\xBF", false),
    ];
    for (bytes, refused) in cases {
        let mut held = ArrayVec::new();
        assert!(rt; held.try_extend_from_slice(bytes).is_ok());
        let saved = Saved {
            held,
            ..stood(&rt, rt.alloc())?
        };
        assert_eq!(rt; is_refused(saved)?, refused, "{bytes:?}");
    }
    Ok(())
}

/// A filter that has ended takes nothing, whatever it counted.
#[test]
fn a_spent_filter_stays_spent(rt: HostRuntime) -> Result<(), Fail> {
    let saved = Saved {
        spent: true,
        chars: 100,
        ..stood(&rt, rt.alloc())?
    };
    let plain = Plain::of(&Ucd).ok_or("not plain")?;
    let mut filter = Filter::restore(plain, saved).ok_or("not restored")?;
    let mut sink = Kept::new(rt.alloc());
    assert_eq!(rt; filter.feed(b"a", &mut sink), Err(Fault::Spent));
    assert_eq!(rt; sink.bytes.len(), 0);
    Ok(())
}
