//! Devices of which each call fails in turn, by each way to filter: what was told, what went out, and that no device is
//! asked again.
use crate::pieces::{Text, bytes_of};
use nf_filter::{Fault, Filter, Held, Tally, check, drive, measure, run};
use nf_filter_fixtures::{Due, FORMS, Kept, Pieces, after, course_of};
use nf_row::{Form, Patched, Plain, Ucd};
use nf_safe::Place;
use std::alloc::{AllocError, Global};
use std::process::Abort;
use std::test::Fail;

const M: &str = "\u{301}";

/// A letter with so many marks that two joiners are put: 123 bytes, of which NFC makes 127.
const LETTER_WITH_MARKS: Text<'static> = (&[("q", 1), (M, 61)], b"");

const TEXTS: [Text<'static>; 7] = [
    LETTER_WITH_MARKS,
    (&[("a", 40), (M, 1), ("b", 40), ("\u{316}", 1)], b""),
    (&[("\u{FDFA}\u{1112}\u{1161}\u{11AB}", 2)], b""),
    (&[], b"ab\xC0"),
    (&[], b"a\xC0"),
    (&[("\u{E9}", 20)], b"\xE2\x82"),
    (&[("\u{6F22}", 9), ("q", 1), (M, 31)], b"\xE2\x82(ab"),
];

/// A way for pieces to go through a filter.
#[derive(Clone, Copy, Debug)]
pub enum Way {
    Fed,
    FedFast,
    Run,
    DrivenFast,
}

pub const WAYS: [Way; 4] = [Way::Fed, Way::FedFast, Way::Run, Way::DrivenFast];

fn fast(rt: &impl Abort, form: Form) -> Filter<'static, Ucd> {
    Filter::fast(Plain::of(&Ucd).expect(rt, "plain"), form, 0)
}

pub fn filtered(
    rt: &impl Abort,
    way: Way,
    form: Form,
    pieces: &[&[u8]],
    sink: &mut Kept,
) -> Result<Tally, Fault> {
    let mut source = Pieces::new(pieces, false);
    match way {
        Way::Fed => fed(rt, Filter::new(&Ucd, form, 0), pieces, sink),
        Way::FedFast => fed(rt, fast(rt, form), pieces, sink),
        Way::Run => run(&Ucd, form, 0, &mut source, sink),
        Way::DrivenFast => drive(fast(rt, form), &mut source, sink),
    }
}

/// Feeds the pieces, and looks at a filter that was refused.
fn fed(
    rt: &impl Abort,
    filter: Filter<'_, Ucd>,
    pieces: &[&[u8]],
    sink: &mut Kept,
) -> Result<Tally, Fault> {
    let mut filter = filter;
    for piece in pieces {
        let offset = filter.offset();
        if let Err(fault) = filter.feed(piece, sink) {
            check_spent(rt, filter, sink, offset);
            return Err(fault);
        }
    }
    filter.finish(sink)
}

/// A filter that was refused is spent, holds nothing, stands where it stood before the call, and writes nothing more.
fn check_spent(rt: &impl Abort, filter: Filter<'_, Ucd>, sink: &mut Kept, offset: u64) {
    let mut filter = filter;
    let (refused, taken) = (sink.refused, sink.bytes.len());
    let nothing = Held {
        bytes: 0,
        pending: 0,
    };
    let stands = filter.spent() && filter.offset() == offset && filter.held() == nothing;
    assert!(rt; stands);
    let fed = filter.feed(b"a", sink);
    let end = filter.finish(sink);
    assert!(rt; fed == Err(Fault::Spent) && end == Err(Fault::Spent));
    assert!(rt; sink.refused == refused && sink.bytes.len() == taken);
}

#[test]
fn each_write_fails_in_turn(rt: HostRuntime) -> Result<(), Fail> {
    let alloc = rt.alloc();
    for text in TEXTS {
        let text = bytes_of(alloc, text)?;
        let pieces: Vec<&[u8]> = text.chunks(50).collect(alloc)?;
        for form in FORMS {
            let due = after(alloc, &Ucd, form, 0, text.as_slice())?;
            let whole = Whole {
                bytes: due.whole.as_bytes(),
                answer: due.answer.and(due.end),
            };
            let (ways, pieces) = (WAYS.as_slice(), pieces.as_slice());
            check_writes(&rt, alloc, ways, form, pieces, whole, (0, 1000));
        }
    }
    Ok(())
}

/// What a filter that is not stopped writes and answers.
#[derive(Clone, Copy)]
struct Whole<'a> {
    bytes: &'a [u8],
    answer: Result<Tally, Fault>,
}

/// Lets a sink fail after each number of calls in a range, each way.
fn check_writes(
    rt: &impl Abort,
    alloc: Global,
    ways: &[Way],
    form: Form,
    pieces: &[&[u8]],
    whole: Whole<'_>,
    calls: (usize, usize),
) {
    for way in ways {
        for calls in calls.0..calls.1.min(whole.bytes.len().saturating_add(1)) {
            check_write(rt, alloc, *way, form, pieces, whole, calls);
        }
    }
}

/// Lets a sink that takes a byte in a call fail after so many calls: it has taken that many bytes, and is asked once
/// more. Where there are no more to write, the filter answers as it does over any sink.
fn check_write(
    rt: &impl Abort,
    alloc: Global,
    way: Way,
    form: Form,
    pieces: &[&[u8]],
    whole: Whole<'_>,
    calls: usize,
) {
    let len = whole.bytes.len();
    let expected = if calls >= len {
        (whole.answer, 0)
    } else {
        (Err(Fault::Write), 1)
    };
    let mut sink = Kept::with_calls(alloc, calls, 1);
    let answer = filtered(rt, way, form, pieces, &mut sink);
    assert_eq!(rt;
        (answer, sink.refused),
        expected,
        "{way:?} {form:?}, {calls} calls"
    );
    assert!(rt;
        sink.bytes.as_slice() == &whole.bytes[..calls.min(len)],
        "{way:?} {form:?}, {calls} calls"
    );
}

/// Slices that are longer than a block, byte by byte.
#[test]
fn each_write_of_a_long_slice_fails_in_turn(rt: HostRuntime) -> Result<(), Fail> {
    let alloc = rt.alloc();
    let text = bytes_of(alloc, (&[("a", 9000), (M, 31), ("b", 50)], b""))?;
    for form in FORMS {
        check_long(&rt, alloc, form, text.as_slice())?;
    }
    Ok(())
}

/// A source gives no more than a block at once.
fn check_long(rt: &impl Abort, alloc: Global, form: Form, text: &[u8]) -> Result<(), AllocError> {
    let blocks: Vec<&[u8]> = text.chunks(4096).collect(alloc)?;
    let due = course_of(alloc, &Patched::new(&[]), form, &[text])?;
    let whole = Whole {
        bytes: due.written.as_slice(),
        answer: due.answer,
    };
    let last = due.written.len().saturating_sub(4);
    for calls in [(0, 4), (4090, 4100), (8995, 9005), (last, 9999)] {
        let ways = [Way::Fed, Way::FedFast];
        check_writes(rt, alloc, &ways, form, &[text], whole, calls);
        let ways = [Way::Run, Way::DrivenFast];
        check_writes(rt, alloc, &ways, form, blocks.as_slice(), whole, calls);
    }
    Ok(())
}

#[test]
fn each_read_fails_in_turn(rt: HostRuntime) -> Result<(), Fail> {
    let alloc = rt.alloc();
    for text in TEXTS {
        let text = bytes_of(alloc, text)?;
        for form in FORMS {
            check_reads(&rt, alloc, form, text.as_slice())?;
        }
    }
    Ok(())
}

/// Lets a source that gives a byte in a call fail after each of its calls.
fn check_reads(rt: &impl Abort, alloc: Global, form: Form, text: &[u8]) -> Result<(), AllocError> {
    let calls: Vec<&[u8]> = text.chunks(1).collect(alloc)?;
    for given in 0..=text.len().min(calls.len()) {
        let due = after(alloc, &Ucd, form, 0, &text[..given])?;
        check_read(rt, alloc, form, &calls.as_slice()[..given], &due);
    }
    Ok(())
}

/// What the source gave has been settled. A bad byte is told before, and nothing is asked for after it.
fn check_read(rt: &impl Abort, alloc: Global, form: Form, calls: &[&[u8]], due: &Due) {
    let fault = due.answer.err().unwrap_or(Fault::Read);
    let refused = usize::from(fault == Fault::Read);
    for is_fast in [false, true] {
        let mut source = Pieces::new(&*calls, true);
        let mut sink = Kept::new(alloc);
        let answer = if is_fast {
            drive(fast(rt, form), &mut source, &mut sink)
        } else {
            run(&Ucd, form, 0, &mut source, &mut sink)
        };
        assert_eq!(rt; (answer, source.refused), (Err(fault), refused));
        assert_eq!(rt; sink.bytes.as_slice(), due.written.as_bytes());
    }
    let mut source = Pieces::new(calls, true);
    assert_eq!(rt; measure(&Ucd, 0, &mut source).err(), Some(fault));
    assert_eq!(rt; source.refused, refused);
}

/// The mark with which a run is too long is the 63rd byte: before it a failed read is told, and after it nothing is read.
#[test]
fn each_read_of_a_check_fails_in_turn(rt: HostRuntime) -> Result<(), Fail> {
    let alloc = rt.alloc();
    let text = bytes_of(alloc, LETTER_WITH_MARKS)?;
    let calls: Vec<&[u8]> = text.chunks(1).collect(alloc)?;
    let place = Place {
        chars: 31,
        bytes: 61,
    };
    for given in 0..=calls.len() {
        let mut source = Pieces::new(&calls.as_slice()[..given], true);
        let is_found = given >= 63;
        let expected = if is_found {
            Ok(Some(place))
        } else {
            Err(Fault::Read)
        };
        assert_eq!(rt; check(&Ucd, 0, &mut source), expected, "{given} bytes");
        assert_eq!(rt;
            (source.given, source.refused),
            (given.min(63), usize::from(!is_found))
        );
    }
    Ok(())
}

/// The numbers of the letter with 61 marks, in each form.
#[test]
fn a_letter_with_two_joiners_is_counted(rt: HostRuntime) -> Result<(), Fail> {
    let alloc = rt.alloc();
    let text = bytes_of(alloc, LETTER_WITH_MARKS)?;
    let tally = Tally {
        bytes: 123,
        chars: 62,
        put: 2,
    };
    for form in FORMS {
        for way in WAYS {
            let mut sink = Kept::with_calls(alloc, 127, 1);
            let answer = filtered(&rt, way, form, &[text.as_slice()], &mut sink);
            assert_eq!(rt; (answer, sink.bytes.len()), (Ok(tally), 127));
        }
    }
    Ok(())
}
