//! How a span reaches the sink: how much of it at once, how much by when, and what is left where the sink fails.
use nf_filter::{Fault, Filter, Held, Tally};
use nf_filter_fixtures::{BASE, FORMS, Kept, course_of, joined};
use nf_row::{Form, Patched, Ucd};
use std::alloc::{AllocError, Global};
use std::process::Abort;
use std::test::Fail;

/// A character, the forms that leave it as it stands wherever it follows itself, and how many code points of its
/// decomposition stand from the last starter on.
type Span<'a> = (&'a str, &'a [Form], usize);

const SPAN: [Span<'static>; 7] = [
    ("a", &FORMS, 1),
    ("\u{43B}", &FORMS, 1),
    ("\u{6F22}", &FORMS, 1),
    ("\u{1F600}", &FORMS, 1),
    ("\u{E9}", &[Form::Nfc, Form::Nfkc], 2),
    ("\u{AC00}", &[Form::Nfc, Form::Nfkc], 1),
    ("\u{D55C}", &[Form::Nfc, Form::Nfkc], 1),
];

#[test]
fn a_span_is_written_at_once_and_in_blocks(rt: HostRuntime) -> Result<(), Fail> {
    for span in SPAN {
        let (_, forms, _) = span;
        for form in forms {
            for size in [65_536, 4097, 1000] {
                check_blocks(&rt, rt.alloc(), span, *form, size)?;
            }
        }
    }
    Ok(())
}

/// Feeds pieces of that size of a long text of one character: after each all of it but the last is written, in slices
/// of no more than a block.
fn check_blocks(
    rt: &impl Abort,
    alloc: Global,
    (span, _, pending): Span<'_>,
    form: Form,
    size: usize,
) -> Result<(), AllocError> {
    let width = span.len().max(1);
    let text = joined(alloc, &[(span, 65_536 / width + 5000)])?;
    let text = text.as_slice();
    let mut sink = Kept::new(alloc);
    let mut filter = Filter::new(&Ucd, form, BASE);
    let mut fed = 0usize;
    for piece in text.chunks(size.max(1)) {
        assert_eq!(rt; filter.feed(piece, &mut sink), Ok(()));
        fed = fed.saturating_add(piece.len());
        let bytes = fed % width;
        let settled = fed.saturating_sub(bytes).saturating_sub(width);
        assert_eq!(rt; sink.bytes.len(), settled, "{form:?} after {fed}");
        assert!(rt;
            text.starts_with(sink.bytes.as_slice()),
            "{form:?} after {fed}"
        );
        assert_eq!(rt;
            filter.held(),
            Held { bytes, pending },
            "{form:?} of {span}"
        );
    }
    let tally = Tally {
        bytes: text.len() as u64,
        chars: (text.len() / width) as u64,
        put: 0,
    };
    assert_eq!(rt; filter.finish(&mut sink), Ok(tally));
    assert!(rt; sink.bytes.as_slice() == text, "{form:?} of {span}");
    assert!(rt;
        sink.longest > 124 && sink.longest <= 4096,
        "{} at once",
        sink.longest
    );
    Ok(())
}

/// A long span, alone and with what breaks it.
const LONG: [&[(&str, usize)]; 5] = [
    &[("a", 9000)],
    &[("a", 4095), ("\u{301}", 31), ("a", 4096)],
    &[("\u{6F22}", 1365), ("\u{E9}\u{316}", 1), ("\u{6F22}", 1400)],
    &[
        ("\u{D55C}", 1365),
        ("\u{11A8}\u{FDFA}", 1),
        ("\u{AC00}", 1400),
    ],
    &[
        ("a\u{E9}\u{43B}\u{6F22}\u{1F600}", 700),
        ("\u{1F600}", 1100),
    ],
];

#[test]
fn a_sink_that_fails_under_a_span_holds_the_beginning(rt: HostRuntime) -> Result<(), Fail> {
    let alloc = rt.alloc();
    for long in LONG {
        let text = joined(alloc, long)?;
        let (front, back) = text.split_at(text.len().min(5000));
        for form in FORMS {
            for pieces in [[text.as_slice(), b""], [front, back]] {
                check_failures(&rt, alloc, form, &pieces)?;
            }
        }
    }
    Ok(())
}

/// Lets the sink fail at each of its first calls, and at those about the end of a block and of the whole.
fn check_failures(
    rt: &impl Abort,
    alloc: Global,
    form: Form,
    pieces: &[&[u8]],
) -> Result<(), AllocError> {
    let due = course_of(alloc, &Patched::new(&[]), form, pieces)?;
    let whole = due.written.as_slice();
    let len = whole.len();
    for (step, calls) in [
        (1, 0..41),
        (1, 4090..4101),
        (1, len.saturating_sub(2)..len.saturating_add(2)),
        (100, 0..41),
        (usize::MAX, 0..5),
    ] {
        for calls in calls {
            let mut sink = Kept::with_calls(alloc, calls, step);
            let answer = answer_of(rt, form, pieces, &mut sink);
            let is_whole = sink.bytes.len() == len;
            let expected = if is_whole {
                due.answer
            } else {
                Err(Fault::Write)
            };
            assert_eq!(rt; answer, expected, "{form:?}, {calls} calls");
            assert_eq!(rt; sink.refused, usize::from(!is_whole));
            assert!(rt;
                sink.bytes.len() >= calls.min(len),
                "{form:?}, {calls} calls"
            );
            assert!(rt;
                whole.starts_with(sink.bytes.as_slice()),
                "{form:?}, {calls} calls"
            );
        }
    }
    Ok(())
}

/// Feeds the pieces to a sink that may fail, which is asked for nothing more then.
fn answer_of(
    rt: &impl Abort,
    form: Form,
    pieces: &[&[u8]],
    sink: &mut Kept,
) -> Result<Tally, Fault> {
    let mut filter = Filter::new(&Ucd, form, BASE);
    for piece in pieces {
        if let Err(fault) = filter.feed(piece, sink) {
            assert_eq!(rt; filter.feed(b"a", sink), Err(Fault::Spent));
            assert_eq!(rt; filter.finish(sink), Err(Fault::Spent));
            assert_eq!(rt; sink.refused, 1);
            return Err(fault);
        }
    }
    filter.finish(sink)
}
