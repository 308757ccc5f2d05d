//! A filter that was made over data of which ASCII is plain.
use nf_filter::{Filter, Held, Tally};
use nf_filter_fixtures::{BASE, Kept, joined};
use nf_row::Change::Pair;
use nf_row::{Form, Patched, Plain, Rows, Ucd};
use std::alloc::Global;
use std::process::Abort;
use std::test::Fail;

/// Text that goes out in slices, and what breaks it.
const LONG: [(&str, usize); 6] = [
    ("a", 9000),
    ("\u{301}", 31),
    ("\u{6F22}", 3000),
    ("\u{1112}\u{1161}\u{11AB}", 1),
    ("b", 5000),
    ("\u{C5}\u{323}", 1),
];

/// What NFC makes of it.
const LONG_NFC: [(&str, usize); 7] = [
    ("a", 8999),
    ("\u{E1}", 1),
    ("\u{301}", 29),
    ("\u{34F}\u{301}", 1),
    ("\u{6F22}", 3000),
    ("\u{D55C}", 1),
    ("b", 5000),
];

#[test]
fn long_slices_reach_a_sink_that_takes_little(rt: HostRuntime) -> Result<(), Fail> {
    let alloc = rt.alloc();
    let text = joined(alloc, &LONG)?;
    let mut due = joined(alloc, &LONG_NFC)?;
    due.extend_from_slice("\u{1EA0}\u{30A}".as_bytes())?;
    for step in [1, 2, 7, 4097] {
        let mut sink = Kept::with_step(alloc, usize::MAX, step);
        let mut filter = Filter::fast(Plain::of(&Ucd).ok_or("not plain")?, Form::Nfc, BASE);
        assert_eq!(rt; filter.feed(text.as_slice(), &mut sink), Ok(()));
        let tally = Tally {
            bytes: text.len() as u64,
            chars: 9000 + 31 + 3000 + 3 + 5000 + 2,
            put: 1,
        };
        assert_eq!(rt; filter.finish(&mut sink), Ok(tally));
        assert!(rt; sink.bytes.as_slice() == due.as_slice(), "step {step}");
        assert!(rt; sink.longest > 4096, "{} bytes at once", sink.longest);
    }
    Ok(())
}

#[test]
fn a_run_of_ascii_goes_out_at_once(rt: HostRuntime) -> Result<(), Fail> {
    let unchanged = Patched::new(&[]);
    let text = joined(rt.alloc(), &[("a", 10_000), ("\u{301}", 1)])?;
    let text = text.as_slice();
    check_run(&rt, rt.alloc(), Plain::of(&Ucd).ok_or("not plain")?, text);
    check_run(
        &rt,
        rt.alloc(),
        Plain::of(&unchanged).ok_or("not plain")?,
        text,
    );
    Ok(())
}

/// All but the last letter is written, though a mark may still follow that.
fn check_run<R: Rows>(rt: &impl Abort, alloc: Global, plain: Plain<'_, R>, text: &[u8]) {
    let mut sink = Kept::new(alloc);
    let mut filter = Filter::fast(plain, Form::Nfc, BASE);
    assert_eq!(rt; filter.feed(text, &mut sink), Ok(()));
    check_front(rt, &sink, filter.held());
    let tally = Tally {
        bytes: 10_002,
        chars: 10_001,
        put: 0,
    };
    assert_eq!(rt; filter.finish(&mut sink), Ok(tally));
    assert!(rt; sink.bytes.ends_with("a\u{E1}".as_bytes()));
}

/// 9,999 letters are written, more than 4,096 of them at once, and the last is held with its mark.
fn check_front(rt: &impl Abort, sink: &Kept, held: Held) {
    assert_eq!(rt; sink.bytes.len(), 9_999);
    assert!(rt; sink.bytes.iter().all(|byte| *byte == b'a'));
    assert!(rt; sink.longest > 4096, "{} bytes at once", sink.longest);
    assert_eq!(rt; (held.bytes, held.pending), (0, 2));
}

/// Nothing is known of a pair whose first is not ASCII: it composes.
#[test]
fn ascii_after_another_starter_may_compose(rt: HostRuntime) -> Result<(), Fail> {
    let changes = [Pair('\u{C5}', 'b', Some('c'))];
    let rows = Patched::new(&changes);
    let mut sink = Kept::new(rt.alloc());
    let mut filter = Filter::fast(Plain::of(&rows).ok_or("not plain")?, Form::Nfc, BASE);
    assert_eq!(rt; filter.feed("\u{C5}bd".as_bytes(), &mut sink), Ok(()));
    assert_eq!(rt; sink.bytes.as_slice(), b"c".as_slice());
    assert!(rt; filter.finish(&mut sink).is_ok());
    assert_eq!(rt; sink.bytes.as_slice(), b"cd".as_slice());
    Ok(())
}
