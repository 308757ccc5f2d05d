use nf_filter::{Failed, Fault, Source, check, measure};
use nf_filter_fixtures::joined;
use nf_row::Change::{Class, Compat};
use nf_row::{Change, Patched, Ucd};
use nf_safe::{Measure, Place};
use std::process::Abort;
use std::test::Fail;

const M: &str = "\u{301}";

const J: &str = "\u{34F}";

/// A source of bytes that gives at most `step` at once, and fails where it `breaks` in place of ending.
#[derive(Drop)]
struct Bytes<'b> {
    coming: &'b [u8],
    step: usize,
    breaks: bool,
    failed: bool,
    at_end: bool,
}

impl<'b> Bytes<'b> {
    fn new(coming: &'b [u8], step: usize) -> Bytes<'b> {
        Bytes {
            coming,
            step,
            breaks: false,
            failed: false,
            at_end: false,
        }
    }

    fn breaking(coming: &'b [u8], step: usize) -> Bytes<'b> {
        Bytes {
            breaks: true,
            ..Bytes::new(coming, step)
        }
    }
}

impl Source for Bytes<'_> {
    ghost use Rattle.std.specs.Prelude.{None};

    ghost state = { λ source. record { coming = None; is_failed = source.failed; is_at_end = source.at_end; lender = 0 } };

    fn get(&mut self, buf: &mut [u8]) -> Result<usize, Failed> {
        let n = self.step.min(buf.len()).min(self.coming.len());
        if self.failed || (n == 0 && self.breaks) {
            self.failed = true;
            self.at_end = false;
            return Err(Failed);
        }
        let (front, back) = self.coming.split_at(n);
        buf[..n].copy_from_slice(front);
        self.coming = back;
        self.at_end = n == 0;
        Ok(n)
    }
}

/// How many bytes a source gives at once.
const STEPS: [usize; 4] = [1, 2, 7, 5000];

fn place(chars: u64, bytes: u64) -> Result<Option<Place>, Fault> {
    Ok(Some(Place { chars, bytes }))
}

/// Bytes, characters, non-starters, longest run, joiners put, unassigned.
fn measured(values: [u64; 6]) -> Result<Measure, Fault> {
    Ok(Measure {
        bytes: values[0],
        chars: values[1],
        nonstarters: u128::from(values[2]),
        longest: u128::from(values[3]),
        put: values[4],
        unassigned: values[5],
    })
}

/// A text, where it leaves the format (in characters and bytes), and what is measured of it.
type Case<'a> = (&'a [(&'a str, usize)], Option<(u64, u64)>, [u64; 6]);

#[test]
fn a_text_is_checked_and_measured(rt: HostRuntime) -> Result<(), Fail> {
    let alloc = rt.alloc();
    let cases: [Case<'_>; 12] = [
        (&[], None, [0, 0, 0, 0, 0, 0]),
        (&[("q", 1), (M, 31)], Some((31, 61)), [63, 32, 31, 31, 1, 0]),
        (&[("q", 1), (M, 30)], None, [61, 31, 30, 30, 0, 0]),
        (
            &[("\u{C5}", 1), (M, 30)],
            Some((30, 60)),
            [62, 31, 31, 31, 1, 0],
        ),
        (&[("\u{FFFF}", 1)], None, [3, 1, 0, 0, 0, 1]),
        (&[("\u{C5}\u{301}", 1)], None, [4, 2, 2, 2, 0, 0]),
        (
            &[("q", 1), (M, 30), (J, 1), (M, 1)],
            None,
            [65, 33, 31, 30, 0, 0],
        ),
        // Past one block, with characters across its end.
        (
            &[("\u{1F600}", 2000), ("q", 1)],
            None,
            [8001, 2001, 0, 0, 0, 0],
        ),
        (
            &[("\u{1F600}a", 1000), (M, 31), ("q", 5000)],
            Some((2030, 5060)),
            [10_062, 7031, 31, 31, 1, 0],
        ),
        // Runs with ASCII between them, of each length about the 32 bytes that are looked at together.
        (
            &[("a", 40), (M, 20), ("b", 1), (M, 20), ("c", 31)],
            None,
            [152, 112, 40, 20, 0, 0],
        ),
        (
            &[("a", 33), (M, 31), ("b", 64), (M, 31), ("\u{FFFF}c", 2)],
            Some((63, 93)),
            [229, 163, 62, 31, 2, 2],
        ),
        (
            &[(M, 25), ("a", 100), (M, 3)],
            None,
            [156, 128, 28, 25, 0, 0],
        ),
    ];
    for (text, left, values) in cases {
        let bytes = joined(alloc, text)?;
        for step in STEPS {
            check_text(&rt, bytes.as_slice(), step, left, values);
        }
    }
    Ok(())
}

/// A place has the base before it, and a measure has none.
fn check_text(
    rt: &impl Abort,
    bytes: &[u8],
    step: usize,
    left: Option<(u64, u64)>,
    values: [u64; 6],
) {
    for base in [0u64, 100] {
        let place = left.map(|(chars, bytes)| Place {
            chars,
            bytes: bytes.saturating_add(base),
        });
        let mut source = Bytes::new(bytes, step);
        assert_eq!(rt; check(&Ucd, base, &mut source), Ok(place), "step {step}");
        let mut source = Bytes::new(bytes, step);
        assert_eq!(rt;
            measure(&Ucd, base, &mut source),
            measured(values),
            "step {step}"
        );
    }
}

#[test]
fn the_first_fault_is_told(rt: HostRuntime) {
    let cases: [(&[u8], u64, u64); 6] = [
        (b"ab\xC3(", 3, 2),
        (b"\xC0", 0, 0),
        (b"\xED\xA0\x80", 1, 0),
        (b"\xE2\x82\xACa\xFF", 4, 4),
        (b"ab\xC3", 3, 2),
        (b"\xF0\x90\x80", 3, 0),
    ];
    for (bytes, at, start) in cases {
        for base in [0u64, 100] {
            let at = at.saturating_add(base);
            let start = start.saturating_add(base);
            let fault = if base.saturating_add(bytes.len() as u64) == at {
                Fault::Cut { at, start }
            } else {
                Fault::BadByte { at, start }
            };
            for step in STEPS {
                check_fault(&rt, base, bytes, step, fault);
            }
        }
    }
}

/// A check and a measurement answer this fault.
fn check_fault(rt: &impl Abort, base: u64, bytes: &[u8], step: usize, fault: Fault) {
    assert_eq!(rt; check(&Ucd, base, &mut Bytes::new(bytes, step)), Err(fault));
    assert_eq!(rt;
        measure(&Ucd, base, &mut Bytes::new(bytes, step)),
        Err(fault)
    );
}

#[test]
fn nothing_is_told_of_what_is_after_a_place(rt: HostRuntime) -> Result<(), Fail> {
    let alloc = rt.alloc();
    let mut bytes = joined(alloc, &[("q", 1), (M, 31)])?;
    bytes.push(0xFF)?;
    for step in STEPS {
        let mut source = Bytes::breaking(bytes.as_slice(), step);
        assert_eq!(rt; check(&Ucd, 0, &mut source), place(31, 61));
        assert!(rt; !source.failed);
        let mut source = Bytes::breaking(bytes.as_slice(), step);
        assert_eq!(rt;
            measure(&Ucd, 0, &mut source),
            Err(Fault::BadByte { at: 63, start: 63 })
        );
        assert!(rt; !source.failed);
    }
    // One byte at a time, nothing is asked for after the mark that makes the run too long.
    let mut source = Bytes::breaking(bytes.as_slice(), 1);
    assert_eq!(rt; check(&Ucd, 0, &mut source), place(31, 61));
    assert_eq!(rt; source.coming, b"\xFF".as_slice());
    Ok(())
}

#[test]
fn a_failed_source_is_told_where_nothing_is_before(rt: HostRuntime) {
    for step in STEPS {
        for bytes in [b"".as_slice(), b"ab".as_slice(), b"ab\xC3".as_slice()] {
            let mut source = Bytes::breaking(bytes, step);
            assert_eq!(rt; check(&Ucd, 0, &mut source), Err(Fault::Read));
            assert_eq!(rt; check(&Ucd, 0, &mut source), Err(Fault::Read));
            let mut source = Bytes::breaking(bytes, step);
            assert_eq!(rt; measure(&Ucd, 0, &mut source), Err(Fault::Read));
        }
        let mut source = Bytes::breaking(b"a\xFF", step);
        assert_eq!(rt;
            check(&Ucd, 0, &mut source),
            Err(Fault::BadByte { at: 1, start: 1 })
        );
    }
}

#[test]
fn no_piece_goes_past_the_last_offset(rt: HostRuntime) {
    let base = u64::MAX - 1;
    let bad = Fault::BadByte {
        at: base,
        start: base,
    };
    let cases: [(&[u8], usize, Fault); 4] = [
        (b"ab", 2, Fault::TooLong),
        (b"\xFFb", 2, Fault::TooLong),
        (b"abc", 1, Fault::TooLong),
        (b"\xFFb", 1, bad),
    ];
    for (bytes, step, fault) in cases {
        check_fault(&rt, base, bytes, step, fault);
    }
    let mut source = Bytes::new(b"a", 2);
    assert_eq!(rt; check(&Ucd, base, &mut source), Ok(None));
}

const NINETEEN: [char; 19] = ['a'; 19];

#[test]
fn unsound_characters_are_told_by_place(rt: HostRuntime) -> Result<(), Fail> {
    let alloc = rt.alloc();
    let long: [Change<'_>; 1] = [Compat('x', &NINETEEN)];
    let rows = Patched::new(&long);
    for step in STEPS {
        let row = Fault::Row { at: 4 };
        assert_eq!(rt; check(&rows, 3, &mut Bytes::new(b"ax\xFF", step)), Err(row));
        assert_eq!(rt;
            measure(&rows, 3, &mut Bytes::new(b"ax\xFF", step)),
            Err(row)
        );
        let bad = Fault::BadByte { at: 4, start: 4 };
        assert_eq!(rt; check(&rows, 3, &mut Bytes::new(b"a\xFFx", step)), Err(bad));
    }

    // A joiner that is not plain is put by the process alone, and a check puts none.
    let joiner: [Change<'_>; 1] = [Class('\u{34F}', 230)];
    let rows = Patched::new(&joiner);
    let bytes = joined(alloc, &[("q", 1), (M, 31)])?;
    for step in STEPS {
        let mut source = Bytes::new(bytes.as_slice(), step);
        assert_eq!(rt; measure(&rows, 0, &mut source), Err(Fault::Row { at: 61 }));
        let mut source = Bytes::new(bytes.as_slice(), step);
        assert_eq!(rt; check(&rows, 0, &mut source), place(31, 61));
    }
    Ok(())
}
