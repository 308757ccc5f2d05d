//! How much is written at once, and when: in blocks, and before the next read.
use nf_filter::{Failed, FromReader, Sink, Source, Tally, run};
use nf_filter_fixtures::{FORMS, Kept, after, joined};
use nf_row::{Form, Ucd};
use std::alloc::{AllocError, Global};
use std::cell::Cell;
use std::process::Abort;
use std::test::Fail;

/// Texts that are longer than a block, what NFD makes of them, and the tally.
type Long<'a> = (&'a [(&'a str, usize)], &'a [(&'a str, usize)], Tally);

const LONG: [Long<'static>; 2] = [
    // The last character stands across the end of the first block.
    (
        &[("a", 4095), ("\u{C5}", 1)],
        &[("a", 4095), ("A\u{30A}", 1)],
        Tally {
            bytes: 4097,
            chars: 4096,
            put: 0,
        },
    ),
    // More is written than is read.
    (
        &[("\u{C5}", 2048)],
        &[("A\u{30A}", 2048)],
        Tally {
            bytes: 4096,
            chars: 2048,
            put: 0,
        },
    ),
];

#[test]
fn long_texts_are_written_in_blocks(rt: HostRuntime) -> Result<(), Fail> {
    for long in LONG {
        for step in [usize::MAX, 1000, 1] {
            check_long(&rt, rt.alloc(), long, step)?;
        }
    }
    Ok(())
}

/// Runs over a source that gives all it can, and a sink that takes at most `step` bytes in a call. It is given more than
/// the 31 code points that a segment has at most, and no more than a block.
fn check_long(
    rt: &impl Abort,
    alloc: Global,
    long: Long<'_>,
    step: usize,
) -> Result<(), AllocError> {
    let (input, output, tally) = long;
    let input = joined(alloc, input)?;
    let output = joined(alloc, output)?;
    let mut source = FromReader::new(input.as_slice());
    let mut sink = Kept::with_step(alloc, usize::MAX, step);
    let answer = run(&Ucd, Form::Nfd, 0, &mut source, &mut sink);
    assert_eq!(rt; answer, Ok(tally));
    assert!(rt; sink.bytes.as_slice() == output.as_slice(), "step {step}");
    assert!(rt;
        sink.longest > 124 && sink.longest <= 4096,
        "longest {}",
        sink.longest
    );
    Ok(())
}

/// A source that gives at most `step` bytes in a call, and keeps how much was written before each.
#[derive(Drop)]
struct Watching<'a> {
    coming: &'a [u8],
    step: usize,
    written: &'a Cell<usize>,
    seen: Vec<usize>,
    failed: bool,
    at_end: bool,
}

impl Source for Watching<'_> {
    ghost use Rattle.std.specs.Prelude.{None};

    ghost state = { λ source. record { coming = None; is_failed = source.failed; is_at_end = source.at_end; lender = 0 } };

    fn get(&mut self, buf: &mut [u8]) -> Result<usize, Failed> {
        if self.failed || self.seen.push(self.written.get()).is_err() {
            self.failed = true;
            self.at_end = false;
            return Err(Failed);
        }
        let n = self.step.min(buf.len()).min(self.coming.len());
        let (front, back) = self.coming.split_at(n);
        buf[..n].copy_from_slice(front);
        self.coming = back;
        self.at_end = n == 0;
        Ok(n)
    }
}

/// A sink that takes three bytes in a call, and tells at once how many it has.
#[derive(Drop)]
struct Telling<'a> {
    kept: Vec<u8>,
    written: &'a Cell<usize>,
    failed: bool,
}

impl Sink for Telling<'_> {
    ghost use Rattle.std.specs.Prelude.{None};

    ghost state = { λ sink. record { taken = None; is_failed = sink.failed; lender = 0 } };

    fn put(&mut self, bytes: &[u8]) -> Result<usize, Failed> {
        let n = bytes.len().min(3);
        if n > 0 && (self.failed || self.kept.extend_from_slice(&bytes[..n]).is_err()) {
            self.failed = true;
            return Err(Failed);
        }
        self.written.set(self.kept.len());
        Ok(n)
    }
}

#[test]
fn what_a_read_settles_is_written_before_the_next(rt: HostRuntime) -> Result<(), Fail> {
    let alloc = rt.alloc();
    let hard = joined(
        alloc,
        &[
            ("a\u{302}\u{323}\u{FDFA}\u{1112}\u{1161}\u{11AB}q", 1),
            ("\u{301}", 31),
            ("\u{1F600}b\u{C5}", 1),
        ],
    )?;
    let span = joined(
        alloc,
        &[
            ("a", 35),
            ("\u{E9}\u{43B}\u{6F22}\u{1F600}", 3),
            ("\u{D55C}", 9),
        ],
    )?;
    for form in FORMS {
        for step in [1, 2, 5, 200] {
            check_order(&rt, alloc, form, hard.as_slice(), step)?;
            check_order(&rt, alloc, form, span.as_slice(), step)?;
        }
    }
    Ok(())
}

/// Before each read as much was written as the reads before it settle.
fn check_order(
    rt: &impl Abort,
    alloc: Global,
    form: Form,
    text: &[u8],
    step: usize,
) -> Result<(), AllocError> {
    let written = Cell::new(0);
    let mut source = Watching {
        coming: text,
        step,
        written: &written,
        seen: Vec::new(alloc),
        failed: false,
        at_end: false,
    };
    let mut sink = Telling {
        kept: Vec::new(alloc),
        written: &written,
        failed: false,
    };
    let answer = run(&Ucd, form, 0, &mut source, &mut sink);
    let due = after(alloc, &Ucd, form, 0, text)?;
    assert_eq!(rt; answer, due.end);
    assert_eq!(rt; sink.kept.as_slice(), due.whole.as_bytes());
    let mut read = 0usize;
    for seen in source.seen.as_slice() {
        let front = &text[..read.min(text.len())];
        let due = after(alloc, &Ucd, form, 0, front)?;
        assert_eq!(rt; *seen, due.written.len(), "after {read}");
        read = read.saturating_add(step);
    }
    assert!(rt; read >= text.len());
    Ok(())
}
