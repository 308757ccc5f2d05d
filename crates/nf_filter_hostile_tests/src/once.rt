//! Readers and writers that fail, or give or take nothing, at one call, and then go on as if nothing had been.
use crate::odd::{FAILS, Odd, Reads, TEXT, Writes};
use nf_filter::{
    Failed, Fault, Filter, FromReader, LentReader, LentWriter, Sink, Source, Tally, ToWriter,
    check, drive, measure, run,
};
use nf_filter_fixtures::{Due, FORMS, Kept, after};
use nf_row::{Form, Plain, Ucd};
use std::alloc::{AllocError, Global};
use std::process::Abort;
use std::test::Fail;

/// What a filter answered and wrote, and how many calls a device saw.
#[derive(Drop)]
struct Shown {
    answer: Result<Tally, Fault>,
    written: Vec<u8>,
    calls: usize,
}

/// What that is to be.
#[derive(Clone, Copy)]
struct Expected<'a> {
    answer: Result<Tally, Fault>,
    written: &'a [u8],
    calls: usize,
}

fn check_shown(rt: &impl Abort, odd: Odd, shown: &Shown, due: Expected<'_>) {
    let is_due = shown.answer == due.answer
        && shown.written.as_slice() == due.written
        && shown.calls == due.calls;
    assert!(rt; is_due, "{odd:?}: {} calls", shown.calls);
}

/// A filter over which ASCII goes fast.
fn fast(rt: &impl Abort, form: Form) -> Filter<'static, Ucd> {
    Filter::fast(Plain::of(&Ucd).expect(rt, "plain"), form, 0)
}

#[test]
fn a_reader_is_asked_nothing_after_a_failure_or_its_end(rt: HostRuntime) -> Result<(), Fail> {
    for form in FORMS {
        // Seven reads give the text, and the eighth is its end.
        for call in 0..9 {
            for fails in FAILS {
                check_reader(&rt, rt.alloc(), form, Odd { call, fails })?;
            }
        }
    }
    Ok(())
}

fn check_reader(rt: &impl Abort, alloc: Global, form: Form, odd: Odd) -> Result<(), AllocError> {
    let text = TEXT.as_bytes();
    let front = &text[..odd.call.saturating_mul(2).min(text.len())];
    let due = after(alloc, &Ucd, form, 0, front)?;
    let calls = odd.call.saturating_add(1).min(8);
    let failed = odd.fails.is_some() && odd.call < 8;
    let expected = due_of(&due, failed, calls);
    check_shown(rt, odd, &by_reader(rt, alloc, form, odd, failed), expected);
    check_shown(rt, odd, &by_lent_reader(alloc, form, odd), expected);
    check_shown(rt, odd, &by_fast_reader(rt, alloc, form, odd), expected);
    let refused = (expected.answer.err(), calls);
    assert_eq!(rt; checked(odd), refused, "{odd:?}");
    assert_eq!(rt; measured(odd), refused, "{odd:?}");
    Ok(())
}

/// A failed read leaves what was settled before it.
fn due_of(due: &Due, failed: bool, calls: usize) -> Expected<'_> {
    if failed {
        return Expected {
            answer: Err(Fault::Read),
            written: due.written.as_bytes(),
            calls,
        };
    }
    Expected {
        answer: due.end,
        written: due.whole.as_bytes(),
        calls,
    }
}

/// A source that failed fails from then on.
fn by_reader(rt: &impl Abort, alloc: Global, form: Form, odd: Odd, failed: bool) -> Shown {
    let mut source = FromReader::new(Reads::new(odd));
    let mut sink = Kept::new(alloc);
    let answer = run(&Ucd, form, 0, &mut source, &mut sink);
    if failed {
        assert_eq!(rt; source.get(&mut [0; 4]), Err(Failed));
    }
    Shown {
        answer,
        written: sink.bytes,
        calls: source.into_inner().calls,
    }
}

fn by_lent_reader(alloc: Global, form: Form, odd: Odd) -> Shown {
    let mut reader = Reads::new(odd);
    let mut sink = Kept::new(alloc);
    let mut source = LentReader::new(&mut reader);
    let answer = run(&Ucd, form, 0, &mut source, &mut sink);
    Shown {
        answer,
        written: sink.bytes,
        calls: reader.calls,
    }
}

fn by_fast_reader(rt: &impl Abort, alloc: Global, form: Form, odd: Odd) -> Shown {
    let mut source = FromReader::new(Reads::new(odd));
    let mut sink = Kept::new(alloc);
    let answer = drive(fast(rt, form), &mut source, &mut sink);
    Shown {
        answer,
        written: sink.bytes,
        calls: source.into_inner().calls,
    }
}

/// What a check over a reader that is lent was refused for, and how many calls the reader saw.
fn checked(odd: Odd) -> (Option<Fault>, usize) {
    let mut reader = Reads::new(odd);
    let mut source = LentReader::new(&mut reader);
    let fault = check(&Ucd, 0, &mut source).err();
    (fault, reader.calls)
}

/// The same of a measurement.
fn measured(odd: Odd) -> (Option<Fault>, usize) {
    let mut reader = Reads::new(odd);
    let mut source = LentReader::new(&mut reader);
    let fault = measure(&Ucd, 0, &mut source).err();
    (fault, reader.calls)
}

#[test]
fn a_writer_is_asked_nothing_after_a_failure(rt: HostRuntime) -> Result<(), Fail> {
    for form in FORMS {
        // At most 47 bytes are written.
        for call in 0..64 {
            for fails in FAILS {
                check_writer(&rt, rt.alloc(), form, Odd { call, fails })?;
            }
        }
    }
    Ok(())
}

fn check_writer(rt: &impl Abort, alloc: Global, form: Form, odd: Odd) -> Result<(), AllocError> {
    let due = after(alloc, &Ucd, form, 0, TEXT.as_bytes())?;
    let len = due.whole.len();
    assert!(rt; len < 64);
    let failed = odd.call < len;
    let answer = if failed { Err(Fault::Write) } else { due.end };
    let expected = Expected {
        answer,
        written: &due.whole.as_bytes()[..odd.call.min(len)],
        calls: odd.call.saturating_add(1).min(len),
    };
    check_shown(rt, odd, &by_writer(rt, alloc, form, odd, failed), expected);
    check_shown(rt, odd, &by_fast_writer(rt, alloc, form, odd), expected);
    check_shown(rt, odd, &by_lent_writer(rt, alloc, form, odd), expected);
    Ok(())
}

/// A sink that failed takes nothing from then on.
fn by_writer(rt: &impl Abort, alloc: Global, form: Form, odd: Odd, failed: bool) -> Shown {
    let mut source = FromReader::new(TEXT.as_bytes());
    let mut sink = ToWriter::new(Writes::new(alloc, odd));
    let answer = run(&Ucd, form, 0, &mut source, &mut sink);
    if failed {
        assert_eq!(rt; (sink.put(b"a"), sink.put(b"")), (Err(Failed), Ok(0)));
    }
    let writer = sink.into_inner();
    Shown {
        answer,
        written: writer.bytes,
        calls: writer.calls,
    }
}

fn by_fast_writer(rt: &impl Abort, alloc: Global, form: Form, odd: Odd) -> Shown {
    let mut source = FromReader::new(TEXT.as_bytes());
    let mut sink = ToWriter::new(Writes::new(alloc, odd));
    let answer = drive(fast(rt, form), &mut source, &mut sink);
    let writer = sink.into_inner();
    Shown {
        answer,
        written: writer.bytes,
        calls: writer.calls,
    }
}

/// A filter that was refused is spent.
fn by_lent_writer(rt: &impl Abort, alloc: Global, form: Form, odd: Odd) -> Shown {
    let mut writer = Writes::new(alloc, odd);
    let mut sink = LentWriter::new(&mut writer);
    let mut filter = Filter::new(&Ucd, form, 0);
    let fed = filter.feed(TEXT.as_bytes(), &mut sink);
    if fed.is_err() {
        assert!(rt; filter.feed(b"a", &mut sink) == Err(Fault::Spent));
    }
    let end = filter.finish(&mut sink);
    assert!(rt; fed.is_ok() || end == Err(Fault::Spent));
    let answer = fed.and(end);
    Shown {
        answer,
        written: writer.bytes,
        calls: writer.calls,
    }
}
