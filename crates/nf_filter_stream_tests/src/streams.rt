//! Sources and sinks that give and take little, and that fail in mid-stream.
use nf_filter::{Fault, Filter, FromReader, Sink, Source, Tally, ToWriter, drive, run};
use nf_filter_fixtures::{Kept, Pieces, WAYS, after, filter_of, joined};
use nf_row::{Form, Ucd};
use std::test::Fail;

fn tally(bytes: u64, chars: u64, put: u64) -> Tally {
    Tally { bytes, chars, put }
}

/// Drives a new filter.
fn run_by<I: Source, S: Sink>(
    form: Form,
    is_fast: bool,
    base: u64,
    source: &mut I,
    sink: &mut S,
) -> Result<Tally, Fault> {
    if is_fast {
        drive(filter_of(&Ucd, form, base, true), source, sink)
    } else {
        run(&Ucd, form, base, source, sink)
    }
}

#[test]
fn a_reader_goes_through_to_a_writer(rt: HostRuntime) -> Result<(), Fail> {
    let mut source = FromReader::new(b"e\xCC\x81a".as_slice());
    let mut sink = ToWriter::new(Vec::<u8>::new(rt.alloc()));
    let answer = run(&Ucd, Form::Nfc, 0, &mut source, &mut sink);
    assert_eq!(rt; answer, Ok(tally(4, 3, 0)));
    assert_eq!(rt; sink.into_inner().as_slice(), b"\xC3\xA9a".as_slice());
    assert_eq!(rt; source.into_inner().len(), 0);
    Ok(())
}

#[test]
fn a_failed_source_leaves_what_is_settled(rt: HostRuntime) -> Result<(), Fail> {
    let alloc = rt.alloc();
    let text = joined(
        alloc,
        &[
            ("e\u{301}\u{1E9B}\u{323}", 1),
            ("\u{FDFA}q", 1),
            ("\u{301}", 31),
            ("\u{1F600}", 1),
        ],
    )?;
    for (form, is_fast) in WAYS {
        for len in 0..=text.len() {
            let front = &text.as_slice()[..len];
            let due = after(alloc, &Ucd, form, 0, front)?;
            let pieces: Vec<&[u8]> = front.chunks(3).collect(alloc)?;
            let mut source = Pieces::new(pieces.as_slice(), true);
            let mut sink = Kept::new(alloc);
            let answer = run_by(form, is_fast, 0, &mut source, &mut sink);
            assert_eq!(rt; answer, Err(Fault::Read));
            assert_eq!(rt; source.refused, 1);
            assert_eq!(rt; sink.bytes.as_slice(), due.written.as_bytes());
        }
    }
    Ok(())
}

#[test]
fn little_at_a_time_comes_out_whole(rt: HostRuntime) -> Result<(), Fail> {
    let alloc = rt.alloc();
    let pieces: [&[u8]; 7] = [
        b"q\xCC\x81",
        b"\xC3",
        b"\x85\xCC",
        b"\x81\xEF\xB7",
        b"\xBA",
        b"\xED\x95",
        b"\x9Ca",
    ];
    let text = pieces.concat(alloc)?;
    for (form, is_fast) in WAYS {
        let due = after(alloc, &Ucd, form, 0, text.as_slice())?;
        let mut source = Pieces::new(&pieces, false);
        let mut sink = Kept::with_step(alloc, usize::MAX, 1);
        let answer = run_by(form, is_fast, 0, &mut source, &mut sink);
        assert_eq!(rt; answer, Ok(tally(14, 7, 0)));
        assert_eq!(rt; sink.bytes.as_slice(), due.whole.as_bytes());
    }
    Ok(())
}

#[test]
fn an_empty_piece_is_the_sources_end(rt: HostRuntime) {
    for (form, is_fast) in WAYS {
        let mut source = Pieces::new(&[b"ab", b"", b"cd"], true);
        let mut sink = Kept::new(rt.alloc());
        let answer = run_by(form, is_fast, 0, &mut source, &mut sink);
        assert_eq!(rt; answer, Ok(tally(2, 2, 0)));
        assert_eq!(rt; sink.bytes.as_slice(), b"ab".as_slice());
        assert_eq!(rt; source.given, 2);
    }
}

#[test]
fn a_sink_fails_between_its_bytes(rt: HostRuntime) {
    for (form, is_fast) in WAYS {
        let mut source = Pieces::new(&[b"ab", b"cd", b"ef"], false);
        let mut sink = Kept::with_step(rt.alloc(), 3, 1);
        let answer = run_by(form, is_fast, 0, &mut source, &mut sink);
        assert_eq!(rt; answer, Err(Fault::Write));
        assert_eq!(rt; sink.bytes.as_slice(), b"abc".as_slice());
        assert_eq!(rt; sink.refused, 1);
    }
}

#[test]
fn a_source_is_read_up_to_the_last_offset(rt: HostRuntime) {
    let base = u64::MAX - 4;
    let cases: [(&[&[u8]], Result<Tally, Fault>, &[u8]); 6] = [
        (&[b"abcde"], Err(Fault::TooLong), b""),
        (&[b"ab", b"c", b"de"], Err(Fault::TooLong), b"ab"),
        (&[b"ab", b"c", b"d", b"e"], Err(Fault::TooLong), b"abc"),
        (&[b"ab", b"c", b"d"], Ok(tally(4, 4, 0)), b"abcd"),
        (
            &[b"abc", b"\xC3"],
            Err(Fault::Cut {
                at: u64::MAX,
                start: u64::MAX - 1,
            }),
            b"ab",
        ),
        (
            &[b"ab\xC3", b"("],
            Err(Fault::BadByte {
                at: u64::MAX - 1,
                start: u64::MAX - 2,
            }),
            b"a",
        ),
    ];
    for (form, is_fast) in WAYS {
        for (pieces, due, written) in cases {
            let mut source = Pieces::new(pieces, false);
            let mut sink = Kept::new(rt.alloc());
            assert_eq!(rt; run_by(form, is_fast, base, &mut source, &mut sink), due);
            assert_eq!(rt; sink.bytes.as_slice(), written);
        }
    }
    let mut source = FromReader::new(b"ab".as_slice());
    let mut sink = Kept::new(rt.alloc());
    let answer = run(&Ucd, Form::Nfc, u64::MAX - 1, &mut source, &mut sink);
    assert_eq!(rt; answer, Err(Fault::TooLong));
    assert_eq!(rt; sink.bytes.len(), 0);
}

#[test]
fn a_spent_filter_asks_nothing_of_its_source(rt: HostRuntime) {
    let mut sink = Kept::new(rt.alloc());
    let mut filter = Filter::new(&Ucd, Form::Nfc, 0);
    let fault = Fault::BadByte { at: 0, start: 0 };
    assert_eq!(rt; filter.feed(b"\xFF", &mut sink), Err(fault));
    let mut source = Pieces::new(&[b"ab"], false);
    assert_eq!(rt; drive(filter, &mut source, &mut sink), Err(Fault::Spent));
    assert_eq!(rt; source.given, 0);
    assert_eq!(rt; sink.bytes.len(), 0);
}
