//! A filter that is driven, and a text that is checked and measured, over a buffer of the caller's: its size changes nothing
//! but how much is asked for at once.
use nf_filter::{Fault, FromReader, Tally, check_buffered, drive_buffered, measure_buffered};
use nf_filter_fixtures::{FORMS, Kept, Pieces, WAYS, after, filter_of, joined};
use nf_row::{Form, Ucd};
use nf_safe::{Measure, Place};
use std::alloc::{AllocError, Global};
use std::process::Abort;
use std::test::Fail;

/// Sizes of buffers, in bytes.
const SIZES: [usize; 6] = [1, 2, 3, 7, 4096, LARGE];

const LARGE: usize = 32_768;

/// What driving a new filter over the text answers and writes, with a buffer of that size.
fn driven(
    alloc: Global,
    (form, is_fast): (Form, bool),
    text: &[u8],
    size: usize,
) -> Result<(Result<Tally, Fault>, Vec<u8>), AllocError> {
    // What stands in a buffer does not matter.
    let mut buffer = vec![in alloc; 0xFF; size.max(1)]?;
    let mut source = FromReader::new(text);
    let mut sink = Kept::new(alloc);
    let filter = filter_of(&Ucd, form, 0, is_fast);
    let answer = drive_buffered(filter, &mut source, &mut sink, buffer.as_mut_slice());
    Ok((answer, sink.bytes.clone()?))
}

#[test]
fn a_text_comes_out_by_the_definitions(rt: HostRuntime) -> Result<(), Fail> {
    let alloc = rt.alloc();
    let text = joined(
        alloc,
        &[
            ("a\u{302}\u{323}\u{FDFA}\u{1112}\u{1161}\u{11AB}q", 1),
            ("\u{301}", 31),
            ("\u{1F600}b\u{C5}\u{6F22}", 5),
            ("\u{FF9E}", 31),
        ],
    )?;
    let text = text.as_slice();
    for len in [text.len(), text.len().saturating_sub(1)] {
        let front = &text[..len];
        for way in WAYS {
            let due = after(alloc, &Ucd, way.0, 0, front)?;
            for size in SIZES {
                let (answer, written) = driven(alloc, way, front, size)?;
                assert_eq!(rt; answer, due.end, "{way:?}, {size} bytes");
                assert_eq!(rt;
                    written.as_slice(),
                    due.whole.as_bytes(),
                    "{way:?}, {size} bytes"
                );
            }
        }
    }
    Ok(())
}

/// Text that every form leaves as it stands, and how many characters it has: some stand across the ends of buffers.
const LONG: [(&[(&str, usize)], u64); 2] = [
    (&[("\u{6F22}", 14_000)], 14_000),
    (&[("a", 1), ("\u{1F600}", 10_000)], 10_001),
];

#[test]
fn characters_stand_across_the_ends_of_buffers(rt: HostRuntime) -> Result<(), Fail> {
    let alloc = rt.alloc();
    for (parts, chars) in LONG {
        let text = joined(alloc, parts)?;
        let tally = Tally {
            bytes: text.len() as u64,
            chars,
            put: 0,
        };
        for way in WAYS {
            for size in [1000, 4096, LARGE] {
                let (answer, written) = driven(alloc, way, text.as_slice(), size)?;
                assert_eq!(rt; answer, Ok(tally), "{way:?}, {size} bytes");
                assert!(rt;
                    written.as_slice() == text.as_slice(),
                    "{way:?}, {size} bytes"
                );
            }
        }
    }
    Ok(())
}

#[test]
fn a_bad_byte_has_its_place(rt: HostRuntime) -> Result<(), Fail> {
    let alloc = rt.alloc();
    let mut text = joined(alloc, &[("\u{6F22}", 14_000)])?;
    text.extend_from_slice(b"\xE6\xBC(")?;
    let fault = Fault::BadByte {
        at: 42_002,
        start: 42_000,
    };
    for way in WAYS {
        for size in [1000, 4096, LARGE] {
            let (answer, written) = driven(alloc, way, text.as_slice(), size)?;
            assert_eq!(rt; answer, Err(fault), "{way:?}, {size} bytes");
            // The last character had not settled.
            assert_eq!(rt; written.len(), 41_997, "{way:?}, {size} bytes");
        }
    }
    Ok(())
}

#[test]
fn a_mark_follows_ascii_about_the_end_of_a_buffer(rt: HostRuntime) -> Result<(), Fail> {
    let alloc = rt.alloc();
    let size = 4096usize;
    for len in size - 40..=size + 1 {
        let apart = joined(alloc, &[("a", len), ("\u{301}", 1), ("b", 5000)])?;
        let composed = joined(alloc, &[("a", len - 1), ("\u{E1}", 1), ("b", 5000)])?;
        for way in WAYS {
            let due = match way.0 {
                Form::Nfc | Form::Nfkc => &composed,
                Form::Nfd | Form::Nfkd => &apart,
            };
            let (answer, written) = driven(alloc, way, apart.as_slice(), size)?;
            assert!(rt; answer.is_ok(), "{way:?}, mark at {len}: {answer:?}");
            assert!(rt;
                written.as_slice() == due.as_slice(),
                "{way:?}, mark at {len}"
            );
        }
    }
    Ok(())
}

/// The source gives one piece, as much of it as there is room for.
#[test]
fn the_whole_buffer_is_offered(rt: HostRuntime) -> Result<(), Fail> {
    let alloc = rt.alloc();
    let text = joined(alloc, &[("a", 40_000)])?;
    for size in SIZES {
        for form in FORMS {
            let mut buffer = vec![in alloc; 0; size.max(1)]?;
            let pieces = [text.as_slice()];
            let mut source = Pieces::new(&pieces, false);
            let mut sink = Kept::new(alloc);
            let filter = filter_of(&Ucd, form, 0, false);
            let answer = drive_buffered(filter, &mut source, &mut sink, buffer.as_mut_slice());
            let tally = Tally {
                bytes: size as u64,
                chars: size as u64,
                put: 0,
            };
            assert_eq!(rt; answer, Ok(tally));
        }
    }
    Ok(())
}

#[test]
fn a_text_is_checked_and_measured_over_each(rt: HostRuntime) -> Result<(), Fail> {
    let alloc = rt.alloc();
    let text = joined(alloc, &[("\u{6F22}", 14_000), ("q", 1), ("\u{301}", 31)])?;
    for size in SIZES {
        check_survey(&rt, alloc, text.as_slice(), size)?;
    }
    Ok(())
}

fn check_survey(
    rt: &impl Abort,
    alloc: Global,
    text: &[u8],
    size: usize,
) -> Result<(), AllocError> {
    let mut buffer = vec![in alloc; 0; size.max(1)]?;
    let place = Place {
        chars: 14_031,
        bytes: 42_061,
    };
    let measure = Measure {
        bytes: 42_063,
        chars: 14_032,
        nonstarters: 31,
        longest: 31,
        put: 1,
        unassigned: 0,
    };
    let mut source = FromReader::new(text);
    let checked = check_buffered(&Ucd, 0, &mut source, buffer.as_mut_slice());
    assert_eq!(rt; checked, Ok(Some(place)), "{size} bytes");
    let mut source = FromReader::new(text);
    let measured = measure_buffered(&Ucd, 0, &mut source, buffer.as_mut_slice());
    assert_eq!(rt; measured, Ok(measure), "{size} bytes");
    Ok(())
}
