//! What a check answers of pieces, and what it has to: by a filter over the whole, and a loop that compares bytes.
use nf_filter::{Fault, Filter, Policy};
use nf_filter_fixtures::Kept;
use nf_normalized::FormChecker;
use nf_row::{Form, Ucd};
use nf_safe::Place;
use std::alloc::Global;
use std::process::Abort;

/// The first character at which the bytes are not these others.
fn first_other(bytes: &[u8], made: &[u8]) -> Place {
    let mut place = Place { chars: 0, bytes: 0 };
    let mut begun = 0u64;
    for (at, byte) in bytes.iter().enumerate() {
        if *byte & 0xC0 != 0x80 {
            place = Place {
                chars: begun,
                bytes: at as u64,
            };
            begun = begun.saturating_add(1);
        }
        if made.get(at) != Some(byte) {
            return place;
        }
    }
    Place {
        chars: begun,
        bytes: bytes.len() as u64,
    }
}

/// What is due of the bytes.
pub fn due(
    alloc: Global,
    form: Form,
    assigned: bool,
    bytes: &[u8],
) -> Result<Option<Place>, Fault> {
    let policy = Policy {
        replace: false,
        assigned,
    };
    let mut filter = Filter::quickest(&Ucd, form, 0).policy(policy);
    let mut sink = Kept::new(alloc);
    let fed = filter.feed(bytes, &mut sink);
    // What had settled before a fault comes before it.
    if !bytes.starts_with(sink.bytes.as_slice()) {
        return Ok(Some(first_other(bytes, sink.bytes.as_slice())));
    }
    if let Err(fault) = fed {
        return Err(fault);
    }
    if let Err(fault) = filter.finish(&mut sink) {
        return Err(fault);
    }
    if sink.bytes.as_slice() == bytes {
        return Ok(None);
    }
    Ok(Some(first_other(bytes, sink.bytes.as_slice())))
}

/// What a checker answers of the pieces. It keeps few bytes, and what it has answered stays.
pub fn answer(
    rt: &impl Abort,
    form: Form,
    assigned: bool,
    pieces: &[&[u8]],
) -> Result<Option<Place>, Fault> {
    let mut checker = FormChecker::new(form, assigned, 0);
    for piece in pieces {
        let fed = checker.feed(piece);
        assert!(rt; checker.held() <= 315);
        match fed {
            Ok(None) => {}
            Ok(Some(place)) => {
                assert_eq!(rt; checker.feed(b"\xFF"), Ok(Some(place)));
                assert_eq!(rt; checker.finish(), Ok(Some(place)));
                return Ok(Some(place));
            }
            Err(fault) => {
                assert_eq!(rt; checker.feed(b"a"), Err(Fault::Spent));
                assert_eq!(rt; checker.finish(), Err(Fault::Spent));
                return Err(fault);
            }
        }
    }
    checker.finish()
}
