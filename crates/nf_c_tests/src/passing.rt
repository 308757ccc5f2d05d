//! ASCII that passes as it is, as far as there is room.
use crate::kit::{AS_IS, NFC, started, told};
use nf_c::{Status, feed, finish};
use std::test::Fail;

/// Into 3 bytes, and into none. In the end an accent stands after a letter that was pending.
#[test]
fn ascii_passes_as_far_as_there_is_room(rt: HostRuntime) -> Result<(), Fail> {
    let mut output = [0; 3];
    let mut state = started(&rt, NFC, AS_IS, 0);
    let first = feed(&mut state, b"a", &mut output);
    assert_eq!(rt; first, told(Status::Done, 1, 0, 0, 0));
    let full = feed(&mut state, b"bcdef", &mut output);
    assert_eq!(rt; full, told(Status::Full, 3, 3, 0, 0));
    assert_eq!(rt; output, *b"abc");
    let rest = feed(&mut state, b"ef", &mut output);
    assert_eq!(rt; rest, told(Status::Done, 2, 2, 0, 0));
    assert_eq!(rt; output, *b"dec");
    let none = feed(&mut state, b"g", &mut output[..0]);
    assert_eq!(rt; none, told(Status::Full, 0, 0, 0, 0));
    let accent = feed(&mut state, b"g\xCC\x81", &mut output);
    assert_eq!(rt; accent, told(Status::Done, 3, 1, 0, 0));
    assert_eq!(rt; output[0], b'f');
    let ended = finish(&mut state, &mut output);
    assert_eq!(rt; ended, told(Status::Done, 0, 2, 0, 0));
    assert_eq!(rt; output, *b"\xC7\xB5c");
    Ok(())
}
