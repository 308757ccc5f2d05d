//! A text fed as a caller from C feeds it.
use nf_c::{Moved, State, Status, feed, finish, start};
use std::alloc::{AllocError, Global};
use std::process::Abort;

/// Memory of zeros.
pub const ZEROS: State = State {
    magic: 0,
    unicode: 0,
    base: 0,
    offset: 0,
    chars: 0,
    put: 0,
    starter: 0,
    marks: [0; 30],
    held: [0; 3],
    held_len: 0,
    marks_len: 0,
    count: 0,
    form: 0,
    policy: 0,
    spent: 0,
};

pub const NFC: u32 = 1;

pub const NFKD: u32 = 4;

pub const AS_IS: u32 = 0;

pub const REPLACE: u32 = 1;

pub const ASSIGNED: u32 = 2;

/// What a call tells.
pub fn told(status: Status, read: usize, written: usize, at: u64, start: u64) -> Moved {
    Moved {
        status,
        read,
        written,
        at,
        start,
    }
}

/// A state that has read nothing.
pub fn started(rt: &impl Abort, form: u32, policy: u32, base: u64) -> State {
    let mut state = ZEROS;
    let status = start(&mut state, form, policy, base);
    assert_eq!(rt; status, Status::Done);
    state
}

/// The form of the text, by pieces of so many bytes and through this output. The state is copied between the calls.
pub fn fed(
    rt: &impl Abort,
    alloc: Global,
    form: u32,
    text: &[u8],
    cut: usize,
    output: &mut [u8],
) -> Result<Vec<u8>, AllocError> {
    let mut state = started(rt, form, AS_IS, 0);
    let mut form = Vec::new(alloc);
    let mut at: usize = 0;
    for _ in 0..4096 {
        let end = at.saturating_add(cut).min(text.len());
        let piece = text.get(at..end).expect(rt, "a piece");
        if piece.is_empty() {
            break;
        }
        let mut copy = state;
        let moved = feed(&mut copy, piece, output);
        state = copy;
        let is_all = moved.read == piece.len();
        let goes_on = moved.status == Status::Done && is_all
            || moved.status == Status::Full && !is_all;
        assert!(rt; goes_on, "{moved:?}");
        form.extend_from_slice(output.get(..moved.written).expect(rt, "within"))?;
        at = at.saturating_add(moved.read);
    }
    assert_eq!(rt; at, text.len());
    let moved = finish(&mut state, output);
    assert_eq!(rt; moved.status, Status::Done);
    form.extend_from_slice(output.get(..moved.written).expect(rt, "within"))?;
    Ok(form)
}
