//! Pieces that go through a filter, and what comes of them.
use crate::devices::Kept;
use nf_filter::{Fault, Filter, Held, Tally};
use nf_row::{Form, Plain, Rows};
use std::alloc::{AllocError, Global};

pub const FORMS: [Form; 4] = [Form::Nfc, Form::Nfd, Form::Nfkc, Form::Nfkd];

/// The forms, by a filter as any is made, and by one that is made fast.
pub const WAYS: [(Form, bool); 8] = [
    (Form::Nfc, false),
    (Form::Nfd, false),
    (Form::Nfkc, false),
    (Form::Nfkd, false),
    (Form::Nfc, true),
    (Form::Nfd, true),
    (Form::Nfkc, true),
    (Form::Nfkd, true),
];

/// An offset of the first byte, so that a place is no count.
pub const BASE: u64 = 1000;

/// A new filter, made fast where that is asked for and ASCII is plain.
pub fn filter_of<R: Rows>(rows: &R, form: Form, base: u64, is_fast: bool) -> Filter<'_, R> {
    if is_fast && let Some(plain) = Plain::of(rows) {
        return Filter::fast(plain, form, base);
    }
    Filter::new(rows, form, base)
}

/// Texts, each repeated, joined.
pub fn joined(alloc: Global, parts: &[(&str, usize)]) -> Result<Vec<u8>, AllocError> {
    let mut bytes = Vec::new(alloc);
    for (part, times) in parts {
        for _ in 0..*times {
            bytes.extend_from_slice(part.as_bytes())?;
        }
    }
    Ok(bytes)
}

/// What a filter did with pieces.
#[derive(Debug, Drop, PartialEq)]
pub struct Course {
    /// What it had written before `finish`.
    pub settled: Vec<u8>,
    pub held: Held,
    pub offset: u64,
    /// All that it wrote.
    pub written: Vec<u8>,
    /// What `finish` answered.
    pub finished: Result<Tally, Fault>,
    /// The first refusal, or what `finish` answered.
    pub answer: Result<Tally, Fault>,
}

/// Feeds the pieces to a new filter, as long as it takes them, and finishes it.
pub fn course_of<R: Rows>(
    alloc: Global,
    rows: &R,
    form: Form,
    pieces: &[&[u8]],
) -> Result<Course, AllocError> {
    course_by(alloc, Filter::new(rows, form, 0), pieces)
}

/// The same to a given one.
pub fn course_by<R: Rows>(
    alloc: Global,
    filter: Filter<'_, R>,
    pieces: &[&[u8]],
) -> Result<Course, AllocError> {
    let mut sink = Kept::new(alloc);
    let mut filter = filter;
    let mut refused = None;
    for piece in pieces {
        if let Err(fault) = filter.feed(piece, &mut sink) {
            refused = Some(fault);
            break;
        }
    }
    let settled = sink.bytes.clone()?;
    let held = filter.held();
    let offset = filter.offset();
    let finished = filter.finish(&mut sink);
    Ok(Course {
        settled,
        held,
        offset,
        written: sink.bytes.clone()?,
        finished,
        answer: refused.map_or(finished, Err),
    })
}
