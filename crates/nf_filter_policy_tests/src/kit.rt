//! Filters under a policy, and what they do with pieces.
use nf_filter::{Fault, Filter, Policy};
use nf_filter_fixtures::{Course, course_by};
use nf_row::{Form, Rows};
use std::alloc::{AllocError, Global};
use std::process::Abort;

pub const AS_IS: Policy = Policy {
    replace: false,
    assigned: false,
};

pub const REPLACE: Policy = Policy {
    replace: true,
    assigned: false,
};

pub const ASSIGNED: Policy = Policy {
    replace: false,
    assigned: true,
};

pub const BOTH: Policy = Policy {
    replace: true,
    assigned: true,
};

/// A new filter to NFC under the policy, made fast where that is asked for and ASCII is plain.
pub fn filter_of<'r, R: Rows>(
    rt: &impl Abort,
    rows: &'r R,
    policy: Policy,
    is_fast: bool,
) -> Filter<'r, R> {
    let filter = nf_filter_fixtures::filter_of(rows, Form::Nfc, 0, is_fast);
    let is_new = !filter.spent() && filter.offset() == 0;
    assert!(rt; is_new);
    filter.policy(policy)
}

/// Feeds the pieces to a new filter, as long as it takes them, and finishes it. One that refused a piece refuses what
/// comes then.
pub fn course_of<R: Rows>(
    rt: &impl Abort,
    alloc: Global,
    filter: Filter<'_, R>,
    pieces: &[&[u8]],
) -> Course {
    let course = course_by(alloc, filter, pieces).expect(rt, "memory");
    let is_refused = course.finished != course.answer;
    assert!(rt; !is_refused || course.finished == Err(Fault::Spent));
    course
}

/// The bytes in one piece, cut in two at every place, and byte by byte: the same is written and answered, by a filter as
/// any is made and by one that is made fast. Answers the course in one piece.
pub fn same_in_pieces<R: Rows>(
    rt: &impl Abort,
    alloc: Global,
    rows: &R,
    policy: Policy,
    bytes: &[u8],
) -> Result<Course, AllocError> {
    let whole = course_of(rt, alloc, filter_of(rt, rows, policy, false), &[bytes]);
    let singles: Vec<&[u8]> = bytes.chunks(1).collect(alloc)?;
    for is_fast in [false, true] {
        let filter = filter_of(rt, rows, policy, is_fast);
        check_same(
            rt,
            course_of(rt, alloc, filter, singles.as_slice()),
            &whole,
            bytes,
        );
        for len in 0..=bytes.len() {
            let (front, back) = bytes.split_at(len);
            let filter = filter_of(rt, rows, policy, is_fast);
            check_same(
                rt,
                course_of(rt, alloc, filter, &[front, back]),
                &whole,
                bytes,
            );
        }
    }
    Ok(whole)
}

fn check_same(rt: &impl Abort, course: Course, whole: &Course, bytes: &[u8]) {
    let is_same = course.settled == whole.settled
        && course.held == whole.held
        && course.written == whole.written
        && course.answer == whole.answer;
    assert!(rt; is_same, "{bytes:?}: {course:?}, in one piece {whole:?}");
}

/// The parts, each repeated, joined.
pub fn joined(alloc: Global, parts: &[(&[u8], usize)]) -> Result<Vec<u8>, AllocError> {
    let mut bytes = Vec::new(alloc);
    for (part, times) in parts {
        for _ in 0..*times {
            bytes.extend_from_slice(part)?;
        }
    }
    Ok(bytes)
}
