//! One text by `Ucd`, by the same data of which nothing is known, with which every character goes the plain way, and by both
//! where ASCII was seen to be plain.
use nf_filter::{Fault, Filter, Held, Tally};
use nf_filter_fixtures::{BASE, Kept};
use nf_row::{Form, Patched, Plain, Rows, Ucd};
use std::alloc::{AllocError, Global};
use std::process::Abort;

/// What a call answers, how the filter stands after it (the offset, and whether it is spent), and how many bytes it has
/// written.
type Step = (Result<(), Fault>, Held, u64, bool, usize);

/// What a filter did.
#[derive(Drop)]
struct Course {
    /// After each call, up to the first that was refused.
    steps: Vec<Step>,
    written: Vec<u8>,
    /// What `finish` answered.
    end: Result<Tally, Fault>,
    /// The first refusal, or what `finish` answered.
    answer: Result<Tally, Fault>,
    /// The longest slice that it gave, in bytes.
    longest: usize,
}

/// Feeds the pieces, as far as they are taken, and then finishes.
fn course_of<R: Rows>(
    alloc: Global,
    filter: Filter<'_, R>,
    pieces: &[&[u8]],
) -> Result<Course, AllocError> {
    let mut filter = filter;
    let mut sink = Kept::new(alloc);
    let mut steps = Vec::new(alloc);
    let mut refused = None;
    for piece in pieces {
        let fed = filter.feed(piece, &mut sink);
        let len = sink.bytes.len();
        steps.push((fed, filter.held(), filter.offset(), filter.spent(), len))?;
        if let Err(fault) = fed {
            refused = Some(fault);
            break;
        }
    }
    let end = filter.finish(&mut sink);
    Ok(Course {
        steps,
        written: sink.bytes,
        end,
        answer: refused.map_or(end, Err),
        longest: sink.longest,
    })
}

/// After each call the same was written, and the filter stands in the same way. Answers the length of the longest slice
/// that it gave, in bytes.
fn check_course<R: Rows>(
    rt: &impl Abort,
    alloc: Global,
    filter: Filter<'_, R>,
    form: Form,
    pieces: &[&[u8]],
    due: &Course,
) -> usize {
    let given = course_of(alloc, filter, pieces).expect(rt, "memory");
    let is_same = given.steps == due.steps && given.written == due.written && given.end == due.end;
    assert!(rt; is_same, "{form:?} of {pieces:?}");
    given.longest
}

/// Feeds the pieces every way, as far as they are taken, and then finishes. After each call all have written the same and
/// stand in the same way, and a filter that was not made fast gave no slice longer than a block. Answers the fault, or the
/// tally.
pub fn same_both_ways(
    rt: &impl Abort,
    alloc: Global,
    form: Form,
    pieces: &[&[u8]],
) -> Result<Tally, Fault> {
    let unchanged = Patched::new(&[]);
    same_over(
        rt,
        alloc,
        Plain::of(&unchanged).expect(rt, "plain"),
        form,
        pieces,
    )
}

/// The same over data of which ASCII was seen to be plain before: to see it takes as long as some thousand bytes.
pub fn same_over(
    rt: &impl Abort,
    alloc: Global,
    unchanged: Plain<'_, Patched<'_>>,
    form: Form,
    pieces: &[&[u8]],
) -> Result<Tally, Fault> {
    let ascii = Filter::fast(unchanged, form, BASE);
    let whole = Filter::fast(Plain::of(&Ucd).expect(rt, "plain"), form, BASE);
    let plain = Filter::new(unchanged.rows(), form, BASE);
    let due = course_of(alloc, plain, pieces).expect(rt, "memory");
    let longest = check_course(rt, alloc, Filter::new(&Ucd, form, BASE), form, pieces, &due);
    assert!(rt; longest <= 4096, "{form:?}: {longest} bytes at once");
    check_course(rt, alloc, ascii, form, pieces, &due);
    check_course(rt, alloc, whole, form, pieces, &due);
    due.answer
}
