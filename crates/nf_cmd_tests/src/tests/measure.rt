//! What `measure` counts.
use super::{MEASURE, Parts, assert_shown, repeated, run};
use std::test::Fail;

#[test]
fn measure_counts_the_text(rt: HostRuntime) -> Result<(), Fail> {
    let alloc = rt.alloc();
    // Bytes, characters, non-starters, the longest run, joiners to be put, unassigned characters.
    let cases: [(Parts<'_>, [u64; 6]); 6] = [
        (&[], [0, 0, 0, 0, 0, 0]),
        (&[("q", 1), ("\u{301}", 31)], [63, 32, 31, 31, 1, 0]),
        (
            &[("q", 1), ("\u{301}", 30), ("\u{34F}\u{301}", 1)],
            [65, 33, 31, 30, 0, 0],
        ),
        (&[("\u{C5}\u{301}", 1)], [4, 2, 2, 2, 0, 0]),
        (&[("\u{FFFF}", 1)], [3, 1, 0, 0, 0, 1]),
        // Past the buffer.
        (
            &[("\u{6F22}", 25_000), ("q", 1), ("\u{301}", 31)],
            [75_063, 25_032, 31, 31, 1, 0],
        ),
    ];
    for (texts, counts) in cases {
        let [bytes, chars, nonstarters, longest, put, unassigned] = counts;
        let lines = format!(in alloc;
            "bytes {bytes}\ncharacters {chars}\nnon-starters {nonstarters}\nlongest run {longest}\nput {put}\nunassigned {unassigned}\n"
        )?;
        let text = repeated(alloc, texts)?;
        let shown = run(alloc, &MEASURE, &mut text.as_slice());
        assert_shown(&rt, &shown, 0, lines.as_bytes(), "");
    }
    Ok(())
}
