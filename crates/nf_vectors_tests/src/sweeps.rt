//! The characters that Part 1 does not list.

use nf_filter::FromReader;
use nf_row::Ucd;
use nf_vectors::{Suite, Sweep};
use std::test::Fail;

/// Of the 1,112,064 scalar values a form changes U+00A0, U+00A8 and U+00AA, and none before.
#[test]
fn the_unlisted_are_swept(rt: HostRuntime) -> Result<(), Fail> {
    let alloc = rt.alloc();
    let cases = [
        (
            "@Part1\n00C5;00C5;0041 030A;00C5;0041 030A;\n",
            1_112_063,
            '\u{A0}',
        ),
        (
            "@Part1\n0041;0041;0041;0041;0041;\n@Part2\n00A0;0020;0020;0020;0020;",
            1_112_063,
            '\u{A0}',
        ),
        (
            "@Part0\n00A8;00A8;00A8;0020 0308;0020 0308;\n@Part1\n00A0;00A0;00A0;0020;0020;\n",
            1_112_063,
            '\u{A8}',
        ),
    ];
    for (file, expected, least) in cases {
        let suite = Suite::read(alloc, &mut FromReader::new(file.as_bytes()))?;
        let Sweep {
            unlisted,
            failed,
            first,
        } = suite.sweep(alloc, &Ucd)?;
        assert_eq!(rt; unlisted, expected, "{file}");
        assert!(rt; failed > 0, "{file}");
        assert_eq!(rt; first, Some(least), "{file}");
    }
    Ok(())
}
