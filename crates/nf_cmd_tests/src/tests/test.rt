//! What `test` says of vector files.
use super::devices::LineEnds;
use super::{Case, TEST, assert_cases, assert_shown, repeated, run};
use std::test::Fail;

#[test]
fn test_tells_what_the_rows_come_to(rt: HostRuntime) -> Result<(), Fail> {
    let none = "rows 0\npassed 0\nfailed 0\nskipped 0\n";
    let held = "rows 2\npassed 2\nfailed 0\nskipped 0\n";
    let skipped = "rows 1\npassed 0\nfailed 0\nskipped 1\n";
    let first = "rows 1\npassed 0\nfailed 1\nskipped 0\nfirst failure line 2 form nfc column 1\n";
    let fifth = "rows 2\npassed 0\nfailed 2\nskipped 0\nfirst failure line 2 form nfc column 5\n";
    let cases: [Case<'_>; 5] = [
        (&[], b"", 0, none, ""),
        (
            &[],
            b"@Part0 # rows that hold
1E9B 0323;1E9B 0323;017F 0323 0307;1E69;0073 0323 0307; # reordering
212B;00C5;0041 030A;00C5;0041 030A;
",
            0,
            held,
            "",
        ),
        // A column that is not stream-safe.
        (
            &[("0071", 1), (" 0301", 31), (";0071;0071;0071;0071;", 1)],
            b"",
            0,
            skipped,
            "",
        ),
        (&[], b"@Part0\n0061;0062;0061;0061;0061;", 1, first, ""),
        (
            &[],
            b"\n0061;0061;0061;0061;0062\n0061;0062;0061;0061;0061;",
            1,
            fifth,
            "",
        ),
    ];
    assert_cases(&rt, rt.alloc(), &TEST, &cases)?;
    Ok(())
}

#[test]
fn a_line_of_another_layout_is_told(rt: HostRuntime) -> Result<(), Fail> {
    let alloc = rt.alloc();
    for (line, fault) in [
        ("0061;0062;", "fields"),
        ("0061;;0061;0061;0061;", "empty"),
        ("0061;00G1;;0061;0061;", "hex"),
        ("0061;D800 XYZ;0061;0061;0061;", "scalar"),
    ] {
        let file = repeated(alloc, &[("#\n", 1), (line, 1)])?;
        let told = format!(in alloc; "nfstream: line 2: {fault}\n")?;
        let shown = run(alloc, &TEST, &mut file.as_slice());
        assert_shown(&rt, &shown, 3, b"", told.as_str());
    }
    Ok(())
}

#[test]
fn what_part_1_does_not_list_is_looked_at(rt: HostRuntime) {
    let mut file = b"\xEF\xBB\xBF@Part1\n0041;0041;0041;0041;0041;\n".as_slice();
    let shown = run(rt.alloc(), &TEST, &mut file);
    let start = b"rows 1\npassed 1\nfailed 0\nskipped 0\nunlisted 1112063\nunlisted failed ";
    assert!(rt; shown.out.as_slice().starts_with(start));
    assert!(rt; shown.out.as_slice().ends_with(b"\nfirst unlisted U+00A0\n"));
    assert_eq!(rt; shown.err.len(), 0);
    assert_eq!(rt; shown.status, 1);
}

#[test]
fn a_file_past_the_limit_is_too_long(rt: HostRuntime) {
    let alloc = rt.alloc();
    let shown = run(alloc, &TEST, &mut LineEnds { left: 67_108_864 });
    let lines = b"rows 0\npassed 0\nfailed 0\nskipped 0\n";
    assert_shown(&rt, &shown, 0, lines, "");
    let shown = run(alloc, &TEST, &mut LineEnds { left: 67_108_865 });
    assert_shown(&rt, &shown, 6, b"", "nfstream: input too long\n");
}
