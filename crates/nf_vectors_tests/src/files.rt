//! What is read of a file: its first fault, and whether it has a Part 1.

use nf_filter::FromReader;
use nf_vectors::{Suite, VectorKind};
use std::alloc::Global;
use std::test::Fail;

/// The line and the kind of the first fault, or else whether the file has a Part 1.
fn read(alloc: Global, file: &str) -> Result<bool, (u32, VectorKind)> {
    match Suite::read(alloc, &mut FromReader::new(file.as_bytes())) {
        Ok(suite) => Ok(suite.has_part1()),
        Err(fault) => Err((fault.line, fault.kind)),
    }
}

#[test]
fn files_are_read(rt: HostRuntime) {
    let cases = [
        ("", Ok(false)),
        // Five columns.
        ("0061;0061;0061;0061;0061", Ok(false)),
        ("0061;0062;", Err((1, VectorKind::Fields))),
        (
            "# a comment\n0061;0061;0061;0061;0061;;",
            Err((2, VectorKind::Fields)),
        ),
        ("0061;;0061;0061;0061;", Err((1, VectorKind::Empty))),
        ("0061;00G1;;0061;0061;", Err((1, VectorKind::Hex))),
        ("0061;0000061;0061;0061;0061;", Err((1, VectorKind::Hex))),
        (
            "0061;D800 XYZ;0061;0061;0061;",
            Err((1, VectorKind::Scalar)),
        ),
        ("0061;110000;0061;0061;0061;", Err((1, VectorKind::Scalar))),
        // Blanks and comments, and what they do not part.
        ("# a comment\n \t61\t0301 ;e;e ; e; e; \t\r", Ok(false)),
        ("61;61;61;61;61; # a; b; c; d; e; f", Ok(false)),
        ("61;61;61;61# ;61", Err((1, VectorKind::Fields))),
        ("61;61;61;61;61; x", Err((1, VectorKind::Fields))),
        ("61;61\r;61;61;61;", Err((1, VectorKind::Hex))),
        ("  \t \r", Ok(false)),
        // The first fault of several.
        ("\n\nx\ny;;;;\n", Err((3, VectorKind::Fields))),
        ("61;61;61;61;G\nx", Err((1, VectorKind::Hex))),
        // Parts, and the byte order mark, which counts for nothing before the first line alone.
        ("@", Ok(false)),
        ("@ Part1 ;", Ok(false)),
        ("@Part1", Ok(true)),
        ("@Part1 # all characters\r\n@Part2", Ok(true)),
        ("@Part1\tx", Ok(true)),
        ("@Part1;", Ok(false)),
        ("@Part11", Ok(false)),
        ("@Part0\n @Part1 \n", Ok(true)),
        ("\u{FEFF}@Part1", Ok(true)),
        ("\n\u{FEFF}61;61;61;61;61;", Err((2, VectorKind::Hex))),
    ];
    for (file, expected) in cases {
        assert_eq!(rt; read(rt.alloc(), file), expected, "{file}");
    }
}
