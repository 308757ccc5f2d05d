//! What the rows of a file come to.

use nf_filter::FromReader;
use nf_row::Change::Compat;
use nf_row::{Form, Patched, Rows, Ucd};
use nf_vectors::{Failure, Report, Suite};
use std::alloc::{AllocError, Global};
use std::test::Fail;

/// Rows of our own.
const OWN: &str = "\
# own vectors, in the layout of NormalizationTest.txt
@Part0 # single rows
1E9B 0323;1E9B 0323;017F 0323 0307;1E69;0073 0323 0307; # reordering
0344;0308 0301;0308 0301;0308 0301;0308 0301; # two non-starters
FF9E;FF9E;FF9E;3099;3099; # starter, then non-starter
30AB 3099;30AC;30AB 3099;30AC;30AB 3099;
0061 0302 0323;1EAD;0061 0323 0302;1EAD;0061 0323 0302;
0958;0915 093C;0915 093C;0915 093C;0915 093C; # not recomposed
212B;00C5;0041 030A;00C5;0041 030A;
FDFA;FDFA;FDFA;0635 0644 0649 0020 0627 0644 0644 0647 0020 0639 0644 064A 0647 0020 0648 0633 0644 0645;0635 0644 0649 0020 0627 0644 0644 0647 0020 0639 0644 064A 0647 0020 0648 0633 0644 0645;
D55C;D55C;1112 1161 11AB;D55C;1112 1161 11AB;
AC00 11A7;AC00 11A7;1100 1161 11A7;AC00 11A7;1100 1161 11A7;
1100 0300 1161;1100 0300 1161;1100 0300 1161;1100 0300 1161;1100 0300 1161;
0301 0323;0323 0301;0323 0301;0323 0301;0323 0301; # no starter
";

fn report<R: Rows>(alloc: Global, file: &str, rows: &R) -> Result<Report, &'static str> {
    let Ok(suite) = Suite::read(alloc, &mut FromReader::new(file.as_bytes())) else {
        return Err("refused");
    };
    suite.check(alloc, rows).map_err(|_| "no memory")
}

/// A row of `q` with 31 marks, which is not stream-safe.
fn long_row(alloc: Global) -> Result<String, AllocError> {
    let mut row = String::new(alloc);
    for _ in 0..5 {
        row.push_str("0071")?;
        for _ in 0..31 {
            row.push_str(" 0301")?;
        }
        row.push_str(";")?;
    }
    Ok(row)
}

const fn failure(line: u32, form: Form, column: u8) -> Option<Failure> {
    Some(Failure { line, form, column })
}

#[test]
fn rows_are_compared(rt: HostRuntime) -> Result<(), Fail> {
    let long = long_row(rt.alloc())?;
    // The rows, those that passed, failed and were skipped, and the first failure.
    let cases = [
        ("", [0, 0, 0, 0], None),
        (OWN, [12, 12, 0, 0], None),
        (long.as_str(), [1, 0, 0, 1], None),
        (
            "@Part0\n61;62;61;61;61;\n",
            [1, 0, 1, 0],
            failure(2, Form::Nfc, 1),
        ),
        ("61;61;61;61;62", [1, 0, 1, 0], failure(1, Form::Nfc, 5)),
        ("61;61;62;61;61", [1, 0, 1, 0], failure(1, Form::Nfc, 3)),
        ("C5;C5;C5;C5;41 30A", [1, 0, 1, 0], failure(1, Form::Nfd, 1)),
        ("C5;C5;41 30A;C5;C5", [1, 0, 1, 0], failure(1, Form::Nfd, 4)),
        (
            "FB01;FB01;FB01;FB01;FB01",
            [1, 0, 1, 0],
            failure(1, Form::Nfkc, 1),
        ),
        (
            "61;61;61;61;61\n61;61;61;61;61\n61;62;61;61;61\n62;61;61;61;61",
            [4, 2, 2, 0],
            failure(3, Form::Nfc, 1),
        ),
    ];
    for (file, [rows, passed, failed, skipped], first_failure) in cases {
        let expected = Report {
            rows,
            passed,
            failed,
            skipped,
            first_failure,
        };
        assert_eq!(rt; report(rt.alloc(), file, &Ucd)?, expected, "{file}");
    }
    Ok(())
}

/// A decomposition of 19 characters is not sound.
#[test]
fn an_unsound_character_fails_its_row(rt: HostRuntime) -> Result<(), Fail> {
    let decomposition = ['a'; 19];
    let changes = [Compat('x', &decomposition)];
    let report = report(rt.alloc(), "78;78;78;78;78;", &Patched::new(&changes))?;
    let expected = Report {
        rows: 1,
        passed: 0,
        failed: 1,
        skipped: 0,
        first_failure: failure(1, Form::Nfc, 1),
    };
    assert_eq!(rt; report, expected);
    Ok(())
}
