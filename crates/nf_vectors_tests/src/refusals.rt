//! Want of memory. `rt test` has no allocator that refuses; `rt try --test --fail-alloc N` refuses the N-th growth, and
//! then these tests show, for each N, that the call says so, that no other answer takes its place, and that what was
//! refused can be had afterwards.

use nf_filter::FromReader;
use nf_row::{Form, Ucd};
use nf_vectors::{Failure, Report, Suite, Sweep, VectorFault, VectorKind};
use std::alloc::Global;
use std::process::Abort;
use std::test::Fail;

/// Five lines, none of them empty.
const FILE: &str =
    "# five lines\n@Part1\n00A0;00A0;00A0;0020;0020;\n61;61;61;61;61\n62;61;61;61;61";

fn read(alloc: Global) -> Result<Suite, VectorFault> {
    Suite::read(alloc, &mut FromReader::new(FILE.as_bytes()))
}

/// The suite, and where it was refused first the line of that.
fn suite(rt: &impl Abort, alloc: Global) -> Result<Suite, VectorFault> {
    match read(alloc) {
        Ok(suite) => Ok(suite),
        Err(fault) => {
            assert_eq!(rt; fault.kind, VectorKind::Memory);
            assert!(rt; (1..=5).contains(&fault.line));
            read(alloc)
        }
    }
}

#[test]
fn a_report_comes_after_a_refusal(rt: HostRuntime) -> Result<(), Fail> {
    let suite = suite(&rt, rt.alloc())?;
    let report = match suite.check(rt.alloc(), &Ucd) {
        Ok(report) => report,
        Err(_) => suite.check(rt.alloc(), &Ucd)?,
    };
    let expected = Report {
        rows: 3,
        passed: 2,
        failed: 1,
        skipped: 0,
        first_failure: Some(Failure {
            line: 5,
            form: Form::Nfc,
            column: 1,
        }),
    };
    assert_eq!(rt; report, expected);
    Ok(())
}

#[test]
fn a_sweep_comes_after_a_refusal(rt: HostRuntime) -> Result<(), Fail> {
    let suite = suite(&rt, rt.alloc())?;
    let sweep = match suite.sweep(rt.alloc(), &Ucd) {
        Ok(sweep) => sweep,
        Err(_) => suite.sweep(rt.alloc(), &Ucd)?,
    };
    let Sweep {
        unlisted,
        first,
        ..
    } = sweep;
    // Of the 1,112,064 scalar values three are listed. U+00A8 is the least after U+00A0 that a form changes.
    assert_eq!(rt; unlisted, 1_112_061);
    assert_eq!(rt; first, Some('\u{A8}'));
    Ok(())
}
