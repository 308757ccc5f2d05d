//! `test`.
ghost use Rattle.std.specs.Prelude.{◌≡◌, ◌+◌, ◌≤◌, ◌++◌, length};
ghost use Rattle.nf_forms.specs.Ucd.{ucd};
ghost use Rattle.nf_cmd.specs.Tests.{Tests, Finds, finding_of, finding_lines, finding_end, column_end, failure_lines, sweep_lines, first_lines};

use crate::fault::Fault;
use crate::lines::{Lines, form_name};
use crate::writing::write_whole;
use nf_filter::LentReader;
use nf_row::Ucd;
use nf_vectors::{Failure, Report, Suite, Sweep, VectorFault};
use std::alloc::Global;
use std::io::{Read, Write};

/// What the rows of a vector file come to, and where it has a Part 1 what normalization does to the characters that
/// this does not list.
#[derive(Clone, Copy)]
pub(crate) struct Finding {
    report: Report,
    sweep: Option<Sweep>,
}

/// Writes what the rows of a vector file come to; status 1 where one failed, or where a form changed a character that
/// Part 1 does not list. At a fault it writes nothing.
pub(crate) fn test<I: Read, O: Write>(
    alloc: Global,
    input: &mut I,
    out: &mut O,
) -> Result<u8, Fault>
    ensures { Tests ucd (I.remaining input.old) (I.remaining input.new) (O.contents out.old) (O.contents out.new) result }
{
    let mut source = LentReader::new(input);
    let suite = Suite::read(alloc, &mut source);
    let finding = find(alloc, suite);
    write_whole(out, lines(finding).as_slice())?;
    end(finding)
}

// What comes of the file that was read.
fn find(alloc: Global, suite: Result<Suite, VectorFault>) -> Result<Finding, Fault>
    ensures { Finds ucd suite result }
{
    let suite = suite.map_err(|fault| Fault::told_of_file(fault))?;
    let report = suite.check(alloc, &Ucd).map_err(|_| Fault::Memory)?;
    if !suite.has_part1() {
        return Ok(Finding {
            report,
            sweep: None,
        });
    }
    let sweep = suite.sweep(alloc, &Ucd).map_err(|_| Fault::Memory)?;
    Ok(Finding {
        report,
        sweep: Some(sweep),
    })
}

// The end of the run.
fn end(finding: Result<Finding, Fault>) -> Result<u8, Fault>
    ensures { result ≡ finding_end finding }
{
    let Finding { report, sweep } = finding?;
    let is_clean = match sweep {
        None => true,
        Some(sweep) => sweep.failed == 0,
    };
    Ok(u8::from(!(report.failed == 0 && is_clean)))
}

// The lines that say so, and none where there is no finding.
fn lines(finding: Result<Finding, Fault>) -> Lines
    ensures { result.bytes.items ≡ finding_lines finding }
{
    let mut lines = Lines::new();
    let Ok(finding) = finding else {
        return lines;
    };
    let Finding { report, sweep } = finding;
    lines.named("rows", report.rows as u128);
    lines.named("passed", report.passed as u128);
    lines.named("failed", report.failed as u128);
    lines.named("skipped", report.skipped as u128);
    push_failure(&mut lines, report.first_failure);
    push_sweep(&mut lines, sweep);
    lines
}

// The line of the first failure, where there is one.
fn push_failure(lines: &mut Lines, failure: Option<Failure>)
    requires { length lines.old.bytes.items + 118 ≤ 512 }
    ensures bytes { lines.new.bytes.items ≡ lines.old.bytes.items ++ failure_lines failure }
    ensures len { length lines.new.bytes.items ≤ length lines.old.bytes.items + 118 }
{
    let Some(Failure { line, form, column }) = failure else {
        return;
    };
    lines.text("first failure line ");
    lines.number(line as u128);
    lines.text(" form ");
    lines.text(form_name(form));
    push_column(lines, column);
}

fn push_column(lines: &mut Lines, column: u8)
    requires { length lines.old.bytes.items + 49 ≤ 512 }
    ensures bytes { lines.new.bytes.items ≡ lines.old.bytes.items ++ column_end column }
    ensures len { length lines.new.bytes.items ≤ length lines.old.bytes.items + 49 }
{
    lines.text(" column ");
    lines.number(column as u128);
    lines.text("\n");
}

// The lines of the sweep, where there was one.
fn push_sweep(lines: &mut Lines, sweep: Option<Sweep>)
    requires { length lines.old.bytes.items + 131 ≤ 512 }
    ensures { lines.new.bytes.items ≡ lines.old.bytes.items ++ sweep_lines sweep }
{
    let Some(sweep) = sweep else {
        return;
    };
    lines.named("unlisted", sweep.unlisted as u128);
    lines.named("unlisted failed", sweep.failed as u128);
    push_first(lines, sweep.first);
}

// The line of the first character, where there is one.
fn push_first(lines: &mut Lines, first: Option<char>)
    requires { length lines.old.bytes.items + 24 ≤ 512 }
    ensures { lines.new.bytes.items ≡ lines.old.bytes.items ++ first_lines first }
{
    let Some(c) = first else {
        return;
    };
    lines.text("first unlisted U+");
    lines.code(c);
    lines.text("\n");
}
