ghost use Rattle.std.specs.Prelude.{◌≡◌, ◌+◌, ◌<◌, ◌^◌, false, IfOk, string_bytes, encode_utf8_all};
ghost use Rattle.nf_vectors.specs.Suite.{VectorRow};
ghost use Rattle.nf_vectors.specs.Comparison.{expected, holds_at, is_skipped};
ghost use Rattle.nf_vectors.specs.Report.{failure_in, failure_of, verdict_of, report_and};
ghost use Rattle.nf_vectors.specs.Columns.{Columns as Texts, each, AreShort};

use crate::columns::{Column, Columns};
use crate::comparison::{holds, leaves_format};
use crate::fault::Memory;
use crate::report::{Failure, Report, Verdict};
use crate::suite::Suite;
use nf_row::{Form, Rows};
use std::alloc::Global;

/// The columns in the order of the file.
const COLUMNS: [Column; 5] = [
    Column::Source,
    Column::Nfc,
    Column::Nfd,
    Column::Nfkc,
    Column::Nfkd,
];

impl Suite {
    ghost use Rattle.nf_vectors.specs.SuiteView.{rows_of};
    ghost use Rattle.nf_vectors.specs.Report.{report_of};

    /// Makes the comparisons of each row: the form of the stream-safe text of each column must be what the row says.
    pub fn check<R: Rows>(&self, alloc: Global, rows: &R) -> Result<Report, Memory>
        ensures report { IfOk result (λ report. report ≡ report_of (R.properties rows.now) (rows_of self.now)) }
        ensures sum { IfOk result (λ report. report.rows ≡ report.passed + report.failed + report.skipped) }
    {
        let mut report = Report {
            rows: 0,
            passed: 0,
            failed: 0,
            skipped: 0,
            first_failure: None,
        };
        let mut encoded = Columns::<String>::new(alloc);
        for entry in self.entries.as_slice() {
            let columns = Columns::<&[char]>::of(self.text.as_slice(), entry.columns);
            let verdict = verdict(rows, entry.line, columns, &mut encoded)?;
            report = and(report, verdict);
        }
        Ok(report)
    }
}

/// The report with one row more.
fn and(report: Report, verdict: Verdict) -> Report
    requires few { report.rows < 2 ^ 31 }
    requires sum { report.rows ≡ report.passed + report.failed + report.skipped }
    ensures { result ≡ report_and report verdict }
{
    let rows = report.rows + 1;
    match verdict {
        Verdict::Skipped => Report {
            rows,
            skipped: report.skipped + 1,
            ..report
        },
        Verdict::Passed => Report {
            rows,
            passed: report.passed + 1,
            ..report
        },
        Verdict::Failed(failure) => Report {
            rows,
            failed: report.failed + 1,
            first_failure: report.first_failure.or(Some(failure)),
            ..report
        },
    }
}

fn verdict<R: Rows>(
    rows: &R,
    line: u32,
    columns: Columns<&[char]>,
    encoded: &mut Columns<String>,
) -> Result<Verdict, Memory>
    requires { AreShort (each columns (λ column. column.now)) }
    ensures { (row : VectorRow) → row.line ≡ line → row.columns ≡ each columns.entry (λ column. column.now)
        → IfOk result (λ verdict. verdict ≡ verdict_of (R.properties rows.now) row) }
{
    if is_skipped(rows, columns) {
        return Ok(Verdict::Skipped);
    }
    encoded.encode(columns).map_err(|_| Memory)?;
    match failure(rows, line, encoded) {
        None => Ok(Verdict::Passed),
        Some(failure) => Ok(Verdict::Failed(failure)),
    }
}

fn is_skipped<R: Rows>(rows: &R, columns: Columns<&[char]>) -> bool
    requires { AreShort (each columns (λ column. column.now)) }
    ensures { result ≡ is_skipped (R.properties rows.now) (each columns.entry (λ column. column.now)) }
{
    let source = leaves_format(rows, columns.source);
    let nfc = leaves_format(rows, columns.nfc);
    let nfd = leaves_format(rows, columns.nfd);
    let nfkc = leaves_format(rows, columns.nfkc);
    let nfkd = leaves_format(rows, columns.nfkd);
    // All five are known by now: `|`, since each `||` would be a case of its own to prove.
    source | nfc | nfd | nfkc | nfkd
}

/// The first comparison that does not hold.
fn failure<R: Rows>(rows: &R, line: u32, encoded: &Columns<String>) -> Option<Failure>
    ensures { (columns : Texts) → each encoded.now string_bytes ≡ each columns encode_utf8_all
        → result ≡ failure_of (R.properties rows.now) line columns }
{
    let nfc = failure_in(rows, Form::Nfc, line, encoded);
    let nfd = failure_in(rows, Form::Nfd, line, encoded);
    let nfkc = failure_in(rows, Form::Nfkc, line, encoded);
    let nfkd = failure_in(rows, Form::Nfkd, line, encoded);
    nfc.or(nfd.or(nfkc.or(nfkd)))
}

/// The first comparison that does not hold in this form.
fn failure_in<R: Rows>(
    rows: &R,
    form: Form,
    line: u32,
    encoded: &Columns<String>,
) -> Option<Failure>
    ensures { (columns : Texts) → each encoded.now string_bytes ≡ each columns encode_utf8_all
        → result ≡ failure_in form (R.properties rows.now) line columns }
{
    for column in COLUMNS.as_slice() {
        if !holds_at(rows, form, encoded, *column) {
            return Some(Failure {
                line,
                form,
                column: column.number(),
            });
        }
    }
    None
}

/// Whether it holds of this column in this form.
fn holds_at<R: Rows>(rows: &R, form: Form, encoded: &Columns<String>, column: Column) -> bool
    ensures { (columns : Texts) → each encoded.now string_bytes ≡ each columns encode_utf8_all
        → result ≡ holds_at form (R.properties rows.now) columns column }
{
    let wanted = encoded.at(expected(form, column));
    holds(rows, form, encoded.at(column), wanted)
}

/// The column whose text the form must give of this one.
fn expected(form: Form, column: Column) -> Column
    ensures { result ≡ expected form column }
{
    let is_compat = matches!(column, Column::Nfkc | Column::Nfkd);
    match form {
        Form::Nfc if !is_compat => Column::Nfc,
        Form::Nfd if !is_compat => Column::Nfd,
        Form::Nfc | Form::Nfkc => Column::Nfkc,
        Form::Nfd | Form::Nfkd => Column::Nfkd,
    }
}
