use nf_row::Form;

/// What the rows of a vector file come to.
#[derive(Clone, Copy, Debug, PartialEq, Eq)]
pub struct Report {
    /// The rows: those that passed, those that failed, and those that were skipped.
    pub rows: u32,
    /// Rows of which all twenty comparisons hold.
    pub passed: u32,
    pub failed: u32,
    /// Rows with a column that is not in the Stream-Safe Text Format (UAX #15, section 13).
    pub skipped: u32,
    /// In the first row that failed, the first comparison that does not hold.
    pub first_failure: Option<Failure>,
}

/// A comparison that does not hold: of what the form makes of the column with what the row says.
#[derive(Clone, Copy, Debug, PartialEq, Eq)]
pub struct Failure {
    /// The row's line, from 1.
    pub line: u32,
    pub form: Form,
    /// The column, 1 to 5.
    pub column: u8,
}

/// What one row comes to.
#[derive(Clone, Copy, Debug, PartialEq, Eq)]
pub(crate) enum Verdict {
    Skipped,
    Passed,
    Failed(Failure),
}
