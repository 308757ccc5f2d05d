//! One comparison: what a form makes of a text, with what it must give.
ghost use Rattle.std.specs.Prelude.{◌≡◌, ◌<◌, ◌^◌, ℕ, List, encode_utf8_all, length};
ghost use Rattle.nf_vectors.specs.Comparison.{holds, leaves_format};

use nf_filter::{Comparing, convert};
use nf_row::{Form, Rows};
use nf_safe::Checker;
use nf_utf8::laws;

/// Whether the filter takes the text and gives exactly what is expected.
pub(crate) fn holds<R: Rows>(rows: &R, form: Form, text: &str, expected: &str) -> bool
    ensures { (x e : List ℕ) → text.now ≡ encode_utf8_all x → expected.now ≡ encode_utf8_all e
        → result ≡ holds form (R.properties rows.now) x e }
{
    laws::read_back();
    let mut sink = Comparing::new(expected.as_bytes(), &[]);
    let is_taken = convert(rows, form, text.as_bytes(), &mut sink).is_ok();
    is_taken & sink.is_met()
}

/// Whether the characters of the column before any unsound one leave the Stream-Safe Text Format (UAX #15, section 13).
pub(crate) fn leaves_format<R: Rows>(rows: &R, column: &[char]) -> bool
    requires { length column.now < 2 ^ 32 }
    ensures { result ≡ leaves_format (R.properties rows.now) column.now }
{
    let mut checker = Checker::new(0);
    for c in column {
        match checker.see(rows, *c) {
            Ok(None) => {}
            Ok(Some(_)) => return true,
            Err(_) => return false,
        }
    }
    false
}
