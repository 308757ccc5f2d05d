//! The decomposition of a character that a form asks for, lent from Unicode's tables, or from the caller's room where other
//! data gives it.

ghost use Rattle.std.specs.Prelude.{◌≡◌, ◌<◌, ◌≤◌, ◌↔◌, [], ◌∷◌, length, IsTrue, IsErr, IfOk};
ghost use Rattle.std.specs.Char.{IsScalar};
ghost use Rattle.nf_forms.specs.Forms.{row_of};

use crate::rows::{Long, Row, Rows};
use nf_facts::in_tables;
use nf_forms::Form;
use unicode_normalization::char::decomposition;

/// Room for the row of one character.
#[derive(Drop)]
pub struct RowRoom {
    row: Row,
    syllable: [char; 3],
}

impl RowRoom {
    /// Room for any row.
    #[inline]
    pub fn new() -> RowRoom {
        RowRoom {
            row: Row::new(),
            syllable: [' '; 3],
        }
    }
}

/// The decomposition of `c` that the form asks for: of Unicode's data by the tables, and by arithmetic for a Hangul syllable.
/// Refused exactly where it has more than 18 code points.
#[inline]
pub fn row_of<'r, R: Rows>(
    rows: &R,
    form: Form,
    c: char,
    room: &'r mut RowRoom,
) -> Result<&'r [char], Long>
    ensures row { IfOk result (λ row. (row.now ≡ row_of form (R.properties rows.now) c) × (length row.now ≤ 18)) }
    ensures long { IsErr result ↔ (18 < length (row_of form (R.properties rows.now) c)) }
{
    if rows.is_ucd() {
        return Ok(decomposition(c, in_tables(form), &mut room.syllable));
    }
    room.row = match form {
        Form::Nfc | Form::Nfd => rows.canonical(c)?,
        Form::Nfkc | Form::Nfkd => rows.compat(c)?,
    };
    Ok(room.row.as_slice())
}

/// Whether the decomposition of `c` that the form asks for is `c` alone.
pub fn is_own_row<R: Rows>(rows: &R, form: Form, c: char) -> bool
    ensures own { IsTrue result ↔ (row_of form (R.properties rows.now) c ≡ c ∷ []) }
    ensures scalar { IsScalar c }
{
    match row_of(rows, form, c, &mut RowRoom::new()) {
        Ok(row) => row == [c].as_slice(),
        Err(_) => false,
    }
}
