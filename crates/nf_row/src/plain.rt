ghost use Rattle.std.specs.Prelude.{◌↔◌, IsTrue};
ghost use Rattle.nf_forms.specs.Ucd.{ucd};
ghost use Rattle.nf_row.specs.Ascii.{IsUnchanged, IsFirstInNone, IsPlainAscii};

use crate::lending::is_own_row;
use crate::rows::Rows;
use nf_facts::laws;
use nf_forms::Form;
use std::alloc::AllocError;

/// Character data of which it was seen that normalization leaves ASCII text as it is: each character of U+0000 to
/// U+007F is assigned, a starter, and alone its own decompositions, and the table of composites has nothing for two of
/// them.
pub struct Plain<'r, R: Rows> {
    rows: &'r R,
    ghost ascii: { IsPlainAscii (R.properties rows.now) },
}

impl<'r, R: Rows> Plain<'r, R> {
    ghost use Rattle.std.specs.Prelude.{◌≡◌, ◌↔◌, IsSome, IfSome};
    ghost use Rattle.nf_forms.specs.Ucd.{ucd};
    ghost use Rattle.nf_row.specs.Ascii.{IsPlainAscii};
    ghost use Rattle.nf_row.specs.Plain.{rows_of};

    /// The data, where that is so; none where one ASCII character or two are otherwise.
    pub fn of(rows: &'r R) -> Option<Plain<'r, R>>
        ensures plain { IsSome result ↔ IsPlainAscii (R.properties rows.now) }
        ensures rows { IfSome result (λ plain. rows_of plain ≡ rows.now) }
    {
        ascii_is_plain();
        if rows.is_ucd() || reads_plain(rows) {
            Some(Plain { rows })
        } else {
            None
        }
    }

    /// The data that it was made of.
    #[inline]
    pub fn rows(&self) -> &'r R
        ensures rows { result.now ≡ rows_of self.now }
        ensures plain { IsPlainAscii (R.properties result.now) }
    {
        self.rows
    }
}

impl<R: Rows> Clone for Plain<'_, R> {
    ghost use Rattle.std.specs.Prelude.{◌≡◌, ⊤};

    ghost is_clone = { λ x y. y ≡ x };

    ghost is_infallible = { λ _. ⊤ };

    #[inline]
    fn clone(&self) -> Result<Self, AllocError> {
        Ok(*self)
    }
}

impl<R: Rows> Copy for Plain<'_, R> {}

/// The data of the Unicode Character Database leaves ASCII text as it is.
pub fn ascii_is_plain()
    ensures { IsPlainAscii ucd }
{
    laws::ascii_is_plain();
}

/// Whether ASCII text is left as it is, by a look at each ASCII character and at each two.
fn reads_plain<R: Rows>(rows: &R) -> bool
    ensures { IsTrue result ↔ IsPlainAscii (R.properties rows.now) }
{
    for code in 0..0x80u8 {
        let a = char::from(code);
        if !is_unchanged(rows, a) || !is_first_in_none(rows, a) {
            return false;
        }
    }
    true
}

/// Whether `c` alone is left as it is.
fn is_unchanged<R: Rows>(rows: &R, c: char) -> bool
    ensures { IsTrue result ↔ IsUnchanged (R.properties rows.now) c }
{
    is_own_row(rows, Form::Nfd, c)
        && is_own_row(rows, Form::Nfkd, c)
        && rows.class(c) == 0
        && rows.assigned(c)
}

/// Whether the table of composites has nothing for `a` and then an ASCII character.
fn is_first_in_none<R: Rows>(rows: &R, a: char) -> bool
    ensures { IsTrue result ↔ IsFirstInNone (R.properties rows.now) a }
{
    for second in 0..0x80u8 {
        if rows.pair(a, char::from(second)).is_some() {
            return false;
        }
    }
    true
}
