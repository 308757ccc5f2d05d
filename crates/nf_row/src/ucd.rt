ghost use Rattle.std.specs.Prelude.{◌≡◌, ◌≤◌, length, IfOk, IsOk, IsTrue};
ghost use Rattle.unicode_normalization.specs.Decompose.{decompose};
ghost use Rattle.nf_forms.specs.Ucd.{ucd};

use crate::rows::{Long, Row, Rows, row_from};
use unicode::properties::GeneralCategory;
use unicode_normalization::{Form, char as lookup};

/// The data of the Unicode Character Database, in the version that the tables of `unicode_normalization` and
/// `unicode` have.
#[derive(Clone, Copy, Debug, Default, PartialEq, Eq, Hash)]
pub struct Ucd;

#[tactic(auto, unfolding(nf_forms::specs::Ucd::ucd, nf_forms::specs::Ucd::is_assigned))]
impl Rows for Ucd {
    ghost use Rattle.nf_forms.specs.Ucd.{ucd};

    ghost properties = { λ _. ucd };

    #[inline]
    fn class(&self, c: char) -> u8 {
        lookup::canonical_combining_class(c)
    }

    #[inline]
    fn canonical(&self, c: char) -> Result<Row, Long> {
        row_in(c, Form::Nfd)
    }

    #[inline]
    fn compat(&self, c: char) -> Result<Row, Long> {
        row_in(c, Form::Nfkd)
    }

    #[inline]
    fn pair(&self, a: char, b: char) -> Option<char> {
        lookup::compose(a, b)
    }

    #[inline]
    fn assigned(&self, c: char) -> bool {
        GeneralCategory::for_char(c) != GeneralCategory::Unassigned
    }

    #[inline]
    fn is_ucd(&self) -> bool
        ensures { IsTrue result }
    {
        true
    }
}

/// The decomposition by the tables, and by arithmetic for a Hangul syllable.
#[inline]
fn row_in(c: char, form: Form) -> Result<Row, Long>
    ensures row { IfOk result (λ row. row.items ≡ decompose form c) }
    ensures fits { IsOk result × (length (decompose form c) ≤ 18) }
{
    let mut room = [c; 3];
    row_from(lookup::decomposition(c, form, &mut room))
}
