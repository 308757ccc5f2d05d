ghost use Rattle.std.specs.Prelude.{◌≡◌};
ghost use Rattle.nf_forms.specs.Compose.{composite};

use crate::rows::Rows;
use nf_facts::laws;

/// The primary composite of `a` and `b` (The Unicode Standard, section 3.11, D114): what the table of composites has
/// for them, where that is a starter. Of Unicode's data no class is asked, since each of its composites is one.
#[inline]
pub fn composite<R: Rows>(rows: &R, a: char, b: char) -> Option<char>
    ensures { result ≡ composite (R.properties rows.now) a b }
{
    laws::each_pair_has_a_primary_composite();
    let found = rows.pair(a, b);
    if rows.is_ucd() {
        return found;
    }
    found.filter(|c| rows.class(*c) == 0)
}
