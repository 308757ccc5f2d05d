ghost use Rattle.std.specs.Prelude.{◌≡◌, ◌<◌, ◌↔◌, length, IsErr, IfOk, IsTrue};
ghost use Rattle.nf_forms.specs.Properties.{Properties};
ghost use Rattle.nf_forms.specs.Ucd.{ucd};

use arrayvec::ArrayVec;

/// The full decomposition of one character: at most 18 code points, which is the most that one of Unicode's has.
pub type Row = ArrayVec<char, 18>;

/// The refusal of a decomposition of more than 18 code points.
#[derive(Clone, Copy, Debug, PartialEq, Eq, Hash)]
pub struct Long;

/// What normalization asks of character data. Each answer is a fixed function of the value and the arguments.
pub trait Rows {
    /// What the data says of every code point.
    ghost properties: { Self → Properties };

    /// The canonical combining class of `c`, 0 to 255 (The Unicode Standard, section 3.11, D104).
    fn class(&self, c: char) -> u8
        ensures { result ≡ (properties self.now).class c };

    /// The full canonical decomposition of `c` (D68). Refused exactly where it has more than 18 code points.
    fn canonical(&self, c: char) -> Result<Row, Long>
        ensures row { IfOk result (λ row. row.items ≡ (properties self.now).canonical c) }
        ensures long { IsErr result ↔ (18 < length ((properties self.now).canonical c)) };

    /// The full compatibility decomposition of `c` (D65). Refused exactly where it has more than 18 code points.
    fn compat(&self, c: char) -> Result<Row, Long>
        ensures row { IfOk result (λ row. row.items ≡ (properties self.now).compat c) }
        ensures long { IsErr result ↔ (18 < length ((properties self.now).compat c)) };

    /// What the table of composites has for `a` and then `b`, whether or not that is a starter.
    fn pair(&self, a: char, b: char) -> Option<char>
        ensures { result ≡ (properties self.now).pair a b };

    /// Whether `c` is assigned: its general category is not Cn. Noncharacters are Cn, private use characters are not.
    fn assigned(&self, c: char) -> bool
        ensures { result ≡ (properties self.now).assigned c };

    /// Whether it is known that this is the data of the Unicode Character Database, of which more is known than is asked here.
    /// Other data leaves it out.
    #[inline]
    fn is_ucd(&self) -> bool
        ensures { IsTrue result → properties self.now ≡ ucd }
    {
        false
    }
}

/// The members as a row. Refused exactly where there are more than 18.
#[inline]
pub(crate) fn row_from(members: &[char]) -> Result<Row, Long>
    ensures row { IfOk result (λ row. row.items ≡ members.now) }
    ensures long { IsErr result ↔ (18 < length members.now) }
{
    Row::try_from(members).map_err(|_| Long)
}
