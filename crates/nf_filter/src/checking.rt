ghost use Rattle.std.specs.Prelude.{◌≡◌, ◌↔◌, ◌<◌, length, None, IsTrue, IfErr};
ghost use Rattle.nf_filter.specs.Surveys.{Surveys, IsOfSurvey, IsCut};
ghost use Rattle.nf_filter.specs.Checks.{check_decision, no_place};

use crate::devices::Source;
use crate::fault::Fault;
use crate::reading::Reading;
use crate::sources::{BLOCK, survey};
use crate::taker::Taker;
use crate::text_reader::TextReader;
use nf_row::Rows;
use nf_safe::{Checker, Place};

/// Reads what the source gives until it is no longer in the Stream-Safe Text Format (UAX #15, section 13), and answers
/// that place; none where all of it is in the format. The first byte has the offset `base`. A fault that stands before
/// a place is answered in its stead: `Row` for an unsound character, `BadByte`, `Cut`, `Read` and `TooLong`. Of what
/// stands after the place nothing is told. At most 4,096 bytes are asked for at once.
pub fn check<R: Rows, I: Source>(
    rows: &R,
    base: u64,
    source: &mut I,
) -> Result<Option<Place>, Fault>
    ensures faults { IfErr result IsOfSurvey }
    ensures read { (result ≡ Err Fault.Read) ↔ IsTrue (I.state source.new).is_failed }
    ensures end { result ≡ Ok None → IsTrue (I.state source.new).is_at_end }
    ensures cut { IfErr result (λ fault. IsCut fault → IsTrue (I.state source.new).is_at_end) }
    ensures surveys { let p = R.properties rows.now in
        Surveys 4096 base (check_decision p base) no_place (I.state source.old) (I.state source.new) result }
    ensures lender { (I.state source.new).lender ≡ (I.state source.old).lender }
{
    let mut buffer = [0; BLOCK];
    check_buffered(rows, base, source, &mut buffer)
}

/// The same in pieces of at most as many bytes as the buffer has, which is not empty. What stands in it is overwritten.
pub fn check_buffered<R: Rows, I: Source>(
    rows: &R,
    base: u64,
    source: &mut I,
    buffer: &mut [u8],
) -> Result<Option<Place>, Fault>
    requires { 0 < length buffer.old }
    ensures faults { IfErr result IsOfSurvey }
    ensures read { (result ≡ Err Fault.Read) ↔ IsTrue (I.state source.new).is_failed }
    ensures end { result ≡ Ok None → IsTrue (I.state source.new).is_at_end }
    ensures cut { IfErr result (λ fault. IsCut fault → IsTrue (I.state source.new).is_at_end) }
    ensures surveys { let p = R.properties rows.now in
        Surveys (length buffer.old) base (check_decision p base) no_place (I.state source.old) (I.state source.new) result }
    ensures lender { (I.state source.new).lender ≡ (I.state source.old).lender }
{
    let reader = TextReader {
        reading: Reading::new(base),
        rows,
        taker: Checker::new(base),
    };
    survey(reader, source, buffer)
}

/// What is decided before the end: a place, or a fault.
type Decision = Result<Option<Place>, Fault>;

impl Taker for Checker {
    ghost use Rattle.nf_filter.specs.Checks.{HasChecked, ends_at, text_decision};
    ghost use Rattle.nf_filter.specs.Laws.Undecided.{checked_undecided};

    type Answer = Option<Place>;

    ghost has_taken = { HasChecked };

    ghost ends_at = { ends_at };

    ghost decides = { text_decision };

    ghost value = { λ p x. None };

    /// What is known to be in the format, and the character after that, which decides where it is unsound or the text leaves the
    /// format.
    fn take_front<'t, R: Rows>(
        &mut self,
        rows: &R,
        _at: u64,
        text: &'t str,
    ) -> Result<&'t str, Decision> {
        let rest = self.see_counted(rows, text);
        let mut chars = rest.chars();
        let Some(c) = chars.next() else {
            return Ok(rest);
        };
        match self.see(rows, c) {
            Ok(None) => Ok(chars.as_str()),
            Ok(Some(place)) => Err(Ok(Some(place))),
            Err(_) => Err(Err(Fault::Row { at: self.offset() })),
        }
    }

    fn end(&self) -> Option<Place> {
        None
    }

    ghost undecided = { checked_undecided };
}
