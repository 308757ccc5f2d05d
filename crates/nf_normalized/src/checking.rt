ghost use Rattle.std.specs.Prelude.{◌≡◌, ◌<◌, ◌↔◌, length, Ok, Err, None, IsTrue, IfErr};
ghost use Rattle.nf_filter.specs.Surveys.{Surveys, IsCut};
ghost use Rattle.nf_normalized.specs.Change.{form_decision, form_value};
ghost use Rattle.nf_normalized.specs.Checker.{IsOfText};

use crate::checker::FormChecker;
use nf_filter::{Fault, Source, Surveyor, survey};
use nf_row::Form;
use nf_safe::Place;

/// The most bytes that are asked of a source at once, where the caller lends no buffer.
const BLOCK: usize = 4096;

/// Reads what the source gives until it is settled that it is not in the form, or not stream-safe, and answers the place of the
/// first character that the form changes; none where the form of the stream-safe text is the text. The first byte has the offset
/// `base`. A fault that comes before the place is settled is answered in its stead: `BadByte`, `Cut`, `Read` and `TooLong`, and
/// `Unassigned` where `assigned` is set. Of what stands after the place nothing is told. At most 4,096 bytes are asked for at
/// once.
pub fn check_form<I: Source>(
    form: Form,
    assigned: bool,
    base: u64,
    source: &mut I,
) -> Result<Option<Place>, Fault>
    ensures faults { IfErr result IsOfText }
    ensures read { (result ≡ Err Fault.Read) ↔ IsTrue (I.state source.new).is_failed }
    ensures end { result ≡ Ok None → IsTrue (I.state source.new).is_at_end }
    ensures cut { IfErr result (λ fault. IsCut fault → IsTrue (I.state source.new).is_at_end) }
    ensures surveys { Surveys 4096 base (form_decision assigned form base) (form_value form base) (I.state source.old) (I.state source.new) result }
    ensures lender { (I.state source.new).lender ≡ (I.state source.old).lender }
{
    let mut buffer = [0; BLOCK];
    check_form_buffered(form, assigned, base, source, &mut buffer)
}

/// The same in pieces of at most as many bytes as the buffer has, which is not empty. What stands in it is overwritten.
pub fn check_form_buffered<I: Source>(
    form: Form,
    assigned: bool,
    base: u64,
    source: &mut I,
    buffer: &mut [u8],
) -> Result<Option<Place>, Fault>
    requires { 0 < length buffer.old }
    ensures faults { IfErr result IsOfText }
    ensures read { (result ≡ Err Fault.Read) ↔ IsTrue (I.state source.new).is_failed }
    ensures end { result ≡ Ok None → IsTrue (I.state source.new).is_at_end }
    ensures cut { IfErr result (λ fault. IsCut fault → IsTrue (I.state source.new).is_at_end) }
    ensures surveys { Surveys (length buffer.old) base (form_decision assigned form base) (form_value form base) (I.state source.old) (I.state source.new) result }
    ensures lender { (I.state source.new).lender ≡ (I.state source.old).lender }
{
    survey(FormChecker::new(form, assigned, base), source, buffer)
}

impl Surveyor for FormChecker {
    ghost use Rattle.std.proofs.Common.{◌∙◌};
    ghost use Rattle.nf_filter.specs.Filter.{offset_of};
    ghost use Rattle.nf_normalized.specs.Checker.{filter_state, IsUnderWay, HasSurveyed};

    type Answer = Option<Place>;

    ghost has_taken = { HasSurveyed };

    ghost is_ready = { IsUnderWay };

    ghost offset = { λ checker. offset_of (filter_state checker) };

    ghost faults = { IsOfText };

    fn take(&mut self, piece: &[u8]) -> Option<Result<Option<Place>, Fault>> {
        match self.feed(piece) {
            Ok(None) => None,
            Ok(place) => Some(Ok(place)),
            Err(fault) => Some(Err(fault)),
        }
    }

    fn end(self) -> Result<Option<Place>, Fault> {
        self.finish()
    }

    ghost reads = { tt };

    ghost stands = { λ checker survey bytes taken. (taken.decides bytes ∙ taken.stands.undecided, taken.offset) };
}
