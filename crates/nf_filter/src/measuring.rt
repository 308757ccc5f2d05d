ghost use Rattle.std.specs.Prelude.{◌≡◌, ◌<◌, ◌↔◌, length, IsTrue, IfErr, OnOk};
ghost use Rattle.nf_filter.specs.Surveys.{Surveys, IsOfSurvey, IsCut};
ghost use Rattle.nf_filter.specs.Measures.{measure_decision, text_measure};

use crate::devices::Source;
use crate::fault::Fault;
use crate::reading::Reading;
use crate::sources::{BLOCK, survey};
use crate::taker::Taker;
use crate::text_reader::TextReader;
use nf_row::Rows;
use nf_safe::{Measure, Measurer};

/// Reads all that the source gives, and answers what is measured of it. The first byte has the offset `base`. The first
/// fault is answered in its stead: `Row`, where a filter would answer it, `BadByte`, `Cut`, `Read` and `TooLong`. At most
/// 4,096 bytes are asked for at once.
pub fn measure<R: Rows, I: Source>(rows: &R, base: u64, source: &mut I) -> Result<Measure, Fault>
    ensures faults { IfErr result IsOfSurvey }
    ensures read { (result ≡ Err Fault.Read) ↔ IsTrue (I.state source.new).is_failed }
    ensures end { OnOk result (IsTrue (I.state source.new).is_at_end) }
    ensures cut { IfErr result (λ fault. IsCut fault → IsTrue (I.state source.new).is_at_end) }
    ensures surveys { let p = R.properties rows.now in
        Surveys 4096 base (measure_decision p base) (text_measure p) (I.state source.old) (I.state source.new) result }
    ensures lender { (I.state source.new).lender ≡ (I.state source.old).lender }
{
    let mut buffer = [0; BLOCK];
    measure_buffered(rows, base, source, &mut buffer)
}

/// The same in pieces of at most as many bytes as the buffer has, which is not empty. What stands in it is overwritten.
pub fn measure_buffered<R: Rows, I: Source>(
    rows: &R,
    base: u64,
    source: &mut I,
    buffer: &mut [u8],
) -> Result<Measure, Fault>
    requires { 0 < length buffer.old }
    ensures faults { IfErr result IsOfSurvey }
    ensures read { (result ≡ Err Fault.Read) ↔ IsTrue (I.state source.new).is_failed }
    ensures end { OnOk result (IsTrue (I.state source.new).is_at_end) }
    ensures cut { IfErr result (λ fault. IsCut fault → IsTrue (I.state source.new).is_at_end) }
    ensures surveys { let p = R.properties rows.now in
        Surveys (length buffer.old) base (measure_decision p base) (text_measure p) (I.state source.old) (I.state source.new) result }
    ensures lender { (I.state source.new).lender ≡ (I.state source.old).lender }
{
    let reader = TextReader {
        reading: Reading::new(base),
        rows,
        taker: Measurer::new(),
    };
    survey(reader, source, buffer)
}

impl Taker for Measurer {
    ghost use Rattle.nf_safe.specs.Measures.{measure_of};
    ghost use Rattle.nf_filter.specs.Measures.{HasMeasured, ends_at, unusable_decision};
    ghost use Rattle.nf_filter.specs.Laws.Undecided.{measured_undecided};

    type Answer = Measure;

    ghost has_taken = { HasMeasured };

    ghost ends_at = { ends_at };

    ghost decides = { unusable_decision };

    ghost value = { measure_of };

    /// What is known of it by one look-up for each character, and the character after that. A character that a filter would
    /// refuse decides.
    fn take_front<'t, R: Rows>(
        &mut self,
        rows: &R,
        at: u64,
        text: &'t str,
    ) -> Result<&'t str, Result<Measure, Fault>> {
        let rest = self.see_counted(rows, text);
        let mut chars = rest.chars();
        let Some(c) = chars.next() else {
            return Ok(rest);
        };
        match self.see(rows, c) {
            Ok(()) => Ok(chars.as_str()),
            Err(_) => {
                let seen = (text.len() - rest.len()) as u64;
                Err(Err(Fault::Row { at: at + seen }))
            }
        }
    }

    fn end(&self) -> Measure {
        self.values()
    }

    ghost undecided = { measured_undecided };
}
