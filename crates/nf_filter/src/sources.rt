//! Reading a source.
ghost use Rattle.std.specs.Prelude.{◌≡◌, ◌<◌, ◌≤◌, ◌↔◌, [], length, Err, None, IfErr, IsTrue};
ghost use Rattle.nf_filter.specs.declared.fault.Fault.TheVariants.{Read};
ghost use Rattle.nf_filter.specs.Surveys.{Survey, Surveys, IsCut};

use crate::devices::{Failed, Source};
use crate::fault::Fault;
use crate::surveyor::Surveyor;

/// The most bytes that are asked of a source at once, where the caller lends no buffer.
pub const BLOCK: usize = 4096;

/// Gives the surveyor what the source gives, in pieces that fit into the buffer, which is not empty, until it answers or the
/// source ends. `Read` is answered where the source fails, and there alone.
pub fn survey<I: Source, S: Surveyor>(
    mut surveyor: S,
    source: &mut I,
    buffer: &mut [u8],
) -> Result<S::Answer, Fault>
    requires some { 0 < length buffer.old }
    requires ready { S.is_ready surveyor }
    requires fits { S.offset surveyor ≤ u64.MAX }
    ensures faults { IfErr result S.faults }
    ensures read { (result ≡ Err Read) ↔ IsTrue (I.state source.new).is_failed }
    ensures cut { IfErr result (λ fault. IsCut fault → IsTrue (I.state source.new).is_at_end) }
    ensures surveys { (survey : Survey S.Answer) → S.has_taken surveyor survey []
        → Surveys (length buffer.old) survey.base survey.decision survey.value (I.state source.old) (I.state source.new) result }
    ensures lender { (I.state source.new).lender ≡ (I.state source.old).lender }
{
    loop {
        let given = match source.get(buffer) {
            Ok(given) => given,
            Err(Failed) => return Err(Fault::Read),
        };
        if given == 0 {
            return surveyor.end();
        }
        if let Some(answer) = surveyor.take(&buffer[..given]) {
            return answer;
        }
    }
}
