//! What takes bytes piece by piece, and answers what they come to.
ghost use Rattle.std.specs.Prelude.{◌≡◌, ◌+◌, ◌<◌, ◌↔◌, ℕ, List, ◌++◌, length, Some, None, Err, IfErr, IfSome, IsNone};
ghost use Rattle.nf_utf8.specs.Reading.{ending_of};
ghost use Rattle.nf_filter.specs.declared.fault.Fault.{Fault};
ghost use Rattle.nf_filter.specs.declared.fault.Fault.TheVariants.{TooLong, Read};
ghost use Rattle.nf_filter.specs.Faults.{answer_at_end};
ghost use Rattle.nf_filter.specs.Surveys.{Survey, IsOfBytes, IsCut};

use crate::fault::Fault;

/// What takes bytes piece by piece, and answers as soon as it is settled what they come to.
pub trait Surveyor: Drop {
    /// What is answered where no fault is.
    type Answer;

    /// It has taken the bytes, which decide nothing of what is asked. It may stand for more than one question.
    ghost has_taken: { Self → Survey Self.Answer → List ℕ → Type 0 };

    /// It takes more.
    ghost is_ready: { Self → Type 0 };

    /// The offset of the next byte.
    ghost offset: { Self → ℕ };

    /// The faults that are answered.
    ghost faults: { Fault → Type 0 };

    /// Takes the next bytes, and answers what is decided with them, if that is anything. Then it takes no more. `TooLong` is
    /// answered where the offset would pass `u64::MAX`, and there alone.
    fn take(&mut self, piece: &[u8]) -> Option<Result<Self::Answer, Fault>>
        requires { is_ready self.old }
        ensures too_long { (result ≡ Some (Err TooLong)) ↔ (u64.MAX < offset self.old + length piece.now) }
        ensures goes_on { IsNone result → is_ready self.new × (offset self.new ≡ offset self.old + length piece.now) }
        ensures faults { IfSome result (λ answer. IfErr answer (λ fault. faults fault × IsOfBytes fault)) }
        ensures decides { (survey : Survey Self.Answer) (bytes : List ℕ) → has_taken self.old survey bytes → ¬ (result ≡ Some (Err TooLong))
            → (result ≡ survey.decision (bytes ++ piece.now)) × (IsNone result → has_taken self.new survey (bytes ++ piece.now)) };

    /// Answers what the bytes come to, where they are all: `Cut` where they end inside a character.
    fn end(self) -> Result<Self::Answer, Fault>
        requires { is_ready self }
        ensures faults { IfErr result (λ fault. faults fault × IsCut fault) }
        ensures ends { (survey : Survey Self.Answer) (bytes : List ℕ) → has_taken self survey bytes
            → result ≡ answer_at_end survey.base (survey.value bytes) (ending_of bytes) };

    /// That bytes could not be read is among the faults.
    ghost reads: { faults Read };

    /// What it has taken decides nothing, and ends at its offset.
    ghost stands: { (surveyor : Self) → (survey : Survey Self.Answer) → (bytes : List ℕ) → has_taken surveyor survey bytes
        → (survey.decision bytes ≡ None) × (offset surveyor ≡ survey.base + length bytes) };
}
