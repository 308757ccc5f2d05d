//! What sees the text that is read.
ghost use Rattle.std.specs.Prelude.{◌≡◌, ◌+◌, ◌-◌, ◌<◌, ◌≤◌, ℕ, List, [], ◌∷◌, Option, None, Result, ◌++◌, length, chars, IfOk, IfErr, IfSome, IsNone, encode_utf8_all};
ghost use Rattle.nf_forms.specs.Properties.{Properties};
ghost use Rattle.nf_filter.specs.declared.fault.Fault.{Fault};
ghost use Rattle.nf_filter.specs.Kinds.{row, IsAmong};
ghost use Rattle.nf_filter.specs.Taker.{TakesText, TakesFront};

use crate::fault::Fault;
use nf_row::Rows;

/// What takes a text, as it comes in, and writes nothing.
pub trait Taker: Drop {
    /// What is told of the text.
    type Answer;

    /// It has taken this text, the first byte of which has this offset.
    ghost has_taken: { Properties → Self → ℕ → List ℕ → Type 0 };

    /// The text that it has taken ends at this offset, and what it counts fits below it.
    ghost ends_at: { Self → ℕ → Type 0 };

    /// What a text that begins at this offset decides, before its end.
    ghost decides: { Properties → ℕ → List ℕ → Option (Result Self.Answer Fault) };

    /// What a text comes to that decides nothing.
    ghost value: { Properties → List ℕ → Self.Answer };

    /// Takes a front of a text that begins at the offset `at`. Answers what stands after it, or what is decided with it, if
    /// that is anything: then it takes no more.
    fn take_front<'t, R: Rows>(
        &mut self,
        rows: &R,
        at: u64,
        text: &'t str,
    ) -> Result<&'t str, Result<Self::Answer, Fault>>
        requires some { 0 < length text.now }
        requires ready { ends_at self.old at }
        requires fits { at + length text.now ≤ u64.MAX }
        ensures shorter { IfOk result (λ rest. length rest.now < length text.now) }
        ensures ready { IfOk result (λ rest. ends_at self.new (at + (length text.now - length rest.now))) }
        ensures unsound { IfErr result (λ answer. IfErr answer (IsAmong (row ∷ []))) }
        ensures takes { let p = R.properties rows.now in
            (base : ℕ) (x : List ℕ) → has_taken p self.old base x → at ≡ base + length (encode_utf8_all x)
            → TakesFront (has_taken p self.new base) (decides p base) x text.now result };

    /// What is answered of all that it has taken.
    fn end(&self) -> Self::Answer
        ensures { (p : Properties) (base : ℕ) (x : List ℕ) → has_taken p self.now base x → result ≡ value p x };

    /// What it has taken decides nothing.
    ghost undecided: { (p : Properties) → (taker : Self) → (base : ℕ) → (x : List ℕ) → has_taken p taker base x → decides p base x ≡ None };
}

/// Gives the taker a text that begins at the offset `at`, up to what decides.
pub fn take_text<R: Rows, T: Taker>(
    taker: &mut T,
    rows: &R,
    at: u64,
    text: &str,
) -> Option<Result<T::Answer, Fault>>
    requires ready { T.ends_at taker.old at }
    requires fits { at + length text.now ≤ u64.MAX }
    ensures ready { IsNone result → T.ends_at taker.new (at + length text.now) }
    ensures unsound { IfSome result (λ answer. IfErr answer (IsAmong (row ∷ []))) }
    ensures takes { let p = R.properties rows.now in
        (base : ℕ) (x : List ℕ) → T.has_taken p taker.old base x → at ≡ base + length (encode_utf8_all x)
        → TakesText (T.has_taken p taker.new base) (T.decides p base) (x ++ chars text.now) result }
{
    let mut rest = text;
    while !rest.is_empty() {
        let place = at + (text.len() - rest.len()) as u64;
        match taker.take_front(rows, place, rest) {
            Ok(after) => rest = after,
            Err(answer) => return Some(answer),
        }
    }
    None
}
