//! Laws of the definitions, each the contract of a function without a body.
ghost use Rattle.std.specs.Prelude.{◌≡◌, ◌↔◌, ℕ, List, take, IsTrue};
ghost use Rattle.nf_forms.specs.Properties.{Properties};
ghost use Rattle.nf_safe.specs.LongestFront.{longest_front, IsLongestFront};
ghost use Rattle.nf_safe.specs.OneCount.{StaysSound, CountsTrail, DecidesJoiner, EndsInFormat};
ghost use Rattle.nf_forms.specs.StreamSafe.{joiner, stream_safe};
ghost use Rattle.nf_forms.specs.Sound.{is_sound};
ghost use Rattle.nf_forms.specs.Laws.Sound.{IsSoundText};
ghost use Rattle.nf_safe.specs.Place.{is_in_format, place};
ghost use Rattle.nf_safe.specs.Pieces.{IsGreedyCut, rejoined};

/// One count does the Stream-Safe Text Process. UAX #15 (section 13) defines by the NFKD of the whole output where
/// U+034F is put; where the characters of the output are sound, a `Counter` that goes over the compatibility
/// decompositions of the text counts what that NFKD ends in, so its answers are the definition's, and the output is in
/// the Stream-Safe Text Format. The output has sound characters where the text has, and U+034F is sound.
pub fn one_count_decides()
    ensures sound { StaysSound }
    ensures count { CountsTrail }
    ensures answer { DecidesJoiner }
    ensures format { EndsInFormat }
{}

/// The place of a text is the length of its longest front in the Stream-Safe Text Format. Each front of a text in the
/// format is in it, and the texts in the format are those without a place.
pub fn place_is_longest_front()
    ensures longest { (p : Properties) (x : List ℕ) → IsLongestFront (is_in_format p) x (longest_front (is_in_format p) x) }
    ensures fronts { (p : Properties) (x : List ℕ) (n : ℕ) → IsTrue (is_in_format p x) → IsTrue (is_in_format p (take n x)) }
    ensures none { (p : Properties) (x : List ℕ) → (place p x ≡ None) ↔ IsTrue (is_in_format p x) }
{}

/// A text of sound characters can be cut in one way into pieces each of which is the longest front of what is left that is
/// in the Stream-Safe Text Format. With U+034F between each two these are the stream-safe text, where U+034F is sound;
/// and the texts that the process leaves as they are, are those in the format.
pub fn the_process_joins_the_longest_pieces()
    ensures cut { (p : Properties) (x : List ℕ) → IsSoundText p x → (pieces : List (List ℕ)) × IsGreedyCut p x pieces }
    ensures only { (p : Properties) (x : List ℕ) (a b : List (List ℕ)) → IsGreedyCut p x a → IsGreedyCut p x b → a ≡ b }
    ensures joined { (p : Properties) → IsTrue (is_sound p joiner) → (x : List ℕ) → IsSoundText p x → (pieces : List (List ℕ))
        → IsGreedyCut p x pieces → stream_safe p x ≡ rejoined pieces }
    ensures unchanged { (p : Properties) (x : List ℕ) → IsSoundText p x → (stream_safe p x ≡ x) ↔ IsTrue (is_in_format p x) }
{}
