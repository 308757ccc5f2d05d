//! Laws of reading, each as the contract of a function that does nothing: a caller's proof has the law by a call.

ghost use Rattle.nf_utf8.specs.Laws.{ReadsLongestText, SplitsBytes, ReadsBack, ReadsPieces, TakesAsPushed, ReplacesSubparts};

/// Bytes read as the longest text that a front of them spells, with their ending, and as nothing else.
#[inline]
pub fn longest_text()
    ensures { ReadsLongestText }
{}

/// Bytes are those of their text and the rest.
#[inline]
pub fn split()
    ensures { SplitsBytes }
{}

/// The bytes of a text read as that text.
#[inline]
pub fn read_back()
    ensures { ReadsBack }
{}

/// A piece is read after the rest of what came before it, so it does not matter where bytes are cut into pieces.
#[inline]
pub fn pieces()
    ensures { ReadsPieces }
{}

/// A piece that is taken at once gives the characters and the end that pushing its bytes one by one gives.
#[inline]
#[tactic(auto, using(crate::proofs::PushesLemmas::pushed_text, crate::proofs::PushesLemmas::pushed_end))]
pub fn taken_as_pushed()
    ensures { TakesAsPushed }
{}

/// Ill-formed bytes may be read as U+FFFD, one for each maximal subpart.
#[inline]
pub fn replacing()
    ensures { ReplacesSubparts }
{}
