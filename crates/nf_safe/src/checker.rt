ghost use Rattle.std.specs.Prelude.{◌≤◌};

use crate::counter::Counter;
use crate::place::Place;
use nf_counts::counted_front;
use nf_row::{RowRoom, Rows, Rule, Unsound, sound_row};
use nf_utf8::char_count;

/// Finds where a text leaves the Stream-Safe Text Format, character by character.
#[derive(Clone, Copy, Debug)]
pub struct Checker {
    counter: Counter,
    /// The characters seen before any that breaks the format, and the offset of their end.
    reached: Place,
    is_over: bool,
    ghost chars_within: { reached.chars ≤ reached.bytes },
}

impl Checker {
    ghost use Rattle.std.specs.Prelude.{◌≡◌, ◌+◌, ◌≤◌, ◌↔◌, ℕ, List, [], ◌∷◌, ◌++◌, length, IsNone, IsErr, IfSome, IfOk, IfErr, OnOk, IsFalse, encode_utf8, encode_utf8_all};
    ghost use Rattle.nf_forms.specs.Properties.{Properties};
    ghost use Rattle.nf_forms.specs.Sound.{is_sound};
    ghost use Rattle.nf_forms.specs.StreamSafe.{stream_safe};
    ghost use Rattle.nf_forms.specs.Laws.Sound.{IsSoundText};
    ghost use Rattle.nf_safe.specs.Checker.{place_of, offset_of, StandsAfter, HasSeen};

    /// A checker at the start of a text, the first byte of which has the offset `base`.
    #[inline]
    pub const fn new(base: u64) -> Checker
        ensures offset { offset_of result ≡ base }
        ensures place { place_of result ≡ None }
        ensures stands { (p : Properties) → StandsAfter base p result [] }
    {
        Checker {
            counter: Counter::new(),
            reached: Place {
                chars: 0,
                bytes: base,
            },
            is_over: false,
        }
    }

    /// The offset of the end of what was seen, in bytes; from a place on, that of the place.
    #[inline]
    pub fn offset(&self) -> u64
        ensures { result ≡ offset_of self.now }
    {
        self.reached.bytes
    }

    /// Sees the next character, and answers the place where the text has left the format, if it has. A place stays:
    /// from then on nothing changes and nothing is refused. Until then an unsound character is refused (`Rule::A1`), and
    /// nothing changes.
    pub fn see<R: Rows>(&mut self, rows: &R, c: char) -> Result<Option<Place>, Unsound>
        requires { IsNone (place_of self.old) → offset_of self.old + length (encode_utf8 c) ≤ u64.MAX }
        ensures found { IfSome (place_of self.old) (λ place. (result ≡ Ok (Some place)) × (self.new ≡ self.old)) }
        ensures refuses { IsNone (place_of self.old) → (IsErr result ↔ IsFalse (is_sound (R.properties rows.now) c)) }
        ensures refused { IfErr result (λ e. (e ≡ record { c = c; rule = Rule.A1 }) × (self.new ≡ self.old)) }
        ensures place { IfOk result (λ place. place ≡ place_of self.new) }
        ensures offset { IsNone (place_of self.old) → IfOk result (λ place. IsNone place → offset_of self.new ≡ offset_of self.old + length (encode_utf8 c)) }
        ensures stands { (base : ℕ) (x : List ℕ) → StandsAfter base (R.properties rows.now) self.old x
            → OnOk result (StandsAfter base (R.properties rows.now) self.new (x ++ c ∷ [])) }
    {
        if self.is_over {
            return Ok(Some(self.reached));
        }
        let mut room = RowRoom::new();
        let Some(read) = sound_row(rows, c, &mut room) else {
            return Err(Unsound { c, rule: Rule::A1 });
        };
        if self.counter.step_by(read.ends) {
            self.is_over = true;
            return Ok(Some(self.reached));
        }
        let len = c.len_utf8() as u64;
        self.reached = Place {
            chars: self.reached.chars + 1,
            bytes: self.reached.bytes + len,
        };
        Ok(None)
    }

    /// Sees the front of the text of which the non-starters are known by one look-up for each character (`counted_front`), for
    /// Unicode's data: the text does not leave the format there. Answers what follows.
    #[inline]
    pub fn see_counted<'t, R: Rows>(&mut self, rows: &R, text: &'t str) -> &'t str
        requires none { place_of self.old ≡ None }
        requires fits { offset_of self.old + length text.now ≤ u64.MAX }
        ensures none { place_of self.new ≡ None }
        ensures shorter { length result.now ≤ length text.now }
        ensures offset { offset_of self.new + length result.now ≡ offset_of self.old + length text.now }
        ensures sees { let p = R.properties rows.now in
            (base : ℕ) (x : List ℕ) → StandsAfter base p self.old x → HasSeen base p self.new x text.now result.now }
    {
        if !rows.is_ucd() {
            return text;
        }
        let counted = counted_front(self.counter.room(), text);
        self.counter.pass(&counted.counts);
        self.reached = Place {
            chars: self.reached.chars + char_count(counted.front) as u64,
            bytes: self.reached.bytes + counted.front.len() as u64,
        };
        counted.rest
    }

    /// Where the text has left the format; none while it is in it, and so while the Stream-Safe Text Process leaves it as
    /// it is.
    #[inline]
    pub fn place(&self) -> Option<Place>
        ensures place { result ≡ place_of self.now }
        ensures unchanged { (base : ℕ) (p : Properties) (x : List ℕ) → StandsAfter base p self.now x → IsSoundText p x
            → (result ≡ None) ↔ (stream_safe p x ≡ x) }
    {
        self.is_over.then_some(self.reached)
    }
}
