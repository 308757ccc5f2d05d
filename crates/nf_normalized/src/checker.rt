//! The machine that is fed a text.
ghost use Rattle.std.specs.Prelude.{◌≡◌, ◌+◌, ◌≤◌, ◌++◌, false, length, None};
ghost use Rattle.nf_filter.specs.Filter.{state_of, is_spent};
ghost use Rattle.nf_normalized.specs.Holds.{HoldsSome};
ghost use Rattle.nf_filter.specs.Comparing.{same};
ghost use Rattle.nf_normalized.specs.Places.{PlaceFits, IsAfter};

use crate::counting::text_in;
use crate::laws::little_is_kept;
use arrayvec::ArrayVec;
use nf_facts::laws::{each_form_changes_a_text_once, every_character_is_sound};
use nf_filter::{Comparing, Fault, Filter, Policy};
use nf_row::{Form, Ucd};
use nf_safe::Place;
use nf_utf8::laws::{longest_text, pieces, read_back, replacing, split};

/// The most bytes that are kept: of 78 characters, and those of a begun one.
const MOST: usize = 315;

/// Finds where a text, which comes in pieces, is not in the form that it was made for, or not stream-safe.
#[derive(Drop)]
pub struct FormChecker {
    filter: Filter<'static, Ucd>,
    /// What was read and is not settled.
    held: ArrayVec<u8, MOST>,
    place: Option<Place>,
    ghost holds: { place ≡ None → is_spent (state_of filter) ≡ false → ∥ HoldsSome (state_of filter) held.items ∥₁ },
}

impl FormChecker {
    ghost use Rattle.std.specs.Prelude.{◌≡◌, ◌↔◌, ◌+◌, ◌<◌, ◌≤◌, Bool, ℕ, List, [], ◌++◌, length, false, Ok, Err, Some, None, IfOk, IfSome, IsNone, IfErr, IsTrue, IsFalse};
    ghost use Rattle.nf_forms.specs.declared.form.Form.{Form};
    ghost use Rattle.nf_utf8.specs.Reading.{ending_of};
    ghost use Rattle.nf_filter.specs.Faults.{answer_at_end};
    ghost use Rattle.nf_filter.specs.Filter.{base_of, offset_of, is_spent};
    ghost use Rattle.nf_normalized.specs.Change.{form_decision, form_value};
    ghost use Rattle.nf_normalized.specs.Checker.{place_of, filter_state, StandsAfter, decided, IsOfPiece, IsOfEnd};

    /// It has taken nothing. The first byte to come has the offset `base`. Where `assigned` is set, a character that is not
    /// assigned is a fault.
    pub fn new(form: Form, assigned: bool, base: u64) -> FormChecker
        ensures stands { StandsAfter assigned form base result [] }
        ensures offset { offset_of (filter_state result) ≡ base }
        ensures unspent { is_spent (filter_state result) ≡ false }
    {
        split();
        read_back();
        pieces();
        each_form_changes_a_text_once();
        let filter = Filter::quickest(&Ucd, form, base).policy(Policy {
            replace: false,
            assigned,
        });
        FormChecker {
            filter,
            held: ArrayVec::new(),
            place: None,
        }
    }

    /// Takes the next bytes, and answers the place from which on the form is another text, once that is settled. A place stays:
    /// from then on nothing changes. A fault that comes before that is answered in its stead: `BadByte`, and `Unassigned`
    /// where that is asked for; it ends all but `TooLong`, which leaves the checker as it was.
    pub fn feed(&mut self, piece: &[u8]) -> Result<Option<Place>, Fault>
        ensures found { IfSome (place_of self.old) (λ place. (result ≡ Ok (Some place)) × (self.new ≡ self.old)) }
        ensures place { IfOk result (λ place. place ≡ place_of self.new) }
        ensures faults { IfErr result IsOfPiece }
        ensures spent { IsNone (place_of self.old) → (result ≡ Err Fault.Spent) ↔ IsTrue (is_spent (filter_state self.old)) }
        ensures too_long { IsNone (place_of self.old) → (result ≡ Err Fault.TooLong) ↔ (IsFalse (is_spent (filter_state self.old)) × (u64.MAX < offset_of (filter_state self.old) + length piece.now)) }
        ensures kept { result ≡ Err Fault.TooLong → (filter_state self.new ≡ filter_state self.old) × (self.new.held ≡ self.old.held) × (place_of self.new ≡ place_of self.old) }
        ensures offset { result ≡ Ok None → offset_of (filter_state self.new) ≡ offset_of (filter_state self.old) + length piece.now }
        ensures decides { (assigned : Bool) (f : Form) (base : ℕ) (bytes : List ℕ) → StandsAfter assigned f base self.old bytes → ¬ (result ≡ Err Fault.TooLong)
            → decided result ≡ form_decision assigned f base (bytes ++ piece.now) }
        ensures stands { (assigned : Bool) (f : Form) (base : ℕ) (bytes : List ℕ) → StandsAfter assigned f base self.old bytes → result ≡ Ok None
            → StandsAfter assigned f base self.new (bytes ++ piece.now) }
    {
        longest_text();
        split();
        read_back();
        pieces();
        replacing();
        each_form_changes_a_text_once();
        every_character_is_sound();
        little_is_kept();
        if self.place.is_some() {
            return Ok(self.place);
        }
        let (chars, offset) = (self.filter.chars(), self.filter.offset());
        let held = self.held.as_slice();
        let mut sink = Comparing::new(held, piece);
        let fed = self.filter.feed(piece, &mut sink);
        if sink.has_differed() {
            self.place = Some(place_after(chars, offset, held, &sink));
            return Ok(self.place);
        }
        if let Err(fault) = fed {
            return Err(fault);
        }
        self.held = joined(sink.left());
        Ok(None)
    }

    /// Tells where the text that was taken, to its end, is not in the form; or a fault that comes before that: `Cut`, where
    /// the text ends within a character.
    pub fn finish(self) -> Result<Option<Place>, Fault>
        ensures found { IfSome (place_of self) (λ place. result ≡ Ok (Some place)) }
        ensures faults { IfErr result IsOfEnd }
        ensures spent { IsNone (place_of self) → (result ≡ Err Fault.Spent) ↔ IsTrue (is_spent (filter_state self)) }
        ensures decides { (assigned : Bool) (f : Form) (base : ℕ) (bytes : List ℕ) → StandsAfter assigned f base self bytes
            → result ≡ answer_at_end base (form_value f base bytes) (ending_of bytes) }
    {
        longest_text();
        split();
        read_back();
        pieces();
        each_form_changes_a_text_once();
        every_character_is_sound();
        let FormChecker {
            filter,
            held,
            place,
        } = self;
        if place.is_some() {
            return Ok(place);
        }
        let (chars, offset) = (filter.chars(), filter.offset());
        let held = held.as_slice();
        let mut sink = Comparing::new(held, &[]);
        let finished = filter.finish(&mut sink);
        if !sink.has_differed() {
            if let Err(fault) = finished {
                return Err(fault);
            }
            if sink.is_at_end() {
                return Ok(None);
            }
        }
        Ok(Some(place_after(chars, offset, held, &sink)))
    }

    /// How many bytes it keeps: at most 315.
    pub fn held(&self) -> usize
        ensures value { result ≡ length self.now.held.items }
        ensures few { result ≤ 315 }
    {
        self.held.len()
    }
}

/// After what was as expected, where so many characters were taken before, up to this offset, and these bytes kept.
fn place_after(chars: u64, offset: u64, held: &[u8], sink: &Comparing<'_>) -> Place
    requires { PlaceFits held.now (same sink.now) chars offset }
    ensures { IsAfter held.now (same sink.now) chars offset result }
{
    split();
    let kept = text_in(held, &[]);
    let (first, second) = sink.same();
    let same = text_in(first, second);
    Place {
        chars: chars - kept.chars + same.chars,
        bytes: offset - held.len() as u64 + same.bytes,
    }
}

/// Two slices that are few bytes together.
fn joined(slices: (&[u8], &[u8])) -> ArrayVec<u8, MOST>
    requires { length slices.0.now + length slices.1.now ≤ 315 }
    ensures { result.items ≡ slices.entry.0.now ++ slices.entry.1.now }
{
    let mut bytes = ArrayVec::new();
    bytes.try_extend_from_slice(slices.0).unwrap();
    bytes.try_extend_from_slice(slices.1).unwrap();
    bytes
}
