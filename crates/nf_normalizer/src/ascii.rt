//! Plain ASCII: after one such character that is pending alone, a run of it goes out as it stands, but for its last,
//! which is pending then.
use crate::normalizer::Normalizer;
use crate::room::Room;
use nf_boundary::put_utf8;
use nf_row::Rows;
use nf_safe::Counter;

impl Normalizer {
    ghost use Rattle.std.specs.Prelude.{◌≡◌, ◌+◌, ◌<◌, ◌≤◌, ℕ, List, [], ◌∷◌, length, take, drop, IfSome, true};
    ghost use Rattle.std.specs.Str.{IsAscii};
    ghost use Rattle.nf_forms.specs.Properties.{Properties};
    ghost use Rattle.nf_forms.specs.declared.form.Form.{Form};
    ghost use Rattle.nf_forms.specs.Front.{back};
    ghost use Rattle.nf_forms.specs.Forms.{decomposed, finished};
    ghost use Rattle.nf_forms.specs.StreamSafe.{stream_safe};
    ghost use Rattle.nf_normalizer.specs.Room.{Start, Holds};
    ghost use Rattle.nf_normalizer.specs.Normalizer.{HasTaken, IsWithin, settled_text};
    ghost use Rattle.nf_normalizer.specs.Front.{TakesRun};

    /// The ASCII character that is pending alone, where ASCII is known to be plain.
    #[inline]
    pub(crate) fn plain_starter(&self) -> Option<char>
        ensures plain { IfSome result (λ a. self.now.is_plain ≡ true) }
        ensures ascii { IfSome result (λ a. a < 0x80) }
        ensures alone { (f : Form) (p : Properties) (x : List ℕ) → HasTaken f p self.now x
            → IfSome result (λ a. back p (finished f p (decomposed f p (stream_safe p x))) ≡ a ∷ []) }
    {
        if !self.is_plain {
            return None;
        }
        match self.pending.alone() {
            Some(starter) if starter.is_ascii() => Some(starter),
            _ => None,
        }
    }

    /// Takes the first `len` bytes of the text, which are plain ASCII, after `starter`, which is such and pending alone.
    /// All but the last of them go out as they stand, after what is in the room. Answers these, and what follows.
    pub(crate) fn take_ascii<'t, R: Rows>(
        &mut self,
        _rows: &R,
        starter: char,
        text: &'t str,
        len: usize,
        room: &mut Room,
    ) -> (&'t str, &'t str)
        requires plain { self.old.is_plain ≡ true }
        requires starter { starter < 0x80 }
        requires some { 0 < len }
        requires inside { len ≤ length text.now }
        requires ascii { IsAscii (take len text.now) }
        requires within { IsWithin self.old }
        requires room { length room.old.items + 200 ≤ 4096 }
        ensures rest { result.1.now ≡ drop len text.now }
        ensures within { IsWithin self.new }
        ensures form { self.new.form ≡ self.old.form }
        ensures takes { let p = R.properties _rows.now in
            (f : Form) (x : List ℕ) (start : Start) → HasTaken f p self.old x → back p (finished f p (decomposed f p (stream_safe p x))) ≡ starter ∷ []
            → Holds start room.old.items (settled_text f p x)
            → TakesRun f p self.new start room.new.items x (take len text.now) result.0.now }
    {
        let (run, rest) = text.split_at(len);
        let (front, last) = run.split_at(len - 1);
        put_utf8(room, &[starter]);
        self.pending.stand_at(char::from(last.as_bytes()[0]));
        self.counter = Counter::new();
        (front, rest)
    }
}
