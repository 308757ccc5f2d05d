use crate::room::Room;
use nf_boundary::put_utf8;
use nf_pending::Pending;
use nf_row::{Form, Plain, Rows};
use nf_safe::Counter;

/// Makes the stream-safe text of the characters that it takes, in one normalization form. It keeps of them what those
/// to come ask for: at most 31 code points.
#[derive(Drop)]
pub struct Normalizer {
    pub form: Form,
    /// ASCII is known to be plain, and a run of it goes out as it stands.
    pub is_plain: bool,
    pub counter: Counter,
    pub pending: Pending,
}

impl Normalizer {
    ghost use Rattle.std.specs.Prelude.{◌≡◌, ◌+◌, ◌≤◌, ℕ, List, [], length, if◌then◌else◌, encode_utf8_all};
    ghost use Rattle.nf_forms.specs.Properties.{Properties};
    ghost use Rattle.nf_forms.specs.Runs.{has_starter, trail};
    ghost use Rattle.nf_row.specs.Plain.{rows_of};
    ghost use Rattle.nf_forms.specs.declared.form.Form.{Form};
    ghost use Rattle.nf_forms.specs.Forms.{decomposed};
    ghost use Rattle.nf_forms.specs.StreamSafe.{stream_safe};
    ghost use Rattle.nf_forms.specs.SafeForm.{safe_form};
    ghost use Rattle.nf_normalizer.specs.Room.{Start, Holds};
    ghost use Rattle.nf_normalizer.specs.Normalizer.{HasTaken, IsWithin, settled_text};

    /// No character yet.
    pub fn new(form: Form) -> Normalizer
        ensures taken { (p : Properties) → HasTaken form p result [] }
        ensures within { IsWithin result }
    {
        Normalizer {
            form,
            is_plain: false,
            counter: Counter::new(),
            pending: Pending::new(form),
        }
    }

    /// The same over data of which ASCII is plain.
    pub fn fast<R: Rows>(plain: Plain<'_, R>, form: Form) -> Normalizer
        ensures taken { HasTaken form (R.properties (rows_of plain.entry)) result [] }
        ensures within { IsWithin result }
    {
        let _rows = plain.rows();
        let mut new = Normalizer::new(form);
        new.is_plain = true;
        new
    }

    /// How many code points are pending, 0 to 31.
    #[inline]
    pub fn pending(&self) -> usize
        ensures bound { result ≤ 31 }
        ensures value { (f : Form) (p : Properties) (x : List ℕ) → HasTaken f p self.now x
            → result ≡ trail p (decomposed f p (stream_safe p x)) + (if has_starter p (decomposed f p (stream_safe p x)) then 1 else 0) }
    {
        self.pending.len()
    }

    /// Puts all that is pending into the room. The normalizer is then as a new one.
    #[inline]
    pub fn settle<R: Rows>(&mut self, rows: &R, room: &mut Room)
        requires { length room.old.items + 124 ≤ 4096 }
        ensures anew { (f : Form) (x : List ℕ) → HasTaken f (R.properties rows.now) self.old x → HasTaken f (R.properties rows.now) self.new [] }
        ensures within { IsWithin self.new }
        ensures form { self.new.form ≡ self.old.form }
        ensures settles { let p = R.properties rows.now in
            (f : Form) (x : List ℕ) (start : Start) → HasTaken f p self.old x → Holds start room.old.items (settled_text f p x)
            → Holds start room.new.items (encode_utf8_all (safe_form f p x)) }
    {
        self.counter = Counter::new();
        if self.pending.is_empty() {
            return;
        }
        let held = self.pending.restart(rows);
        put_utf8(room, held.as_slice());
    }
}
