ghost use Rattle.std.specs.Prelude.{◌≡◌, ◌+◌, ◌*◌, ◌<◌, ◌≤◌, ℕ, List, [], ◌∷◌, ◌++◌, length, if◌then◌else◌, IsTrue};
ghost use Rattle.nf_forms.specs.Properties.{is_starter, is_nonstarter};
ghost use Rattle.nf_forms.specs.Runs.{lead};
ghost use Rattle.nf_forms.specs.declared.form.Form.{Form};
ghost use Rattle.nf_forms.specs.Forms.{row_of};
ghost use Rattle.nf_forms.specs.Sound.{is_sound};
ghost use Rattle.nf_pending.specs.StandsAfter.{run_len, StandsAfter};
ghost use Rattle.nf_normalizer.specs.Room.{Start, Holds};
ghost use Rattle.nf_normalizer.specs.Normalizer.{run_after, Pushes, front_utf8};

use crate::room::Room;
use nf_boundary::put_utf8;
use nf_pending::{Pending, Segment};
use nf_row::{Form, RowRoom, Rows, row_of};

/// Pushes the decomposition of the sound character `c` that the form asks for, and puts what it settles into the room.
#[inline]
pub fn push_decomposition<R: Rows>(
    pending: &mut Pending,
    rows: &R,
    form: Form,
    c: char,
    room: &mut Room,
)
    requires sound { IsTrue (is_sound (R.properties rows.now) c) }
    requires lead { run_len pending.old + lead (R.properties rows.now) (row_of form (R.properties rows.now) c) ≤ 30 }
    requires room { length room.old.items + 4 * run_len pending.old + 72 ≤ 4096 }
    ensures run { run_len pending.new ≡ run_after (R.properties rows.now) (run_len pending.old) (row_of form (R.properties rows.now) c) }
    ensures pushes { let p = R.properties rows.now in
        (f : Form) (w : List ℕ) (start : Start) → StandsAfter f p pending.old w → Holds start room.old.items (front_utf8 f p w)
        → Pushes f p pending.new start room.new.items (w ++ row_of form p c) }
{
    let mut place = RowRoom::new();
    // A sound character has short rows.
    let row = row_of(rows, form, c, &mut place).unwrap();
    push_members(pending, rows, row, room);
}

/// Pushes the members of a row in turn, and puts what each settles into the room.
pub fn push_members<R: Rows>(pending: &mut Pending, rows: &R, row: &[char], room: &mut Room)
    requires few { length row.now ≤ 18 }
    requires lead { run_len pending.old + lead (R.properties rows.now) row.now ≤ 30 }
    requires room { length room.old.items + 4 * run_len pending.old + 72 ≤ 4096 }
    ensures run { run_len pending.new ≡ run_after (R.properties rows.now) (run_len pending.old) row.now }
    ensures pushes { let p = R.properties rows.now in
        (f : Form) (w : List ℕ) (start : Start) → StandsAfter f p pending.old w → Holds start room.old.items (front_utf8 f p w)
        → Pushes f p pending.new start room.new.items (w ++ row.now) }
{
    for c in row {
        push(pending, rows, *c, room);
    }
}

/// Pushes `c`, and puts what it settles into the room.
#[inline]
pub fn push<R: Rows>(pending: &mut Pending, rows: &R, c: char, room: &mut Room)
    requires mark { IsTrue (is_nonstarter (R.properties rows.now) c) → run_len pending.old < 30 }
    requires room { length room.old.items + 4 * run_len pending.old + 4 ≤ 4096 }
    ensures run { run_len pending.new ≡ (if is_starter (R.properties rows.now) c then 0 else run_len pending.old + 1) }
    ensures few { length room.new.items + 4 * run_len pending.new ≤ length room.old.items + 4 * run_len pending.old + 4 }
    ensures pushes { let p = R.properties rows.now in
        (f : Form) (w : List ℕ) (start : Start) → StandsAfter f p pending.old w → Holds start room.old.items (front_utf8 f p w)
        → Pushes f p pending.new start room.new.items (w ++ c ∷ []) }
{
    push_of_class(pending, rows, c, rows.class(c), room);
}

/// Pushes `c`, which is of this class, and puts what it settles into the room: only a starter settles anything.
#[inline(always)]
pub fn push_of_class<R: Rows>(pending: &mut Pending, rows: &R, c: char, class: u8, room: &mut Room)
    requires class { (R.properties rows.now).class c ≡ class }
    requires mark { IsTrue (is_nonstarter (R.properties rows.now) c) → run_len pending.old < 30 }
    requires room { length room.old.items + 4 * run_len pending.old + 4 ≤ 4096 }
    ensures run { run_len pending.new ≡ (if is_starter (R.properties rows.now) c then 0 else run_len pending.old + 1) }
    ensures few { length room.new.items + 4 * run_len pending.new ≤ length room.old.items + 4 * run_len pending.old + 4 }
    ensures pushes { let p = R.properties rows.now in
        (f : Form) (w : List ℕ) (start : Start) → StandsAfter f p pending.old w → Holds start room.old.items (front_utf8 f p w)
        → Pushes f p pending.new start room.new.items (w ++ c ∷ []) }
{
    if class != 0 {
        pending.push_mark(c, class);
    } else {
        push_starter(pending, rows, c, room);
    }
}

/// Pushes the starter `c`, and puts what it settles into the room.
fn push_starter<R: Rows>(pending: &mut Pending, rows: &R, c: char, room: &mut Room)
    requires starter { IsTrue (is_starter (R.properties rows.now) c) }
    requires room { length room.old.items + 4 * run_len pending.old + 4 ≤ 4096 }
    ensures run { run_len pending.new ≡ 0 }
    ensures few { length room.new.items ≤ length room.old.items + 4 * run_len pending.old + 4 }
    ensures pushes { let p = R.properties rows.now in
        (f : Form) (w : List ℕ) (start : Start) → StandsAfter f p pending.old w → Holds start room.old.items (front_utf8 f p w)
        → Pushes f p pending.new start room.new.items (w ++ c ∷ []) }
{
    let mut settled = Segment::new();
    pending.push_starter(rows, c, &mut settled);
    put_utf8(room, settled.as_slice());
}
