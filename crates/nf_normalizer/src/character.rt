//! How a normalizer takes one character: without its row where that is known to be itself, else by its row.
use crate::front::Unsound;
use crate::normalizer::Normalizer;
use crate::pushing::{push, push_decomposition, push_of_class};
use crate::room::Room;
use nf_entry::Entry;
use nf_row::{JOINER, NonStarters, RowRoom, Rows, own_class, sound, sound_row};

/// Each call answers whether U+034F was put before the character. Where it is unsound nothing is put.
impl Normalizer {
    ghost use Rattle.std.specs.Prelude.{◌≡◌, ◌+◌, ◌*◌, ◌<◌, ◌≤◌, ℕ, List, length, IsTrue, IfSome, OnOk};
    ghost use Rattle.nf_row.specs.NonStarters.{HasNonStarters};
    ghost use Rattle.nf_row.specs.Own.{IsKnown, IsOwn};
    ghost use Rattle.nf_forms.specs.declared.form.Form.{Form};
    ghost use Rattle.nf_forms.specs.Sound.{is_sound};
    ghost use Rattle.nf_pending.specs.StandsAfter.{run_len, StandsAfter};
    ghost use Rattle.nf_normalizer.specs.Room.{Start, Holds};
    ghost use Rattle.nf_normalizer.specs.Normalizer.{HasTaken, IsWithin, HasRoom, PutsJoiner, MakesRoom, TakesNext, front_utf8, settled_text};

    /// Takes the next character, by its entry where that is known, and puts what it settles into the room.
    #[inline(always)]
    pub(crate) fn take_char<R: Rows>(
        &mut self,
        rows: &R,
        c: char,
        known: Option<Entry>,
        room: &mut Room,
    ) -> Result<bool, Unsound>
        requires known { IfSome known (IsKnown (R.properties rows.now) c) }
        requires within { IsWithin self.old }
        requires room { length room.old.items + 200 ≤ 4096 }
        ensures within { OnOk result (IsWithin self.new) }
        ensures takes { TakesNext (R.properties rows.now) self.old self.new room.old.items room.new.items c result }
    {
        match own_class(known) {
            Some(class) => self.take_own(rows, c, class, room),
            None => self.take_row(rows, c, room),
        }
    }

    /// Takes a character of this class that is its own row: none is read.
    #[inline(always)]
    pub(crate) fn take_own<R: Rows>(
        &mut self,
        rows: &R,
        c: char,
        class: u8,
        room: &mut Room,
    ) -> Result<bool, Unsound>
        requires own { IsOwn (R.properties rows.now) c class }
        requires within { IsWithin self.old }
        requires room { length room.old.items + 200 ≤ 4096 }
        ensures within { OnOk result (IsWithin self.new) }
        ensures takes { TakesNext (R.properties rows.now) self.old self.new room.old.items room.new.items c result }
    {
        let joined = match self.make_room(rows, c, NonStarters::of_one(class == 0), room) {
            Ok(joined) => joined,
            Err(unsound) => return Err(unsound),
        };
        push_of_class(&mut self.pending, rows, c, class, room);
        Ok(joined)
    }

    /// Takes any character, by its row.
    fn take_row<R: Rows>(&mut self, rows: &R, c: char, room: &mut Room) -> Result<bool, Unsound>
        requires within { IsWithin self.old }
        requires room { length room.old.items + 200 ≤ 4096 }
        ensures within { OnOk result (IsWithin self.new) }
        ensures takes { TakesNext (R.properties rows.now) self.old self.new room.old.items room.new.items c result }
    {
        let mut place = RowRoom::new();
        let Some(read) = sound_row(rows, c, &mut place) else {
            return Err(Unsound);
        };
        let joined = match self.make_room(rows, c, read.ends, room) {
            Ok(joined) => joined,
            Err(unsound) => return Err(unsound),
        };
        push_decomposition(&mut self.pending, rows, self.form, c, room);
        Ok(joined)
    }

    /// Counts the sound character `c`, whose compatibility row has these ends, and puts U+034F before it where it would
    /// make a run too long.
    #[inline]
    fn make_room<R: Rows>(
        &mut self,
        rows: &R,
        _c: char,
        compat: NonStarters,
        room: &mut Room,
    ) -> Result<bool, Unsound>
        requires compat { HasNonStarters (R.properties rows.now) ((R.properties rows.now).compat _c) compat }
        requires sound { IsTrue (is_sound (R.properties rows.now) _c) }
        requires within { IsWithin self.old }
        requires room { length room.old.items + 200 ≤ 4096 }
        ensures form { OnOk result (self.new.form ≡ self.old.form) }
        ensures has_room { OnOk result (HasRoom (R.properties rows.now) self.new _c) }
        ensures few { OnOk result (length room.new.items + 4 * run_len self.new.pending + 72 ≤ 4096) }
        ensures parts { let p = R.properties rows.now in
            (f : Form) (x : List ℕ) (start : Start) → HasTaken f p self.old x → Holds start room.old.items (settled_text f p x)
            → MakesRoom f p self.new start room.new.items x _c result }
    {
        if !self.counter.step_by(compat) {
            return Ok(false);
        }
        match self.put_joiner(rows, room) {
            Ok(()) => Ok(true),
            Err(unsound) => Err(unsound),
        }
    }

    /// Puts U+034F, which is its own row where it is sound.
    fn put_joiner<R: Rows>(&mut self, rows: &R, room: &mut Room) -> Result<(), Unsound>
        requires room { length room.old.items + 4 * run_len self.old.pending + 76 ≤ 4096 }
        ensures same { OnOk result (self.new ≡ record self.old { pending = self.new.pending }) }
        ensures run { OnOk result (run_len self.new.pending ≡ 0) }
        ensures few { OnOk result (length room.new.items + 72 ≤ 4096) }
        ensures puts { let p = R.properties rows.now in
            (f : Form) (w : List ℕ) (start : Start) → StandsAfter f p self.old.pending w → Holds start room.old.items (front_utf8 f p w)
            → PutsJoiner f p self.new.pending start room.new.items w result }
    {
        if !sound(rows, JOINER) {
            return Err(Unsound);
        }
        push(&mut self.pending, rows, JOINER, room);
        Ok(())
    }
}
