use crate::front::Unsound;
use crate::normalizer::Normalizer;
use crate::room::{ROOM, Room, STEP};
use nf_boundary::Formed;
use nf_row::Rows;

/// What a step made of a text. First goes out what the room holds.
#[derive(Debug, Drop)]
pub enum Step<'t> {
    /// A front of the text was taken, before whose characters U+034F was put so many times. Then go out `same`, which stands
    /// in the text as it is, and what was put into the caller's `Formed`. `rest` is what is left.
    Taken {
        same: &'t str,
        rest: &'t str,
        put: u64,
    },
    /// The first character of `rest` is unsound, or has U+034F before it, which is. What stands before `rest` was taken.
    Unsound {
        rest: &'t str,
    },
}

impl Normalizer {
    ghost use Rattle.std.specs.Prelude.{◌≡◌, ◌+◌, ◌<◌, ◌≤◌, ℕ, List, length, chars};
    ghost use Rattle.nf_forms.specs.declared.form.Form.{Form};
    ghost use Rattle.nf_normalizer.specs.Room.{Start};
    ghost use Rattle.nf_normalizer.specs.Normalizer.{IsWithin};
    ghost use Rattle.nf_normalizer.specs.Step.{Stands, StaysWithin, Steps, StepsPast};

    /// Takes characters of a text as long as there is room for what they settle, up to a front for which text goes out as it
    /// stands or in its form. What `formed` held is lost.
    pub fn step<'t, R: Rows>(
        &mut self,
        rows: &R,
        text: &'t str,
        room: &mut Room,
        formed: &mut Formed,
    ) -> Step<'t>
        requires some { 0 < length text.now }
        requires within { IsWithin self.old }
        requires room { length room.old.items + 200 ≤ 4096 }
        ensures passes { StepsPast text.now result }
        ensures within { StaysWithin self.new result }
        ensures steps { let p = R.properties rows.now in
            (f : Form) (x : List ℕ) (start : Start) → Stands f p self.old start room.old.items x (chars text.now)
            → Steps f p self.new start room.new.items formed.new.items x text.now result }
    {
        let mut rest = text;
        let mut put = 0;
        formed.clear();
        while !rest.is_empty() && ROOM - room.len() >= STEP {
            let front = match self.take_front(rows, rest, room, formed) {
                Ok(front) => front,
                Err(Unsound) => return Step::Unsound { rest },
            };
            put += u64::from(front.joined);
            rest = front.rest;
            if !(front.same.is_empty() && formed.is_empty()) {
                return Step::Taken {
                    same: front.same,
                    rest,
                    put,
                };
            }
        }
        Step::Taken {
            same: "",
            rest,
            put,
        }
    }
}
