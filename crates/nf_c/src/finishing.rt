ghost use Rattle.std.specs.Prelude.{◌≡◌, ◌≤◌, ℕ, List, length, false};
ghost use Rattle.nf_forms.specs.Ucd.{ucd};
ghost use Rattle.nf_forms.specs.declared.form.Form.{Form};
ghost use Rattle.nf_filter.specs.declared.policy.Policy.{Policy};
ghost use Rattle.nf_filter.specs.Filter.{state_of, base_of, is_spent, StandsAfter as FilterStandsAfter};
ghost use Rattle.nf_c.specs.State.{CanStand, StandsAfter};
ghost use Rattle.nf_c.specs.Finishes.{Finishes, FinishesFilter};
ghost use Rattle.nf_c.specs.Moved.{moved};
ghost use Rattle.nf_c.specs.declared.status.Status.TheVariants.{NoState, Spent};

use crate::feeding::is_full;
use crate::moved::Moved;
use crate::room::Room;
use crate::starting::filter_of;
use crate::state::State;
use crate::status::Status;
use nf_facts::laws::every_character_is_sound;
use nf_filter::{Fault, Filter};
use nf_row::Ucd;

/// How many bytes the end wrote, and the fault that it met; `Write` where there was no room for all of it.
#[derive(Clone, Copy)]
pub struct Finished {
    pub written: usize,
    pub fault: Option<Fault>,
}

/// Writes the rest of the form to the front of the output, at the end of the text, after which the state is spent. Where
/// there is no room for all of it, nothing changes.
pub fn finish(state: &mut State, output: &mut [u8]) -> Moved
    ensures written { result.written ≤ length output.new }
    ensures state { CanStand state.old → CanStand state.new }
    ensures none { ¬ CanStand state.old → (result ≡ moved NoState 0 0) × (state.new ≡ state.old) }
    ensures spent { CanStand state.old → state.old.spent ≡ 1 → (result ≡ moved Spent 0 0) × (state.new ≡ state.old) }
    ensures finishes { (policy : Policy) (f : Form) (bytes : List ℕ) → StandsAfter policy f state.old bytes → Finishes policy f bytes state.old state.new output.new result }
{
    let Some(filter) = filter_of(state) else {
        return Moved::of(Status::NoState, 0, 0);
    };
    if filter.spent() {
        return Moved::of(Status::Spent, 0, 0);
    }
    let finished = finish_filter(filter, output);
    if is_full(finished.fault) {
        return Moved::of(Status::Full, 0, 0);
    }
    state.spent = 1;
    Moved::ended(finished.fault, 0, finished.written)
}

/// The same of a filter.
pub fn finish_filter(filter: Filter<'_, Ucd>, output: &mut [u8]) -> Finished
    ensures written { result.written ≤ length output.new }
    ensures finishes { (policy : Policy) (f : Form) (bytes : List ℕ) → FilterStandsAfter policy f ucd (state_of filter.entry) bytes
        → FinishesFilter policy f (base_of (state_of filter.entry)) bytes output.new result }
{
    every_character_is_sound();
    let mut room = Room::over(output);
    let fault = filter.finish(&mut room).err();
    Finished {
        written: room.written(),
        fault,
    }
}
