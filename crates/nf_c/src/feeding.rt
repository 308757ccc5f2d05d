ghost use Rattle.std.specs.Prelude.{◌≡◌, ◌+◌, ◌≤◌, ◌<◌, ◌↔◌, ℕ, List, ◌++◌, length, take, Some, None, IsTrue, IsFalse};
ghost use Rattle.nf_forms.specs.Ucd.{ucd};
ghost use Rattle.nf_forms.specs.declared.form.Form.{Form};
ghost use Rattle.nf_filter.specs.declared.fault.Fault.TheVariants.{Write, TooLong as TooLongFault};
ghost use Rattle.nf_filter.specs.declared.policy.Policy.{Policy};
ghost use Rattle.nf_filter.specs.Filter.{state_of, offset_of};
ghost use Rattle.nf_filter.specs.Settled.{settled_utf8};
ghost use Rattle.nf_c.specs.Feeds.{ends, FeedsFront, Feeds};
ghost use Rattle.nf_c.specs.State.{CanStand, StandAfter, StandsAfter};
ghost use Rattle.nf_c.specs.Moved.{moved};
ghost use Rattle.nf_c.specs.declared.status.Status.TheVariants.{NoState, Spent, TooLong};

use crate::guess::Guess;
use crate::moved::Moved;
use crate::passing::{pass, passing_len};
use crate::room::Room;
use crate::starting::{filter_of, go_back, kept};
use crate::state::State;
use crate::status::Status;
use nf_facts::laws::every_character_is_sound;
use nf_filter::{Fault, Filter};
use nf_row::Ucd;

/// How many bytes were read and written, and the fault that ended that; `Write` where the next byte finds no room.
#[derive(Clone, Copy)]
pub struct Fed {
    pub read: usize,
    pub written: usize,
    pub fault: Option<Fault>,
}

/// Takes as much of the input as there is room for, and writes what that settles to the front of the output.
pub fn feed(state: &mut State, input: &[u8], output: &mut [u8]) -> Moved
    ensures read { result.read ≤ length input.now }
    ensures written { result.written ≤ length output.new }
    ensures state { state.new.spent ≡ 1 → CanStand state.old → CanStand state.new }
    ensures too_long { CanStand state.old → state.old.spent ≡ 0 → u64.MAX < state.old.offset + length input.now → (result ≡ moved TooLong 0 0) × (state.new ≡ state.old) }
    ensures none { ¬ CanStand state.old → (result ≡ moved NoState 0 0) × (state.new ≡ state.old) }
    ensures spent { CanStand state.old → state.old.spent ≡ 1 → (result ≡ moved Spent 0 0) × (state.new ≡ state.old) }
    ensures feeds { (policy : Policy) (f : Form) (bytes : List ℕ) → StandsAfter policy f state.old bytes → Feeds policy f bytes input.now state.old state.new output.new result }
{
    let len = passing_len(state, input, output.len());
    if len > 0 && !is_too_long(state, input) {
        return pass(state, input, len, output);
    }
    let Some(mut filter) = filter_of(state) else {
        return Moved::of(Status::NoState, 0, 0);
    };
    if filter.spent() {
        return Moved::of(Status::Spent, 0, 0);
    }
    if is_too_long(state, input) {
        return Moved::of(Status::TooLong, 0, 0);
    }
    let offset = state.offset;
    let fed = feed_all(state, &mut filter, input, output);
    *state = kept(&filter);
    Moved::within(fed.fault, offset, input.len(), fed.read, fed.written)
}

/// Whether the offset would pass `u64::MAX` after the input.
fn is_too_long(state: &State, input: &[u8]) -> bool
    ensures long { IsTrue result → u64.MAX < state.now.offset + length input.now }
    ensures fits { IsFalse result → state.now.offset + length input.now ≤ u64.MAX }
{
    state.offset.checked_add(input.len() as u64).is_none()
}

/// Feeds as much of the input as there is room for, piece by piece. The filter is that of the state, which stands where it
/// can go back to, and at the end after no more than the filter.
pub fn feed_all(
    state: &mut State,
    filter: &mut Filter<'_, Ucd>,
    input: &[u8],
    output: &mut [u8],
) -> Fed
    ensures all { result.fault ≡ None → result.read ≡ length input.now }
    ensures read { result.read ≤ length input.now }
    ensures written { result.written ≤ length output.new }
    ensures feeds { (policy : Policy) (f : Form) (bytes : List ℕ) → StandAfter policy f state.old (state_of filter.old) bytes
        → FeedsFront policy f bytes input.now output.new (state_of filter.old) (state_of filter.new) result
        × (offset_of (state_of filter.old) + length input.now ≤ u64.MAX → ¬ (result.fault ≡ Some TooLongFault))
        × (result.fault ≡ Some Write → length (settled_utf8 policy f ucd bytes) + length output.new < length (settled_utf8 policy f ucd (bytes ++ take (result.read + 1) input.now))) }
{
    let mut guess = Guess::new(state.form);
    let mut read = 0;
    let mut written = 0;
    while read < input.len() {
        let len = guess.len(output.len() - written, input.len() - read);
        let fed = try_piece(
            state,
            filter,
            &input[read..read + len],
            &mut output[written..],
        );
        if is_full(fed.fault) && len > 1 {
            guess.refused(len);
            continue;
        }
        read += fed.read;
        written += fed.written;
        if fed.fault.is_some() || read == input.len() {
            return Fed {
                read,
                written,
                fault: fed.fault,
            };
        }
        guess.fed(len, fed.written);
        *state = kept(filter);
    }
    Fed {
        read,
        written,
        fault: None,
    }
}

/// Feeds the piece; where it finds no room, or is too long, nothing of it: the filter goes back to the state.
fn try_piece(state: &State, filter: &mut Filter<'_, Ucd>, piece: &[u8], output: &mut [u8]) -> Fed
    ensures read { result.read ≤ length piece.now }
    ensures written { result.written ≤ length output.new }
    ensures whole { result.fault ≡ None → result.read ≡ length piece.now }
    ensures nothing { result.fault ≡ Some Write → (result.read ≡ 0) × (result.written ≡ 0) }
    ensures too_long { result.fault ≡ Some TooLongFault → u64.MAX < offset_of (state_of filter.old) + length piece.now }
    ensures feeds { (policy : Policy) (f : Form) (bytes : List ℕ) → StandAfter policy f state.now (state_of filter.old) bytes
        → FeedsFront policy f bytes piece.now output.new (state_of filter.old) (state_of filter.new) result }
    ensures full { (policy : Policy) (f : Form) (bytes : List ℕ) → StandAfter policy f state.now (state_of filter.old) bytes → result.fault ≡ Some Write
        → StandAfter policy f state.now (state_of filter.new) bytes × (length (settled_utf8 policy f ucd bytes) + length output.new < length (settled_utf8 policy f ucd (bytes ++ piece.now))) }
{
    every_character_is_sound();
    let mut room = Room::over(output);
    let Err(fault) = filter.feed(piece, &mut room) else {
        return Fed {
            read: piece.len(),
            written: room.written(),
            fault: None,
        };
    };
    if ends(fault) {
        return Fed {
            read: piece.len(),
            written: room.written(),
            fault: Some(fault),
        };
    }
    go_back(filter, state);
    Fed {
        read: 0,
        written: 0,
        fault: Some(fault),
    }
}

/// Whether there was no room.
pub fn is_full(fault: Option<Fault>) -> bool
    ensures { IsTrue result ↔ (fault ≡ Some Write) }
{
    matches!(fault, Some(Fault::Write))
}

/// Whether the fault ends the text: it stands in that.
fn ends(fault: Fault) -> bool
    ensures { result ≡ ends (Some fault) }
{
    !matches!(fault, Fault::Write | Fault::TooLong)
}
