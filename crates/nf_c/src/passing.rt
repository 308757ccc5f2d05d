//! Plain ASCII after one such character that is pending alone: all but its last goes out as it stands, and the state's numbers
//! say where that leaves a filter, so that none is made.
ghost use Rattle.std.specs.Prelude.{◌≡◌, ◌+◌, ◌-◌, ◌<◌, ◌≤◌, ◌∷◌, ℕ, List, length, take, slice_index, IsTrue};
ghost use Rattle.nf_forms.specs.declared.form.Form.{Form};
ghost use Rattle.nf_filter.specs.declared.policy.Policy.{Policy};
ghost use Rattle.nf_c.specs.Feeds.{Feeds, CanPass};
ghost use Rattle.nf_c.specs.State.{HoldsAscii, StandsAfter};

use crate::moved::Moved;
use crate::starting::plain;
use crate::state::{MAGIC, State, UNICODE};
use crate::status::Status;
use nf_utf8::ascii_prefix;

/// How many bytes of the input pass so, into so much room: all, or as many as there is room for. 0 where a filter is to be fed.
pub fn passing_len(state: &State, input: &[u8], room: usize) -> usize
    ensures { 0 < result → CanPass state.now input.now room result }
{
    let len = input.len().min(room);
    let seen = input.len().min(len + 1);
    if !holds_ascii(state) || ascii_prefix(&input[..seen]) < seen {
        return 0;
    }
    len
}

/// Whether the state is that of a filter that holds nothing but an ASCII character.
fn holds_ascii(state: &State) -> bool
    ensures { IsTrue result → HoldsAscii state.now }
{
    let _plain = plain();
    if state.magic != MAGIC || state.unicode != UNICODE || state.spent != 0 {
        return false;
    }
    if state.starter >= 0x80 || state.marks_len != 0 || state.held_len != 0 || state.count != 0 {
        return false;
    }
    if state.form == 0 || state.form > 4 || state.policy > 3 {
        return false;
    }
    if state.base > state.offset || state.chars > state.offset - state.base {
        return false;
    }
    state.chars > 0 && state.put <= state.chars
}

/// Lets the first `len` bytes of the input pass, and puts the state after them.
pub fn pass(state: &mut State, input: &[u8], len: usize, output: &mut [u8]) -> Moved
    requires some { 0 < len }
    requires can { CanPass state.old input.now (length output.old) len }
    requires fits { state.old.offset + length input.now ≤ u64.MAX }
    ensures read { result.read ≡ len }
    ensures written { result.written ≡ len }
    ensures length { length output.new ≡ length output.old }
    ensures state { state.new.spent ≡ 0 }
    ensures feeds { (policy : Policy) (f : Form) (bytes : List ℕ) → StandsAfter policy f state.old bytes → Feeds policy f bytes input.now state.old state.new output.new result }
{
    let _plain = plain();
    write_passing(state, input, len, output);
    if len < input.len() {
        return Moved::of(Status::Full, len, len);
    }
    Moved::of(Status::Done, len, len)
}

/// Writes the character that is pending and the bytes before the last of those that pass, and puts the state after them.
fn write_passing(state: &mut State, input: &[u8], len: usize, output: &mut [u8])
    requires some { 0 < len }
    requires within { len ≤ length input.now }
    requires room { len ≤ length output.old }
    requires starter { state.old.starter < 0x80 }
    requires offset { state.old.offset + len ≤ u64.MAX }
    requires chars { state.old.chars ≤ state.old.offset }
    ensures state { state.new ≡ record state.old { starter = slice_index input.now (len - 1); offset = state.old.offset + len; chars = state.old.chars + len } }
    ensures output { take len output.new ≡ state.old.starter ∷ take (len - 1) input.now }
    ensures length { length output.new ≡ length output.old }
{
    output[0] = state.starter as u8;
    output[1..len].copy_from_slice(&input[..len - 1]);
    state.starter = u32::from(input[len - 1]);
    state.offset += len as u64;
    state.chars += len as u64;
}
