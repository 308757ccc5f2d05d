//! A filter's state in the caller's memory, and out of it.
ghost use Rattle.std.specs.Prelude.{◌≡◌, ◌==◌, ◌≤◌, ◌↔◌, length, map, IsSome, IfSome, IsTrue, take};
ghost use Rattle.std.specs.List.{All};
ghost use Rattle.nf_c.specs.State.{IsForm, IsPolicy, IsMark, IsStarter, IsState, form_at, policy_at, mark_at, starter_at, unpacked};

use crate::state::{MAGIC, NO_STARTER, State, UNICODE};
use arrayvec::ArrayVec;
use nf_filter::{Policy, Saved};
use nf_pending::{Mark, Run};
use nf_row::Form;

/// How much a class counts beside a code point.
const CLASS: u32 = 0x20_0000;

/// The form of a number.
pub fn form_of(number: u32) -> Option<Form>
    ensures some { IsSome result ↔ IsForm number }
    ensures form { IfSome result (λ form. form ≡ form_at number) }
{
    match number {
        1 => Some(Form::Nfc),
        2 => Some(Form::Nfd),
        3 => Some(Form::Nfkc),
        4 => Some(Form::Nfkd),
        _ => None,
    }
}

/// The number of a form.
fn number_of(form: Form) -> u8
    ensures number { IsForm result }
    ensures form { form_at result ≡ form }
{
    match form {
        Form::Nfc => 1,
        Form::Nfd => 2,
        Form::Nfkc => 3,
        Form::Nfkd => 4,
    }
}

/// The policy of a number.
pub fn policy_of(number: u32) -> Option<Policy>
    ensures some { IsSome result ↔ IsPolicy number }
    ensures policy { IfSome result (λ policy. policy ≡ policy_at number) }
{
    if number > 3 {
        return None;
    }
    Some(Policy {
        replace: number % 2 == 1,
        assigned: number >= 2,
    })
}

/// The number of a policy.
fn number_of_policy(policy: Policy) -> u8
    ensures number { IsPolicy result }
    ensures policy { policy_at result ≡ policy }
{
    match (policy.replace, policy.assigned) {
        (false, false) => 0,
        (true, false) => 1,
        (false, true) => 2,
        (true, true) => 3,
    }
}

/// The number of a starter, or of none.
fn number_of_starter(starter: Option<char>) -> u32
    ensures number { IsStarter result }
    ensures starter { starter_at result ≡ starter }
{
    match starter {
        Some(starter) => u32::from(starter),
        None => NO_STARTER,
    }
}

/// What a filter saved of its state, in so many numbers.
pub fn pack(saved: &Saved) -> State
    ensures state { IsState result }
    ensures saved { unpacked result ≡ saved.now }
{
    let held = saved.held.as_slice();
    let marks = saved.marks.as_slice();
    State {
        magic: MAGIC,
        unicode: UNICODE,
        base: saved.base,
        offset: saved.offset,
        chars: saved.chars,
        put: saved.put,
        starter: number_of_starter(saved.starter),
        marks: pack_marks(marks),
        held: pack_held(held),
        held_len: held.len() as u8,
        marks_len: marks.len() as u8,
        count: saved.count,
        form: number_of(saved.form),
        policy: number_of_policy(saved.policy),
        spent: u8::from(saved.spent),
    }
}

/// The bytes at the front of three.
fn pack_held(held: &[u8]) -> [u8; 3]
    requires { length held.now ≤ 3 }
    ensures { take (length held.now) result ≡ held.now }
{
    let mut bytes = [0; 3];
    bytes[..held.len()].copy_from_slice(held);
    bytes
}

/// The marks as numbers, at the front of thirty.
fn pack_marks(marks: &[Mark]) -> [u32; 30]
    requires { length marks.now ≤ 30 }
    ensures marks { map mark_at (take (length marks.now) result) ≡ marks.now }
    ensures all { All IsMark (take (length marks.now) result) }
{
    let mut numbers = [0; 30];
    for (at, mark) in marks.iter().enumerate() {
        numbers[at] = u32::from(mark.class) * CLASS + u32::from(mark.character);
    }
    numbers
}

/// What a filter saved of its state; none where the numbers say nothing.
pub fn unpack(state: &State) -> Option<Saved>
    ensures some { IsSome result ↔ IsState state.now }
    ensures saved { IfSome result (λ saved. saved ≡ unpacked state.now) }
{
    if state.magic != MAGIC || state.unicode != UNICODE {
        return None;
    }
    if state.held_len > 3 || state.marks_len > 30 || state.spent > 1 {
        return None;
    }
    let form = form_of(u32::from(state.form))?;
    let policy = policy_of(u32::from(state.policy))?;
    let marks = unpack_marks(&state.marks[..usize::from(state.marks_len)])?;
    let starter = unpack_starter(state.starter)?;
    let mut held = ArrayVec::new();
    held.try_extend_from_slice(&state.held[..usize::from(state.held_len)])
        .unwrap();
    Some(Saved {
        form,
        policy,
        spent: state.spent == 1,
        base: state.base,
        offset: state.offset,
        chars: state.chars,
        put: state.put,
        count: state.count,
        held,
        starter,
        marks,
    })
}

/// The starter of a number, or that there is none.
fn unpack_starter(number: u32) -> Option<Option<char>>
    ensures some { IsSome result ↔ IsStarter number }
    ensures starter { IfSome result (λ starter. starter ≡ starter_at number) }
{
    if number == NO_STARTER {
        return Some(None);
    }
    char::from_u32(number).map(Some)
}

/// The marks of numbers.
fn unpack_marks(numbers: &[u32]) -> Option<Run>
    requires { length numbers.now ≤ 30 }
    ensures some { IsSome result ↔ All IsMark numbers.now }
    ensures marks { IfSome result (λ marks. marks.items ≡ map mark_at numbers.now) }
{
    let mut marks = Run::new();
    for number in numbers {
        marks.push(unpack_mark(*number)?);
    }
    Some(marks)
}

/// The mark of a number.
fn unpack_mark(number: u32) -> Option<Mark>
    ensures some { IsSome result ↔ IsMark number }
    ensures mark { IfSome result (λ mark. mark ≡ mark_at number) }
{
    let class = number / CLASS;
    if class > 255 {
        return None;
    }
    let character = char::from_u32(number % CLASS)?;
    Some(Mark {
        character,
        class: class as u8,
    })
}
