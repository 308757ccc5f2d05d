//! The calls of `include/nfstream.h`: each is that of `nf_c`, and states its clauses again.
#![tactic(auto)]

ghost use Rattle.std.specs.Prelude.{◌≡◌, ◌+◌, ◌≤◌, ◌<◌, ℕ, List, [], length};
ghost use Rattle.nf_forms.specs.declared.form.Form.{Form};
ghost use Rattle.nf_filter.specs.declared.policy.Policy.{Policy};
ghost use Rattle.nf_c.specs.Feeds.{Feeds};
ghost use Rattle.nf_c.specs.Checks.{Checks, ChecksForm, check_form_status};
ghost use Rattle.nf_c.specs.Converts.{Converts};
ghost use Rattle.nf_c.specs.Finishes.{Finishes};
ghost use Rattle.nf_c.specs.State.{CanStand, StandsAfter, form_at, policy_at, unicode};
ghost use Rattle.nf_c.specs.Starts.{start_status};
ghost use Rattle.nf_c.specs.Status.{code_of};
ghost use Rattle.nf_c.specs.Moved.{moved as moved_by};
ghost use Rattle.nf_c.specs.declared.status.Status.TheVariants.{Done, NoState, Spent, TooLong};
ghost use Rattle.nf_c.specs.declared.moved.Moved.{Moved as NfMoved};
ghost use Rattle.nfstream_c.specs.Told.{Tells};

use nf_c::State;

/// What a call read and wrote, and the place of a fault.
#[repr(C)]
#[derive(Clone, Copy)]
pub struct Moved {
    pub read: usize,
    pub written: usize,
    pub at: u64,
    pub start: u64,
}

#[unsafe(no_mangle)]
pub extern "C" fn nf_start(state: &mut State, form: u32, policy: u32, base: u64) -> u32
    ensures status { result ≡ code_of (start_status form policy) }
    ensures kept { ¬ (start_status form policy ≡ Done) → state.new ≡ state.old }
    ensures base { start_status form policy ≡ Done → state.new.base ≡ base }
    ensures stands { start_status form policy ≡ Done → StandsAfter (policy_at policy) (form_at form) state.new [] }
{
    nf_c::start(state, form, policy, base).code()
}

#[unsafe(no_mangle)]
pub extern "C" fn nf_feed(
    state: &mut State,
    input: &[u8],
    output: &mut [u8],
    moved: &mut Moved,
) -> u32
    ensures read { moved.new.read ≤ length input.now }
    ensures written { moved.new.written ≤ length output.new }
    ensures state { state.new.spent ≡ 1 → CanStand state.old → CanStand state.new }
    ensures none { ¬ CanStand state.old → Tells (moved_by NoState 0 0) moved.new result × (state.new ≡ state.old) }
    ensures spent { CanStand state.old → state.old.spent ≡ 1 → Tells (moved_by Spent 0 0) moved.new result × (state.new ≡ state.old) }
    ensures too_long { CanStand state.old → state.old.spent ≡ 0 → u64.MAX < state.old.offset + length input.now → Tells (moved_by TooLong 0 0) moved.new result × (state.new ≡ state.old) }
    ensures feeds { (policy : Policy) (f : Form) (bytes : List ℕ) → StandsAfter policy f state.old bytes
        → (told : NfMoved) × Tells told moved.new result × Feeds policy f bytes input.now state.old state.new output.new told }
{
    let done = nf_c::feed(state, input, output);
    tell(done, moved)
}

#[unsafe(no_mangle)]
pub extern "C" fn nf_finish(state: &mut State, output: &mut [u8], moved: &mut Moved) -> u32
    ensures written { moved.new.written ≤ length output.new }
    ensures state { CanStand state.old → CanStand state.new }
    ensures none { ¬ CanStand state.old → Tells (moved_by NoState 0 0) moved.new result × (state.new ≡ state.old) }
    ensures spent { CanStand state.old → state.old.spent ≡ 1 → Tells (moved_by Spent 0 0) moved.new result × (state.new ≡ state.old) }
    ensures finishes { (policy : Policy) (f : Form) (bytes : List ℕ) → StandsAfter policy f state.old bytes
        → (told : NfMoved) × Tells told moved.new result × Finishes policy f bytes state.old state.new output.new told }
{
    let done = nf_c::finish(state, output);
    tell(done, moved)
}

#[unsafe(no_mangle)]
pub extern "C" fn nf_convert(
    form: u32,
    policy: u32,
    input: &[u8],
    output: &mut [u8],
    moved: &mut Moved,
) -> u32
    ensures refused { ¬ (start_status form policy ≡ Done) → Tells (moved_by (start_status form policy) 0 0) moved.new result }
    ensures converts { start_status form policy ≡ Done → (told : NfMoved) × Tells told moved.new result × Converts (policy_at policy) (form_at form) input.now output.new told }
{
    let done = nf_c::convert(form, policy, input, output);
    tell(done, moved)
}

#[unsafe(no_mangle)]
pub extern "C" fn nf_check(input: &[u8], moved: &mut Moved) -> u32
    ensures { (told : NfMoved) × Tells told moved.new result × Checks input.now told }
{
    tell(nf_c::check(input), moved)
}

#[unsafe(no_mangle)]
pub extern "C" fn nf_check_form(form: u32, policy: u32, input: &[u8], moved: &mut Moved) -> u32
    ensures refused { ¬ (check_form_status form policy ≡ Done) → Tells (moved_by (check_form_status form policy) 0 0) moved.new result }
    ensures checks { check_form_status form policy ≡ Done → (told : NfMoved) × Tells told moved.new result × ChecksForm (policy_at policy).assigned (form_at form) input.now told }
{
    tell(nf_c::check_form(form, policy, input), moved)
}

/// The version of these calls.
#[unsafe(no_mangle)]
pub extern "C" fn nf_version() -> u32
    ensures { result ≡ 2 }
{
    2
}

/// The version of Unicode of the data: 18.0.0.
#[unsafe(no_mangle)]
pub extern "C" fn nf_unicode_version() -> u32
    ensures { result ≡ unicode }
{
    nf_c::UNICODE
}

fn tell(done: nf_c::Moved, moved: &mut Moved) -> u32
    ensures { Tells done moved.new result }
{
    *moved = Moved {
        read: done.read,
        written: done.written,
        at: done.at,
        start: done.start,
    };
    done.status.code()
}
