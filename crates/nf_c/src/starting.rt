ghost use Rattle.std.specs.Prelude.{◌≡◌, ◌↔◌, ℕ, List, [], IsSome, IfSome, IsTrue};
ghost use Rattle.nf_forms.specs.Ucd.{ucd};
ghost use Rattle.nf_forms.specs.declared.form.Form.{Form};
ghost use Rattle.nf_filter.specs.declared.policy.Policy.{Policy};
ghost use Rattle.nf_filter.specs.Filter.{state_of, is_spent, StandsAfter as FilterStandsAfter};
ghost use Rattle.nf_filter.specs.Saved.{saved_of};
ghost use Rattle.nf_row.specs.Ascii.{IsPlainAscii};
ghost use Rattle.nf_c.specs.State.{form_at, policy_at, CanStand, StandAfter, StandsAfter, unpacked};
ghost use Rattle.nf_c.specs.Starts.{start_status};
ghost use Rattle.nf_c.specs.declared.status.Status.TheVariants.{Done};

use crate::packing::{form_of, pack, policy_of, unpack};
use crate::state::State;
use crate::status::Status;
use nf_filter::Filter;
use nf_row::{Plain, Ucd, ascii_is_plain};

/// A state that has read nothing. The first byte to come has the offset `base`.
pub fn start(state: &mut State, form: u32, policy: u32, base: u64) -> Status
    ensures status { result ≡ start_status form policy }
    ensures kept { ¬ (result ≡ Done) → state.new ≡ state.old }
    ensures base { result ≡ Done → state.new.base ≡ base }
    ensures stands { result ≡ Done → StandsAfter (policy_at policy) (form_at form) state.new [] }
{
    let Some(form) = form_of(form) else {
        return Status::NoForm;
    };
    let Some(policy) = policy_of(policy) else {
        return Status::NoPolicy;
    };
    let filter = Filter::quickest(&Ucd, form, base).policy(policy);
    *state = kept(&filter);
    Status::Done
}

/// The filter that stands where the state says; none where no filter does.
pub fn filter_of(state: &State) -> Option<Filter<'static, Ucd>>
    ensures some { IsSome result ↔ CanStand state.now }
    ensures saved { IfSome result (λ filter. saved_of (state_of filter) ≡ unpacked state.now) }
    ensures stands { (policy : Policy) (f : Form) (bytes : List ℕ) → StandsAfter policy f state.now bytes → IfSome result (λ filter. FilterStandsAfter policy f ucd (state_of filter) bytes) }
{
    Filter::restore(plain(), unpack(state)?)
}

/// The state of a filter.
pub fn kept(filter: &Filter<'_, Ucd>) -> State
    ensures saved { unpacked result ≡ saved_of (state_of filter.now) }
    ensures spent { IsTrue (is_spent (state_of filter.now)) → CanStand result }
    ensures stands { (policy : Policy) (f : Form) (bytes : List ℕ) → FilterStandsAfter policy f ucd (state_of filter.now) bytes → StandAfter policy f result (state_of filter.now) bytes }
{
    pack(&filter.save())
}

/// Puts the filter back to where the state stands, if a filter can stand there.
pub fn go_back(filter: &mut Filter<'_, Ucd>, state: &State)
    ensures { (policy : Policy) (f : Form) (bytes : List ℕ) → StandsAfter policy f state.now bytes → StandAfter policy f state.now (state_of filter.new) bytes }
{
    if let Some(back) = filter_of(state) {
        *filter = back;
    }
}

// Unicode's data, of which ASCII is plain.
pub fn plain() -> Plain<'static, Ucd>
    ensures { IsPlainAscii ucd }
{
    ascii_is_plain();
    match Plain::of(&Ucd) {
        Some(plain) => plain,
        None => unreachable!(),
    }
}
