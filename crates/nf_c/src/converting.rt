//! A whole text in memory.
ghost use Rattle.std.specs.Prelude.{◌≡◌};
ghost use Rattle.nf_c.specs.State.{form_at, policy_at};
ghost use Rattle.nf_c.specs.Starts.{start_status};
ghost use Rattle.nf_c.specs.Moved.{moved};
ghost use Rattle.nf_c.specs.Converts.{Converts, ConvertsText};
ghost use Rattle.nf_c.specs.declared.status.Status.TheVariants.{Done};

use crate::feeding::{Fed, feed_all, is_full};
use crate::finishing::finish_filter;
use crate::moved::Moved;
use crate::packing::{form_of, policy_of};
use crate::starting::kept;
use crate::status::Status;
use nf_filter::{Filter, Policy};
use nf_row::{Form, Ucd};
use nf_utf8::laws::longest_text;

/// Writes the form of the input, which is a whole text, to the front of the output. Where there is no room for all of it,
/// what is written is what was settled of it, of as much as was read.
pub fn convert(form: u32, policy: u32, input: &[u8], output: &mut [u8]) -> Moved
    ensures refused { ¬ (start_status form policy ≡ Done) → result ≡ moved (start_status form policy) 0 0 }
    ensures converts { start_status form policy ≡ Done → Converts (policy_at policy) (form_at form) input.now output.new result }
{
    let Some(form) = form_of(form) else {
        return Moved::of(Status::NoForm, 0, 0);
    };
    let Some(policy) = policy_of(policy) else {
        return Moved::of(Status::NoPolicy, 0, 0);
    };
    let done = convert_text(form, policy, input, output);
    Moved::within(done.fault, 0, input.len(), done.read, done.written)
}

/// Feeds all of it, and finishes.
fn convert_text(form: Form, policy: Policy, input: &[u8], output: &mut [u8]) -> Fed
    ensures { ConvertsText policy form input.now output.new result }
{
    longest_text();
    let mut filter = Filter::quickest(&Ucd, form, 0).policy(policy);
    let mut state = kept(&filter);
    let fed = feed_all(&mut state, &mut filter, input, output);
    if fed.fault.is_some() {
        return fed;
    }
    let finished = finish_filter(filter, &mut output[fed.written..]);
    if is_full(finished.fault) {
        return Fed {
            read: fed.read,
            written: fed.written,
            fault: finished.fault,
        };
    }
    Fed {
        read: fed.read,
        written: fed.written + finished.written,
        fault: finished.fault,
    }
}
