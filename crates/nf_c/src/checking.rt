//! Whether a text in memory is in the Stream-Safe Text Format, or in a normalization form as well.
ghost use Rattle.std.specs.Prelude.{◌≡◌};
ghost use Rattle.nf_c.specs.State.{policy_at, form_at};
ghost use Rattle.nf_c.specs.Moved.{moved};
ghost use Rattle.nf_c.specs.Checks.{Checks, ChecksForm, check_form_status, checked};
ghost use Rattle.nf_c.specs.declared.status.Status.TheVariants.{Done};

use crate::moved::Moved;
use crate::packing::{form_of, policy_of};
use crate::status::Status;
use nf_facts::laws::every_character_is_sound;
use nf_filter::laws::no_sound_character_is_refused;
use nf_filter::{Failed, Fault, Source};
use nf_row::Ucd;
use nf_safe::Place;

/// Tells where the input, which is a whole text, leaves the Stream-Safe Text Format (UAX #15, section 13), if it does; or a
/// fault that stands before that.
pub fn check(input: &[u8]) -> Moved
    ensures { Checks input.now result }
{
    every_character_is_sound();
    no_sound_character_is_refused();
    let mut text = Text {
        rest: input,
        ended: false,
    };
    let answer = nf_filter::check(&Ucd, 0, &mut text);
    told(answer, Status::Unsafe, input.len())
}

/// Tells which character of the input, which is a whole text, is the first that a form of the stream-safe text changes (The
/// Unicode Standard, section 3.11; UAX #15, sections 9 and 13), if one is; or a fault that comes before that is settled. No
/// policy that replaces is taken, since places in what was replaced are none in the input.
pub fn check_form(form: u32, policy: u32, input: &[u8]) -> Moved
    ensures refused { ¬ (check_form_status form policy ≡ Done) → result ≡ moved (check_form_status form policy) 0 0 }
    ensures checks { check_form_status form policy ≡ Done → ChecksForm (policy_at policy).assigned (form_at form) input.now result }
{
    let Some(form) = form_of(form) else {
        return Moved::of(Status::NoForm, 0, 0);
    };
    let Some(policy) = policy_of(policy) else {
        return Moved::of(Status::NoPolicy, 0, 0);
    };
    if policy.replace {
        return Moved::of(Status::NoPolicy, 0, 0);
    }
    let mut text = Text {
        rest: input,
        ended: false,
    };
    let answer = nf_normalized::check_form(form, policy.assigned, 0, &mut text);
    told(answer, Status::NotNormalized, input.len())
}

/// A place is told by the status of what was found there.
fn told(answer: Result<Option<Place>, Fault>, found: Status, len: usize) -> Moved
    ensures { result ≡ checked found answer len }
{
    match answer {
        Ok(None) => Moved::of(Status::Done, len, 0),
        Ok(Some(place)) => Moved {
            status: found,
            read: 0,
            written: 0,
            at: place.bytes,
            start: place.bytes,
        },
        Err(fault) => Moved::by(fault, 0, 0),
    }
}

/// The text as a source, which never fails.
#[derive(Drop)]
struct Text<'t> {
    rest: &'t [u8],
    ended: bool,
}

impl Source for Text<'_> {
    ghost use Rattle.nf_c.specs.Checks.{state_of};

    ghost state = { state_of };

    fn get(&mut self, buf: &mut [u8]) -> Result<usize, Failed> {
        let len = self.rest.len().min(buf.len());
        buf[..len].copy_from_slice(&self.rest[..len]);
        self.rest = &self.rest[len..];
        self.ended = len == 0;
        Ok(len)
    }
}
