ghost use Rattle.std.specs.Prelude.{◌<◌};
ghost use Rattle.nf_forms.specs.Ucd.{ucd};
ghost use Rattle.nf_counts.specs.Counts.{IsValued};

use crate::rows::{INDEX, TAIL, WORDS};
use nf_facts::laws;
use ucd_table::get_wide;

/// The value of a non-starter.
pub(crate) const MARK: u32 = 5;

/// The value of an unassigned character.
pub(crate) const UNASSIGNED: u32 = 8;

/// The value of a code point, 0 to 15.
#[inline(always)]
pub(crate) fn value(code: u32) -> u32
    requires { code < 1114112 }
    ensures within { result < 16 }
    ensures valued { IsValued ucd code result }
{
    laws::every_character_is_sound();
    get_wide::<4, 4>(&INDEX, &WORDS, &TAIL, code)
}
