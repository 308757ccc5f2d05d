//! Laws of lines.
ghost use Rattle.nf_lines.specs.Alone.{LinesStandAlone};

use nf_facts::laws::{
    every_character_is_sound, lines_are_formed_alone, plain_ranges_pass, the_quick_check_tells,
};
use nf_utf8::laws::longest_text;

/// Bytes may be cut after a line feed: what they come to is what the parts come to, one after the other.
#[inline]
pub fn lines_stand_alone()
    ensures { LinesStandAlone }
{
    longest_text();
    every_character_is_sound();
    plain_ranges_pass();
    the_quick_check_tells();
    lines_are_formed_alone();
}
