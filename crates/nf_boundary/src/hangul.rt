ghost use Rattle.std.specs.Prelude.{◌≡◌, true, IfSome, IsNone};
ghost use Rattle.nf_forms.specs.Forms.{composes};
ghost use Rattle.nf_boundary.specs.Seen.{IsAtBoundary};
ghost use Rattle.nf_boundary.specs.Pieces.{Closes};
ghost use Rattle.nf_boundary.specs.Hangul.{Spells};

use crate::encoding::append_one;
use crate::seen::Seen;
use crate::segments::Formed;
use nf_facts::laws;
use nf_forms::Form;

/// Appends the syllable that is written with a leading consonant and the letters after it, where a boundary comes after
/// them, and answers that: in a form that composes, so much is a segment.
#[inline(always)]
pub(crate) fn take_syllable<'t>(
    form: Form,
    first: Seen<'t>,
    formed: &mut Formed,
) -> Option<Seen<'t>>
    requires first { IsAtBoundary form first }
    requires composing { composes form ≡ true }
    ensures closes { IfSome result (λ next. Closes form first.entry.text.now next formed.old.items formed.new.items) }
    ensures stays { IsNone result → formed.new ≡ formed.old }
{
    laws::every_character_is_sound();
    let (syllable, after) = spelled(first.character, first.after)?;
    let next = Seen::boundary(form, after)?;
    append_one(formed, syllable)?;
    Some(next)
}

/// The syllable that is written with a leading consonant and the letters that the text begins with, by the arithmetic of
/// The Unicode Standard, section 3.12, with no look-up; and what stands after those.
#[inline(always)]
fn spelled<'t>(leading: char, text: &'t str) -> Option<(char, &'t str)>
    ensures { IfSome result (λ both. Spells leading text.now both.1.now both.0) }
{
    laws::hangul_letters_are_their_own_rows();
    laws::each_pair_has_a_primary_composite();
    if leading < '\u{1100}' || leading > '\u{1112}' {
        return None;
    }
    let mut chars = text.chars();
    let vowel = chars.next()?;
    if vowel < '\u{1161}' || vowel > '\u{1175}' {
        return None;
    }
    let open = 0xAC00 + (leading as u32 - 0x1100) * 588 + (vowel as u32 - 0x1161) * 28;
    let after = chars.as_str();
    if let Some(trailing) = chars.next()
        && trailing >= '\u{11A8}'
        && trailing <= '\u{11C2}'
    {
        let closed = char::from_u32(open + (trailing as u32 - 0x11A7))?;
        return Some((closed, chars.as_str()));
    }
    Some((char::from_u32(open)?, after))
}
