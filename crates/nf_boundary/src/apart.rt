ghost use Rattle.std.specs.Prelude.{◌≡◌, ℕ, List, false, IfSome, IsNone};
ghost use Rattle.nf_forms.specs.Forms.{composes};
ghost use Rattle.nf_boundary.specs.Seen.{IsAtBoundary};
ghost use Rattle.nf_boundary.specs.Pieces.{Closes, Reaches};

use crate::between::take_run;
use crate::encoding::{append, append_one};
use crate::seen::Seen;
use crate::segments::Formed;
use nf_facts::{in_tables, laws};
use nf_forms::Form;
use unicode_normalization::char::decomposition;

/// Appends what a text becomes from its first character on, as far as it is taken apart; answers the last boundary.
pub(crate) fn take_front_apart<'t>(form: Form, first: Seen<'t>, formed: &mut Formed) -> Seen<'t>
    requires first { IsAtBoundary form first }
    requires plain { composes form ≡ false }
    ensures at { IsAtBoundary form result }
    ensures reaches { (whole same : List ℕ) → Reaches form whole same formed.old.items first.entry → Reaches form whole same formed.new.items result }
{
    let mut next = first;
    while let Some(after) = take_apart(form, next, formed) {
        next = after;
    }
    next
}

/// Appends the decomposition of a character that the form changes, where a boundary comes after it, and answers that: in
/// a form that does not compose, so much is a segment. A span is left, to be taken as it stands, but for a character, or a little
/// more, before another that is changed.
#[inline(always)]
fn take_apart<'t>(form: Form, first: Seen<'t>, formed: &mut Formed) -> Option<Seen<'t>>
    requires first { IsAtBoundary form first }
    requires plain { composes form ≡ false }
    ensures closes { IfSome result (λ next. Closes form first.entry.text.now next formed.old.items formed.new.items) }
    ensures stays { IsNone result → formed.new ≡ formed.old }
{
    laws::every_character_is_sound();
    laws::rows_are_ordered();
    laws::what_passes_has_a_boundary_before();
    if first.known.is_yes(form) {
        if may_change(first.after)
            && let Some(next) = Seen::boundary(form, first.after)
            && !next.known.is_yes(form)
        {
            append_one(formed, first.character)?;
            return Some(next);
        }
        return take_run(form, first.text, formed);
    }
    let next = Seen::boundary(form, first.after)?;
    let mut room = [first.character; 3];
    append(
        formed,
        decomposition(first.character, in_tables(form), &mut room),
    )?;
    Some(next)
}

/// Whether the first byte begins many characters that a form that decomposes changes: letters of Latin with marks, kana, Hangul.
/// Of Cyrillic and Arabic it changes few.
#[inline(always)]
fn may_change(text: &str) -> bool {
    let bytes = text.as_bytes();
    !bytes.is_empty() && matches!(bytes[0], 0xC3..=0xC8 | 0xCE | 0xE0..=0xE3 | 0xEA..=0xED | 0xEF)
}
