ghost use Rattle.std.specs.Prelude.{◌≡◌, true, IfSome, IsNone};
ghost use Rattle.nf_forms.specs.Forms.{composes};
ghost use Rattle.nf_span.specs.Scan.{form_of};
ghost use Rattle.nf_boundary.specs.Seen.{IsAtBoundary};
ghost use Rattle.nf_boundary.specs.Pieces.{Closes};

use crate::between::take_run;
use crate::hangul::take_syllable;
use crate::seen::{Seen, may_begin_with_mark};
use crate::segments::Formed;
use nf_span::form_of;

/// Appends a span before a piece, or a syllable of Hangul, where one of these comes next, and answers the boundary after it.
#[inline(always)]
pub(crate) fn take_composed<'t, const FORM: usize>(
    first: Seen<'t>,
    formed: &mut Formed,
) -> Option<Seen<'t>>
    requires first { IsAtBoundary (form_of FORM) first }
    requires composing { composes (form_of FORM) ≡ true }
    ensures closes { IfSome result (λ next. Closes (form_of FORM) first.entry.text.now next formed.old.items formed.new.items) }
    ensures stays { IsNone result → formed.new ≡ formed.old }
{
    let form = form_of(FORM);
    if may_begin_run(first.after)
        && let Some(next) = take_run(form, first.text, formed)
    {
        return Some(next);
    }
    take_syllable(form, first, formed)
}

/// Whether the first byte leaves it open that a span comes first that ends at a mark: most letters of Latin, Cyrillic and
/// Japanese do, and of Arabic few.
#[inline(always)]
fn may_begin_run(text: &str) -> bool {
    let bytes = text.as_bytes();
    !bytes.is_empty()
        && matches!(bytes[0], 0x00..=0x7F | 0xD0 | 0xD1 | 0xE3..=0xE9)
        && !may_begin_with_mark(text)
}
