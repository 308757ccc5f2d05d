//! Text between two pieces that are changed: to go from these to a span and back costs more than to copy a little.
ghost use Rattle.std.specs.Prelude.{◌≡◌, IfSome, IsNone};
ghost use Rattle.nf_boundary.specs.Pieces.{Closes};

use crate::after_span::boundary_after;
use crate::seen::Seen;
use crate::segments::Formed;
use nf_forms::Form;
use nf_span::near_text;

/// Appends a span, where a character that is changed, or may compose, comes soon; answers the boundary after it.
#[inline(always)]
pub(crate) fn take_run<'t>(form: Form, text: &'t str, formed: &mut Formed) -> Option<Seen<'t>>
    ensures closes { IfSome result (λ next. Closes form text.now next formed.old.items formed.new.items) }
    ensures stays { IsNone result → formed.new ≡ formed.old }
{
    let next = boundary_after(form, text, near_text(form, text)?)?;
    if !form.composes() && next.known.is_yes(form) {
        return None;
    }
    let (run, _) = text.split_at(text.len() - next.text.len());
    if run.is_empty() {
        return None;
    }
    formed.try_extend_from_slice(run.as_bytes()).ok()?;
    Some(next)
}
