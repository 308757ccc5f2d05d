ghost use Rattle.std.specs.Prelude.{◌≡◌, IfSome};
ghost use Rattle.nf_forms.specs.Ucd.{ucd};
ghost use Rattle.nf_span.specs.Front.{IsSpanText};
ghost use Rattle.nf_entry.specs.Entry.{IsOfFirst};
ghost use Rattle.nf_boundary.specs.Rows.{IsRow};
ghost use Rattle.nf_boundary.specs.Seen.{IsAtBoundary};
ghost use Rattle.nf_boundary.specs.Stands.{Stands};

use crate::rows::{Row, changed};
use crate::seen::Seen;
use nf_facts::laws;
use nf_forms::Form;
use nf_span::SpanText;

/// The boundary after the span that a text begins with: right after that, where one follows, and else before its end,
/// after what is settled.
#[inline(always)]
pub(crate) fn boundary_after<'t>(form: Form, text: &'t str, near: SpanText<'t>) -> Option<Seen<'t>>
    requires span { IsSpanText ucd form text.now near.span.now near.rest.now }
    requires next { IfSome near.next (IsOfFirst near.rest.now) }
    ensures { IfSome result (λ next. Stands form text.now next) }
{
    laws::every_character_is_sound();
    if !form.composes()
        && let Some(next) = boundary_at(form, near)
    {
        return Some(next);
    }
    let span = near.split();
    let (_, rest) = text.split_at(span.settled.len());
    let next = Seen::known_first(rest, span.known?)?;
    if !next.is_boundary(form) {
        return None;
    }
    Some(next)
}

/// The character after a span, where a text may be cut before it.
#[inline(always)]
fn boundary_at<'t>(form: Form, near: SpanText<'t>) -> Option<Seen<'t>>
    requires { IfSome near.next (IsOfFirst near.rest.now) }
    ensures { IfSome result (λ next. (next.text.now ≡ near.entry.rest.now) × IsAtBoundary form next) }
{
    let Some(known) = near.next else {
        return Seen::boundary(form, near.rest);
    };
    let next = Seen::known_first(near.rest, known)?;
    if !next.is_boundary(form) {
        return None;
    }
    Some(next)
}

/// The character right after the span that a text begins with, where that was looked up, the form changes it, and its
/// decomposition tells that a text may be cut before it.
#[inline(always)]
pub(crate) fn changed_after<'t>(form: Form, _text: &'t str, near: SpanText<'t>) -> Option<Row<'t>>
    requires span { IsSpanText ucd form _text.now near.span.now near.rest.now }
    requires next { IfSome near.next (IsOfFirst near.rest.now) }
    ensures stands { IfSome result (λ next. Stands form _text.now next.seen) }
    ensures row { IfSome result (λ next. IsRow form next) }
{
    laws::every_character_is_sound();
    let known = near.next?;
    if !known.is_no(form) {
        return None;
    }
    changed(form, Seen::known_first(near.rest, known)?)
}
