ghost use Rattle.std.specs.Prelude.{IfSome};
ghost use Rattle.nf_entry.specs.Entry.{IsOfFirst};
ghost use Rattle.nf_forms.specs.Ucd.{ucd};
ghost use Rattle.nf_span.specs.Front.{IsSpanText};
ghost use Rattle.nf_span.specs.Scan.{ReachesEnd, Ends};

use crate::lanes::near_look;
use crate::scan::{End, Scan};
use crate::span::SpanText;
use nf_facts::laws;
use nf_forms::Form;

/// The span that the text begins with, by one look-up for each character that is not in a range that is passed over as a whole.
#[inline]
pub fn span_text(form: Form, text: &str) -> SpanText<'_>
    ensures span { IsSpanText ucd form text.now result.span.now result.rest.now }
    ensures next { IfSome result.next (IsOfFirst result.rest.now) }
{
    text_before(form, text, span_end(form, text))
}

/// The same as far as bytes tell, where there is a span, and a character that has to be looked up is near.
#[inline(always)]
pub fn near_text(form: Form, text: &str) -> Option<SpanText<'_>>
    ensures span { IfSome result (λ near. IsSpanText ucd form text.now near.span.now near.rest.now) }
    ensures next { IfSome result (λ near. IfSome near.next (IsOfFirst near.rest.now)) }
{
    let begin = Scan::new(text);
    let near = near_look(form, begin.rest.as_bytes())?;
    if near.len == 0 {
        return None;
    }
    let end = End {
        scan: begin.past(form, near.len),
        next: None,
    };
    Some(text_before(form, text, end))
}

/// The text in two, at a place before which it is a span.
#[inline(always)]
fn text_before<'t>(_form: Form, text: &'t str, end: End<'t>) -> SpanText<'t>
    requires { ReachesEnd _form text.now end }
    ensures span { IsSpanText ucd _form text.now result.span.now result.rest.now }
    ensures next { IfSome result.next (IsOfFirst result.rest.now) }
{
    laws::every_character_is_sound();
    let (span, rest) = text.split_at(text.len() - end.scan.rest.len());
    SpanText {
        span,
        rest,
        next: end.next,
    }
}

/// Where the span ends.
fn span_end(form: Form, text: &str) -> End<'_>
    ensures ends { Ends form result.scan }
    ensures span { ReachesEnd form text.now result }
{
    match form {
        Form::Nfc => Scan::to_end::<0>(text),
        Form::Nfd => Scan::to_end::<1>(text),
        Form::Nfkc => Scan::to_end::<2>(text),
        Form::Nfkd => Scan::to_end::<3>(text),
    }
}
