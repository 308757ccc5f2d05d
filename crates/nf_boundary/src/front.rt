ghost use Rattle.std.specs.Prelude.{◌≡◌, ℕ, List, false, IfSome};
ghost use Rattle.nf_forms.specs.Forms.{composes};
ghost use Rattle.nf_forms.specs.Ucd.{ucd};
ghost use Rattle.nf_entry.specs.Entry.{IsOfFirst};
ghost use Rattle.nf_boundary.specs.Front.{IsFirstSegments};
ghost use Rattle.nf_boundary.specs.Seen.{Sees};
ghost use Rattle.nf_boundary.specs.Rows.{IsRow};
ghost use Rattle.nf_boundary.specs.Pieces.{Reaches};
ghost use Rattle.nf_boundary.specs.Stands.{Stands};

use crate::after_span::{boundary_after, changed_after};
use crate::apart::take_front_apart;
use crate::pieces::{MOST_BEFORE, take_pieces};
use crate::rows::{Row, changed};
use crate::seen::{Seen, may_begin_with_mark};
use crate::segments::{Formed, Segments};
use nf_entry::Entry;
use nf_forms::Form;
use nf_span::span_text;

/// More turns than a front has: each of them appends something.
const MAX_TURNS: usize = 1024;

/// Segments that the text begins with, as far as they are known: a span, and after it characters that the form changes, until
/// a span comes again or `formed` is full. Their form is put into `formed`, in place of what it holds. Nothing where none
/// is found, as where no boundary comes. `known` is the entry of the first character, in Unicode's data.
#[inline(never)]
pub fn first_segments<'t>(
    form: Form,
    text: &'t str,
    known: Entry,
    formed: &mut Formed,
) -> Option<Segments<'t>>
    requires { IsOfFirst text.now known }
    ensures { IfSome result (λ segments. IsFirstSegments ucd form text.now segments.same.now formed.new.items segments.rest.now) }
{
    let first = first_boundary(form, Seen::known_first(text, known)?)?;
    let (same, _) = text.split_at(text.len() - first.seen.text.len());
    formed.clear();
    let last = take_front(form, first, text.len(), formed);
    if last.text.len() == text.len() {
        return None;
    }
    Some(Segments {
        same,
        rest: last.text,
    })
}

/// The first boundary of a text that is changed after it: the first character, where the form changes that and its
/// decomposition tells that a text may be cut before it, or the boundary after the span that the text begins with.
#[inline(always)]
fn first_boundary<'t>(form: Form, first: Seen<'t>) -> Option<Row<'t>>
    requires { Sees first }
    ensures stands { IfSome result (λ next. Stands form first.entry.text.now next.seen) }
    ensures row { IfSome result (λ next. IsRow form next) }
{
    if !first.is_boundary(form) {
        return changed(form, first);
    }
    if !first.known.passes(form) {
        return Some(Row {
            seen: first,
            members: &[],
        });
    }
    let span = span_text(form, first.text);
    if form.composes()
        && let Some(next) = changed_after(form, first.text, span)
    {
        return Some(next);
    }
    let seen = boundary_after(form, first.text, span)?;
    Some(Row { seen, members: &[] })
}

/// Appends what a text becomes from its first character on, until a span comes again or nothing is taken; answers the last
/// boundary. So many bytes has the text that it ends.
#[inline(always)]
fn take_front<'t>(form: Form, first: Row<'t>, len: usize, formed: &mut Formed) -> Seen<'t>
    requires { IsRow form first }
    ensures { (whole same : List ℕ) → Reaches form whole same formed.old.items first.entry.seen → Reaches form whole same formed.new.items result }
{
    if form.composes() {
        take_pieces(form, first, formed)
    } else {
        decompose_front(form, first, len, formed)
    }
}

/// The same in a form that does not compose, in turns what is taken apart and what goes by pieces.
#[inline(always)]
fn decompose_front<'t>(form: Form, first: Row<'t>, len: usize, formed: &mut Formed) -> Seen<'t>
    requires row { IsRow form first }
    requires plain { composes form ≡ false }
    ensures { (whole same : List ℕ) → Reaches form whole same formed.old.items first.entry.seen → Reaches form whole same formed.new.items result }
{
    let mut next = first;
    for _ in 0..MAX_TURNS {
        // After what is taken another piece may begin that is not taken apart.
        let changed = take_changed(form, next, formed);
        if changed.seen.text.len() < len
            && goes_on_as_span(form, changed.seen, !formed.is_empty())
        {
            return changed.seen;
        }
        let last = take_pieces(form, changed, formed);
        if last.text.len() == changed.seen.text.len() || formed.len() > MOST_BEFORE {
            return last;
        }
        next = Row {
            seen: last,
            members: &[],
        };
    }
    next.seen
}

/// Appends what a text becomes from its first character on, as far as it is taken apart; answers the last boundary.
#[inline(always)]
fn take_changed<'t>(form: Form, first: Row<'t>, formed: &mut Formed) -> Row<'t>
    requires row { IsRow form first }
    requires plain { composes form ≡ false }
    ensures row { IsRow form result }
    ensures reaches { (whole same : List ℕ) → Reaches form whole same formed.old.items first.entry.seen → Reaches form whole same formed.new.items result.seen }
{
    if !first.members.is_empty() {
        return first;
    }
    Row {
        seen: take_front_apart(form, first.seen, formed),
        members: &[],
    }
}

/// Whether a span comes next, as far as two characters tell: after what the form changed it may begin with marks, but
/// where a span ended there is no boundary before it.
#[inline(always)]
fn goes_on_as_span(form: Form, next: Seen<'_>, is_after_changed: bool) -> bool {
    if !next.known.is_yes(form) {
        return false;
    }
    if !may_begin_with_mark(next.after) {
        return true;
    }
    match Seen::first(next.after) {
        Some(after) => { after.known.is_yes(form) && (is_after_changed || after.is_boundary(form)) }
        None => true,
    }
}
