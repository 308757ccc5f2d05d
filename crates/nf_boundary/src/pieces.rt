ghost use Rattle.std.specs.Prelude.{◌≡◌, ℕ, List, take, length, IfSome, IsNone};
ghost use Rattle.nf_span.specs.Scan.{form_of};
ghost use Rattle.nf_boundary.specs.Seen.{IsAtBoundary};
ghost use Rattle.nf_boundary.specs.Rows.{IsRow};
ghost use Rattle.nf_boundary.specs.Pieces.{Closes, Reaches};

use crate::composing::take_composed;
use crate::piece::Piece;
use crate::rows::Row;
use crate::seen::Seen;
use crate::segments::Formed;
use nf_facts::laws;
use nf_forms::Form;
use nf_span::form_of;

/// Where more bytes than this are there, the next piece is left for another front: it may have no room, and would then have
/// been read in vain.
pub(crate) const MOST_BEFORE: usize = 896;

/// Appends what the pieces become that the text begins with, and in a form that composes the spans and syllables between them,
/// as far as boundaries come after; answers the last boundary. It stands out of line, to keep its callers' loops short.
#[inline(never)]
pub(crate) fn take_pieces<'t>(form: Form, first: Row<'t>, formed: &mut Formed) -> Seen<'t>
    requires { IsRow form first }
    ensures at { IsAtBoundary form result }
    ensures reaches { (whole same : List ℕ) → Reaches form whole same formed.old.items first.entry.seen → Reaches form whole same formed.new.items result }
{
    match form {
        Form::Nfc => pieces_in::<0>(first, formed),
        Form::Nfd => pieces_in::<1>(first, formed),
        Form::Nfkc => pieces_in::<2>(first, formed),
        Form::Nfkd => pieces_in::<3>(first, formed),
    }
}

/// Each form has a copy of the loops of its own, by a constant, so that a step has one caller, in whose line it stands.
fn pieces_in<'t, const FORM: usize>(first: Row<'t>, formed: &mut Formed) -> Seen<'t>
    requires { IsRow (form_of FORM) first }
    ensures at { IsAtBoundary (form_of FORM) result }
    ensures reaches { (whole same : List ℕ) → Reaches (form_of FORM) whole same formed.old.items first.entry.seen → Reaches (form_of FORM) whole same formed.new.items result }
{
    let mut piece = Piece::new();
    let mut next = first;
    while let Some(after) = take_next::<FORM>(next, &mut piece, formed) {
        next = after;
    }
    next.seen
}

/// The next piece, or in a form that composes what comes in place of one.
#[inline(always)]
fn take_next<'t, const FORM: usize>(
    first: Row<'t>,
    piece: &mut Piece,
    formed: &mut Formed,
) -> Option<Row<'t>>
    requires { IsRow (form_of FORM) first }
    ensures closes { IfSome result (λ next. Closes (form_of FORM) first.entry.seen.text.now next.seen formed.old.items formed.new.items) }
    ensures row { IfSome result (λ next. IsRow (form_of FORM) next) }
    ensures stays { IsNone result → formed.new ≡ formed.old }
{
    let form = form_of(FORM);
    if form.composes()
        && first.members.is_empty()
        && let Some(seen) = take_composed::<FORM>(first.seen, formed)
    {
        return Some(Row { seen, members: &[] });
    }
    take_piece(form, first, piece, formed)
}

/// Appends what a piece becomes, where a boundary comes after it, and answers that.
#[inline(always)]
fn take_piece<'t>(
    form: Form,
    first: Row<'t>,
    piece: &mut Piece,
    formed: &mut Formed,
) -> Option<Row<'t>>
    requires { IsRow form first }
    ensures closes { IfSome result (λ next. Closes form first.entry.seen.text.now next.seen formed.old.items formed.new.items) }
    ensures row { IfSome result (λ next. IsRow form next) }
    ensures stays { IsNone result → formed.new ≡ formed.old }
{
    let length = formed.len();
    if length > MOST_BEFORE {
        return None;
    }
    let next = append_piece(form, first, piece, formed);
    if next.is_none() {
        formed.truncate(length);
    }
    next
}

/// The same, but some of it may be appended where no boundary comes. A span is left, to be taken as it stands.
#[inline(always)]
fn append_piece<'t>(
    form: Form,
    first: Row<'t>,
    piece: &mut Piece,
    formed: &mut Formed,
) -> Option<Row<'t>>
    requires { IsRow form first }
    ensures closes { IfSome result (λ next. Closes form first.entry.seen.text.now next.seen formed.old.items formed.new.items) }
    ensures row { IfSome result (λ next. IsRow form next) }
    ensures keeps { IsNone result → take (length formed.old.items) formed.new.items ≡ formed.old.items }
{
    laws::every_character_is_sound();
    let mut next = Seen::first(first.seen.after)?;
    if first.seen.is_span_before(form, next, !formed.is_empty()) {
        return None;
    }
    piece.begin(form, first, formed)?;
    loop {
        if let Some(after) = Row::at(form, next) {
            piece.close(form, formed)?;
            return Some(after);
        }
        piece.join(form, next, formed)?;
        next = Seen::first(next.after)?;
    }
}
