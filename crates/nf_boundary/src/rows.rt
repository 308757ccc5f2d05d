ghost use Rattle.std.specs.Prelude.{◌≡◌, ◌∷◌, ℕ, List, IfSome};
ghost use Rattle.unicode_normalization.specs.Decompose.{decompose, table_of};
ghost use Rattle.unicode_normalization.specs.Hangul.{is_syllable};
ghost use Rattle.nf_forms.specs.Forms.{row_of};
ghost use Rattle.nf_forms.specs.Ucd.{ucd};
ghost use Rattle.nf_facts.specs.KitForm.{kit_form};
ghost use Rattle.nf_boundary.specs.Seen.{Sees};
ghost use Rattle.nf_boundary.specs.Rows.{IsRow};

use crate::seen::{Seen, look_up};
use nf_facts::{in_tables, laws};
use nf_forms::Form;
use ucd_normal::{canonical_decomposition, compatibility_decomposition};
use unicode_normalization::char::decomposition;

/// A character before which a text may be cut, with its decomposition, so that this is looked up once.
#[derive(Clone, Copy)]
pub(crate) struct Row<'t> {
    pub seen: Seen<'t>,
    /// None where one look-up tells that a text may be cut there.
    pub members: &'static [char],
}

impl<'t> Row<'t> {
    /// The character, where a text may be cut before it, as one look-up tells, or its decomposition.
    #[inline(always)]
    pub fn at(form: Form, seen: Seen<'t>) -> Option<Row<'t>>
        requires { Sees seen }
        ensures seen { IfSome result (λ row. row.seen ≡ seen.entry) }
        ensures row { IfSome result (λ row. IsRow form row) }
    {
        if seen.is_boundary(form) {
            return Some(Row { seen, members: &[] });
        }
        changed(form, seen)
    }

    /// Its decomposition.
    #[inline(always)]
    pub fn decomposition<'a>(self, form: Form, place: &'a mut [char; 3]) -> &'a [char]
        requires { IsRow form self }
        ensures { result.now ≡ row_of form ucd self.entry.seen.character }
    {
        if self.members.is_empty() {
            decomposition(self.seen.character, in_tables(form), place)
        } else {
            self.members
        }
    }
}

/// The character, where a text may be cut before it since it is a starter whose decomposition begins with one that passes
/// the quick check, and so composes with nothing before it.
#[inline(always)]
pub(crate) fn changed<'t>(form: Form, seen: Seen<'t>) -> Option<Row<'t>>
    requires { Sees seen }
    ensures seen { IfSome result (λ row. row.seen ≡ seen.entry) }
    ensures row { IfSome result (λ row. IsRow form row) }
{
    laws::every_character_is_sound();
    laws::exceptions_are_few();
    laws::the_quick_check_tells();
    let known = seen.known;
    if known.class() != 0 || !known.is_no(form) || known.begins_with_mark() {
        return None;
    }
    let members = members(form, seen.character);
    let (first, _) = members.split_first()?;
    if !look_up(*first).passes(form) {
        return None;
    }
    Some(Row { seen, members })
}

/// The decomposition of a character as the tables have it, to be kept while others are looked up: nothing where that is the
/// character itself, or is had by arithmetic.
#[inline(always)]
fn members(form: Form, c: char) -> &'static [char]
    ensures { (first : ℕ) (others : List ℕ) → result.now ≡ first ∷ others → result.now ≡ decompose (kit_form form) c }
{
    if is_syllable(c) {
        return &[];
    }
    in_table(form, c)
}

/// The decomposition of a character that is no syllable of Hangul, or nothing where that is the character itself.
#[inline(always)]
fn in_table(form: Form, c: char) -> &'static [char]
    ensures { result.now ≡ table_of (kit_form form) c }
{
    match form {
        Form::Nfc | Form::Nfd => canonical_decomposition(c),
        Form::Nfkc | Form::Nfkd => compatibility_decomposition(c),
    }
}

/// Whether `c` is a syllable of Hangul (The Unicode Standard, section 3.12).
#[inline(always)]
const fn is_syllable(c: char) -> bool
    ensures { result ≡ is_syllable c }
{
    matches!(c, '\u{AC00}'..='\u{D7A3}')
}
