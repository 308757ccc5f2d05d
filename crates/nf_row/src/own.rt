//! What one look-up tells of a character of Unicode's data (UAX #15, section 9); of other data nothing is known.

ghost use Rattle.std.specs.Prelude.{◌≡◌, ℕ, false, IfSome, None};
ghost use Rattle.nf_forms.specs.Properties.{Properties};
ghost use Rattle.nf_forms.specs.Compose.{composite};
ghost use Rattle.nf_facts.specs.Passing.{is_among, composing_classes};
ghost use Rattle.nf_row.specs.Own.{IsKnown, IsOwn};

use crate::rows::Rows;
use nf_entry::Entry;
use nf_facts::laws;
use nf_forms::Form;

/// The entry of `c`, where the data is known to be Unicode's. It is made where a character is met, and handed on.
#[inline(always)]
pub fn known_entry<R: Rows>(rows: &R, c: char) -> Option<Entry>
    ensures { IfSome result (IsKnown (R.properties rows.now) c) }
{
    if !rows.is_ucd() {
        return None;
    }
    Some(Entry::of(c))
}

/// The canonical combining class, 0 to 255, of a character whose entry tells that it is sound and its own canonical and
/// compatibility row: it passes the quick check of NFKD. No rows have to be read of it then.
#[inline(always)]
pub fn own_class(known: Option<Entry>) -> Option<u8>
    ensures { (p : Properties) (c : ℕ) → IfSome known (IsKnown p c) → IfSome result (λ class. IsOwn p c class) }
{
    laws::every_character_is_sound();
    laws::what_passes_in_nfkd_is_its_own_row();
    let entry = known?;
    if !entry.is_yes(Form::Nfkd) {
        return None;
    }
    Some(entry.class())
}

/// Whether a character of this class may compose with what stands before it, for all that is known of the data. To look for
/// a composite is more than to ask this.
#[inline(always)]
pub fn class_may_compose<R: Rows>(rows: &R, class: u8) -> bool
    ensures { result ≡ false → (a c : ℕ) → (R.properties rows.now).class c ≡ class → composite (R.properties rows.now) a c ≡ None }
{
    laws::few_classes_compose();
    !rows.is_ucd() || is_composing(class)
}

/// Whether some character of this class composes with one before it.
#[inline(always)]
const fn is_composing(class: u8) -> bool
    ensures { result ≡ is_among composing_classes class }
{
    matches!(class, 0 | 1 | 7 | 8 | 9 | 91 | 202 | 216 | 220 | 230 | 240)
}
