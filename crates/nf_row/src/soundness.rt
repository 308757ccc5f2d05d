ghost use Rattle.std.specs.Prelude.{◌≡◌, ◌≤◌, ◌==◌, ◌&&◌, ℕ, length, is_some, IfSome, IsTrue};
ghost use Rattle.nf_forms.specs.StreamSafe.{joiner};
ghost use Rattle.nf_row.specs.NonStarters.{HasNonStarters};
ghost use Rattle.nf_row.specs.Shape.{IsShapeOf, shapes_agree};
ghost use Rattle.nf_forms.specs.Sound.{is_sound};

use crate::lending::{RowRoom, row_of};
use crate::non_starters::NonStarters;
use crate::rows::Rows;
use nf_facts::laws;
use nf_forms::{Form, JOINER};

/// The compatibility decomposition of a sound character, and its ends.
#[derive(Clone, Copy, Debug)]
pub struct SoundRow<'r> {
    pub row: &'r [char],
    pub ends: NonStarters,
}

/// What soundness asks of one row.
#[derive(Clone, Copy)]
struct Shape {
    is_empty: bool,
    is_joiner: bool,
    ends: NonStarters,
}

/// Whether every character is known to be sound.
#[inline]
pub fn all_sound<R: Rows>(rows: &R) -> bool
    ensures { IsTrue result → (c : ℕ) → IsTrue (is_sound (R.properties rows.now) c) }
{
    laws::every_character_is_sound();
    rows.is_ucd()
}

/// Whether `c` is sound: both rows have 1 to 18 members, the canonical row begins and ends with no more non-starters
/// than the compatibility row and has a starter where that has one, and U+034F is a starter that is its own row.
/// The rows are read one after the other.
pub fn sound<R: Rows>(rows: &R, c: char) -> bool
    ensures { result ≡ is_sound (R.properties rows.now) c }
{
    all_sound(rows) || sound_row(rows, c, &mut RowRoom::new()).is_some()
}

/// The compatibility row of a sound character with its ends, and none of any other. It is read last: so one row is held
/// at a time, and a caller that goes on with it does not look it up again. Where all are known to be sound it is read alone.
pub fn sound_row<'r, R: Rows>(rows: &R, c: char, room: &'r mut RowRoom) -> Option<SoundRow<'r>>
    ensures sound { is_some result ≡ is_sound (R.properties rows.now) c }
    ensures row { IfSome result (λ read. (read.row.now ≡ (R.properties rows.now).compat c) × (length read.row.now ≤ 18)) }
    ensures ends { IfSome result (λ read. HasNonStarters (R.properties rows.now) ((R.properties rows.now).compat c) read.ends) }
{
    if all_sound(rows) {
        let row = row_of(rows, Form::Nfkd, c, room).ok()?;
        let ends = NonStarters::of_members(rows, row);
        return Some(SoundRow { row, ends });
    }
    let canonical = shape_of(rows, row_of(rows, Form::Nfd, c, room).ok()?);
    let row = row_of(rows, Form::Nfkd, c, room).ok()?;
    let compat = shape_of(rows, row);
    if !are_sound(rows, c, canonical, compat) {
        return None;
    }
    let ends = compat.ends;
    Some(SoundRow { row, ends })
}

/// Whether `c` is sound, whose canonical and compatibility rows have these shapes.
#[inline]
fn are_sound<R: Rows>(rows: &R, c: char, canonical: Shape, compat: Shape) -> bool
    requires canonical { IsShapeOf (R.properties rows.now) ((R.properties rows.now).canonical c) canonical }
    requires compat { IsShapeOf (R.properties rows.now) ((R.properties rows.now).compat c) compat }
    ensures { result ≡ is_sound (R.properties rows.now) c }
{
    agree(canonical, compat) && (c != JOINER || is_plain(rows, canonical, compat))
}

/// Whether two rows of at most 18 members may be the canonical and the compatibility row of a sound character.
#[inline]
fn agree(canonical: Shape, compat: Shape) -> bool
    ensures { result ≡ shapes_agree canonical compat }
{
    !canonical.is_empty
        && !compat.is_empty
        && canonical.ends.lead <= compat.ends.lead
        && canonical.ends.trail <= compat.ends.trail
        && (canonical.ends.has_starter || !compat.ends.has_starter)
}

/// Whether the joiner, with these rows, is a starter that is its own row.
#[inline]
fn is_plain<R: Rows>(rows: &R, canonical: Shape, compat: Shape) -> bool
    ensures { result ≡ (canonical.is_joiner && compat.is_joiner && (R.properties rows.now).class joiner == 0) }
{
    canonical.is_joiner && compat.is_joiner && rows.class(JOINER) == 0
}

/// One look at the class of each member.
#[inline]
fn shape_of<R: Rows>(rows: &R, row: &[char]) -> Shape
    requires { length row.now ≤ 18 }
    ensures { IsShapeOf (R.properties rows.now) row.now result }
{
    Shape {
        is_empty: row.is_empty(),
        is_joiner: row == [JOINER].as_slice(),
        ends: NonStarters::of_members(rows, row),
    }
}
