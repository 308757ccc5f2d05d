ghost use Rattle.std.specs.Prelude.{◌≡◌, ◌≤◌};
ghost use Rattle.nf_forms.specs.Runs.{lead, trail, has_starter};

use crate::rows::{Row, Rows};

/// How many non-starters `w` begins with, 0 to 18.
#[inline]
pub fn lead<R: Rows>(rows: &R, w: &Row) -> usize
    ensures value { result ≡ lead (R.properties rows.now) w.now.items }
    ensures bound { result ≤ 18 }
{
    w.iter().take_while(|c| rows.class(**c) != 0).count()
}

/// How many non-starters `w` ends with, 0 to 18.
#[inline]
pub fn trail<R: Rows>(rows: &R, w: &Row) -> usize
    ensures value { result ≡ trail (R.properties rows.now) w.now.items }
    ensures bound { result ≤ 18 }
{
    w.iter().rev().take_while(|c| rows.class(**c) != 0).count()
}

/// Whether `w` has a character of class 0.
#[inline]
pub fn has_starter<R: Rows>(rows: &R, w: &Row) -> bool
    ensures { result ≡ has_starter (R.properties rows.now) w.now.items }
{
    w.iter().any(|c| rows.class(*c) == 0)
}
