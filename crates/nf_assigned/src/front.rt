ghost use Rattle.std.specs.Prelude.{◌≡◌, ◌<◌, ◌≤◌, ◌+◌, ◌⊎◌, ℕ, true, false, length, take, chars};
ghost use Rattle.std.specs.List.{list_all};
ghost use Rattle.std.specs.Str.{IsCharBoundary};
ghost use Rattle.nf_forms.specs.Ucd.{is_assigned};
ghost use Rattle.nf_assigned.specs.Bytes.{IsAssignedAt};

use crate::lanes::assigned_len;

/// How many bytes at the front of the text are of assigned characters: it ends between two characters, and right before the first
/// that is unassigned, but for one of the last 65 bytes, where it may end sooner. No byte is looked at more than a few times.
#[inline]
pub fn assigned_front(text: &str) -> usize
    ensures boundary { IsCharBoundary text.now result }
    ensures stops { IsAssignedAt false text.now result ⊎ ((n : ℕ) → IsCharBoundary text.now n → result < n → length text.now ≤ n + 65) }
    ensures assigned { list_all is_assigned (chars (take result text.now)) ≡ true }
{
    match assigned_len(text) {
        Ok(len) => text.floor_char_boundary(len),
        Err(place) => place,
    }
}
