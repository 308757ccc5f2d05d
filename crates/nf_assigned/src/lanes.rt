//! Bytes and pairs of them, many at once.

ghost use Rattle.std.specs.Prelude.{◌≡◌, ◌<◌, ◌≤◌, ◌+◌, ℕ, ⊤, length, IsTrue, IsNone, IfSome, IsSome, MatchResult, count_ones};
ghost use Rattle.nf_lanes.specs.Looks.{NoneFound};
ghost use Rattle.nf_assigned.specs.Bytes.{finds_lead, IsFamily, AreFound, IsFront, StopsAt};

use crate::leads::{HIGH, LOW};
use crate::pairs::{FIRST, SECOND};
use crate::scripts::SCRIPTS;
use nf_counts::is_assigned_at;
use nf_lanes::{
    Pairs, byte_sets, found_by_pairs, found_leads, lead_bits, none_found, none_of, without_lowest,
};
use nf_utf8::ascii_prefix;
use std::mem::swap;

/// After so many windows of 63 bytes at most another question is asked again.
const MAX_WINDOWS: usize = 63;

/// So many characters of a window are looked up at most, where a family is asked alone.
const MAX_BY_PAIRS: u32 = 4;

/// And so many, where that of a script is asked too.
const MAX_BY_SCRIPTS: u32 = 14;

/// What is asked of 63 bytes at once. Of the characters of which it does not tell each is looked up, where they are not too many.
#[derive(Clone, Copy)]
pub(crate) enum By {
    /// Their lead bytes: these tell of all, or too little.
    Leads,
    /// Their pairs, by a family.
    Pairs,
    /// These, and pairs by the family of a script.
    Scripts,
    /// Nothing.
    LookUps,
}

/// How many bytes there are, but for the last 65 that are not ASCII at the front; or, as an error, how many before the first
/// unassigned character of these.
#[inline(always)]
pub(crate) fn assigned_len(text: &str) -> Result<usize, usize>
    ensures { MatchResult result (λ len. IsFront text.now 0 len × (length text.now ≤ len + 65)) (StopsAt text.now) }
{
    let end = text.len().saturating_sub(65);
    let mut at = ascii_prefix(text.as_bytes());
    // So many windows are asked by a family: the more, the more often lead bytes told nothing.
    let mut windows = MAX_WINDOWS;
    // And so many are looked up: the more, the more often nothing was told since the last.
    let mut looked_up = 1;
    // The family that is asked, and the one that is once that leaves too many.
    let mut family = &FIRST;
    let mut other = &SECOND;
    // Whether it told enough with that of a script, of more windows than one, so that it is asked again.
    let mut is_enough = false;
    while at < end {
        let from = at;
        let left = past(By::Leads, family, text, at, end)?;
        windows = MAX_WINDOWS.min(if left > at { 1 } else { 2 * windows + 1 });
        let until = end.min(left.saturating_add(63 * windows));
        at = past(By::Pairs, family, text, left, until)?;
        if at < until {
            looked_up = MAX_WINDOWS.min(if at > from { 1 } else { 2 * looked_up });
            if at > from || !is_enough {
                swap(&mut family, &mut other);
            }
            let until = end.min(at.saturating_add(63 * looked_up));
            let left = past(By::Scripts, family, text, at, until)?;
            is_enough = looked_up > 1 && left >= until;
            at = past(By::LookUps, family, text, left, until)?;
        }
    }
    Ok(at)
}

/// Goes on from a place, 63 bytes from one to the next, to one that is not before `end` or of which too little is told: that is
/// answered, or where an unassigned character begins.
#[inline(always)]
fn past(by: By, family: &Pairs, text: &str, at: usize, end: usize) -> Result<usize, usize>
    requires family { IsFamily family.now }
    requires front { IsFront text.now 0 at }
    requires room { end + 65 ≤ length text.now }
    ensures front { MatchResult result (IsFront text.now at) (StopsAt text.now) }
    ensures all { by ≡ By.LookUps → MatchResult result (λ past. end ≤ past) (λ _. ⊤) }
{
    let mut to = at;
    while to < end {
        let Some(found) = found_by(by, family, text, to) else {
            break;
        };
        if let Some(place) = first_unassigned(text, to, found) {
            return Err(place);
        }
        to += 63;
    }
    Ok(to)
}

/// A bit for each of 63 bytes from `at` on, the lowest for the first, at which a character has to be looked up; nothing where these
/// are too many.
#[inline(always)]
fn found_by(by: By, family: &Pairs, text: &str, at: usize) -> Option<u64>
    requires family { IsFamily family.now }
    requires room { at + 65 < length text.now }
    ensures found { IfSome result (λ found. AreFound text.now at found) }
    ensures all { by ≡ By.LookUps → IsSome result }
{
    let bytes = text.as_bytes();
    match by {
        By::Leads => is_told_by_leads(bytes, at).then_some(0),
        By::Pairs if none_found(family, bytes, at) => Some(0),
        By::Pairs => at_most(
            MAX_BY_PAIRS,
            found_by_pairs(lead_bits(bytes, at), family, bytes, at),
        ),
        By::Scripts => at_most(MAX_BY_SCRIPTS, found_by_scripts(family, text, at)),
        By::LookUps => Some(lead_bits(bytes, at)),
    }
}

/// The same, of what neither a family nor that of the first script tells. It is not in line, so that the rest is small enough to be.
#[inline(never)]
fn found_by_scripts(family: &Pairs, text: &str, at: usize) -> u64
    requires family { IsFamily family.now }
    requires room { at + 65 < length text.now }
    ensures { AreFound text.now at result }
{
    found_leads(family, &SCRIPTS, text.as_bytes(), at)
}

/// These bits, where no more are set.
#[inline(always)]
fn at_most(most: u32, found: u64) -> Option<u64>
    ensures none { IsNone result → most < count_ones found }
    ensures some { IfSome result (λ bits. (bits ≡ found) × (count_ones found ≤ most)) }
{
    (found.count_ones() <= most).then_some(found)
}

/// Whether lead bytes tell of all that 63 bytes begin.
#[inline(always)]
fn is_told_by_leads(bytes: &[u8], at: usize) -> bool
    requires room { at + 64 < length bytes.now }
    ensures { IsTrue result → (k : ℕ) → k < 63 → NoneFound finds_lead bytes.now (at + k) }
{
    none_of(
        byte_sets(&HIGH, &LOW, bytes, at),
        byte_sets(&HIGH, &LOW, bytes, at + 16),
        byte_sets(&HIGH, &LOW, bytes, at + 32),
        byte_sets(&HIGH, &LOW, bytes, at + 48),
    )
}

/// The first of these places, of 63 bytes, at which an unassigned character begins.
#[inline(always)]
fn first_unassigned(text: &str, at: usize, found: u64) -> Option<usize>
    requires room { at + 65 < length text.now }
    requires front { IsFront text.now 0 at }
    requires found { AreFound text.now at found }
    ensures none { IsNone result → IsFront text.now at (at + 63) }
    ensures some { IfSome result (StopsAt text.now) }
{
    let mut left = found;
    while left != 0 {
        let place = at + left.trailing_zeros() as usize;
        if !is_assigned_at(text, place) {
            return Some(place);
        }
        left = without_lowest(left);
    }
    None
}
