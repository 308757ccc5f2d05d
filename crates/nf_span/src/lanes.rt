ghost use Rattle.std.specs.Prelude.{◌≡◌, ◌≤◌, ◌+◌, drop, length, slice_index, map, IfSome, IfOk, IfErr};
ghost use Rattle.nf_lanes.specs.Lanes.{places};
ghost use Rattle.nf_span.specs.Leads.{lead_bits};
ghost use Rattle.nf_span.specs.Window.{AreLooks, IsAhead, IsPlainFront, IsWindow};

use crate::bytes::by_bytes;
use crate::closer::{family_of, is_asked, pairs_of};
use crate::kana::kana_of;
use crate::leads::{ROWS, columns};
use crate::wide::wide_of;
use crate::window::Window;
use nf_forms::Form;
use nf_lanes::{LANES, bits, bits_of_either, byte_sets, left_after, pair_sets};
use std::simd::u8x16;

/// The bytes that are looked at together, and the two after the last of them.
const ROOM: usize = LANES + 2;

/// So many bytes are looked at for what is no span.
const NEAR: usize = 128;

/// The next character of a text that has to be looked up.
#[derive(Clone, Copy)]
pub(crate) struct Ahead {
    /// How many bytes stand before it.
    pub len: usize,
    /// Bytes from there on.
    pub window: Window,
}

/// What has to be looked up next, where nothing has to be before `from`.
#[inline(always)]
pub(crate) fn next_look(form: Form, bytes: &[u8], from: usize) -> Ahead
    requires { IsPlainFront form bytes.now from }
    ensures { IsAhead form bytes.now result }
{
    match look_ahead(form, bytes, from, usize::MAX, false) {
        Ok(ahead) => ahead,
        Err(at) => Ahead {
            len: by_bytes(form, bytes, at),
            window: Window {
                looks: 0,
                after: bytes.len(),
            },
        },
    }
}

/// The same, or what most likely has to be, where it is one of the next 128 bytes or so.
#[inline(always)]
pub(crate) fn near_look(form: Form, bytes: &[u8]) -> Option<Ahead>
    ensures { IfSome result (IsAhead form bytes.now) }
{
    look_ahead(form, bytes, 0, NEAR, true).ok()
}

/// The same in the windows that begin before `to`; else how many bytes those have.
#[inline(always)]
fn look_ahead(
    form: Form,
    bytes: &[u8],
    from: usize,
    to: usize,
    is_near: bool,
) -> Result<Ahead, usize>
    requires { IsPlainFront form bytes.now from }
    ensures ahead { IfOk result (IsAhead form bytes.now) }
    ensures none { IfErr result (IsPlainFront form bytes.now) }
{
    let mut at = from;
    while at < to && bytes.len() - at >= ROOM {
        let window = window(form, bytes, at, is_near);
        if let Some(run) = window.before_next() {
            return Ok(Ahead {
                len: at + run,
                window: window.past(run),
            });
        }
        at += LANES;
    }
    Err(at)
}

/// The bytes from `at` on. Two or three are asked only where a lead byte does not tell; and not of syllables of Hangul, which the
/// forms change that do not compose, if it is asked for what is near.
#[inline(always)]
fn window(form: Form, bytes: &[u8], at: usize, is_near: bool) -> Window
    requires room { at + 18 ≤ length bytes.now }
    ensures after { at + 16 + result.after ≡ length bytes.now }
    ensures window { IsWindow form (drop at bytes.now) result }
{
    let after = bytes.len() - at - LANES;
    let leads = Window {
        looks: lead_looks(form, bytes, at),
        after,
    };
    let Some(run) = leads.before_next() else {
        return leads;
    };
    let lead = bytes[at + run];
    if is_near && !form.composes() && matches!(lead, 0xEA..=0xED) {
        return leads;
    }
    Window {
        looks: asked_looks(form, lead, leads.looks, bytes, at),
        after,
    }
}

/// A bit for each byte from `at` on, the lowest for the first: whether a character that begins with it has to be looked up, where
/// what stands after lead bytes is asked, for the sake of one; `looks` are those as far as lead bytes tell. What is asked of
/// symbols, kana and fullwidth letters has the tables of the form at hand.
#[inline(always)]
fn asked_looks(form: Form, lead: u8, looks: u64, bytes: &[u8], at: usize) -> u64
    requires room { at + 18 ≤ length bytes.now }
    requires looks { AreLooks form bytes.now at looks }
    ensures { AreLooks form bytes.now at result }
{
    if lead < 0xD0 {
        return looks;
    }
    if lead < 0xE0 {
        return pair_looks(form, bytes, at);
    }
    match lead {
        0xE2 | 0xEF => looks & left_after(lead, wide_of(form), bytes, at),
        0xE3 => looks & left_after(lead, kana_of(form), bytes, at),
        _ if is_asked(lead) => looks & left_after(lead, family_of(form, lead), bytes, at),
        _ => looks,
    }
}

/// The same as far as lead bytes tell.
#[inline(always)]
fn lead_looks(form: Form, bytes: &[u8], at: usize) -> u64
    requires room { at + 16 ≤ length bytes.now }
    ensures { AreLooks form bytes.now at result }
{
    bits(leads(form, bytes, at))
}

/// The same, where a lead byte from D0 to DF and the byte after it are asked.
#[inline(always)]
fn pair_looks(form: Form, bytes: &[u8], at: usize) -> u64
    requires room { at + 17 ≤ length bytes.now }
    ensures { AreLooks form bytes.now at result }
{
    let pairs = pair_sets(pairs_of(form), bytes, at);
    bits_of_either(pairs, leads(form, bytes, at), 13)
}

/// The rows in which the byte at each place from `at` on begins a character that has to be looked up.
#[inline(always)]
pub(crate) fn leads(form: Form, bytes: &[u8], at: usize) -> u8x16
    requires room { at + 16 ≤ length bytes.now }
    ensures { result ≡ map (λ k. lead_bits form (slice_index bytes.now k)) (places at) }
{
    byte_sets(&ROWS, columns(form), bytes, at)
}
