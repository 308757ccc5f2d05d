ghost use Rattle.std.specs.Prelude.{◌≡◌, ◌<◌, ◌≤◌, ◌+◌, ℕ, false, length, slice_index, IsTrue, ◌↔◌};
ghost use Rattle.nf_lanes.specs.Lanes.{NonePass};
ghost use Rattle.nf_span.specs.Leads.{wants_look};

use crate::lanes::leads;
use nf_forms::Form;
use nf_lanes::none_of;
use nf_utf8::ascii_prefix;

/// The bytes of a block, which are looked at by one branch.
const BLOCK: usize = 64;

/// How many bytes of ASCII there are, and in the blocks after them before the first in which a byte begins a character that
/// has to be looked up.
#[inline(always)]
pub(crate) fn plain_blocks(form: Form, bytes: &[u8]) -> usize
    ensures within { result ≤ length bytes.now }
    ensures plain { (k : ℕ) → k < result → wants_look form (slice_index bytes.now k) ≡ false }
{
    let mut at = ascii_prefix(bytes);
    while bytes.len() - at >= BLOCK && is_plain(form, bytes, at) {
        at += BLOCK;
    }
    at
}

/// Whether no byte of the block at `at` begins a character that has to be looked up.
#[inline(always)]
fn is_plain(form: Form, bytes: &[u8], at: usize) -> bool
    requires room { at + 64 ≤ length bytes.now }
    ensures { IsTrue result ↔ NonePass (λ k. wants_look form (slice_index bytes.now k)) at 64 }
{
    none_of(
        leads(form, bytes, at),
        leads(form, bytes, at + 16),
        leads(form, bytes, at + 32),
        leads(form, bytes, at + 48),
    )
}
