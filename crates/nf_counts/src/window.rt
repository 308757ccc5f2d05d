//! 63 bytes of a text at once: where characters begin that have to be looked up.

use crate::scripts::{SCRIPTS, WIDE};
use nf_lanes::{found_leads, without_lowest};

/// Places of a text that are still to be looked up.
#[derive(Clone, Copy)]
pub(crate) struct Window {
    base: usize,
    /// A bit for each of 63 places from there on, the lowest for the first.
    found: u64,
}

impl Window {
    ghost use Rattle.std.specs.Prelude.{◌≡◌, ◌<◌, ◌≤◌, ◌+◌, ℕ, List, length, IfSome, IsNone};
    ghost use Rattle.nf_counts.specs.Window.{AreAsked, AreLeft, IsNext};

    /// Those from a place on.
    #[inline(always)]
    pub fn new(text: &str, base: usize) -> Window
        requires fits { base + 65 < length text.now }
        ensures base { result.base ≡ base }
        ensures left { (at : ℕ) → AreAsked text.now at base → AreLeft text.now at result }
    {
        Window {
            base,
            found: found_leads(&WIDE, &SCRIPTS, text.as_bytes(), base),
        }
    }

    /// The next.
    #[inline(always)]
    pub fn next(&mut self) -> Option<usize>
        requires fits { self.old.base + 64 ≤ usize.MAX }
        ensures base { self.new.base ≡ self.old.base }
        ensures none { IsNone result → (text : List ℕ) (at : ℕ) → AreLeft text at self.old → AreAsked text at (self.old.base + 63) }
        ensures next { IfSome result (λ place. (text : List ℕ) (at : ℕ) → AreLeft text at self.old → IsNext text at place self.new) }
    {
        if self.found == 0 {
            return None;
        }
        let place = self.found.trailing_zeros();
        self.found = without_lowest(self.found);
        Some(self.base + place as usize)
    }
}
