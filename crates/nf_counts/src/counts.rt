ghost use Rattle.std.specs.Prelude.{◌≤◌};

use crate::table::UNASSIGNED;
use nf_forms::MAX_RUN;

/// The non-starters of decomposed text, and its runs of them, none of more than 30.
#[derive(Clone, Copy, Debug)]
pub struct Counts {
    /// How many non-starters there are.
    pub nonstarters: u128,
    /// The length of the longest run.
    pub longest: u32,
    /// How many stand before the first starter; all of them where there is none.
    pub lead: u32,
    /// How many stand after the last starter; all of them where there is none.
    pub trail: u32,
    pub has_starter: bool,
    /// How many unassigned characters the text is of.
    pub unassigned: u64,
    ghost longest_within: { longest ≤ 30 },
    ghost longest_few: { longest ≤ nonstarters },
    ghost lead_within: { lead ≤ longest },
    ghost trail_within: { trail ≤ longest },
}

impl Counts {
    ghost use Rattle.std.specs.Prelude.{◌≡◌, ◌+◌, ◌-◌, ◌<◌, ◌≤◌, ◌⊎◌, ℕ, List, [], ◌++◌, IsTrue, false, if◌then◌else◌};
    ghost use Rattle.nf_forms.specs.Properties.{Properties};
    ghost use Rattle.nf_counts.specs.Counts.{HasCounts, HasValue, unassigned_by};

    /// Those of no text.
    pub const fn new() -> Counts
        ensures none { result.nonstarters ≡ 0 }
        ensures lead { result.lead ≡ 0 }
        ensures unassigned { result.unassigned ≡ 0 }
        ensures counts { (p : Properties) → HasCounts p [] result }
    {
        Counts {
            nonstarters: 0,
            longest: 0,
            lead: 0,
            trail: 0,
            has_starter: false,
            unassigned: 0,
        }
    }

    /// Puts text of this value after, where no run gets too long, and no more than `room` non-starters stand before the first
    /// starter; answers whether that is so.
    #[inline(always)]
    pub(crate) fn add(&mut self, value: u32, room: u32) -> bool
        requires value { value < 16 }
        requires fits { self.old.nonstarters + 3 ≤ u128.MAX }
        requires unassigned { self.old.unassigned < u64.MAX }
        requires room { self.old.lead ≤ room }
        ensures few { self.new.nonstarters ≤ self.old.nonstarters + 3 }
        ensures room { self.new.lead ≤ room }
        ensures unassigned { IsTrue result → self.new.unassigned ≡ self.old.unassigned + unassigned_by value }
        ensures counts { IsTrue result → (p : Properties) (w row : List ℕ) → HasValue p row value → HasCounts p w self.old → HasCounts p (w ++ row) self.new }
        ensures stays { result ≡ false → self.new ≡ self.old }
        ensures refuses { result ≡ false → (4 ≤ value) × ((30 < self.old.trail + (value - 4)) ⊎ (room < (if self.old.has_starter then self.old.lead else self.old.trail + (value - 4)))) }
    {
        if value < 4 {
            self.nonstarters += u128::from(value);
            self.longest = self.longest.max(value);
            self.trail = value;
            self.has_starter = true;
            return true;
        }
        if value == UNASSIGNED {
            self.trail = 0;
            self.has_starter = true;
            self.unassigned += 1;
            return true;
        }
        let marks = value % 4;
        if value > UNASSIGNED {
            self.nonstarters += u128::from(marks);
            self.longest = self.longest.max(marks.min(1));
            self.trail = marks.min(value / 4 - 2);
            self.has_starter = true;
            return true;
        }
        let trail = self.trail + marks;
        let lead = if self.has_starter { self.lead } else { trail };
        if trail > u32::from(MAX_RUN) || lead > room {
            return false;
        }
        self.nonstarters += u128::from(marks);
        self.longest = self.longest.max(trail);
        self.lead = lead;
        self.trail = trail;
        true
    }
}
