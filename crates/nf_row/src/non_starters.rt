ghost use Rattle.std.specs.Prelude.{◌≤◌};

use crate::rows::Rows;

/// The non-starters that a row begins with and ends in.
#[derive(Clone, Copy, Debug)]
pub struct NonStarters {
    /// Whether the row has a starter.
    pub has_starter: bool,
    /// How many non-starters it begins with, 0 to 18; all of the row where it has no starter.
    pub lead: usize,
    /// How many it ends in, 0 to 18; all of the row where it has no starter.
    pub trail: usize,
    ghost lead_within: { lead ≤ 18 },
    ghost trail_within: { trail ≤ 18 },
}

impl NonStarters {
    ghost use Rattle.std.specs.Prelude.{◌≡◌, ℕ, ◌<◌, ◌≤◌, ◌+◌, ◌||◌, List, [], ◌∷◌, length, if◌then◌else◌};
    ghost use Rattle.nf_forms.specs.Properties.{Properties, is_starter};
    ghost use Rattle.nf_row.specs.NonStarters.{HasNonStarters};

    /// The ends of a row of at most 18 members, by one look at the class of each.
    #[inline]
    pub fn of_members<R: Rows>(rows: &R, row: &[char]) -> NonStarters
        requires { length row.now ≤ 18 }
        ensures { HasNonStarters (R.properties rows.now) row.now result }
    {
        let mut so_far = NonStarters::none();
        for c in row {
            so_far = so_far.and(rows.class(*c) == 0);
        }
        so_far
    }

    /// The ends of a row of one member, by whether it is a starter.
    #[inline]
    pub const fn of_one(starts: bool) -> NonStarters
        ensures { (p : Properties) (c : ℕ) → starts ≡ is_starter p c → HasNonStarters p (c ∷ []) result }
    {
        let marks = if starts { 0 } else { 1 };
        NonStarters {
            has_starter: starts,
            lead: marks,
            trail: marks,
        }
    }

    /// The ends of no members.
    #[inline]
    const fn none() -> NonStarters
        ensures { (p : Properties) → HasNonStarters p [] result }
    {
        NonStarters {
            has_starter: false,
            lead: 0,
            trail: 0,
        }
    }

    /// The ends with one member more after.
    #[inline]
    fn and(self, is_starter: bool) -> NonStarters
        requires lead { self.lead < 18 }
        requires trail { self.trail < 18 }
        ensures has_starter { result.has_starter ≡ (self.has_starter || is_starter) }
        ensures lead { result.lead ≡ (if self.has_starter || is_starter then self.lead else self.lead + 1) }
        ensures trail { result.trail ≡ (if is_starter then 0 else self.trail + 1) }
    {
        let has_starter = self.has_starter || is_starter;
        NonStarters {
            has_starter,
            lead: if has_starter {
                self.lead
            } else {
                self.lead + 1
            },
            trail: if is_starter { 0 } else { self.trail + 1 },
        }
    }
}
