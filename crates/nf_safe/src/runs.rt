ghost use Rattle.std.specs.Prelude.{◌≤◌};

use nf_counts::Counts;
use nf_row::{NonStarters, RowRoom, Rows, SoundRow, known_entry, own_class, sound_row};

/// The non-starters of decomposed text, and its runs of them.
#[derive(Clone, Copy, Debug)]
pub struct Runs {
    pub nonstarters: u128,
    /// The length of the longest run.
    pub longest: u128,
    /// The length of the run that the text ends in.
    last: u128,
    ghost last_within: { last ≤ longest },
    ghost longest_within: { longest ≤ nonstarters },
}

impl Runs {
    ghost use Rattle.std.specs.Prelude.{◌≡◌, ◌+◌, ◌<◌, ◌≤◌, ℕ, List, [], ◌∷◌, ◌++◌, length, is_some, IfSome};
    ghost use Rattle.nf_forms.specs.Properties.{Properties, is_starter};
    ghost use Rattle.nf_forms.specs.Sound.{is_sound};
    ghost use Rattle.nf_counts.specs.Counts.{HasCounts};
    ghost use Rattle.nf_row.specs.NonStarters.{HasNonStarters};
    ghost use Rattle.nf_safe.specs.Runs.{HasRuns};

    /// Those of no text.
    pub const fn new() -> Runs
        ensures none { result.nonstarters ≡ 0 }
        ensures runs { (p : Properties) → HasRuns p result [] }
    {
        Runs {
            nonstarters: 0,
            longest: 0,
            last: 0,
        }
    }

    /// With the compatibility decomposition of `c` after, and the ends of that; none where `c` is unsound. No row is read
    /// where it is known to be `c` alone.
    pub fn with_char<R: Rows>(self, rows: &R, c: char) -> Option<(Runs, NonStarters)>
        requires { self.nonstarters + 18 ≤ u128.MAX }
        ensures sound { is_some result ≡ is_sound (R.properties rows.now) c }
        ensures few { IfSome result (λ with. with.0.nonstarters ≤ self.nonstarters + 18) }
        ensures runs { let p = R.properties rows.now in
            IfSome result (λ with. (w : List ℕ) → HasRuns p self w → HasRuns p with.0 (w ++ p.compat c)) }
        ensures ends { let p = R.properties rows.now in IfSome result (λ with. HasNonStarters p (p.compat c) with.1) }
    {
        let mut runs = self;
        if let Some(class) = own_class(known_entry(rows, c)) {
            runs.push(class == 0);
            return Some((runs, NonStarters::of_one(class == 0)));
        }
        let mut room = RowRoom::new();
        let SoundRow { row, ends } = sound_row(rows, c, &mut room)?;
        runs.push_row(rows, row);
        Some((runs, ends))
    }

    /// Appends text of which these are the counts.
    #[inline]
    pub fn push_counts(&mut self, counts: &Counts)
        requires { self.old.nonstarters + counts.now.nonstarters ≤ u128.MAX }
        ensures nonstarters { self.new.nonstarters ≡ self.old.nonstarters + counts.now.nonstarters }
        ensures runs { (p : Properties) (w v : List ℕ) → HasCounts p v counts.now → HasRuns p self.old w → HasRuns p self.new (w ++ v) }
    {
        let last = self.last + u128::from(counts.lead);
        let longest = last.max(u128::from(counts.longest));
        *self = Runs {
            nonstarters: self.nonstarters + counts.nonstarters,
            longest: self.longest.max(longest),
            last: if counts.has_starter {
                u128::from(counts.trail)
            } else {
                last
            },
        };
    }

    /// Appends the members of `row`.
    fn push_row<R: Rows>(&mut self, rows: &R, row: &[char])
        requires few { length row.now ≤ 18 }
        requires fits { self.old.nonstarters + 18 ≤ u128.MAX }
        ensures few { self.new.nonstarters ≤ self.old.nonstarters + 18 }
        ensures runs { let p = R.properties rows.now in
            (w : List ℕ) → HasRuns p self.old w → HasRuns p self.new (w ++ row.now) }
    {
        for c in row {
            self.push(rows.class(*c) == 0);
        }
    }

    /// Appends a starter or a non-starter.
    #[inline]
    fn push(&mut self, starter: bool)
        requires { self.old.nonstarters < u128.MAX }
        ensures few { self.new.nonstarters ≤ self.old.nonstarters + 1 }
        ensures runs { (p : Properties) (w : List ℕ) (c : ℕ) → is_starter p c ≡ starter
            → HasRuns p self.old w → HasRuns p self.new (w ++ c ∷ []) }
    {
        if starter {
            self.last = 0;
            return;
        }
        self.nonstarters += 1;
        self.last += 1;
        self.longest = self.longest.max(self.last);
    }
}
