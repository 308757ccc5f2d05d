//! A sink that compares what it is given with what is expected.
ghost use Rattle.std.specs.Prelude.{◌≡◌, ◌+◌, ◌≤◌, ◌++◌, true, false, length, drop, IsSome};
ghost use Rattle.std.specs.Option.{ForSome};
ghost use Rattle.nf_filter.specs.InCommon.{common, goes_on_with};

use crate::devices::{Failed, Sink};

/// The bytes to come are expected to be those of two slices, one after the other. The first that is another it takes, and fails
/// from then on.
#[derive(Drop)]
pub struct Comparing<'t> {
    first: &'t [u8],
    second: &'t [u8],
    /// How many bytes were given as expected.
    count: usize,
    /// The one that was another.
    other: Option<u8>,
    failed: bool,
    ghost within: { count ≤ length first.now + length second.now },
    ghost other_is: { ForSome other (λ byte. goes_on_with byte (drop count (first.now ++ second.now)) ≡ false) },
    ghost failed_after: { failed ≡ true → IsSome other },
}

impl<'t> Comparing<'t> {
    ghost use Rattle.std.specs.Prelude.{◌≡◌, ◌+◌, ◌≤◌, ◌==◌, ◌&&◌, ℕ, List, ◌++◌, [], length, is_some, not, false, None};
    ghost use Rattle.nf_filter.specs.Comparing.{same, left};

    /// Nothing was given yet. The bytes of `first` are expected, and then those of `second`: the first that is another is taken
    /// too, and nothing after it.
    pub fn new(first: &'t [u8], second: &'t [u8]) -> Comparing<'t>
        ensures expected { result.first.now ++ result.second.now ≡ first.now ++ second.now }
        ensures none { (same result ≡ []) × (result.other ≡ None) × (result.failed ≡ false) }
    {
        Comparing {
            first,
            second,
            count: 0,
            other: None,
            failed: false,
        }
    }

    /// Whether a byte was another than expected.
    pub fn has_differed(&self) -> bool
        ensures { result ≡ is_some self.now.other }
    {
        self.other.is_some()
    }

    /// What was given as expected, of both slices.
    pub fn same(&self) -> (&'t [u8], &'t [u8])
        ensures { result.0.now ++ result.1.now ≡ same self.now }
    {
        let in_first = self.count.min(self.first.len());
        (
            &self.first[..in_first],
            &self.second[..self.count - in_first],
        )
    }

    /// What is expected after that.
    pub fn left(&self) -> (&'t [u8], &'t [u8])
        ensures left { result.0.now ++ result.1.now ≡ left self.now }
        ensures fits { length self.now.first.now + length self.now.second.now ≤ usize.MAX }
    {
        let in_first = self.count.min(self.first.len());
        (
            &self.first[in_first..],
            &self.second[self.count - in_first..],
        )
    }

    /// What is expected next: of the second slice, where nothing of the first is left.
    fn next(&self) -> &'t [u8]
        ensures front { (more : List ℕ) × (left self.now ≡ result.now ++ more) }
        ensures last { result.now ≡ [] → left self.now ≡ [] }
        ensures fits { length self.now.first.now + length self.now.second.now ≤ usize.MAX }
    {
        let (first, second) = self.left();
        if first.is_empty() { second } else { first }
    }

    /// Whether no more is expected.
    pub fn is_at_end(&self) -> bool
        ensures { result ≡ (length (left self.now) == 0) }
    {
        let (first, second) = self.left();
        first.is_empty() && second.is_empty()
    }

    /// Whether all was given that is expected, and no other byte.
    pub fn is_met(&self) -> bool
        ensures { result ≡ (not (is_some self.now.other) && (length (left self.now) == 0)) }
    {
        !self.has_differed() && self.is_at_end()
    }
}

impl Sink for Comparing<'_> {
    ghost use Rattle.nf_filter.specs.Comparing.{sink_state};

    ghost state = { sink_state };

    fn put(&mut self, bytes: &[u8]) -> Result<usize, Failed> {
        let Some((byte, _)) = bytes.split_first() else {
            return Ok(0);
        };
        if self.other.is_some() {
            self.failed = true;
            return Err(Failed);
        }
        let len = common_len(self.next(), bytes);
        if len > 0 {
            self.count += len;
            return Ok(len);
        }
        self.other = Some(*byte);
        Ok(1)
    }
}

/// How many bytes two slices have in common at their front.
fn common_len(a: &[u8], b: &[u8]) -> usize
    ensures { result ≡ common a.now b.now }
{
    let len = a.len().min(b.len());
    if a[..len] == b[..len] {
        return len;
    }
    let mut at = 0;
    while at < len && a[at] == b[at] {
        at += 1;
    }
    at
}
