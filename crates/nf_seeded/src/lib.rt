//! Numbers that look random, for tests: the same in each run.
#![tactic(auto)]

ghost use Rattle.std.specs.Prelude.{◌≡◌, ◌+◌, ◌*◌, ◌%◌, ◌^◌, ◌<◌, ◌≤◌, length, slice_get, Some, SomeIff};
ghost use Rattle.std.specs.Char.{IsScalar};
ghost use Rattle.nf_seeded.specs.Following.{following};

/// The state after the last number that was drawn.
#[derive(Drop)]
pub struct Seeded {
    pub state: u64,
}

impl Seeded {
    /// Seeds that are near one another give numbers that are not. From 0 each number would be 0.
    pub fn new(seed: u64) -> Seeded
        requires { 0 < seed }
        ensures { result.state ≡ seed * 0x9E37_79B9_7F4A_7C15 % 2 ^ 64 }
    {
        Seeded {
            state: seed.wrapping_mul(0x9E37_79B9_7F4A_7C15),
        }
    }

    /// The next number.
    #[tactic(auto, unfolding(crate::specs::Following::following))]
    pub fn next(&mut self) -> u64
        ensures drawn { result ≡ following self.old.state }
        ensures kept { self.new.state ≡ result }
    {
        self.state ^= self.state << 13;
        self.state ^= self.state >> 7;
        self.state ^= self.state << 17;
        self.state
    }

    /// A number below `bound`.
    pub fn below(&mut self, bound: u32) -> u32
        requires { 0 < bound }
        ensures less { result < bound }
        ensures drawn { result ≡ following self.old.state % bound }
        ensures kept { self.new.state ≡ following self.old.state }
    {
        (self.next() % bound as u64) as u32
    }

    /// A place in `len` bytes, or after them.
    pub fn place(&mut self, len: usize) -> usize
        requires { len + 1 < 2 ^ 64 }
        ensures within { result ≤ len }
        ensures drawn { result ≡ following self.old.state % (len + 1) }
        ensures kept { self.new.state ≡ following self.old.state }
    {
        (self.next() % (len as u64 + 1)) as usize
    }

    /// One of these.
    pub fn pick<T: Copy>(&mut self, from: &[T]) -> T
        requires { 0 < length from.now }
        ensures drawn { slice_get from.now (following self.old.state % length from.now) ≡ Some result }
        ensures kept { self.new.state ≡ following self.old.state }
    {
        from[(self.next() % from.len() as u64) as usize]
    }

    /// A character of a block of `len` code points from `first` on, where one has the code that was drawn.
    pub fn char_in(&mut self, first: u32, len: u32) -> Option<char>
        ensures drawn { let code = first + following self.old.state % len in
            SomeIff result (0 < len × IsScalar code) code }
        ensures kept { self.new.state ≡ following self.old.state }
    {
        let place = self.next().checked_rem(len as u64)? as u32;
        char::from_u32(first.checked_add(place)?)
    }
}
