/// What is asked of character data, character by character.
#[derive(Clone, Copy, Debug, PartialEq, Eq, Hash)]
pub enum Rule {
    /// The character is sound.
    A1,
    /// Each member of its compatibility row is its own compatibility row, and likewise for the canonical row.
    A2,
    /// The compatibility rows of the members of its canonical row make its compatibility row, both put in order.
    A3,
    /// Each non-starter of its canonical row is its own compatibility row.
    A4,
}

/// The refusal of a character by the first rule that it fails.
#[derive(Clone, Copy, Debug, PartialEq, Eq, Hash)]
pub struct Unsound {
    pub c: char,
    pub rule: Rule,
}
