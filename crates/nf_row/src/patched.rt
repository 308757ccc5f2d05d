ghost use Rattle.std.specs.Prelude.{◌≡◌, Option};
ghost use Rattle.nf_row.specs.declared.patched.Change.{Change};
ghost use Rattle.nf_row.specs.Changes.{first_change};

use crate::rows::{Long, Row, Rows, row_from};
use crate::ucd::Ucd;

/// One change to what `Ucd` says.
#[derive(Clone, Copy, Debug, PartialEq, Eq)]
pub enum Change<'a> {
    /// The combining class of the character.
    Class(char, u8),
    /// Its canonical row, of any length.
    Canonical(char, &'a [char]),
    /// Its compatibility row, of any length.
    Compat(char, &'a [char]),
    /// What the table of composites has for the first character and then the second.
    Pair(char, char, Option<char>),
    /// Whether the character is assigned.
    Assigned(char, bool),
}

/// The data of `Ucd` under changes: each question is answered by the first change that names its argument (for a
/// pair both arguments), else as `Ucd` answers it.
#[derive(Clone, Copy, Debug)]
pub struct Patched<'a> {
    changes: &'a [Change<'a>],
}

impl<'a> Patched<'a> {
    ghost use Rattle.nf_row.specs.Patched.{changes_of};

    /// `Ucd` under these changes.
    pub fn new(changes: &'a [Change<'a>]) -> Patched<'a>
        ensures { changes_of result ≡ changes.entry.now }
    {
        Patched { changes }
    }
}

impl Rows for Patched<'_> {
    ghost use Rattle.nf_row.specs.Patched.{patched};

    ghost properties = { patched };

    fn class(&self, c: char) -> u8 {
        first_answer(self.changes, |change| match change {
            Change::Class(named, class) if named == c => Some(class),
            _ => None,
        })
        .unwrap_or_else(|| Ucd.class(c))
    }

    fn canonical(&self, c: char) -> Result<Row, Long> {
        let named = first_answer(self.changes, |change| match change {
            Change::Canonical(named, row) if named == c => Some(row),
            _ => None,
        });
        match named {
            Some(row) => row_from(row),
            None => Ucd.canonical(c),
        }
    }

    fn compat(&self, c: char) -> Result<Row, Long> {
        let named = first_answer(self.changes, |change| match change {
            Change::Compat(named, row) if named == c => Some(row),
            _ => None,
        });
        match named {
            Some(row) => row_from(row),
            None => Ucd.compat(c),
        }
    }

    fn pair(&self, a: char, b: char) -> Option<char> {
        first_answer(self.changes, |change| match change {
            Change::Pair(first, second, composite) if first == a && second == b => Some(composite),
            _ => None,
        })
        .unwrap_or_else(|| Ucd.pair(a, b))
    }

    fn assigned(&self, c: char) -> bool {
        first_answer(self.changes, |change| match change {
            Change::Assigned(named, assigned) if named == c => Some(assigned),
            _ => None,
        })
        .unwrap_or_else(|| Ucd.assigned(c))
    }
}

/// What the first change says to which the question applies.
fn first_answer<'a, A, F: Fn(Change<'a>) -> Option<A>>(
    changes: &[Change<'a>],
    asked: F,
) -> Option<A>
    requires { F.IsAlwaysCallable asked }
    ensures { (answer : Change → Option A) → ((change : Change) (r : Option A) → F.post asked change r → r ≡ answer change)
        → result ≡ first_change answer changes.now }
{
    for change in changes {
        if let Some(answer) = asked(*change) {
            return Some(answer);
        }
    }
    None
}
