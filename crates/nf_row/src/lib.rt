//! Character data for normalization: combining classes, decompositions and composites, from Unicode's tables or from
//! a caller's, and what makes them fit to bound a text's runs of combining marks.
//!
//! The definitions of the normalization forms and of the Stream-Safe Text Process, on whole lists of code points,
//! stand in `nf_forms`: the contracts of this crate and of those above are written in them.
#![tactic(auto)]

mod auditing;
mod composites;
mod lending;
mod non_starters;
mod ordering;
mod own;
mod patched;
mod plain;
mod rows;
mod runs;
mod soundness;
mod ucd;
mod unsound;

pub use auditing::audit;
pub use composites::composite;
pub use lending::{RowRoom, is_own_row, row_of};
pub use nf_forms::{Form, JOINER};
pub use non_starters::NonStarters;
pub use own::{class_may_compose, known_entry, own_class};
pub use patched::{Change, Patched};
pub use plain::{Plain, ascii_is_plain};
pub use rows::{Long, Row, Rows};
pub use runs::{has_starter, lead, trail};
pub use soundness::{SoundRow, all_sound, sound, sound_row};
pub use ucd::Ucd;
pub use unsound::{Rule, Unsound};
