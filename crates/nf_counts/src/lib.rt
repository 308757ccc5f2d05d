//! What a count of non-starters (UAX #15, section 13) asks of a text, by one look-up for each character: how many there are in
//! its compatibility decomposition, and how they stand, for the data of the Unicode Character Database.
#![tactic(auto)]

mod assigned;
mod counted;
mod counts;
mod piece;
mod rows;
mod scan;
mod scripts;
mod table;
mod window;

pub use assigned::is_assigned_at;
pub use counted::{Counted, counted_front};
pub use counts::Counts;
