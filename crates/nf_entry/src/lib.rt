//! What one look-up tells of a character: its combining class, and how it stands in each normalization form (UAX #15, section 9),
//! for the data of the Unicode Character Database. It is made once, where a character is met, and handed on.
#![tactic(auto)]

mod entry;
mod rows;

pub use entry::Entry;
