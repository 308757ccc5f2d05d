//! How far the characters of a text are assigned (The Unicode Standard, section 2.4: general category other than Cn), for the data
//! of the Unicode Character Database: most by their bytes, many at once, and the others by a look-up for each.
#![tactic(auto)]

mod front;
mod lanes;
mod leads;
mod pairs;
mod scripts;

pub use front::assigned_front;
