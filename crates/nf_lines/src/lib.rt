//! Text over Unicode's data, line by line: each line is written whole as soon as its line feed was read.
#![tactic(auto)]

mod cutting;
mod driving;
pub mod laws;

pub use driving::drive_lines;
