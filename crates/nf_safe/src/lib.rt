//! The Stream-Safe Text Process and Format (UAX #15, section 13) by one count of non-starters: where the process puts
//! U+034F, where a text leaves the format, and what is measured of a text.
#![tactic(auto)]

mod checker;
mod counter;
pub mod laws;
mod measure;
mod measurer;
mod place;
mod runs;

pub use checker::Checker;
pub use counter::Counter;
pub use measure::Measure;
pub use measurer::Measurer;
pub use place::Place;
