//! Text over Unicode's data, from a reader to a writer: what can be said of the whole where all that comes is read.
#![tactic(auto)]

mod passing;

pub use passing::{Passed, pass};
