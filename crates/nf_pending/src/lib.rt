//! The end of a text whose form is still open: its last starter and the marks after it.
//!
//! A [`Pending`] takes decomposed text, a code point at a time, and gives what has settled: all before the last
//! starter of the normalized text. It holds at most 31 code points, and takes no memory.
#![tactic(auto)]

pub mod laws;
mod pending;

pub use nf_boundary::{Mark, Run, Segment};
pub use pending::Pending;
