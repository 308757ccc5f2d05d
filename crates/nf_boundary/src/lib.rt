//! The form of a text from one normalization boundary to another (UAX #15, section 9): what stands between two is decided,
//! whatever comes before and after, so that it can be written at once. Pure functions over `&str`, for any character data;
//! of data that is not known to be Unicode's no such text is found.
#![tactic(auto)]

mod after_span;
mod apart;
mod between;
mod closing;
mod composing;
mod encoding;
mod front;
mod hangul;
mod mark;
mod piece;
mod pieces;
mod rows;
mod seen;
mod segments;

pub use closing::{Segment, close_off};
pub use encoding::put_utf8;
pub use front::first_segments;
pub use mark::{Mark, Run, hold};
pub use segments::{Formed, Segments};
