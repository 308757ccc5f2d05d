//! How far a text goes on as a span: as characters that a normalization form leaves as they stand, whatever is before
//! them. Such text can be written as it was read. Pure functions over `&str`, for the data of the Unicode Character
//! Database.
#![tactic(auto)]

mod blocks;
mod bytes;
mod closer;
mod cut;
mod front;
mod kana;
mod lanes;
mod leads;
mod marks;
mod scan;
mod scripts;
mod span;
mod wide;
mod window;

pub use front::{near_text, span_text};
pub use scan::form_of;
pub use span::{Span, SpanText};
