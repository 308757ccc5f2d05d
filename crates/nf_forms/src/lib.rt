//! The normalization forms and the Stream-Safe Text Process, defined on whole lists of code points.
//!
//! The definitions stand in `specs/`, over any character data (`Properties`): the contracts of the crates above are
//! written in them. Their laws are lemmas in `specs/Laws/`, and [`laws`] has those that say something in the Standard's
//! own words: what canonical ordering is, where a text may be cut, and which text is its own form.
#![tactic(auto)]

mod form;
mod joiner;
pub mod laws;

pub use form::Form;
pub use joiner::{JOINER, MAX_RUN};
