//! The normalizer: text to its stream-safe normalized form, step by step, into room that the caller gives.
//!
//! A [`Normalizer`] takes a front of a text at a time and puts what that settles into the caller's room. It knows no
//! sink, no fault and no offset, and keeps no count of the whole.
#![tactic(auto)]

mod ascii;
mod character;
mod front;
mod normalizer;
mod pushing;
mod room;
mod step;

pub use normalizer::Normalizer;
pub use room::{ROOM, Room, STEP};
pub use step::Step;
