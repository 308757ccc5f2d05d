//! UTF-8 that comes in pieces of any size, read into characters.
//!
//! A [`Decoder`] takes bytes one by one or in pieces. [`Decoder::push`] answers by a [`Step`]: the character that
//! the byte completes, that a character goes on, or that the byte is bad. [`Decoder::take`] answers by a [`Chunk`]:
//! the character that the piece completes, the text after it, lent from the piece and validated in blocks, and how
//! the piece ends. A decoder holds three bytes at most and allocates nothing. What is to follow a bad byte is the caller's
//! choice: [`Decoder::next_text`] reads a piece text by text, with U+FFFD in place of what is ill-formed or up to it, and
//! [`source_len`] tells where in the bytes a character of such a text stands. [`ascii_prefix`] and [`char_count`] need no
//! decoder.
//!
//! The bytes taken read as the longest text that a front of them spells (The Unicode Standard, section 3.9);
//! [`laws`] says so, that it does not matter where they were cut into pieces, and that a piece gives what pushing its
//! bytes gives.
#![tactic(auto)]

mod ascii;
mod carry;
mod chunk;
mod counting;
mod decoder;
mod front;
pub mod laws;
mod lossy;
mod sequence;
mod source;
mod step;
mod valid;

pub use ascii::ascii_prefix;
pub use chunk::{Chunk, End, IllFormed, NextText};
pub use counting::char_count;
pub use decoder::Decoder;
pub use lossy::LossyText;
pub use source::source_len;
pub use step::Step;
