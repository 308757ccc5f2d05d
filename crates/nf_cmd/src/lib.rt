//! What the program `nfstream` does, over any reader and writers: it makes text stream-safe, normalizes it, and says what
//! is wrong with input that it refuses.
#![tactic(auto)]

mod check;
mod convert;
mod fault;
mod help;
mod line;
mod lines;
mod measure;
mod program;
mod test;
mod writing;

pub use program::command;

/// The most bytes that are asked of the input at once.
const BUFFER: usize = 64 * 1024;
