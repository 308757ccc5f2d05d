//! What is known of Unicode's data once and for all: [`laws`], each shown for every code point from the tables of
//! `ucd_normal` and `ucd_category`. So no program looks for it character by character, and no test has to.
#![tactic(auto)]

pub mod laws;
mod tables;

pub use tables::in_tables;
