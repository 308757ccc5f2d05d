//! The tests of `nf_normalized`: every scalar value, made-up mixtures cut at every place, and long runs of marks, against what
//! a filter makes of the whole.
#![tactic(auto)]

#[cfg(test)]
mod both;
#[cfg(test)]
mod mixtures;
#[cfg(test)]
mod runs;
#[cfg(test)]
mod sweep;
