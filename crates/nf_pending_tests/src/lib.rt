//! The tests of `nf_pending`: what texts settle and what is left at their end, with values from UnicodeData.txt.
#![tactic(auto)]

#[cfg(test)]
mod pending;
