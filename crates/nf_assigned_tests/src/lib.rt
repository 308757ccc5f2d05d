//! The tests of `nf_assigned`: every scalar value against its general category, holes at each place in a block, and made-up
//! mixtures against a plain loop.
#![tactic(auto)]

#[cfg(test)]
mod holes;
#[cfg(test)]
mod mixtures;
#[cfg(test)]
mod sweep;
