//! Tests of `nf_vectors` through its public surface: what no contract says, and that the definitions mean what they
//! should.
#![tactic(auto)]

#[cfg(test)]
mod comparisons;
#[cfg(test)]
mod files;
#[cfg(test)]
mod refusals;
#[cfg(test)]
mod sources;
#[cfg(test)]
mod sweeps;
