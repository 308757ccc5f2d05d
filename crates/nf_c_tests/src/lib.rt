//! The tests of `nf_c`: texts in pieces of every size through small outputs, each status, and memory that is no state.
#![tactic(auto)]

#[cfg(test)]
mod kit;
#[cfg(test)]
mod passing;
#[cfg(test)]
mod pieces;
#[cfg(test)]
mod states;
#[cfg(test)]
mod whole;
