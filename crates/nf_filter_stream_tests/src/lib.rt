//! The tests of `nf_filter` over devices: sources that give little, much or nothing, sinks that take little or fail, buffers of
//! each size, and checks and measurements of what comes.
#![tactic(auto)]

#[cfg(test)]
mod blocks;
#[cfg(test)]
mod buffers;
#[cfg(test)]
mod checks;
#[cfg(test)]
mod slices;
#[cfg(test)]
mod streams;
