//! Tests of `nf_cmd`, through `command`: runs of the program over memory.
#![tactic(auto)]

#[cfg(test)]
mod tests;
