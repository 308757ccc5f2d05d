//! The tests of `nf_counts`: every scalar value against its decomposition, class and general category.
#![tactic(auto)]

#[cfg(test)]
mod sweep;
