//! The tests of `nf_normalizer`: what the steps over a text give, beside the kit's normalization of the whole.
#![tactic(auto)]

#[cfg(test)]
mod steps;
