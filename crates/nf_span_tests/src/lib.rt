//! The tests of `nf_span`: texts cut by hand, every scalar value against the definitions, each place in a block, and
//! made-up mixtures.
#![tactic(auto)]

#[cfg(test)]
mod blocks;
#[cfg(test)]
mod cuts;
#[cfg(test)]
mod mixtures;
#[cfg(test)]
mod sweep;
#[cfg(test)]
mod within;
