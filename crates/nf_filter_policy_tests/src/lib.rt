//! The tests of `nf_filter` under a policy, by its public calls: texts whose answers were worked out by hand, and strings of
//! bytes against a plain reading of them.
#![tactic(auto)]

#[cfg(test)]
mod ill_formed;
#[cfg(test)]
mod kit;
#[cfg(test)]
mod mixtures;
#[cfg(test)]
mod replaced;
#[cfg(test)]
mod short_strings;
#[cfg(test)]
mod subparts;
#[cfg(test)]
mod unassigned;
