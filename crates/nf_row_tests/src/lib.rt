//! The tests of `nf_row`: its tables against published values, soundness against a second writing of it, and changes.
#![tactic(auto)]

#[cfg(test)]
mod auditing;
#[cfg(test)]
mod changes;
#[cfg(test)]
mod parts;
#[cfg(test)]
mod plain;
#[cfg(test)]
mod soundness;
#[cfg(test)]
mod tables;
