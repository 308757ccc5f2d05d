//! The tests of `nf_filter` by its public calls: forms, faults and counts that are known from outside. Devices have a crate of
//! tests of their own, `nf_filter_stream_tests`, as have policies and hostile use.
#![tactic(auto)]

#[cfg(test)]
mod again;
#[cfg(test)]
mod fast;
#[cfg(test)]
mod faults;
#[cfg(test)]
mod forms;
#[cfg(test)]
mod kit;
#[cfg(test)]
mod saving;
#[cfg(test)]
mod settling;
#[cfg(test)]
mod tables;
