//! The tests of `nf_safe`: what is counted, placed and measured of texts, with values from UAX #15 (section 13) and
//! UnicodeData.txt.
#![tactic(auto)]

#[cfg(test)]
mod checker;
#[cfg(test)]
mod counter;
#[cfg(test)]
mod measurer;
