//! Tests of `nf_utf8` by its public calls, against the rows of Table 3-7 of the Unicode Standard.
#![tactic(auto)]

#[cfg(test)]
mod blocks;
#[cfg(test)]
mod counting;
#[cfg(test)]
mod lossy;
#[cfg(test)]
mod prefix;
#[cfg(test)]
mod reading;
#[cfg(test)]
mod table;
