//! The tests of `nf_boundary`: fronts found by hand, every scalar value between letters, letters with marks, all Hangul
//! syllables, and made-up mixtures, against the forms of whole texts.
#![tactic(auto)]

#[cfg(test)]
mod fronts;
#[cfg(test)]
mod hangul;
#[cfg(test)]
mod marked;
#[cfg(test)]
mod mixtures;
#[cfg(test)]
mod reference;
#[cfg(test)]
mod rows;
#[cfg(test)]
mod sweep;
