//! `nf_filter` under hostile use: texts cut in every way, broken at every place and made up from seeds, long runs, data that
//! lie, and devices of which each call fails in turn. What comes out is compared with the definitions on whole texts, and
//! with a filter that is told nothing of the data.
#![tactic(auto)]

#[cfg(test)]
mod both_ways;
#[cfg(test)]
mod bounds;
#[cfg(test)]
mod broken_runs;
#[cfg(test)]
mod growing;
#[cfg(test)]
mod halfwidth;
#[cfg(test)]
mod ill_formed;
#[cfg(test)]
mod lying_rows;
#[cfg(test)]
mod measures;
#[cfg(test)]
mod mixtures;
#[cfg(test)]
mod odd;
#[cfg(test)]
mod once;
#[cfg(test)]
mod pieces;
#[cfg(test)]
mod seeds;
#[cfg(test)]
mod segments;
#[cfg(test)]
mod span;
#[cfg(test)]
mod turns;
#[cfg(test)]
mod two_bytes;
