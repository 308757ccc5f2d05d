//! Eight sets of bytes or of pairs of bytes, each a bit: what tables by the high and by the low half of a byte both allow. 16
//! places of a text are asked at once.
#![tactic(auto)]

mod lanes;
mod looks;
mod scripts;
mod sets;

pub use lanes::{LANES, bits, bits_of_either, none_of, without_lowest};
pub use looks::{found_by_pairs, found_leads, lead_bits, left_after, none_found};
pub use scripts::Scripts;
pub use sets::{Pairs, byte_sets, pair_sets};
