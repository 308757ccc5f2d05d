//! Callers of `nf_filter`, to copy: each is proved, and says by its contract what a caller can rely on.
#![tactic(auto)]

mod counting;
mod memory;
mod network;
mod sending;

pub use counting::Counting;
pub use memory::name_key;
pub use network::relay;
pub use sending::{Sent, send};
