//! The filter for callers from C: its state is plain data in the caller's memory, its input and output are the caller's
//! slices, and each call tells how much of them it read and wrote. `nfstream_c` exports these calls.
#![tactic(auto)]

mod checking;
mod converting;
mod feeding;
mod finishing;
mod guess;
mod moved;
mod packing;
mod passing;
mod room;
mod starting;
mod state;
mod status;

pub use checking::{check, check_form};
pub use converting::convert;
pub use feeding::feed;
pub use finishing::finish;
pub use moved::Moved;
pub use starting::start;
pub use state::{State, UNICODE};
pub use status::Status;
