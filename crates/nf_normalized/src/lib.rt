//! Whether a text is in a normalization form and stream-safe, and where it is not (The Unicode Standard, section 3.11; UAX #15,
//! sections 9 and 13), for the data of the Unicode Character Database.
//!
//! A text is in the form where a filter leaves it as it is. So a filter is fed the text, and what it writes is compared with what
//! it read: of this as much has to be kept as is not settled.
#![tactic(auto)]

mod checker;
mod checking;
mod counting;
pub mod laws;

pub use checker::FormChecker;
pub use checking::{check_form, check_form_buffered};
