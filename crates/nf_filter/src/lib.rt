//! The filter: UTF-8 in pieces of any size, made stream-safe and normalized in bounded memory.
#![tactic(auto)]

mod block;
mod checking;
mod comparing;
mod counted;
mod devices;
mod driving;
mod fault;
mod feeding;
mod filter;
mod from_reader;
mod held;
pub mod laws;
mod measuring;
mod origin;
mod policy;
mod reading;
mod saved;
mod sources;
mod surveyor;
mod taker;
mod taking;
mod tally;
mod text_reader;
mod to_writer;
mod whole;

pub use checking::{check, check_buffered};
pub use comparing::Comparing;
pub use devices::{Failed, Sink, Source};
pub use driving::{drive, drive_buffered, run};
pub use fault::Fault;
pub use filter::Filter;
pub use from_reader::{FromReader, LentReader};
pub use held::Held;
pub use measuring::{measure, measure_buffered};
pub use policy::Policy;
pub use saved::Saved;
pub use sources::survey;
pub use surveyor::Surveyor;
pub use tally::Tally;
pub use to_writer::{LentWriter, ToWriter};
pub use whole::{convert, converted};
