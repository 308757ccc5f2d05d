//! Vector files in the layout of NormalizationTest.txt: their rows, the comparisons that each row asks for, and the
//! characters that no row of Part 1 lists.
#![tactic(auto)]

mod check;
mod columns;
mod comparison;
mod encoded;
mod fault;
mod line;
mod reading;
mod report;
mod scan;
mod suite;
mod sweep;
mod word;

pub use fault::{Memory, VectorFault, VectorKind};
pub use report::{Failure, Report};
pub use suite::Suite;
pub use sweep::Sweep;
