//! What the crates of tests of `nf_filter` have in common: devices, courses of pieces through a filter, and the definitions
//! on whole texts, to compare with.
#![tactic(auto)]

mod courses;
mod devices;
mod reference;

pub use courses::{BASE, Course, FORMS, WAYS, course_by, course_of, filter_of, joined};
pub use devices::{Kept, Pieces};
pub use reference::{Due, after};
