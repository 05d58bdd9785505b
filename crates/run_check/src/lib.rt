//! Whether the record of a run explains it.
#![tactic(auto)]

pub mod completeness;
pub mod contents;
pub mod ends;
pub mod fronts;
pub mod journals;
mod key_order;
pub mod laws;
pub mod outcome;
pub mod report;
mod shown_keys;
pub mod spelling;
pub mod stops;
pub mod told;
pub mod verdict;

pub use verdict::check;
