//! How a worker's list is cut into calls, told by functions. Nothing of it runs.
#![tactic(auto)]

pub mod laws;
pub mod writer;

pub use writer::WriterStage;
