//! The record of a run: what was done on each object, and what each worker did, and what it means that a record explains the
//! outcome of a run. It stands in proofs alone, and is what a run of either kind is proved by.
#![tactic(auto)]

pub mod entered;
pub mod laws;
pub mod made;

pub use entered::{ObjectEvent, ObjectReply};
pub use made::Made;
