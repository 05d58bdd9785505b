//! What is asked of the record of a run, clause by clause: its parts, in the order in which a checker asks them. It stands in proofs
//! alone.
#![tactic(auto)]

pub mod clause;
pub mod laws;
pub mod pair_order;

pub use clause::{Clause, Verdict};
