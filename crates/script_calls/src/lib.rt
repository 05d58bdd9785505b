//! The calls that a worker's script makes, what they answer, and what a run leaves behind. A kind of object has a variant in
//! each of the three.
#![tactic(auto)]

pub mod call;
pub mod laws;
pub mod outcome;

pub use call::{Call, ComposedCall, Operation, Reply, VarCall, VarReply};
pub use outcome::{Ending, Outcome, Report};
