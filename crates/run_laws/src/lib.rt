//! What any run of a workload comes to, whatever its interleaving: what its calls reply, how its workers end, and, where the
//! workload is an orderly one, its outcome. These are laws on the records of runs. The crate stands in proofs alone.
#![tactic(auto)]

pub mod adds;
pub mod edges;
pub mod endings;
pub mod ends;
pub mod examples;
pub mod fronts;
pub mod if_equal;
pub mod locks;
pub mod order;
pub mod owners;
pub mod replies;
pub mod spelling;
pub mod wait_for;
