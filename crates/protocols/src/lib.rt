//! The protocols of the kinds of objects: which events a call makes, one after the other, what their answers mean, and
//! where its caller stands. Said once for each kind, for all ways to run it.
#![tactic(auto)]

pub mod cond;
pub mod laws;
pub mod mutex;
pub mod once;
pub mod pool;
pub mod pool_part;
pub mod protocol;
pub mod rw_mutex;
pub mod step;
pub mod wait_group;

pub use cond::CondStage;
pub use mutex::MutexStage;
pub use once::{OnceOutcome, OnceStage};
pub use pool::{PoolOutcome, PoolStage};
pub use protocol::Protocol;
pub use rw_mutex::RwMutexStage;
pub use step::Step;
pub use wait_group::GroupStage;
