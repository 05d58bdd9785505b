//! `Pool` of Go's package sync as a pure machine: what each event of a caller does to the parts' items and what it
//! answers, with no thread and no clock. Nobody waits at a pool.
#![tactic(auto)]

pub mod laws;
mod part;
pub mod part_core;
pub mod part_laws;
pub mod pool;
pub mod pool_event;

pub use part_core::PartCore;
pub use pool::PoolCore;
pub use pool_event::{PoolEvent, PoolPut, PoolReply};
