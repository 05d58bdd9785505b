//! `sync.Pool` of Go for callers in threads: the machine of a pool, shared.
#![tactic(auto)]

mod answers;
mod columns;
mod get;
mod halts;
pub mod laws;
mod part_calls;
pub mod pass;
pub mod pool;
pub mod pool_get;
mod put_and_sweep;
mod renew;

pub use pool::{Pool, PoolPass};
pub use pool_get::PoolGet;
