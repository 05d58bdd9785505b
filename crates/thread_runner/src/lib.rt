//! The run of a workload with a thread for each worker: the threads are started with their passes and scripts, each makes its
//! calls one after the other, and what they leave is gathered into the outcome, which a record explains.
#![tactic(auto)]

mod by_number;
mod composed;
mod counts;
mod deal;
mod desk;
mod dispatch;
mod ends_plan;
pub mod fault;
mod gather;
mod halting;
mod hire;
mod job;
mod key_order;
mod numbering;
mod opening;
mod placed_calls;
mod pool;
mod run;
mod run_maps;
mod script;
mod site;
mod starts;
mod trie_maps;
mod wait;
mod whole_run;

pub use counts::{atomic_kinds, map_count, spares};
pub use fault::RunFault;
pub use run::threaded_over;
pub use whole_run::threaded;
