//! `sync.Cond`, `sync.WaitGroup` and `sync.Once` of Go, with its kin, for callers in threads: the machines of `wait_cores`,
//! and that of `starts_core` for `WaitGroup.Go`, which callers share.
#![tactic(auto)]

mod answers;
pub mod cond;
mod do_once;
pub mod group;
pub mod keeps;
pub mod laws;
pub mod once;
pub mod once_begun;
pub mod once_run;
pub mod once_value;
pub mod starts;
mod stored;

pub use cond::{Cond, CondPass};
pub use group::{GroupPass, MAX_START, WaitGroup};
pub use keeps::Keeps;
pub use once::{Once, OncePass};
pub use once_begun::{OnceBegun, Running};
pub use once_run::OnceRun;
pub use once_value::{OnceFunc, OnceValue};
pub use starts::{Starts, StartsPass};
