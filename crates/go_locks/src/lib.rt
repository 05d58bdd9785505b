//! Go's `sync.Mutex` and `sync.RWMutex` for threads: the machines of `mutex_core` and `rw_core`, which callers share.
#![tactic(auto)]

mod answers;
pub mod laws;
pub mod mutex;
pub mod rw_mutex;

pub use mutex::{Mutex, MutexPass};
pub use rw_mutex::{RwMutex, RwPass};
