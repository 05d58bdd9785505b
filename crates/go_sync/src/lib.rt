//! Go's `sync` as a program uses it: each thread has one value for each object, its *caller*, which carries all that a call needs.
//!
//! A call answers as Go's call of that name does. It has no condition but that a map's values are below 2^63, and that a function which
//! it is handed may be called. It never runs out, but for the room of a map. An object is made for a number of threads, 64 at most, and
//! gives a caller to each. A program moves the callers into its threads. `docs/library.md` has a page for each type.
#![tactic(auto)]

pub mod atomic;
pub mod cond;
pub mod flights;
pub mod go_group;
pub mod group;
pub mod guarded;
pub mod map;
pub mod mutex;
pub mod once;
pub mod once_value;
pub mod pool;
pub mod rw_guarded;
pub mod rw_mutex;
pub mod semaphore;

pub use atomic::{AtomicCaller, atomic_callers, new_atomic};
pub use cond::{CondCaller, CondPasses, cond_callers, new_cond};
pub use flights::{FlightCaller, FlightPass, FlightPasses, Flights, flight_callers, new_flights};
pub use go_group::{GoCaller, GoGroup, GoPasses};
pub use go_pool::PoolGet;
pub use go_waits::OnceRun;
pub use group::{GroupCaller, GroupPasses, group_callers, new_group};
pub use guarded::{Guarded, GuardedCaller};
pub use map::{MapCaller, TableCallers, map_callers, new_map};
pub use mutex::{MutexCaller, MutexPasses, mutex_callers, new_mutex};
pub use once::{OnceCaller, OncePasses, new_once, once_callers};
pub use once_value::{
    OnceFuncCaller, OnceValue, OnceValueCaller, OnceValuePasses, new_once_value, once_value_callers,
};
pub use pool::{PoolCaller, PoolPass, PoolPasses, new_pool, pool_callers};
pub use pool_core::PoolPut;
pub use rw_guarded::{RwGuarded, RwGuardedCaller};
pub use rw_mutex::{RwCaller, RwPasses, new_rw_mutex, rw_callers};
pub use semaphore::{SemaCaller, SemaPasses, Semaphore};
pub use shared_table::SharedTable;
pub use sync_model::Answer;
pub use sync_outside::Clock;
pub use sync_types::Misuse;
