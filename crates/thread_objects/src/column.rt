//! All passes of one object of a run, in order of worker.
use crate::parts::StopCore;
use flight_core::FlightCore;
use mutex_core::MutexCore;
use pool_core::PartCore;
use ruled_object::PassOf;
use rw_core::RwCore;
use sema_core::SemaCore;
use starts_core::StartsCore;
use wait_cores::{GroupCore, NotifyCore, OnceCore};

/// The passes of the first workers to an object, of whatever kind: all of them before the workers start and once they have
/// ended, and fewer while passes are dealt to workers or collected from them. A kind is a line here.
#[derive(Drop)]
pub enum AnyColumn<N> {
    /// To a map or an atomic, to which so many workers have no pass.
    None(u32),
    Stop(Vec<PassOf<StopCore, N>>),
    Mutex(Vec<PassOf<MutexCore, N>>),
    RwMutex(Vec<PassOf<RwCore, N>>),
    Cond(Vec<PassOf<NotifyCore, N>>),
    WaitGroup(Vec<PassOf<GroupCore, N>>),
    Once(Vec<PassOf<OnceCore<i64>, N>>),
    OnceFunc(Vec<PassOf<OnceCore<u32>, N>>),
    OnceValue(Vec<PassOf<OnceCore<u64>, N>>),
    Sema(Vec<PassOf<SemaCore, N>>),
    Flight(Vec<PassOf<FlightCore, N>>),
    PoolPart(Vec<PassOf<PartCore, N>>),
    Starts(Vec<PassOf<StartsCore, N>>),
}
