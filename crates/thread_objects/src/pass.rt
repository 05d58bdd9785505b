//! The passes of one worker.
use crate::parts::StopCore;
use flight_core::FlightCore;
use mutex_core::MutexCore;
use pool_core::PartCore;
use ruled_object::PassOf;
use rw_core::RwCore;
use sema_core::SemaCore;
use starts_core::StartsCore;
use wait_cores::{GroupCore, NotifyCore, OnceCore};

/// A worker's pass to an object of a run, of whatever kind.
#[derive(Drop)]
pub enum AnyPass<N> {
    /// To a map, an atomic or a pool, or a pass that was taken out for a while.
    None,
    Stop(PassOf<StopCore, N>),
    Mutex(PassOf<MutexCore, N>),
    RwMutex(PassOf<RwCore, N>),
    Cond(PassOf<NotifyCore, N>),
    WaitGroup(PassOf<GroupCore, N>),
    Once(PassOf<OnceCore<i64>, N>),
    OnceFunc(PassOf<OnceCore<u32>, N>),
    OnceValue(PassOf<OnceCore<u64>, N>),
    Sema(PassOf<SemaCore, N>),
    Flight(PassOf<FlightCore, N>),
    PoolPart(PassOf<PartCore, N>),
    Starts(PassOf<StartsCore, N>),
}
