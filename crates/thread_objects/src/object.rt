//! The objects of a run.
use crate::parts::StopCore;
use flight_core::FlightCore;
use mutex_core::MutexCore;
use pool_core::PartCore;
use ruled_object::Object;
use rw_core::RwCore;
use sema_core::SemaCore;
use starts_core::StartsCore;
use sync_model::Note;
use wait_cores::{GroupCore, NotifyCore, OnceCore};

/// An object of a run, of whatever kind. A kind is a line here, and one in `AnyPass`.
#[derive(Drop)]
pub enum AnyObject<N: Note> {
    /// A map or an atomic: all of them are shared as one, which isn't here. Or a pool, of which there are only the parts.
    Shared,
    Stop(Object<StopCore, N>),
    Mutex(Object<MutexCore, N>),
    RwMutex(Object<RwCore, N>),
    Cond(Object<NotifyCore, N>),
    WaitGroup(Object<GroupCore, N>),
    Once(Object<OnceCore<i64>, N>),
    OnceFunc(Object<OnceCore<u32>, N>),
    OnceValue(Object<OnceCore<u64>, N>),
    Sema(Object<SemaCore, N>),
    Flight(Object<FlightCore, N>),
    /// One part of a pool, which is an object of its own.
    PoolPart(Object<PartCore, N>),
    /// On which workers are started. No workload declares it.
    Starts(Object<StartsCore, N>),
}
