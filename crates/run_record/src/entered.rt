//! The events of all kinds of objects, and their answers. A kind of object is one line in each.
use flight_core::{FlightEvent, FlightReply};
use mutex_core::{MutexEvent, MutexReply};
use pool_core::{PoolEvent, PoolReply};
use rw_core::{RwEvent, RwReply};
use sema_core::{SemaEvent, SemaReply};
use starts_core::{StartEvent, StartReply};
use wait_cores::{GroupEvent, GroupReply, NotifyEvent, NotifyReply, OnceEvent, OnceReply};

/// An event on an object. A map and an atomic have none: their calls stand in the shared history.
#[derive(Clone, Copy)]
pub enum ObjectEvent {
    Mutex(MutexEvent),
    RwMutex(RwEvent),
    Cond(NotifyEvent),
    WaitGroup(GroupEvent),
    /// Of a once, whose function comes to a sum.
    Once(OnceEvent<i64>),
    /// Of a function made by `OnceFunc`, which comes to the code with which it fails.
    OnceFunc(OnceEvent<u32>),
    /// Of a function made by `OnceValue`, which comes to its value.
    OnceValue(OnceEvent<u64>),
    Pool(PoolEvent<u64>),
    Sema(SemaEvent),
    /// Of a group of flights. A key is its number among the workload's keys.
    Flight(FlightEvent),
    /// Of Starts, which no workload declares.
    Starts(StartEvent),
}

/// What an object answers to an event.
#[derive(Clone, Copy)]
pub enum ObjectReply {
    Mutex(MutexReply),
    RwMutex(RwReply),
    Cond(NotifyReply),
    WaitGroup(GroupReply),
    Once(OnceReply<i64>),
    OnceFunc(OnceReply<u32>),
    OnceValue(OnceReply<u64>),
    Pool(PoolReply<u64>),
    Sema(SemaReply),
    Flight(FlightReply),
    Starts(StartReply),
}
