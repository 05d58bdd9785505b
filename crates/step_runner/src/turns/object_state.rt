//! The objects of a run.
ghost use Rattle.std.specs.Prelude.{◌≡◌, ◌≤◌, pos, IfOk};
ghost use Rattle.workload.specs.Keys.{keys_in};
ghost use Rattle.wait_cores.specs.GroupMachine as group_machine;
ghost use Rattle.workload.specs.Plan.{reference_of};
ghost use Rattle.step_runner.specs.Objects.{new_object, kind_of};

use flight_core::FlightCore;
use mutex_core::MutexCore;
use pool_core::PoolCore;
use rw_core::RwCore;
use sema_core::SemaCore;
use std::alloc::{AllocError, Global};
use sync_types::{ByName, Number};
use wait_cores::{GroupCore, GroupEvent, NotifyCore, OnceCore};
use workload::{Keys, ObjectKind, Workload};

/// What an object holds between two turns, by its kind. The callers of a machine are the workers.
#[derive(Drop)]
pub enum ObjectState {
    /// The values of a map by its keys.
    Map(ByName<u64>),
    /// The number of an atomic, which is of the atomic's type.
    Atomic(Number),
    /// The machine of a mutex.
    Mutex(MutexCore),
    /// The machine of a reader/writer mutex.
    RwMutex(RwCore),
    /// The machine of a cond, whose mutex is at this place among the objects.
    Cond {
        cond: NotifyCore,
        mutex: usize,
    },
    /// The machine of a wait group, whose counter was this at the start.
    WaitGroup {
        group: GroupCore,
        start: u32,
    },
    /// The machine of a once, whose function adds this amount to the int64 at this place among the
    /// objects, and comes to the sum.
    Once {
        once: OnceCore<i64>,
        atomic: usize,
        delta: i64,
    },
    /// The machine of a `OnceFunc`, whose function comes to this code.
    OnceFunc {
        once: OnceCore<u32>,
        code: u32,
    },
    /// The machine of a `OnceValue`, whose function comes to this value.
    OnceValue {
        once: OnceCore<u64>,
        value: u64,
    },
    /// The machine of a pool.
    Pool(PoolCore),
    /// The machine of a weighted semaphore of this size.
    Sema {
        sema: SemaCore,
        size: u64,
    },
    /// The machine of a group of flights, whose function adds this amount to the int64 at this place among the
    /// objects, and comes to the sum. A key is its number among the workload's keys.
    Flight {
        flight: FlightCore,
        keys: Keys,
        atomic: usize,
        delta: i64,
    },
    /// The value of a plain variable.
    Var(u64),
}

/// A wait group whose counter is this at the start. No text has a start above 10,000; one above 2^31 - 1
/// would leave the counter at 0.
fn new_group(alloc: Global, workers: u32, start: u32) -> Result<GroupCore, AllocError>
    requires some { 1 ≤ workers }
    requires few { workers ≤ 64 }
    ensures { IfOk result (λ group. group ≡ (group_machine.next (group_machine.start workers) 0 (GroupEvent.Add (pos start))).0) }
{
    let mut group = GroupCore::new(alloc, workers)?;
    if let Ok(start) = i32::try_from(start) {
        let _added = group.add(start);
    }
    Ok(group)
}

impl ObjectState {
    /// An object as a run of a workload begins with it. Where it is a pool, each part has this much room.
    pub fn new(
        alloc: Global,
        workload: &Workload,
        room: u32,
        kind: ObjectKind,
    ) -> Result<Self, AllocError>
        ensures { IfOk result (λ object. object ≡ new_object workload.now.workers room (keys_in workload.now.scripts) kind) }
    {
        let workers = workload.workers();
        match kind {
            ObjectKind::Map => Ok(ObjectState::Map(ByName::new(alloc))),
            ObjectKind::Atomic(kind) => Ok(ObjectState::Atomic(kind.zero())),
            ObjectKind::Mutex => Ok(ObjectState::Mutex(MutexCore::new(alloc, workers)?)),
            ObjectKind::RwMutex => Ok(ObjectState::RwMutex(RwCore::new(alloc, workers)?)),
            ObjectKind::Cond { mutex } => {
                let cond = NotifyCore::new(alloc, workers)?;
                Ok(ObjectState::Cond { cond, mutex })
            }
            ObjectKind::WaitGroup { start } => {
                let group = new_group(alloc, workers, start)?;
                Ok(ObjectState::WaitGroup { group, start })
            }
            ObjectKind::Once { atomic, delta } => {
                let once = OnceCore::new(alloc, workers)?;
                Ok(ObjectState::Once {
                    once,
                    atomic,
                    delta,
                })
            }
            ObjectKind::OnceFunc { code } => {
                let once = OnceCore::new(alloc, workers)?;
                Ok(ObjectState::OnceFunc { once, code })
            }
            ObjectKind::OnceValue { value } => {
                let once = OnceCore::new(alloc, workers)?;
                Ok(ObjectState::OnceValue { once, value })
            }
            ObjectKind::Pool => Ok(ObjectState::Pool(PoolCore::new(alloc, workers, room)?)),
            ObjectKind::Sema { size } => {
                let sema = SemaCore::new(alloc, workers, size)?;
                Ok(ObjectState::Sema { sema, size })
            }
            ObjectKind::Flight { atomic, delta } => {
                let flight = FlightCore::new(alloc, workers)?;
                let keys = workload.copied_keys(alloc)?;
                Ok(ObjectState::Flight {
                    flight,
                    keys,
                    atomic,
                    delta,
                })
            }
            ObjectKind::Var => Ok(ObjectState::Var(0)),
        }
    }

    /// The place of the object to which this one refers, if it refers to one.
    pub fn refers_to(&self) -> Option<usize>
        ensures { result ≡ reference_of (kind_of self.now) }
    {
        match self {
            ObjectState::Cond { mutex, .. } => Some(*mutex),
            ObjectState::Once { atomic, .. } => Some(*atomic),
            ObjectState::Flight { atomic, .. } => Some(*atomic),
            _ => None,
        }
    }
}
