//! The calls that a script makes, by kind of object.
ghost use Rattle.std.specs.Prelude.{◌≡◌, ◌<◌, ◌^◌, false};
ghost use Rattle.script_calls.specs.Runs.{passed_over, is_test};

use sync_types::atomic_object::{AtomicCall, AtomicReply, Number};
use sync_types::lock_call::{LockReply, MutexCall, RwMutexCall};
use sync_types::map_object::{MapCall, MapReply};
use sync_types::name::Name;
use sync_types::once_call::DoReply;
use sync_types::pool_call::{PoolCall, PoolCallReply};
use sync_types::sema_call::SemaCall;
use sync_types::seq::Seq;
use sync_types::wait_call::{CondCall, WaitGroupCall};

/// A call on an object.
#[derive(Drop)]
pub struct Call {
    /// The place of the object among the workload's objects.
    pub object: usize,
    pub operation: Operation,
}

/// What a call asks of its object.
#[derive(Drop)]
pub enum Operation {
    /// A call on a map.
    Map(MapCall<Name>),
    /// All keys of a map with their values: `Map.Range`.
    Range,
    /// A call on an atomic.
    Atomic(AtomicCall),
    /// A call on a mutex.
    Mutex(MutexCall),
    /// A call on a reader/writer mutex.
    RwMutex(RwMutexCall),
    /// A call on a cond.
    Cond(CondCall),
    /// A call on a wait group.
    WaitGroup(WaitGroupCall),
    /// `Do` on a once: the first one runs the once's function, all others wait until it has returned.
    Once,
    /// A call of a function made by `OnceFunc`.
    OnceFunc,
    /// A call of a function made by `OnceValue`.
    OnceValue,
    /// A call on a pool.
    Pool(PoolCall),
    /// A call on a weighted semaphore.
    Sema(SemaCall),
    /// `Do` on a group of flights, for this key: the first to come leads a flight, which runs the group's function. Whoever
    /// comes for that key meanwhile joins the flight.
    Fly(Name),
    /// A call on a plain variable.
    Var(VarCall),
    /// A call that is made of other calls.
    Composed(ComposedCall),
}

/// A call that is made of other calls.
#[derive(Clone, Copy, Drop)]
pub enum ComposedCall {
    /// `ifeq`: loads an atomic. Where it doesn't hold the value, so many of the next calls of the script are passed over.
    IfEqual {
        value: Number,
        passes: u32,
    },
    /// `waitfor`, of a cond: loads an atomic. While it doesn't hold the value and fewer than so many waits were made, waits on
    /// the cond and loads it again.
    WaitFor {
        /// The place of the atomic among the workload's objects.
        atomic: usize,
        value: Number,
        tries: u32,
    },
    /// `go`, of a wait group: adds 1 to its counter, and then starts a worker that waits to be started.
    Go {
        worker: u32,
    },
}

/// A call on a plain variable, which is neither locked nor atomic.
#[derive(Clone, Copy, Drop)]
pub enum VarCall {
    /// The value that it holds.
    Read,
    /// It holds this value from now on.
    Write(u64),
}

/// What a call on a plain variable answers.
#[derive(Clone, Copy, Drop)]
pub enum VarReply {
    /// The value that was read.
    Held(u64),
    /// The value was written.
    Done,
}

/// What a call answers, where keys are of a type `K`: a name, or a number among the workload's keys.
#[derive(Drop)]
pub enum Reply<K> {
    /// The reply of a map.
    Map(MapReply),
    /// The keys that a `Range` showed, each with its value.
    Pairs(Seq<(K, u64)>),
    /// The reply of an atomic.
    Atomic(AtomicReply),
    /// The reply of a mutex, a reader/writer mutex or a weighted semaphore.
    Lock(LockReply),
    /// A call on a cond or a wait group returned, a `go` too.
    Returned,
    /// The reply of a once.
    Once(DoReply),
    /// The code with which the function of a `OnceFunc` failed, or none where it succeeded.
    OnceFunc(Option<u32>),
    /// The value of a `OnceValue`.
    OnceValue(u64),
    /// The reply of a pool.
    Pool(PoolCallReply),
    /// The value of a flight, and whether more than one call received it.
    Flown(i64, bool),
    /// The reply of a plain variable.
    Var(VarReply),
}

impl Call {
    /// How many of the next calls are passed over behind this one with this reply.
    pub fn passed_over<K>(&self, reply: &Reply<K>) -> usize
        ensures passes { result ≡ passed_over self.now reply.now }
        ensures few { result < 2 ^ 32 }
    {
        match (&self.operation, reply) {
            (
                Operation::Composed(ComposedCall::IfEqual { value: _, passes }),
                Reply::Atomic(AtomicReply::Compared(false)),
            ) => *passes as usize,
            _ => 0,
        }
    }
}
