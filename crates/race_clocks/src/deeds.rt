//! What one item does of that which Go's memory model orders, kind by kind.
ghost use Rattle.std.specs.Prelude.{◌≡◌};
ghost use Rattle.std.specs.Option.{option_copied};
ghost use Rattle.rw_core.specs.Edges.{is_read};
ghost use Rattle.race_clocks.specs.Deeds.{unlocks_mutex, locks_mutex, unlocks_as_writer, unlocks_as_reader, locks_rw_mutex, is_writers_call, leaves_cond, lowers_count, passes_count, ends_function, knows_function, is_entry, enters_atomic, finds_atomic};
ghost use Rattle.race_clocks.specs.Handing.{started_by, found_key, cond_event, pool_event, is_kept};

use flight_core::FlightCore;
use mutex_core::MutexCore;
use pool_core::{PoolEvent, PoolReply};
use run_record::{ObjectEvent, ObjectReply};
use rw_core::{RwCore, RwEvent};
use script_calls::{Call, Operation, Reply};
use sema_core::SemaCore;
use starts_core::{StartEvent, StartReply};
use step_runner::Deed;
use sync_model::Machine;
use sync_types::{AtomicCall, AtomicReply, MapCall, Name, RwMutexCall};
use wait_cores::{GroupCore, NotifyCore, NotifyEvent, OnceCore};

/// Whether it is an unlock of a mutex that is no misuse.
pub(crate) fn unlocks_mutex(deed: &Deed) -> bool
    ensures { result ≡ unlocks_mutex deed.now }
{
    match deed {
        Deed::Entered(ObjectEvent::Mutex(event), ObjectReply::Mutex(reply)) => {
            MutexCore::releases(event, reply)
        }
        _ => false,
    }
}

/// Whether its caller has a mutex from here on.
pub(crate) fn locks_mutex(deed: &Deed) -> bool
    ensures { result ≡ locks_mutex deed.now }
{
    match deed {
        Deed::Entered(ObjectEvent::Mutex(event), ObjectReply::Mutex(reply)) => {
            MutexCore::acquires(event, reply)
        }
        _ => false,
    }
}

/// Whether an event of a reader/writer mutex is a reader's.
fn is_read(event: &RwEvent) -> bool
    ensures { result ≡ is_read event.now }
{
    match event {
        RwEvent::ReadArrive | RwEvent::ReadTry | RwEvent::ReadUnlock => true,
        RwEvent::WriteArrive { .. }
        | RwEvent::WriteTry
        | RwEvent::WriteWoken { .. }
        | RwEvent::WriteUnlock
        | RwEvent::Leave => false,
    }
}

/// Whether it is a writer's unlock of a reader/writer mutex that is no misuse.
pub(crate) fn unlocks_as_writer(deed: &Deed) -> bool
    ensures { result ≡ unlocks_as_writer deed.now }
{
    match deed {
        Deed::Entered(ObjectEvent::RwMutex(event), ObjectReply::RwMutex(reply)) => {
            !is_read(event) && RwCore::releases(event, reply)
        }
        _ => false,
    }
}

/// Whether it is a reader's.
pub(crate) fn unlocks_as_reader(deed: &Deed) -> bool
    ensures { result ≡ unlocks_as_reader deed.now }
{
    match deed {
        Deed::Entered(ObjectEvent::RwMutex(event), ObjectReply::RwMutex(reply)) => {
            is_read(event) && RwCore::releases(event, reply)
        }
        _ => false,
    }
}

/// Whether its caller has a reader/writer mutex from here on, as a reader or as a writer.
pub(crate) fn locks_rw_mutex(deed: &Deed) -> bool
    ensures { result ≡ locks_rw_mutex deed.now }
{
    match deed {
        Deed::Entered(ObjectEvent::RwMutex(event), ObjectReply::RwMutex(reply)) => {
            RwCore::acquires(event, reply)
        }
        _ => false,
    }
}

/// Whether a call is a writer's `lock` or `trylock`.
pub(crate) fn is_writers_call(call: &Option<Call>) -> bool
    ensures { result ≡ is_writers_call call.now }
{
    match call {
        Some(call) => match call.operation {
            Operation::RwMutex(RwMutexCall::Lock | RwMutexCall::TryLock) => true,
            _ => false,
        },
        None => false,
    }
}

/// Whether its caller leaves a cond with its ticket.
pub(crate) fn leaves_cond(deed: &Deed) -> bool
    ensures { result ≡ leaves_cond deed.now }
{
    match deed {
        Deed::Entered(ObjectEvent::Cond(event), ObjectReply::Cond(reply)) => {
            NotifyCore::acquires(event, reply)
        }
        _ => false,
    }
}

/// Whether it lowers the counter of a wait group, or what is held of a semaphore.
pub(crate) fn lowers_count(deed: &Deed) -> bool
    ensures { result ≡ lowers_count deed.now }
{
    match deed {
        Deed::Entered(ObjectEvent::WaitGroup(event), ObjectReply::WaitGroup(reply)) => {
            GroupCore::releases(event, reply)
        }
        Deed::Entered(ObjectEvent::Sema(event), ObjectReply::Sema(reply)) => {
            SemaCore::releases(event, reply)
        }
        _ => false,
    }
}

/// Whether a `wait` of a wait group returns, or a caller has its weight of a semaphore.
pub(crate) fn passes_count(deed: &Deed) -> bool
    ensures { result ≡ passes_count deed.now }
{
    match deed {
        Deed::Entered(ObjectEvent::WaitGroup(event), ObjectReply::WaitGroup(reply)) => {
            GroupCore::acquires(event, reply)
        }
        Deed::Entered(ObjectEvent::Sema(event), ObjectReply::Sema(reply)) => {
            SemaCore::acquires(event, reply)
        }
        _ => false,
    }
}

/// Whether the function of a once, a `OnceFunc` or a `OnceValue` ends, or a flight lands.
pub(crate) fn ends_function(deed: &Deed) -> bool
    ensures { result ≡ ends_function deed.now }
{
    match deed {
        Deed::Entered(ObjectEvent::Once(event), ObjectReply::Once(reply)) => {
            OnceCore::<i64>::releases(event, reply)
        }
        Deed::Entered(ObjectEvent::OnceFunc(event), ObjectReply::OnceFunc(reply)) => {
            OnceCore::<u32>::releases(event, reply)
        }
        Deed::Entered(ObjectEvent::OnceValue(event), ObjectReply::OnceValue(reply)) => {
            OnceCore::<u64>::releases(event, reply)
        }
        Deed::Entered(ObjectEvent::Flight(event), ObjectReply::Flight(reply)) => {
            FlightCore::releases(event, reply)
        }
        _ => false,
    }
}

/// Whether a call returns of which another one ran the function, or leads a flight.
pub(crate) fn knows_function(deed: &Deed) -> bool
    ensures { result ≡ knows_function deed.now }
{
    match deed {
        Deed::Entered(ObjectEvent::Once(event), ObjectReply::Once(reply)) => {
            OnceCore::<i64>::acquires(event, reply)
        }
        Deed::Entered(ObjectEvent::OnceFunc(event), ObjectReply::OnceFunc(reply)) => {
            OnceCore::<u32>::acquires(event, reply)
        }
        Deed::Entered(ObjectEvent::OnceValue(event), ObjectReply::OnceValue(reply)) => {
            OnceCore::<u64>::acquires(event, reply)
        }
        Deed::Entered(ObjectEvent::Flight(event), ObjectReply::Flight(reply)) => {
            FlightCore::acquires(event, reply)
        }
        _ => false,
    }
}

/// The worker that a `go` starts, if it starts one.
pub(crate) fn started_by(deed: &Deed) -> Option<u32>
    ensures { result ≡ started_by deed.now }
{
    match deed {
        Deed::Entered(
            ObjectEvent::Starts(StartEvent::Start(worker)),
            ObjectReply::Starts(StartReply::Done),
        ) => { Some(*worker) }
        _ => None,
    }
}

/// Whether a call of an atomic is an entry, by what it answers.
fn is_entry(call: &AtomicCall, reply: &AtomicReply) -> bool
    ensures { result ≡ is_entry call.now reply.now }
{
    match call {
        AtomicCall::Load => false,
        AtomicCall::CompareAndSwap { .. } => matches!(reply, AtomicReply::Compared(true)),
        _ => true,
    }
}

/// Whether it is an entry of an atomic: all but a load, and a compare-and-swap that swapped nothing.
pub(crate) fn enters_atomic(deed: &Deed) -> bool
    ensures { result ≡ enters_atomic deed.now }
{
    match deed {
        Deed::Placed(Operation::Atomic(call), Reply::Atomic(reply)) => is_entry(call, reply),
        _ => false,
    }
}

/// Whether it finds what an atomic holds: all but a store.
pub(crate) fn finds_atomic(deed: &Deed) -> bool
    ensures { result ≡ finds_atomic deed.now }
{
    match deed {
        Deed::Placed(Operation::Atomic(call), _) => !matches!(call, AtomicCall::Store { .. }),
        _ => false,
    }
}

/// The key of which a call of a map finds what it has: of all but a store, a delete and a clear.
pub(crate) fn found_key(call: &MapCall<Name>) -> Option<&Name>
    ensures { option_copied result ≡ found_key call.now }
{
    match call {
        MapCall::Store { .. } | MapCall::Delete { .. } | MapCall::Clear => None,
        MapCall::Load { key }
        | MapCall::LoadOrStore { key, .. }
        | MapCall::LoadAndDelete { key }
        | MapCall::Swap { key, .. }
        | MapCall::CompareAndSwap { key, .. }
        | MapCall::CompareAndDelete { key, .. } => Some(key),
    }
}

/// The event of a cond that it is, if it is one.
pub(crate) fn cond_event(deed: &Deed) -> Option<NotifyEvent>
    ensures { result ≡ cond_event deed.now }
{
    match deed {
        Deed::Entered(ObjectEvent::Cond(event), _) => Some(*event),
        _ => None,
    }
}

/// The event of a pool that it is, if it is one.
pub(crate) fn pool_event(deed: &Deed) -> Option<PoolEvent<u64>>
    ensures { result ≡ pool_event deed.now }
{
    match deed {
        Deed::Entered(ObjectEvent::Pool(event), _) => Some(*event),
        _ => None,
    }
}

/// Whether it is a put that is kept.
pub(crate) fn is_kept(deed: &Deed) -> bool
    ensures { result ≡ is_kept deed.now }
{
    match deed {
        Deed::Entered(ObjectEvent::Pool(PoolEvent::Put(_)), ObjectReply::Pool(reply)) => {
            matches!(reply, PoolReply::Kept)
        }
        _ => false,
    }
}
