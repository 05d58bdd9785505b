//! Which events release, and which acquire.
ghost use Rattle.std.specs.Prelude.{◌≡◌};
ghost use Rattle.run_record.specs.Edges.{frees, takes};

use flight_core::FlightCore;
use mutex_core::MutexCore;
use pool_core::PartCore;
use run_record::{ObjectEvent, ObjectReply};
use rw_core::RwCore;
use sema_core::SemaCore;
use starts_core::StartsCore;
use sync_model::Machine;
use wait_cores::{GroupCore, NotifyCore, OnceCore};

/// Whether an event with this answer releases.
pub(crate) fn frees(event: &ObjectEvent, reply: &ObjectReply) -> bool
    ensures { result ≡ frees event.now reply.now }
{
    match (event, reply) {
        (ObjectEvent::Mutex(event), ObjectReply::Mutex(reply)) => MutexCore::releases(event, reply),
        (ObjectEvent::RwMutex(event), ObjectReply::RwMutex(reply)) => RwCore::releases(
            event, reply,
        ),
        (ObjectEvent::Cond(event), ObjectReply::Cond(reply)) => NotifyCore::releases(event, reply),
        (ObjectEvent::WaitGroup(event), ObjectReply::WaitGroup(reply)) => GroupCore::releases(
            event, reply,
        ),
        (ObjectEvent::Once(event), ObjectReply::Once(reply)) => OnceCore::<i64>::releases(
            event, reply,
        ),
        (ObjectEvent::OnceFunc(event), ObjectReply::OnceFunc(reply)) => OnceCore::<u32>::releases(
            event, reply,
        ),
        (ObjectEvent::OnceValue(event), ObjectReply::OnceValue(reply)) => OnceCore::<u64>::releases(
            event, reply,
        ),
        (ObjectEvent::Pool(event), ObjectReply::Pool(reply)) => PartCore::releases(event, reply),
        (ObjectEvent::Sema(event), ObjectReply::Sema(reply)) => SemaCore::releases(event, reply),
        (ObjectEvent::Flight(event), ObjectReply::Flight(reply)) => FlightCore::releases(
            event, reply,
        ),
        (ObjectEvent::Starts(event), ObjectReply::Starts(reply)) => StartsCore::releases(
            event, reply,
        ),
        _ => false,
    }
}

/// Whether an event with this answer acquires.
pub(crate) fn takes(event: &ObjectEvent, reply: &ObjectReply) -> bool
    ensures { result ≡ takes event.now reply.now }
{
    match (event, reply) {
        (ObjectEvent::Mutex(event), ObjectReply::Mutex(reply)) => MutexCore::acquires(event, reply),
        (ObjectEvent::RwMutex(event), ObjectReply::RwMutex(reply)) => RwCore::acquires(
            event, reply,
        ),
        (ObjectEvent::Cond(event), ObjectReply::Cond(reply)) => NotifyCore::acquires(event, reply),
        (ObjectEvent::WaitGroup(event), ObjectReply::WaitGroup(reply)) => GroupCore::acquires(
            event, reply,
        ),
        (ObjectEvent::Once(event), ObjectReply::Once(reply)) => OnceCore::<i64>::acquires(
            event, reply,
        ),
        (ObjectEvent::OnceFunc(event), ObjectReply::OnceFunc(reply)) => OnceCore::<u32>::acquires(
            event, reply,
        ),
        (ObjectEvent::OnceValue(event), ObjectReply::OnceValue(reply)) => OnceCore::<u64>::acquires(
            event, reply,
        ),
        (ObjectEvent::Pool(event), ObjectReply::Pool(reply)) => PartCore::acquires(event, reply),
        (ObjectEvent::Sema(event), ObjectReply::Sema(reply)) => SemaCore::acquires(event, reply),
        (ObjectEvent::Flight(event), ObjectReply::Flight(reply)) => FlightCore::acquires(
            event, reply,
        ),
        (ObjectEvent::Starts(event), ObjectReply::Starts(reply)) => StartsCore::acquires(
            event, reply,
        ),
        _ => false,
    }
}
