//! What the conds of a run have come to, and whom an event on one of them notifies.
ghost use Rattle.std.specs.Prelude.{◌≡◌, ℕ, ◌==◌, ◌<◌, ◌≤◌, ◌++◌, cond, map, length, unwrap_or, IfOk, OnOk};
ghost use Rattle.std.specs.List.{range_with_len};
ghost use Rattle.wait_cores.specs.NotifyMachine as notify;
ghost use Rattle.race_clocks.specs.Handing.{notice, notices, cond_at, AreOf};

use crate::by_place::ByPlace;
use crate::channel::Channel;
use std::alloc::{AllocError, Global};
use sync_types::Seq;
use wait_cores::{NotifyCore, NotifyEvent, NotifyPlace};

/// The cond, or a new one at which nobody waits.
fn cond_or_new(
    alloc: Global,
    cond: Option<NotifyCore>,
    workers: u32,
) -> Result<NotifyCore, AllocError>
    requires some { 1 ≤ workers }
    requires few { workers ≤ 64 }
    ensures { IfOk result (λ core. core ≡ unwrap_or cond (notify.start workers)) }
{
    match cond {
        Some(core) => Ok(core),
        None => NotifyCore::new(alloc, workers),
    }
}

/// Where each worker stands at a cond.
fn places(alloc: Global, core: &NotifyCore, workers: u32) -> Result<Vec<NotifyPlace>, AllocError>
    requires { notify.callers_of core.now ≡ workers }
    ensures { IfOk result (λ places. places.items ≡ map (notify.place_of core.now) (range_with_len 0 workers)) }
{
    let mut places = Vec::new(alloc);
    for worker in 0..workers {
        places.push(core.place(worker))?;
    }
    Ok(places)
}

/// Tells of a worker where it waited and is notified now.
fn push_notice(
    gives: &mut Seq<Channel>,
    cond: usize,
    before: &[NotifyPlace],
    core: &NotifyCore,
    worker: u32,
) -> Result<(), AllocError>
    requires callers { worker < notify.callers_of core.now }
    requires before { worker < length before.now }
    ensures { OnOk result (gives.new ≡ gives.old ++ notice cond before.now core.now worker) }
{
    let waited = before[worker as usize] == NotifyPlace::Waiting;
    let is_notified = core.place(worker) == NotifyPlace::Notified;
    if waited && is_notified {
        gives.push(Channel::Notice { cond, worker })
    } else {
        Ok(())
    }
}

/// Tells of each worker that waited and is notified now.
fn push_notices(
    gives: &mut Seq<Channel>,
    cond: usize,
    before: &[NotifyPlace],
    core: &NotifyCore,
    workers: u32,
) -> Result<(), AllocError>
    requires callers { notify.callers_of core.now ≡ workers }
    requires before { length before.now ≡ workers }
    ensures { OnOk result (gives.new ≡ gives.old ++ notices workers cond before.now core.now) }
{
    for worker in 0..workers {
        push_notice(gives, cond, before, core, worker)?;
    }
    Ok(())
}

/// Makes an event on the cond at a place, and tells whom it notifies.
pub(crate) fn enter_cond(
    alloc: Global,
    conds: &mut ByPlace<NotifyCore>,
    workers: u32,
    place: usize,
    caller: u32,
    event: NotifyEvent,
    gives: &mut Seq<Channel>,
) -> Result<(), AllocError>
    requires some { 1 ≤ workers }
    requires few { workers ≤ 64 }
    requires are { AreOf workers conds.old }
    ensures are { OnOk result (AreOf workers conds.new) }
    ensures conds { OnOk result ((other : ℕ) → cond_at workers conds.new other ≡ cond (place == other) (notify.next (cond_at workers conds.old place) caller event).0 (cond_at workers conds.old other)) }
    ensures gives { OnOk result (gives.new ≡ gives.old ++ notices workers place (map (notify.place_of (cond_at workers conds.old place)) (range_with_len 0 workers)) (notify.next (cond_at workers conds.old place) caller event).0) }
{
    let mut core = cond_or_new(alloc, conds.take(place), workers)?;
    let before = places(alloc, &core, workers)?;
    core.step(caller, event);
    push_notices(gives, place, &before, &core, workers)?;
    conds.put(place, core)
}
