//! A run over maps and atomics that take turns.
ghost use Rattle.std.specs.Prelude.{◌≡◌, ◌≤◌, false, IfOk};
ghost use Rattle.shared_plain.specs.Marks.{own_by, IsMarkOf};
ghost use Rattle.shared_plain.specs.Plains.{caller_count, kinds_of, maps_of, Takes};
ghost use Rattle.shared_plain.specs.Settling.{room_of};
ghost use Rattle.sync_model.specs.Shared.{AreAllCallers};
ghost use Rattle.workload.specs.Dialect.{has_variables};
ghost use Rattle.thread_runner.specs.Sites.{AreShared};
ghost use Rattle.thread_runner.specs.EndsPlans.{HaveMadeNone, HaveSpare};

use script_calls::{Outcome, Report};
use shared_plain::{EndsRoom, Mark, Plain, PlainState};
use std::alloc::{AllocError, Global};
use std::sync::Wait;
use std::thread::Threads;
use sync_model::Caller;
use sync_outside::{Clock, Gate, Spawner};
use sync_types::{ByName, End, Seq};
use thread_runner::{RunFault, atomic_kinds, map_count, spares, threaded_over};
use workload::laws::keys_are_numbered_by_first_appearance;
use workload::{ObjectKind, Workload};

// The plain maps and atomics of a workload, with a caller for each worker and room to end them.
fn plain_for(
    alloc: Global,
    workload: &Workload,
) -> Result<(Plain, Vec<Caller<Mark>>, EndsRoom), AllocError>
    ensures shared { IfOk result (λ made. AreShared workload.now (maps_of made.0) (kinds_of made.0) (Takes made.0)) }
    ensures count { IfOk result (λ made. caller_count made.0 ≡ workload.now.workers) }
    ensures callers { IfOk result (λ made. AreAllCallers IsMarkOf own_by made.0 made.1.items workload.now.workers) }
    ensures unused { IfOk result (λ made. HaveMadeNone own_by made.1.items) }
    ensures spare { IfOk result (λ made. HaveSpare own_by workload.now made.1.items) }
    ensures room { IfOk result (λ made. caller_count made.0 ≤ room_of made.2) }
{
    keys_are_numbered_by_first_appearance();
    let workers = workload.workers();
    let kinds = atomic_kinds(alloc, workload)?;
    let spares = spares(alloc, workload)?;
    let keys = workload.keys().names().len() as u32;
    let (plain, callers) = Plain::new(alloc, &kinds, map_count(workload), keys, &spares)?;
    let room = EndsRoom::new(alloc, workers)?;
    Ok((plain, callers, room))
}

// The numbers of a workload's keys, in byte order of the keys' names.
fn key_order(alloc: Global, workload: &Workload) -> Result<Vec<u32>, AllocError> {
    let mut places = ByName::new(alloc);
    let mut number: u32 = 0;
    for name in workload.keys().names() {
        places.insert(alloc, name.as_bytes(), number)?;
        number = number.wrapping_add(1);
    }
    let mut order = Vec::new(alloc);
    for (_, number) in places.entries(alloc)?.into_vec() {
        order.push(number)?;
    }
    Ok(order)
}

// What a report shows of plain maps and atomics.
fn ends_of(alloc: Global, workload: &Workload, left: &PlainState) -> Result<Vec<End>, AllocError> {
    let order = key_order(alloc, workload)?;
    let mut atomics = Vec::new(alloc);
    let mut maps = Vec::new(alloc);
    for (place, object) in workload.objects().iter().enumerate() {
        match object.kind {
            ObjectKind::Atomic(_) => atomics.push(place)?,
            ObjectKind::Map => maps.push(place)?,
            _ => {}
        }
    }
    let Some(pairs) = maps.len().checked_mul(order.len()) else {
        return Err(AllocError);
    };
    let Some(most) = pairs.checked_add(atomics.len()) else {
        return Err(AllocError);
    };
    let mut ends = Vec::with_capacity(alloc, most)?;
    left.push_ends(&atomics, &maps, &order, &mut ends);
    Ok(ends)
}

/// What the run of a workload comes to, over maps and atomics that take turns.
pub(super) fn threaded_plain<C: Clock + Sync, P: Spawner, G: Gate + Sync, R: Threads + Wait + Sync>(
    rt: &R,
    alloc: Global,
    workload: &Workload,
    clock: &C,
    spawner: &mut P,
    gate: &G,
) -> Result<Outcome, RunFault>
    requires { has_variables workload.now ≡ false }
{
    let (plain, callers, room) = plain_for(alloc, workload)?;
    let (outcome, callers) = threaded_over(
        rt, alloc, workload, &plain, callers, clock, spawner, gate,
    )?;
    let left = plain.ends(callers, room);
    match outcome {
        Outcome::Done(report) => {
            let Report { replies, .. } = report;
            let ends = Seq::from_vec(ends_of(alloc, workload, &left)?);
            Ok(Outcome::Done(Report { replies, ends }))
        }
        other => Ok(other),
    }
}
