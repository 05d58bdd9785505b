//! The jobs of a run's threads, one for each worker.
ghost use Rattle.std.specs.Prelude.{◌≡◌, ◌<◌, ◌≤◌, All, IfOk, [], length, map, get_or, vec_len};
ghost use Rattle.std.specs.List.{range_with_len};
ghost use Rattle.workload.specs.Keys.{keys_in};
ghost use Rattle.thread_runner.specs.Jobs.{HasRoom};
ghost use Rattle.thread_runner.specs.Sites.{AreRooms, ranges_in_calls};

use crate::job::{Job, Room};
use crate::site::Site;
use script_calls::{Call, Operation};
use std::alloc::{AllocError, Global};
use sync_model::{Caller, Shared};
use sync_outside::{At, Clock, Gate};
use sync_types::BoundedSeq;
use thread_objects::{AnyPass, Worker};

// Room for the pairs of each `range` of a script, which shows at most all keys, so many.
fn rooms_of(
    alloc: Global,
    script: &[Call],
    keys: usize,
) -> Result<Vec<BoundedSeq<(u32, u64)>>, AllocError>
    ensures roomy { IfOk result (λ rooms. AreRooms keys rooms.items) }
    ensures enough { IfOk result (λ rooms. ranges_in_calls script.now ≤ vec_len rooms) }
{
    let mut rooms = Vec::new(alloc);
    for index in 0..script.len() {
        if let Operation::Range = script[index].operation {
            rooms.push(BoundedSeq::with_room(alloc, keys)?)?;
        }
    }
    Ok(rooms)
}

// Room for all that a script answers, where the workload has so many keys.
fn room_for(alloc: Global, script: &[Call], keys: usize) -> Result<Room, AllocError>
    ensures { IfOk result (λ room. HasRoom keys script.now room.replies room.pairs.items) }
{
    let pairs = rooms_of(alloc, script, keys)?;
    let replies = BoundedSeq::with_room(alloc, script.len())?;
    Ok(Room { replies, pairs })
}

// The job of the worker with this number, which is this caller and has these passes.
fn job_of<'a, S: Shared, C: Clock, G: Gate>(
    alloc: Global,
    site: &'a Site<'a, S>,
    clock: &'a C,
    gate: &'a G,
    number: u32,
    caller: Caller<S::Mark>,
    passes: Vec<AnyPass<S::Mark>>,
) -> Result<Job<'a, S, C, G>, AllocError>
    requires { number < site.now.catalog.workload.now.workers }
    ensures number { IfOk result (λ job. job.worker.number ≡ number) }
    ensures caller { IfOk result (λ job. job.caller ≡ caller) }
    ensures passes { IfOk result (λ job. job.passes.items ≡ passes.items) }
    ensures shared { IfOk result (λ job. (job.site.now ≡ site.now) × (job.worker.at.home.now ≡ S.home_of site.now.catalog.shared.now) × (job.worker.workers ≡ site.now.catalog.workload.now.workers)) }
    ensures room { IfOk result (λ job. HasRoom (length (keys_in site.now.catalog.workload.now.scripts)) (get_or site.now.catalog.workload.now.scripts number []) job.room.replies job.room.pairs.items) }
{
    let workload = site.catalog.workload;
    let workers = workload.workers();
    let keys = workload.keys().names().len();
    let room = room_for(alloc, workload.script(number), keys)?;
    let home = site.catalog.shared.home();
    Ok(Job {
        site,
        worker: Worker {
            at: At { home, clock },
            workers,
            number,
        },
        gate,
        caller,
        passes,
        room,
    })
}

/// The jobs of all workers, in order of number: each with its caller, its passes, and room for what it answers.
pub(crate) fn hire<'a, S: Shared, C: Clock, G: Gate>(
    alloc: Global,
    site: &'a Site<'a, S>,
    clock: &'a C,
    gate: &'a G,
    callers: Vec<Caller<S::Mark>>,
    dealt: Vec<Vec<AnyPass<S::Mark>>>,
) -> Result<Vec<Job<'a, S, C, G>>, AllocError>
    requires callers { vec_len callers ≡ site.now.catalog.workload.now.workers }
    requires dealt { vec_len dealt ≡ site.now.catalog.workload.now.workers }
    ensures count { IfOk result (λ jobs. vec_len jobs ≡ site.now.catalog.workload.now.workers) }
    ensures numbers { IfOk result (λ jobs. map (λ job. job.worker.number) jobs.items ≡ range_with_len 0 (vec_len jobs)) }
    ensures callers { IfOk result (λ jobs. map (λ job. job.caller) jobs.items ≡ callers.items) }
    ensures passes { IfOk result (λ jobs. map (λ job. job.passes.items) jobs.items ≡ map (λ passes. passes.items) dealt.items) }
    ensures each { IfOk result (λ jobs. All (λ job. (job.site.now ≡ site.now) × (job.worker.at.home.now ≡ S.home_of site.now.catalog.shared.now) × (job.worker.workers ≡ site.now.catalog.workload.now.workers)
        × HasRoom (length (keys_in site.now.catalog.workload.now.scripts)) (get_or site.now.catalog.workload.now.scripts job.worker.number []) job.room.replies job.room.pairs.items) jobs.items) }
{
    let workers = site.catalog.workload.workers();
    let mut jobs = Vec::with_capacity(alloc, workers as usize)?;
    for (caller, passes) in callers.into_iter().zip(dealt) {
        let number = jobs.len() as u32;
        let job = job_of(alloc, site, clock, gate, number, caller, passes)?;
        jobs.push_reserved(job);
    }
    Ok(jobs)
}
