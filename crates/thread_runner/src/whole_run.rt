//! A run of a workload by threads, with its maps and atomics.
ghost use Rattle.std.specs.Prelude.{◌≡◌, ◌≤◌, ◌+◌, false, IfOk, IfErr, Err};
ghost use Rattle.sync_outside.specs.Faults.{Rose, RoseBy};
ghost use Rattle.workload.specs.Dialect.{has_variables};
ghost use Rattle.run_record.specs.Explains.{Explains};
ghost use Rattle.run_record.specs.InOneOrder.{InOneOrder};
ghost use Rattle.run_record.specs.Record.{Record};
ghost use Rattle.thread_runner.specs.declared.fault.RunFault.TheVariants as faults;

use crate::ends_plan::EndsPlan;
use crate::fault::RunFault;
use crate::run::threaded_over;
use crate::run_maps::{RunMaps, finish};
use go_map::Trie;
use script_calls::Outcome;
use std::alloc::Global;
use std::sync::Wait;
use std::thread::Threads;
use sync_model::Note;
use sync_outside::{Clock, Gate, Spawner};
use workload::Workload;

// The run over these maps and atomics, whatever they are.
fn threaded_on<
    M: RunMaps + Drop + Sync,
    C: Clock + Sync,
    P: Spawner,
    G: Gate + Sync,
    R: Threads + Wait + Sync,
>(
    rt: &R,
    alloc: Global,
    workload: &Workload,
    clock: &C,
    spawner: &mut P,
    gate: &G,
) -> Result<Outcome, RunFault>
where
    M::Mark: Send,
    M::Cursor: Send,
    <M::Mark as Note>::Home: Sync,
    requires plain { has_variables workload.now ≡ false }
    ensures explained { IfOk result (λ outcome. (r : Record) × Explains workload.now outcome r × InOneOrder r) }
    ensures refused { result ≡ Err faults.StartRefused → Rose (P.faults spawner.old) (P.faults spawner.new) }
    ensures stays { ¬ (result ≡ Err faults.StartRefused) → P.faults spawner.new ≡ P.faults spawner.old }
    ensures faults { P.faults spawner.old ≤ P.faults spawner.new }
    ensures ran { IfOk result (λ outcome. RoseBy workload.now.workers (P.ran spawner.old) (P.ran spawner.new)) }
    ensures rounds { P.rounds spawner.new ≤ P.rounds spawner.old + 1 }
    ensures unstarted { IfErr result (λ fault. (P.ran spawner.new ≡ P.ran spawner.old) × (P.rounds spawner.new ≡ P.rounds spawner.old)) }
{
    let (maps, callers, room) = M::new_for(alloc, workload)?;
    let plan = EndsPlan::new(alloc, workload)?;
    let (outcome, callers) = threaded_over(
        rt, alloc, workload, &maps, callers, clock, spawner, gate,
    )?;
    Ok(finish(workload, maps, callers, room, plan, outcome))
}

/// Makes the calls of a workload's workers in threads, one for each worker, and answers what the run comes to. The workload has
/// no plain variable: threads would race on it. Its maps are
/// hash tries and its atomics words, in one table: loads, walks over a map and calls on atomics wait for nobody. Each call
/// passes the gate before and after. All memory is taken before the first start.
///
/// The outcome is explained by one record, whose items stand in one order. A run that is misused tells the first misuse; none
/// is told to be deadlocked.
///
/// # Errors
///
/// `StartRefused` where a thread's start was refused, and `Memory`. There is no outcome then, and no worker has made a call.
pub fn threaded<C: Clock + Sync, P: Spawner, G: Gate + Sync, R: Threads + Wait + Sync>(
    rt: &R,
    alloc: Global,
    workload: &Workload,
    clock: &C,
    spawner: &mut P,
    gate: &G,
) -> Result<Outcome, RunFault>
    requires plain { has_variables workload.now ≡ false }
    ensures explained { IfOk result (λ outcome. (r : Record) × Explains workload.now outcome r × InOneOrder r) }
    ensures refused { result ≡ Err faults.StartRefused → Rose (P.faults spawner.old) (P.faults spawner.new) }
    ensures stays { ¬ (result ≡ Err faults.StartRefused) → P.faults spawner.new ≡ P.faults spawner.old }
    ensures faults { P.faults spawner.old ≤ P.faults spawner.new }
    ensures ran { IfOk result (λ outcome. RoseBy workload.now.workers (P.ran spawner.old) (P.ran spawner.new)) }
    ensures rounds { P.rounds spawner.new ≤ P.rounds spawner.old + 1 }
    ensures unstarted { IfErr result (λ fault. (P.ran spawner.new ≡ P.ran spawner.old) × (P.rounds spawner.new ≡ P.rounds spawner.old)) }
{
    threaded_on::<Trie, C, P, G, R>(rt, alloc, workload, clock, spawner, gate)
}
