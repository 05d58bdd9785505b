//! The run of a workload with a thread for each worker.
ghost use Rattle.std.specs.Prelude.{◌≡◌, ◌≤◌, ◌+◌, false, Err, IfErr, MatchResult};
ghost use Rattle.sync_outside.specs.Faults.{Rose};
ghost use Rattle.workload.specs.Dialect.{has_variables};
ghost use Rattle.gosync_call.specs.ComesTo.{EndsWithReport, Fails};
ghost use Rattle.gosync_call.specs.Headline.{RunsInJobs};
ghost use Rattle.gosync_call.specs.declared.status.Fault.TheVariants as faults;

use crate::report::report_run;
use crate::status::{Ending, Fault};
use run_record::laws::limits::a_range_shows_no_key_twice;
use std::alloc::Global;
use std::sync::Wait;
use std::thread::Threads;
use sync_outside::{Clock, Gate, Sink, Spawner};
use thread_runner::{RunFault, threaded};
use workload::Workload;
use workload::laws::keys_are_numbered_by_first_appearance;
use workload_text::LINE_ROOM;

/// Makes the calls of a workload with a thread for each worker, and writes the report. All memory is taken before the first
/// start, but what a start takes itself.
pub fn run_by_threads<
    O: Sink,
    C: Clock + Sync,
    P: Spawner,
    G: Gate + Sync,
    R: Threads + Wait + Sync,
>(
    rt: &R,
    alloc: Global,
    workload: &Workload,
    out: &mut O,
    clock: &C,
    spawner: &mut P,
    gate: &G,
) -> Result<Ending, Fault>
    requires plain { has_variables workload.now ≡ false }
    ensures ran { MatchResult result
        (EndsWithReport (RunsInJobs (P.ran spawner.old) (P.ran spawner.new)) workload.now (O.contents out.old) (O.contents out.new))
        (Fails (RunsInJobs (P.ran spawner.old) (P.ran spawner.new)) workload.now (O.contents out.old) (O.contents out.new)) }
    ensures cannot_write { result ≡ Err faults.CannotWrite → Rose (O.faults out.old) (O.faults out.new) }
    ensures cannot_start { result ≡ Err faults.CannotStart → Rose (P.faults spawner.old) (P.faults spawner.new) }
    ensures unstarted { IfErr result (λ fault. ¬ (fault ≡ faults.CannotWrite) → (P.ran spawner.new ≡ P.ran spawner.old) × (P.rounds spawner.new ≡ P.rounds spawner.old)) }
    ensures rounds { P.rounds spawner.new ≤ P.rounds spawner.old + 1 }
    ensures out_faults { O.faults out.old ≤ O.faults out.new }
    ensures start_faults { P.faults spawner.old ≤ P.faults spawner.new }
{
    a_range_shows_no_key_twice();
    keys_are_numbered_by_first_appearance();
    let _workers = workload.workers();
    let Ok(mut line) = Vec::with_capacity(alloc, LINE_ROOM) else {
        return Err(Fault::Memory);
    };
    match threaded(rt, alloc, workload, clock, spawner, gate) {
        Ok(outcome) => report_run(workload, &outcome, &mut line, out),
        Err(RunFault::StartRefused) => Err(Fault::CannotStart),
        Err(RunFault::Memory) => Err(Fault::Memory),
    }
}
