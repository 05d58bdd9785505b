//! The run of a made workload with a thread for each worker.
ghost use Rattle.std.specs.Prelude.{◌≡◌, ◌≤◌, ◌+◌, [], IfErr, MatchResult, OnErr, Err, vec_capacity};
ghost use Rattle.sync_outside.specs.Bytes.{Appends, AppendsFront};
ghost use Rattle.sync_outside.specs.Faults.{Rose};
ghost use Rattle.gosync_call.specs.Front.{IsUnstarted};
ghost use Rattle.script_calls.specs.declared.outcome.Outcome.TheVariants as outcomes;
ghost use Rattle.script_calls.specs.declared.outcome.Report.{Report};
ghost use Rattle.made_workload.specs.TotalsOf.{totals_of};
ghost use Rattle.gosync_call.specs.Made.{IsMade, IsUnmade, MakesTo};
ghost use Rattle.gosync_call.specs.MadeText.{totals_text};
ghost use Rattle.gosync_call.specs.Messages.{message_of, WritesOut};
ghost use Rattle.gosync_call.specs.declared.status.Fault.TheVariants as faults;
ghost use Rattle.gosync_call.specs.declared.status.Status.TheVariants as statuses;

use crate::made::write_totals;
use crate::message::say_run;
use crate::status::{Ending, Fault, Status};
use made_workload::laws::runs::a_run_of_a_seed_tells_its_summary;
use made_workload::laws::workload_of_a_seed;
use made_workload::{made_workload, totals_of};
use run_report::numbers::NUMBER_ROOM;
use script_calls::{Outcome, Report};
use std::alloc::Global;
use std::sync::Wait;
use std::thread::Threads;
use sync_outside::{Clock, Gate, Sink, Spawner};
use thread_runner::{RunFault, threaded};

/// Writes the five lines of what the run of a made workload left behind.
fn report_made<O: Sink>(left: &Report, line: &mut Vec<u8>, out: &mut O) -> Result<(), Fault>
    requires room { NUMBER_ROOM ≤ vec_capacity line.old }
    ensures written { MatchResult result
        (λ _. Appends (O.contents out.old) (O.contents out.new) (totals_text (totals_of left.now)))
        (λ fault. (fault ≡ faults.CannotWrite) × AppendsFront (O.contents out.old) (O.contents out.new) (totals_text (totals_of left.now))) }
    ensures cannot_write { OnErr result (Rose (O.faults out.old) (O.faults out.new)) }
    ensures out_faults { O.faults out.old ≤ O.faults out.new }
{
    match write_totals(&totals_of(left), line, out) {
        Ok(()) => Ok(()),
        Err(_) => Err(Fault::CannotWrite),
    }
}

/// What a run left behind that is done.
fn left_in(outcome: &Outcome) -> &Report
    requires { (left : Report) × (outcome.now ≡ outcomes.Done left) }
    ensures { outcome.now ≡ outcomes.Done result.now }
{
    match outcome {
        Outcome::Done(left) => left,
        Outcome::Misused(..) => unreachable!(),
        Outcome::Deadlocked(_) => unreachable!(),
    }
}

/// Makes the workload of a seed, makes its calls with a thread for each worker, and writes the five lines. All memory is taken
/// before the first start, but what a start takes itself. No run of such a workload is misused, so each ends done.
fn run_made<O: Sink, C: Clock + Sync, P: Spawner, G: Gate + Sync, R: Threads + Wait + Sync>(
    rt: &R,
    alloc: Global,
    seed: u64,
    out: &mut O,
    clock: &C,
    spawner: &mut P,
    gate: &G,
) -> Result<(), Fault>
    ensures made { MatchResult result
        (λ _. IsMade seed (P.ran spawner.old) (P.ran spawner.new) (O.contents out.old) (O.contents out.new))
        (IsUnmade seed (P.ran spawner.old) (P.ran spawner.new) (O.contents out.old) (O.contents out.new)) }
    ensures cannot_write { result ≡ Err faults.CannotWrite → Rose (O.faults out.old) (O.faults out.new) }
    ensures cannot_start { result ≡ Err faults.CannotStart → Rose (P.faults spawner.old) (P.faults spawner.new) }
    ensures unstarted { IfErr result (λ fault. ¬ (fault ≡ faults.CannotWrite) → (P.ran spawner.new ≡ P.ran spawner.old) × (P.rounds spawner.new ≡ P.rounds spawner.old)) }
    ensures rounds { P.rounds spawner.new ≤ P.rounds spawner.old + 1 }
    ensures out_faults { O.faults out.old ≤ O.faults out.new }
    ensures start_faults { P.faults spawner.old ≤ P.faults spawner.new }
{
    a_run_of_a_seed_tells_its_summary();
    workload_of_a_seed();
    let Ok(workload) = made_workload(alloc, seed) else {
        return Err(Fault::Memory);
    };
    let Ok(mut line) = Vec::with_capacity(alloc, NUMBER_ROOM) else {
        return Err(Fault::Memory);
    };
    match threaded(rt, alloc, &workload, clock, spawner, gate) {
        Ok(outcome) => report_made(left_in(&outcome), &mut line, out),
        Err(RunFault::StartRefused) => Err(Fault::CannotStart),
        Err(RunFault::Memory) => Err(Fault::Memory),
    }
}

/// Makes the workload of a seed, runs it, writes the five lines, and says how the program ends.
pub fn make<
    O: Sink,
    E: Sink,
    C: Clock + Sync,
    P: Spawner,
    G: Gate + Sync,
    R: Threads + Wait + Sync,
>(
    rt: &R,
    alloc: Global,
    seed: u64,
    out: &mut O,
    err: &mut E,
    clock: &C,
    spawner: &mut P,
    gate: &G,
) -> Status
    ensures makes { MakesTo seed (P.ran spawner.old) (P.ran spawner.new) (O.contents out.old) (O.contents out.new) result }
    ensures cannot_write { result ≡ statuses.Failed faults.CannotWrite → Rose (O.faults out.old) (O.faults out.new) }
    ensures cannot_start { result ≡ statuses.Failed faults.CannotStart → Rose (P.faults spawner.old) (P.faults spawner.new) }
    ensures unstarted { IsUnstarted result → (P.ran spawner.new ≡ P.ran spawner.old) × (P.rounds spawner.new ≡ P.rounds spawner.old) }
    ensures says { WritesOut (E.contents err.old) (E.contents err.new) (E.faults err.old) (E.faults err.new) (message_of [] result) }
    ensures rounds { P.rounds spawner.new ≤ P.rounds spawner.old + 1 }
    ensures out_faults { O.faults out.old ≤ O.faults out.new }
    ensures err_faults { E.faults err.old ≤ E.faults err.new }
    ensures start_faults { P.faults spawner.old ≤ P.faults spawner.new }
{
    match run_made(rt, alloc, seed, out, clock, spawner, gate) {
        Ok(()) => say_run(err, Status::Ended(Ending::Done)),
        Err(fault) => say_run(err, Status::Failed(fault)),
    }
}
