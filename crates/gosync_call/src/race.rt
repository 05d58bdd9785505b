//! The run of a workload by its schedule whose races are told.
ghost use Rattle.std.specs.Prelude.{◌≡◌, ◌≤◌, true, Err, IfErr, IfOk, MatchResult};
ghost use Rattle.sync_outside.specs.Faults.{Rose};
ghost use Rattle.script_calls.specs.Outcome.{shows_to};
ghost use Rattle.workload.specs.declared.limits.TheConstants.{MAX_KEYS};
ghost use Rattle.step_runner.specs.Computed.{variables_left};
ghost use Rattle.race_clocks.specs.Variables.{with_variables};
ghost use Rattle.gosync_call.specs.Races.{ending_with, EndsWithRaces, FailsWithRaces, HasRaces};
ghost use Rattle.gosync_call.specs.declared.status.Fault.TheVariants as faults;

use crate::read::is_in_range;
use crate::status::{Ending, Fault};
use race_clocks::report::report::report_with_races;
use race_clocks::report::variables::with_variables;
use race_clocks::{Race, races};
use script_calls::Outcome;
use std::alloc::{AllocError, Global};
use step_runner::laws::each_run_has_one_outcome;
use step_runner::{TracedRun, traced};
use sync_outside::Sink;
use workload::Workload;
use workload_text::LINE_ROOM;

/// How a run ended that came to this and had these races.
fn ending_with(outcome: &Outcome, races: &[Race]) -> Ending
    ensures { result ≡ ending_with outcome.now races.now }
{
    match outcome {
        Outcome::Done(_) if races.is_empty() => Ending::Done,
        Outcome::Done(_) => Ending::Raced,
        Outcome::Misused(_, misuse) => Ending::Misused(*misuse),
        Outcome::Deadlocked(_) => Ending::Deadlocked,
    }
}

/// What a workload comes to by its schedule, with the variables in its ends, and the races of that run.
fn raced(alloc: Global, workload: &Workload) -> Result<(Outcome, Vec<Race>), AllocError>
    ensures raced { IfOk result (λ ran. (outcome : Outcome) × HasRaces workload.now outcome ran.1.items × (ran.0 ≡ with_variables (variables_left workload.now) outcome)) }
    ensures pairs { IfOk result (λ ran. shows_to MAX_KEYS ran.0 ≡ true) }
{
    each_run_has_one_outcome();
    is_in_range(workload);
    let TracedRun {
        outcome,
        trace,
        variables,
    } = traced(alloc, workload)?;
    let races = races(alloc, workload, &trace)?;
    let outcome = with_variables(outcome, variables.as_slice())?;
    Ok((outcome, races))
}

/// Runs a workload by its schedule, and writes the report with the races of the run. All memory is taken before the first write.
pub fn run_with_races<O: Sink>(
    alloc: Global,
    workload: &Workload,
    out: &mut O,
) -> Result<Ending, Fault>
    ensures ran { MatchResult result (EndsWithRaces workload.now (O.contents out.old) (O.contents out.new)) (FailsWithRaces workload.now (O.contents out.old) (O.contents out.new)) }
    ensures started { result ≡ Err faults.CannotStart → ⊥ }
    ensures cannot_write { IfErr result (λ fault. fault ≡ faults.CannotWrite → Rose (O.faults out.old) (O.faults out.new)) }
    ensures out_faults { O.faults out.old ≤ O.faults out.new }
{
    let Ok(mut line) = Vec::with_capacity(alloc, LINE_ROOM) else {
        return Err(Fault::Memory);
    };
    let Ok((outcome, races)) = raced(alloc, workload) else {
        return Err(Fault::Memory);
    };
    match report_with_races(workload, &outcome, &races, &mut line, out) {
        Ok(()) => Ok(ending_with(&outcome, &races)),
        Err(_) => Err(Fault::CannotWrite),
    }
}
