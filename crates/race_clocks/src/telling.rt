//! The accesses of turns, and their races as they are told.
ghost use Rattle.std.specs.Prelude.{◌≡◌, ℕ, ◌^◌, ◌<◌, All, List, Some, slice_get, length, map, option_map, IfOk};
ghost use Rattle.std.specs.Option.{option_map_or};
ghost use Rattle.script_calls.specs.declared.call.Call.{Call};
ghost use Rattle.step_runner.specs.Traces.{trace_of};
ghost use Rattle.step_runner.specs.declared.trace.TraceItem.{TraceItem};
ghost use Rattle.vector_clocks.specs.Fits.{StepFits};
ghost use Rattle.workload.specs.Plan.{Plan};
ghost use Rattle.workload.specs.Readable.{IsReadable};
ghost use Rattle.race_clocks.specs.Agreement.{step_access, pair_of, Agree};
ghost use Rattle.race_clocks.specs.Races.{Access as TurnAccess, access_of, access_by, is_write, call_place, race_told, race_of, AreRaces};

use crate::race::{CallPlace, Race};
use script_calls::{Call, Operation, VarCall};
use std::alloc::{AllocError, Global};
use step_runner::laws::a_trace_tells_what_turns_made;
use step_runner::{Trace, TraceItem};
use vector_clocks::limits::STEPS;
use vector_clocks::{Access, Race as StepRace, Step};
use workload::Workload;
use workload::laws::a_workload_has_few_objects;

/// The objects that the turns of a run call have small places, since a workload has few.
pub(crate) fn turns_call_objects_at_small_places()
    ensures { (plan : Plan) (n : ℕ) (turn : TraceItem) (call : Call) → IsReadable plan → slice_get (trace_of plan) n ≡ Some turn → turn.call ≡ Some call → call.object < 2 ^ 32 }
{
    a_trace_tells_what_turns_made();
    a_workload_has_few_objects();
}

/// Whether a call on a variable writes it.
fn is_write(call: &VarCall) -> bool
    ensures { result ≡ is_write call.now }
{
    match call {
        VarCall::Read => false,
        VarCall::Write(_) => true,
    }
}

/// The access that a call makes.
fn access_of_call(call: &Call) -> Option<Access>
    requires { call.now.object < 2 ^ 32 }
    ensures { result ≡ option_map step_access (access_by call.now.object call.now.operation) }
{
    match &call.operation {
        Operation::Var(made) => Some(Access {
            variable: call.object as u32,
            writes: is_write(made),
        }),
        _ => None,
    }
}

/// The access of a turn, in the words of a step. Its variable is numbered by its place among the workload's objects.
pub(crate) fn access(turn: &TraceItem) -> Option<Access>
    requires { (call : Call) → turn.now.call ≡ Some call → call.object < 2 ^ 32 }
    ensures { result ≡ option_map step_access (access_of turn.now) }
{
    match &turn.call {
        Some(call) => access_of_call(call),
        None => None,
    }
}

/// The place of the variable that a turn accesses. Of a turn without an access it is 0.
fn variable(turn: &TraceItem) -> usize
    ensures { result ≡ option_map_or (λ (access : TurnAccess). access.variable) (access_of turn.now) 0 }
{
    match &turn.call {
        Some(call) => match call.operation {
            Operation::Var(_) => call.object,
            _ => 0,
        },
        None => 0,
    }
}

/// The call of a turn.
fn call_place(turn: &TraceItem) -> CallPlace
    ensures { result ≡ call_place turn.now }
{
    CallPlace {
        worker: turn.worker,
        index: turn.index.unwrap_or(0),
    }
}

/// The race of two turns.
fn race_of_turns(first: &TraceItem, second: &TraceItem) -> Race
    ensures { result ≡ race_told first.now second.now }
{
    Race {
        variable: variable(second),
        first: call_place(first),
        second: call_place(second),
    }
}

/// The races of a trace, told by the places of their turns.
pub(crate) fn tell(
    alloc: Global,
    trace: &Trace,
    found: &[StepRace],
) -> Result<Vec<Race>, AllocError>
    requires { All (λ r. (r.earlier < length trace.now) × (r.later < length trace.now)) found.now }
    ensures { IfOk result (λ races. map (race_of trace.now) (map pair_of found.now) ≡ map Some races.items) }
{
    let turns = trace.as_slice();
    let mut races = Vec::with_capacity(alloc, found.len())?;
    for race in found {
        races.push(race_of_turns(&turns[race.earlier], &turns[race.later]))?;
    }
    Ok(races)
}

/// The races of a trace, by steps that tell the same as its turns. More than 2^32 of them are taken for want of memory.
pub(crate) fn races_by_steps(
    alloc: Global,
    workload: &Workload,
    trace: &Trace,
    steps: &[Step],
    channels: usize,
) -> Result<Vec<Race>, AllocError>
    requires fit { All (StepFits workload.now.workers channels) steps.now }
    requires agree { Agree workload.now trace.now steps.now }
    ensures { IfOk result (λ races. AreRaces workload.now trace.now races.items) }
{
    if steps.len() >= STEPS {
        return Err(AllocError);
    }
    let found = vector_clocks::races(alloc, steps, workload.workers() as usize, channels)?;
    tell(alloc, trace, &found)
}
