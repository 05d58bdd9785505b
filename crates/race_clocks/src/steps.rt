//! The steps of a trace, with numbers for channels.
ghost use Rattle.std.specs.Prelude.{◌≡◌, ◌<◌, ◌≤◌, ◌^◌, ℕ, All, Some, IfOk};
ghost use Rattle.script_calls.specs.declared.call.Call.{Call};
ghost use Rattle.step_runner.specs.Traces.{trace_of};
ghost use Rattle.vector_clocks.specs.Fits.{StepFits};
ghost use Rattle.race_clocks.specs.Agreement.{Agree};
ghost use Rattle.race_clocks.specs.Handing.{AreOf};
ghost use Rattle.race_clocks.specs.Numbering.{IsNumbered};
ghost use Rattle.race_clocks.specs.Stepping.{IsStepOf};

use crate::laws::turns_are_of_workers;
use crate::numbers::Numbers;
use crate::seen::Seen;
use crate::telling::{access, turns_call_objects_at_small_places};
use std::alloc::{AllocError, Global};
use step_runner::{Trace, TraceItem};
use vector_clocks::Step;
use workload::Workload;

/// Goes on by a turn, and gives its step. It takes in first, by the numbers that channels have before the turn.
fn step_of(
    alloc: Global,
    workload: &Workload,
    turn: &TraceItem,
    seen: &mut Seen,
    numbers: &mut Numbers,
) -> Result<Step, AllocError>
    requires are { AreOf workload.now.workers seen.old.conds }
    requires numbered { IsNumbered numbers.old }
    requires small { (call : Call) → turn.now.call ≡ Some call → call.object < 2 ^ 32 }
    ensures { IfOk result (λ step. IsStepOf workload.now turn.now seen.old numbers.old seen.new numbers.new step) }
{
    let passing = seen.pass_all(alloc, workload, turn.made.as_slice(), &turn.call)?;
    let takes = numbers.take(alloc, passing.takes.as_slice())?;
    let gives = numbers.give_all(alloc, passing.gives.as_slice())?;
    Ok(Step {
        worker: turn.worker,
        takes,
        gives,
        sets: Vec::new(alloc),
        access: access(turn),
    })
}

/// The steps of a trace, and how many channels they have.
pub(crate) fn steps_of(
    alloc: Global,
    workload: &Workload,
    trace: &Trace,
) -> Result<(Vec<Step>, usize), AllocError>
    requires { trace.now ≡ trace_of workload.now }
    ensures agree { IfOk result (λ made. Agree workload.now trace.now made.0.items) }
    ensures fit { IfOk result (λ made. All (StepFits workload.now.workers made.1) made.0.items) }
{
    turns_call_objects_at_small_places();
    turns_are_of_workers();
    let _workers = workload.workers();
    let mut seen = Seen::new(alloc);
    let mut numbers = Numbers::new(alloc);
    let mut steps = Vec::new(alloc);
    for turn in trace.as_slice() {
        steps.push(step_of(alloc, workload, turn, &mut seen, &mut numbers)?)?;
    }
    Ok((steps, numbers.count()))
}
