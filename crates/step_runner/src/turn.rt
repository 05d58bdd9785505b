//! One turn of a worker.
ghost use Rattle.std.specs.Prelude.{◌≡◌, ◌<◌, [], Some, IfOk, is_some, slice_get, OnOk};
ghost use Rattle.std.specs.Option.{option_copied};
ghost use Rattle.step_runner.specs.Places.{IsKeptFor};
ghost use Rattle.step_runner.specs.State.{stand_of};
ghost use Rattle.step_runner.specs.Noted.{noted};
ghost use Rattle.step_runner.specs.Traces.{traced_by};
ghost use Rattle.step_runner.specs.Turns.{script_left, next_call, turn_of};
ghost use Rattle.step_runner.specs.declared.state.Stand.TheVariants.{Live};

use crate::laws;
use crate::notes::Notes;
use crate::state::{Stand, State};
use crate::step::Step;
use crate::trace::{TraceItem, note_closing_turn, note_script_turn};
use crate::turns::{Taker, take_done_turn, take_turn_within};
use script_calls::Call;
use script_calls::laws::runs_go_on;
use std::alloc::{AllocError, Global};
use sync_types::Name;
use workload::Workload;

/// The next call of a worker's script, unless that is at its end.
fn script_call<'a>(workload: &'a Workload, worker: u32, state: &State) -> Option<&'a Call>
    requires of { IsKeptFor workload.now state.now }
    requires worker { worker < workload.now.workers }
    ensures { option_copied result ≡ slice_get (script_left workload.now worker state.now.state) 0 }
{
    workload.script(worker).get(state.place(worker))
}

/// Whether a worker stands before a call, of its script or behind it.
pub fn has_next(workload: &Workload, worker: u32, state: &State) -> bool
    requires of { IsKeptFor workload.now state.now }
    requires worker { worker < workload.now.workers }
    ensures { result ≡ is_some (next_call workload.now worker state.now.state) }
{
    match state.stand(worker) {
        Stand::Live => {
            script_call(workload, worker, state).is_some() || state.group(worker).is_some()
        }
        Stand::Waits | Stand::Gone => false,
    }
}

/// Gives a worker a turn of a call of its script.
fn take_script_turn(
    alloc: Global,
    workload: &Workload,
    worker: u32,
    call: &Call,
    state: &mut State,
    trace: &mut Notes<TraceItem>,
) -> Result<Step, AllocError>
    requires of { IsKeptFor workload.now state.old }
    requires worker { worker < workload.now.workers }
    requires live { stand_of worker state.old.state ≡ Live }
    requires next { slice_get (script_left workload.now worker state.old.state) 0 ≡ Some call.now }
    ensures turn { IfOk result (λ step. turn_of workload.now worker state.old.state ≡ (state.new.state, step)) }
    ensures of { IfOk result (λ _. IsKeptFor workload.now state.new) }
    ensures noted { OnOk result (trace.new ≡ noted (traced_by workload.now worker state.old.state) trace.old) }
{
    laws::validity();
    runs_go_on::<Name>();
    let taker = Taker {
        worker,
        workers: workload.workers(),
        moment: state.moment,
    };
    let place = state.place(worker);
    let begun = state.begun[worker as usize];
    let mut made = trace.apart(alloc);
    let (begun, answer) = take_turn_within(
        alloc,
        &mut state.objects,
        call,
        begun,
        taker,
        &mut made,
    )?;
    note_script_turn(alloc, trace, worker, call, place, made, &answer)?;
    state.settle(worker, call, begun, answer)
}

/// Gives a worker whose script is at its end a turn: that of the `done` on its group, if it was started.
fn take_closing_turn(
    alloc: Global,
    workload: &Workload,
    worker: u32,
    state: &mut State,
    trace: &mut Notes<TraceItem>,
) -> Result<Step, AllocError>
    requires of { IsKeptFor workload.now state.old }
    requires worker { worker < workload.now.workers }
    requires live { stand_of worker state.old.state ≡ Live }
    requires behind { script_left workload.now worker state.old.state ≡ [] }
    ensures turn { IfOk result (λ step. turn_of workload.now worker state.old.state ≡ (state.new.state, step)) }
    ensures of { IfOk result (λ _. IsKeptFor workload.now state.new) }
    ensures noted { OnOk result (trace.new ≡ noted (traced_by workload.now worker state.old.state) trace.old) }
{
    laws::validity();
    match state.group(worker) {
        None => Ok(Step::Still),
        Some(group) => {
            let taker = Taker {
                worker,
                workers: workload.workers(),
                moment: state.moment,
            };
            let mut made = trace.apart(alloc);
            let answer = take_done_turn(&mut state.objects, group, taker, &mut made)?;
            note_closing_turn(trace, worker, made, &answer)?;
            Ok(state.close(worker, answer))
        }
    }
}

/// Gives a worker one turn. Where nothing is left for it, or it waits to be started, it makes no event.
pub fn take_turn(
    alloc: Global,
    workload: &Workload,
    worker: u32,
    state: &mut State,
    trace: &mut Notes<TraceItem>,
) -> Result<Step, AllocError>
    requires of { IsKeptFor workload.now state.old }
    requires worker { worker < workload.now.workers }
    ensures turn { IfOk result (λ step. turn_of workload.now worker state.old.state ≡ (state.new.state, step)) }
    ensures of { IfOk result (λ _. IsKeptFor workload.now state.new) }
    ensures noted { OnOk result (trace.new ≡ noted (traced_by workload.now worker state.old.state) trace.old) }
{
    match state.stand(worker) {
        Stand::Live => match script_call(workload, worker, state) {
            None => take_closing_turn(alloc, workload, worker, state, trace),
            Some(call) => take_script_turn(alloc, workload, worker, call, state, trace),
        },
        Stand::Waits | Stand::Gone => Ok(Step::Still),
    }
}
