//! The run of a workload by its schedule.
ghost use Rattle.std.specs.Prelude.{◌≡◌, ◌++◌, true, IfOk, OnOk};
ghost use Rattle.script_calls.specs.Outcome.{shows_to};
ghost use Rattle.workload.specs.declared.limits.TheConstants.{MAX_KEYS};
ghost use Rattle.workload.specs.Plan.{is_turn};
ghost use Rattle.workload.specs.Forms.{has_forms};
ghost use Rattle.step_runner.specs.Outcomes.{StepsTo};
ghost use Rattle.step_runner.specs.Places.{IsKeptFor};
ghost use Rattle.step_runner.specs.Noted.{noted};
ghost use Rattle.step_runner.specs.Traces.{unless_over, traced_turn, traced_from, all_rounds_traced, trace_of};
ghost use Rattle.step_runner.specs.Turns.{item_of, items_of, round, has_ended};
ghost use Rattle.step_runner.specs.Computed.{all_rounds, behind_schedule, outcome_of, turns, variables_left};

use crate::ends::{VariableEnd, ends, variables_behind};
use crate::laws;
use crate::notes::Notes;
use crate::numbering::number_all;
use crate::state::State;
use crate::step::Step;
use crate::trace::{Trace, TraceItem};
use crate::turn::{has_next, take_turn};
use crate::turns::laws::maps_keep_to_the_keys_of_calls;
use crate::turns::laws::within::keys_are_kept;
use script_calls::{Ending, Outcome, Report};
use std::alloc::{AllocError, Global};
use sync_types::Seq;
use workload::{Turn, Workload};

/// Takes an item of the schedule. A moment sets the clock, which is no event.
fn take_item(
    alloc: Global,
    workload: &Workload,
    item: Turn,
    state: &mut State,
    trace: &mut Notes<TraceItem>,
) -> Result<Step, AllocError>
    requires of { IsKeptFor workload.now state.old }
    requires item { is_turn workload.now.workers item ≡ true }
    ensures item { IfOk result (λ step. item_of workload.now item state.old.state ≡ (state.new.state, step)) }
    ensures of { IfOk result (λ _. IsKeptFor workload.now state.new) }
    ensures noted { OnOk result (trace.new ≡ noted (traced_turn workload.now item state.old.state) trace.old) }
{
    match item {
        Turn::Worker(worker) => take_turn(alloc, workload, worker, state, trace),
        Turn::Moment(moment) => {
            state.moment = moment;
            Ok(Step::Still)
        }
    }
}

/// Takes the items of the schedule in order, to the first misuse.
fn take_schedule(
    alloc: Global,
    workload: &Workload,
    state: &mut State,
    trace: &mut Notes<TraceItem>,
) -> Result<Step, AllocError>
    requires { IsKeptFor workload.now state.old }
    ensures items { IfOk result (λ step. items_of workload.now workload.now.schedule state.old.state ≡ (state.new.state, step)) }
    ensures of { IfOk result (λ _. IsKeptFor workload.now state.new) }
    ensures noted { OnOk result (trace.new ≡ noted (traced_from workload.now workload.now.schedule state.old.state) trace.old) }
{
    let mut so_far = Step::Still;
    for item in workload.schedule() {
        match take_item(alloc, workload, *item, state, trace)? {
            Step::Still => {}
            Step::Made => so_far = Step::Made,
            Step::Misused(misuse) => return Ok(Step::Misused(misuse)),
        }
    }
    Ok(so_far)
}

/// Takes a round, to the first misuse: each worker from 0 up takes one turn.
fn take_round(
    alloc: Global,
    workload: &Workload,
    state: &mut State,
    trace: &mut Notes<TraceItem>,
) -> Result<Step, AllocError>
    requires { IsKeptFor workload.now state.old }
    ensures items { IfOk result (λ step. items_of workload.now (round workload.now.workers) state.old.state ≡ (state.new.state, step)) }
    ensures of { IfOk result (λ _. IsKeptFor workload.now state.new) }
    ensures noted { OnOk result (trace.new ≡ noted (traced_from workload.now (round workload.now.workers) state.old.state) trace.old) }
{
    let mut so_far = Step::Still;
    for worker in 0..workload.workers() {
        match take_turn(alloc, workload, worker, state, trace)? {
            Step::Still => {}
            Step::Made => so_far = Step::Made,
            Step::Misused(misuse) => return Ok(Step::Misused(misuse)),
        }
    }
    Ok(so_far)
}

/// Whether every worker has ended that was live: none stands before a call.
fn has_ended(workload: &Workload, state: &State) -> bool
    requires { IsKeptFor workload.now state.now }
    ensures { result ≡ has_ended workload.now state.now.state }
{
    for worker in 0..workload.workers() {
        if has_next(workload, worker, state) {
            return false;
        }
    }
    true
}

/// Takes rounds until every worker has ended that was live, a turn is a misuse, or a whole round makes no event.
fn take_rounds(
    alloc: Global,
    workload: &Workload,
    state: &mut State,
    trace: &mut Notes<TraceItem>,
) -> Result<Ending, AllocError>
    requires { IsKeptFor workload.now state.old }
    ensures ending { IfOk result (λ ending. all_rounds workload.now state.old.state ≡ (state.new.state, ending)) }
    ensures noted { OnOk result (trace.new ≡ noted (all_rounds_traced workload.now state.old.state) trace.old) }
{
    laws::events_use_something_up();
    laws::validity();
    while !has_ended(workload, state) {
        match take_round(alloc, workload, state, trace)? {
            Step::Still => return Ok(Ending::Deadlocked),
            Step::Made => {}
            Step::Misused(misuse) => return Ok(Ending::Misused(misuse)),
        }
    }
    Ok(Ending::Done)
}

/// Takes the schedule, and behind it rounds unless a turn of the schedule was a misuse.
fn take_all(
    alloc: Global,
    workload: &Workload,
    state: &mut State,
    trace: &mut Notes<TraceItem>,
) -> Result<Ending, AllocError>
    requires { IsKeptFor workload.now state.old }
    ensures ending { IfOk result (λ ending. behind_schedule workload.now (items_of workload.now workload.now.schedule state.old.state) ≡ (state.new.state, ending)) }
    ensures noted { OnOk result (trace.new ≡ noted (traced_from workload.now workload.now.schedule state.old.state ++ unless_over (items_of workload.now workload.now.schedule state.old.state) (all_rounds_traced workload.now)) trace.old) }
{
    match take_schedule(alloc, workload, state, trace)? {
        Step::Still | Step::Made => take_rounds(alloc, workload, state, trace),
        Step::Misused(misuse) => Ok(Ending::Misused(misuse)),
    }
}

/// What a run that ends in this state leaves behind.
fn outcome(
    alloc: Global,
    workload: &Workload,
    state: State,
    ending: Ending,
) -> Result<Outcome, AllocError>
    ensures { IfOk result (λ outcome. outcome ≡ outcome_of workload.now (state.state, ending)) }
{
    let State {
        objects,
        replies,
        ..
    } = state;
    let replies = number_all(alloc, workload, replies)?;
    match ending {
        Ending::Done => {
            let ends = ends(alloc, workload, &objects)?;
            Ok(Outcome::Done(Report { replies, ends }))
        }
        Ending::Misused(misuse) => {
            let ends = Seq::new(alloc);
            Ok(Outcome::Misused(Report { replies, ends }, misuse))
        }
        Ending::Deadlocked => {
            let ends = Seq::new(alloc);
            Ok(Outcome::Deadlocked(Report { replies, ends }))
        }
    }
}

/// Runs a workload by its schedule, and notes what each turn made where all is noted. Beside the outcome it gives what the plain variables
/// hold at the end.
fn run(
    alloc: Global,
    workload: &Workload,
    trace: &mut Notes<TraceItem>,
) -> Result<(Outcome, Seq<VariableEnd>), AllocError>
    ensures outcome { IfOk result (λ ran. StepsTo workload.now ran.0) }
    ensures computed { IfOk result (λ ran. ran.0 ≡ turns workload.now) }
    ensures pairs { IfOk result (λ ran. shows_to MAX_KEYS ran.0 ≡ true) }
    ensures forms { IfOk result (λ ran. has_forms workload.now ran.0 ≡ true) }
    ensures variables { IfOk result (λ ran. ran.1 ≡ variables_left workload.now) }
    ensures noted { OnOk result (trace.new ≡ noted (trace_of workload.now) trace.old) }
{
    maps_keep_to_the_keys_of_calls();
    keys_are_kept();
    laws::replies_have_their_form();
    laws::each_run_has_one_outcome();
    let mut state = State::start(alloc, workload)?;
    let ending = take_all(alloc, workload, &mut state, trace)?;
    let variables = variables_behind(alloc, &state.objects, ending)?;
    let outcome = outcome(alloc, workload, state, ending)?;
    Ok((outcome, variables))
}

/// Runs a workload by its schedule, on one thread.
///
/// The schedule's items are taken in order: a worker's number gives that worker one turn, and a moment
/// sets the clock, which stands at 0 before. After the schedule come rounds, in which each worker from 0
/// up takes one turn. The run ends once every worker has ended that was live, at the first turn that is a misuse, or
/// behind a round in which nobody made an event. Only want of memory is an `Err`. No reply shows more
/// pairs than a workload may have keys, and each has the form of its call's replies.
pub fn stepped(alloc: Global, workload: &Workload) -> Result<Outcome, AllocError>
    ensures outcome { IfOk result (StepsTo workload.now) }
    ensures computed { IfOk result (λ outcome. outcome ≡ turns workload.now) }
    ensures pairs { IfOk result (λ outcome. shows_to MAX_KEYS outcome ≡ true) }
    ensures forms { IfOk result (λ outcome. has_forms workload.now outcome ≡ true) }
{
    let mut trace = Notes::Nothing;
    let (outcome, _) = run(alloc, workload, &mut trace)?;
    Ok(outcome)
}

/// A run by schedule that is traced.
#[derive(Drop)]
pub struct TracedRun {
    /// What it comes to.
    pub outcome: Outcome,
    /// What each turn made.
    pub trace: Trace,
    /// What the plain variables hold at the end, in order of declaration: none unless every script has ended.
    pub variables: Seq<VariableEnd>,
}

/// Runs a workload by its schedule, as `stepped` does, and gives beside the outcome what each turn made, and what the plain variables hold
/// at the end. Only want of memory is an `Err`.
pub fn traced(alloc: Global, workload: &Workload) -> Result<TracedRun, AllocError>
    ensures outcome { IfOk result (λ ran. ran.outcome ≡ turns workload.now) }
    ensures trace { IfOk result (λ ran. ran.trace ≡ trace_of workload.now) }
    ensures variables { IfOk result (λ ran. ran.variables ≡ variables_left workload.now) }
    ensures pairs { IfOk result (λ ran. shows_to MAX_KEYS ran.outcome ≡ true) }
    ensures forms { IfOk result (λ ran. has_forms workload.now ran.outcome ≡ true) }
{
    let mut trace = Notes::All(Seq::new(alloc));
    let (outcome, variables) = run(alloc, workload, &mut trace)?;
    let trace = Trace::from_items(trace.into_items(alloc));
    Ok(TracedRun {
        outcome,
        trace,
        variables,
    })
}
