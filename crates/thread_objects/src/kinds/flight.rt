//! A group of flights: how it begins, and `fly`, whose function adds to an int64.
ghost use Rattle.std.specs.Prelude.{◌≡◌, ℕ, IfSome, IfNone};
ghost use Rattle.sync_types.specs.declared.atomic_object.AtomicKind.TheVariants.{Int64};
ghost use Rattle.script_calls.specs.declared.call.Reply.TheVariants as replies;
ghost use Rattle.sync_model.specs.Shared.{IsCallerAt, items_of};
ghost use Rattle.workload.specs.declared.object.ObjectKind.TheVariants.{Atomic};
ghost use Rattle.flight_core.specs.declared.calls.FlightStage.TheVariants as stage;
ghost use Rattle.flight_core.specs.declared.calls.FlightStand.TheVariants.{Out, Leads};
ghost use Rattle.flight_core.specs.FlightStages.{flight_stands, flight_left, flight_gives, FlightBegins};
ghost use Rattle.ruled_object.specs.Growth.{KeepsNote};
ghost use Rattle.call_loop.specs.Calls.{IsGiven, left_in};
ghost use Rattle.run_record.specs.declared.entered.ObjectEvent.TheVariants as event;
ghost use Rattle.run_record.specs.declared.entered.ObjectReply.TheVariants as reply;
ghost use Rattle.run_record.specs.FlightKind.{fly_call, flight_part, was_shared};
ghost use Rattle.run_record.specs.Objects.{atomic_number};
ghost use Rattle.run_record.specs.Parts.{with_outcome};
ghost use Rattle.thread_objects.specs.Calling.{HasCalled};
ghost use Rattle.thread_objects.specs.Catalog.{HasAtomics, IsAt};
ghost use Rattle.thread_objects.specs.FlightKind.{flight};
ghost use Rattle.thread_objects.specs.GivenUp.{GaveUp};
ghost use Rattle.thread_objects.specs.Working.{Works, desk_at};
ghost use Rattle.thread_objects.specs.Own.{own_as};
ghost use Rattle.thread_objects.specs.Seats.{IsSeat, IsStanding};

use crate::kind::DeclaredKind;
use crate::parts::laws::{moves, what_a_call_leaves, what_calls_spend};
use crate::parts::{CallAnswer, Catalog, Worker, add_at, part_from};
use flight_core::{FlightCore, FlightOutcome, FlightStage};
use ruled_object::{Object, PassOf};
use script_calls::{Operation, Reply};
use std::alloc::{AllocError, Global};
use std::sync::Wait;
use sync_model::{Answer, Caller, Note, Shared};
use sync_outside::Clock;
use sync_types::Misuse;
use workload::ObjectKind;

// Comes for the key of this number, and tells whether the caller leads a flight. It may wait for the caller that leads the one that
// there is.
fn join<N: Note, C: Clock, R: Wait>(
    rt: &R,
    worker: &Worker<N, C>,
    group: &Object<FlightCore, N>,
    pass: &mut PassOf<FlightCore, N>,
    note: &mut N,
    key: u32,
) -> Answer<Result<FlightOutcome, Misuse>>
    requires seat { IsSeat FlightBegins Out flight_stands N.at worker.now.at.home.now worker.now.workers worker.now.number group.now pass.old }
    requires note { N.at worker.now.at.home.now note.old }
    ensures seat { IsStanding FlightBegins Out flight_stands N.at worker.now.at.home.now worker.now.workers worker.now.number (left_in Out flight_left result) group.now pass.new }
    ensures note { KeepsNote N.at N.own N.front note.old note.new }
    ensures gives { IsGiven (flight_gives (stage.Join key)) result }
    ensures works { (number : ℕ)
        → Works (flight_part number (stage.Join key)) (desk_at N.own N.front number (own_as event.Flight reply.Flight pass.old) note.old) result (desk_at N.own N.front number (own_as event.Flight reply.Flight pass.new) note.new) }
{
    part_from(rt, worker, group, pass, note, FlightStage::Join(key))
}

// Ends the flight that the caller leads, which came to this.
fn land<N: Note, C: Clock, R: Wait>(
    rt: &R,
    worker: &Worker<N, C>,
    group: &Object<FlightCore, N>,
    pass: &mut PassOf<FlightCore, N>,
    note: &mut N,
    value: i64,
) -> Answer<Result<FlightOutcome, Misuse>>
    requires seat { IsStanding FlightBegins Out flight_stands N.at worker.now.at.home.now worker.now.workers worker.now.number Leads group.now pass.old }
    requires note { N.at worker.now.at.home.now note.old }
    ensures seat { IsSeat FlightBegins Out flight_stands N.at worker.now.at.home.now worker.now.workers worker.now.number group.now pass.new }
    ensures note { KeepsNote N.at N.own N.front note.old note.new }
    ensures works { (number : ℕ)
        → Works (flight_part number (stage.Land value)) (desk_at N.own N.front number (own_as event.Flight reply.Flight pass.old) note.old) result (desk_at N.own N.front number (own_as event.Flight reply.Flight pass.new) note.new) }
{
    part_from(rt, worker, group, pass, note, FlightStage::Land(value))
}

// Whether a flight that landed had a joiner.
fn was_shared(outcome: FlightOutcome) -> bool
    ensures { result ≡ was_shared outcome }
{
    match outcome {
        FlightOutcome::Landed(shared) => shared,
        _ => false,
    }
}

// What a call answers that led a flight which came to this.
fn flown(answer: Answer<Result<FlightOutcome, Misuse>>, value: i64) -> CallAnswer
    ensures { result ≡ with_outcome (λ outcome. replies.Flown value (was_shared outcome)) answer }
{
    match answer {
        Answer::Done(Ok(outcome)) => Answer::Done(Ok(Reply::Flown(value, was_shared(outcome)))),
        Answer::Done(Err(misuse)) => Answer::Done(Err(misuse)),
        Answer::Halted(misuse) => Answer::Halted(misuse),
    }
}

// The call that leads a flight runs the function, which adds to the int64 at a place, and those who join it get the sum. Where the add is
// answered by no int64 the flight lands all the same, so that nobody waits for it.
fn fly_on<S: Shared, C: Clock, R: Wait>(
    rt: &R,
    worker: &Worker<S::Mark, C>,
    catalog: &Catalog<S>,
    caller: &mut Caller<S::Mark>,
    group: &Object<FlightCore, S::Mark>,
    pass: &mut PassOf<FlightCore, S::Mark>,
    place: usize,
    delta: i64,
    key: u32,
) -> Option<CallAnswer>
    requires atomics { HasAtomics catalog.now.workload.now (S.kinds catalog.now.shared.now) catalog.now.numbers.now }
    requires place { IsAt catalog.now.workload.now place (Atomic Int64) }
    requires seat { IsSeat FlightBegins Out flight_stands S.Mark.at worker.now.at.home.now worker.now.workers worker.now.number group.now pass.old }
    requires caller { IsCallerAt S.Mark.at S.Mark.own (S.home_of catalog.now.shared.now) caller.old }
    requires note { S.Mark.at worker.now.at.home.now caller.old.note }
    ensures seat { IsSeat FlightBegins Out flight_stands S.Mark.at worker.now.at.home.now worker.now.workers worker.now.number group.now pass.new }
    ensures called { HasCalled S.Mark.at S.Mark.own catalog.now.workload.now 0 caller.old.note caller.new.note }
    ensures given_up { IfNone result (GaveUp catalog.now.workload.now (items_of (S.Mark.own caller.new.note))) }
    ensures works { IfSome result (λ answer. (number : ℕ)
        → Works (fly_call number (atomic_number catalog.now.workload.now.objects place) delta key) (desk_at S.Mark.own S.Mark.front number (own_as event.Flight reply.Flight pass.old) caller.old.note) answer (desk_at S.Mark.own S.Mark.front number (own_as event.Flight reply.Flight pass.new) caller.new.note)) }
{
    moves();
    what_calls_spend::<S::Mark>();
    what_a_call_leaves::<S::Mark>();
    match join(rt, worker, group, pass, &mut caller.note, key) {
        Answer::Halted(misuse) => Some(Answer::Halted(misuse)),
        Answer::Done(Err(misuse)) => Some(Answer::Done(Err(misuse))),
        Answer::Done(Ok(FlightOutcome::Got(value))) => {
            Some(Answer::Done(Ok(Reply::Flown(value, true))))
        }
        Answer::Done(Ok(FlightOutcome::Lead)) => match add_at(rt, catalog, caller, place, delta) {
            Some(sum) => {
                let answer = land(rt, worker, group, pass, &mut caller.note, sum);
                Some(flown(answer, sum))
            }
            None => {
                land(rt, worker, group, pass, &mut caller.note, 0);
                None
            }
        },
        Answer::Done(Ok(FlightOutcome::Landed(_))) => unreachable!(),
    }
}

impl DeclaredKind for FlightCore {
    ghost kind = { flight };

    fn start(alloc: Global, workers: u32, declared: ObjectKind) -> Result<FlightCore, AllocError> {
        match declared {
            ObjectKind::Flight { .. } => FlightCore::new(alloc, workers),
            _ => unreachable!(),
        }
    }

    fn call<S: Shared, C: Clock, R: Wait>(
        rt: &R,
        worker: &Worker<S::Mark, C>,
        catalog: &Catalog<S>,
        caller: &mut Caller<S::Mark>,
        object: &Object<FlightCore, S::Mark>,
        pass: &mut PassOf<FlightCore, S::Mark>,
        declared: ObjectKind,
        operation: &Operation,
        key: u32,
    ) -> Option<CallAnswer> {
        match (declared, operation) {
            (ObjectKind::Flight { atomic, delta }, Operation::Fly(_name)) => fly_on(
                rt, worker, catalog, caller, object, pass, atomic, delta, key,
            ),
            _ => unreachable!(),
        }
    }
}
