//! What a once and the functions made by `OnceFunc` and `OnceValue` have in common: one caller runs the function, and all come to what it
//! came to.
ghost use Rattle.std.specs.Prelude.{◌≡◌, ℕ, false, true, IsSome};
ghost use Rattle.script_calls.specs.declared.call.Reply.{Reply};
ghost use Rattle.wait_cores.specs.declared.once.OnceEvent.{OnceEvent};
ghost use Rattle.wait_cores.specs.declared.once.OnceReply.{OnceReply};
ghost use Rattle.workload.specs.Plan.{Plan};
ghost use Rattle.protocols.specs.declared.once.OnceStage.TheVariants as stage;
ghost use Rattle.protocols.specs.OnceStages.{once_event, once_meaning, once_stands, once_left, once_gives, OnceBegins};
ghost use Rattle.ruled_object.specs.Growth.{KeepsNote};
ghost use Rattle.call_loop.specs.Calls.{IsGiven, left_in};
ghost use Rattle.run_record.specs.declared.entered.ObjectEvent.{ObjectEvent};
ghost use Rattle.run_record.specs.declared.entered.ObjectReply.{ObjectReply};
ghost use Rattle.run_record.specs.OnceKind.{once_part};
ghost use Rattle.run_record.specs.Parts.{returns, stages, with_outcome};
ghost use Rattle.thread_objects.specs.Calling.{HasCalled};
ghost use Rattle.thread_objects.specs.Working.{Works, desk_at};
ghost use Rattle.thread_objects.specs.Own.{own_as};
ghost use Rattle.thread_objects.specs.Seats.{IsSeat, IsStanding};

use crate::parts::laws::{moves, what_a_call_leaves};
use crate::parts::{Worker, part_from};
use protocols::{OnceOutcome, OnceStage};
use ruled_object::{Object, PassOf};
use std::sync::Wait;
use sync_model::{Answer, Note};
use sync_outside::Clock;
use sync_types::Misuse;
use wait_cores::OnceCore;

// Begins, and tells whether the caller is to run the function. It may wait for the caller that runs it.
pub(super) fn begin<T: Copy, N: Note, C: Clock, R: Wait>(
    rt: &R,
    worker: &Worker<N, C>,
    once: &Object<OnceCore<T>, N>,
    pass: &mut PassOf<OnceCore<T>, N>,
    note: &mut N,
) -> Answer<Result<OnceOutcome<T>, Misuse>>
    requires seat { IsSeat OnceBegins (false, false) once_stands N.at worker.now.at.home.now worker.now.workers worker.now.number once.now pass.old }
    requires note { N.at worker.now.at.home.now note.old }
    ensures seat { IsStanding OnceBegins (false, false) once_stands N.at worker.now.at.home.now worker.now.workers worker.now.number (left_in (false, false) once_left result) once.now pass.new }
    ensures note { KeepsNote N.at N.own N.front note.old note.new }
    ensures gives { IsGiven (once_gives stage.Begin) result }
    ensures works { (event : OnceEvent T → ObjectEvent) (reply : OnceReply T → ObjectReply) (number : ℕ)
        → Works (stages event reply once_event once_meaning number stage.Begin) (desk_at N.own N.front number (own_as event reply pass.old) note.old) result (desk_at N.own N.front number (own_as event reply pass.new) note.new) }
{
    part_from(rt, worker, once, pass, note, OnceStage::Begin)
}

// Ends the function, which came to this.
pub(super) fn end<T: Copy, N: Note, C: Clock, R: Wait>(
    rt: &R,
    worker: &Worker<N, C>,
    once: &Object<OnceCore<T>, N>,
    pass: &mut PassOf<OnceCore<T>, N>,
    note: &mut N,
    value: T,
) -> Answer<Result<OnceOutcome<T>, Misuse>>
    requires seat { IsStanding OnceBegins (false, false) once_stands N.at worker.now.at.home.now worker.now.workers worker.now.number (false, true) once.now pass.old }
    requires note { N.at worker.now.at.home.now note.old }
    ensures seat { IsSeat OnceBegins (false, false) once_stands N.at worker.now.at.home.now worker.now.workers worker.now.number once.now pass.new }
    ensures note { KeepsNote N.at N.own N.front note.old note.new }
    ensures works { (event : OnceEvent T → ObjectEvent) (reply : OnceReply T → ObjectReply) (number : ℕ)
        → Works (stages event reply once_event once_meaning number (stage.End value)) (desk_at N.own N.front number (own_as event reply pass.old) note.old) result (desk_at N.own N.front number (own_as event reply pass.new) note.new) }
{
    part_from(rt, worker, once, pass, note, OnceStage::End(value))
}

// What a call comes to that ended the function with this.
pub(super) fn ended<T: Copy>(
    answer: Answer<Result<OnceOutcome<T>, Misuse>>,
    value: T,
) -> Answer<Result<T, Misuse>>
    ensures { result ≡ with_outcome (λ outcome. value) answer }
{
    match answer {
        Answer::Done(Ok(_outcome)) => Answer::Done(Ok(value)),
        Answer::Done(Err(misuse)) => Answer::Done(Err(misuse)),
        Answer::Halted(misuse) => Answer::Halted(misuse),
    }
}

// What the function comes to, which gives this value: the first call runs it, and later ones have what it came to. It may wait
// for the caller that runs it.
pub(super) fn kept<T: Copy, N: Note, C: Clock, R: Wait>(
    rt: &R,
    worker: &Worker<N, C>,
    once: &Object<OnceCore<T>, N>,
    pass: &mut PassOf<OnceCore<T>, N>,
    note: &mut N,
    value: T,
) -> Answer<Result<T, Misuse>>
    requires seat { IsSeat OnceBegins (false, false) once_stands N.at worker.now.at.home.now worker.now.workers worker.now.number once.now pass.old }
    requires note { N.at worker.now.at.home.now note.old }
    ensures seat { IsSeat OnceBegins (false, false) once_stands N.at worker.now.at.home.now worker.now.workers worker.now.number once.now pass.new }
    ensures called { (plan : Plan) → IsSome (N.own note.old) → HasCalled N.at N.own plan 0 note.old note.new }
    ensures works { (event : OnceEvent T → ObjectEvent) (reply : OnceReply T → ObjectReply) (number : ℕ) (told : T → Reply ℕ)
        → Works (once_part (stages event reply once_event once_meaning number) (returns value) told told) (desk_at N.own N.front number (own_as event reply pass.old) note.old) (with_outcome told result) (desk_at N.own N.front number (own_as event reply pass.new) note.new) }
{
    moves();
    what_a_call_leaves::<N>();
    match begin(rt, worker, once, pass, note) {
        Answer::Halted(misuse) => Answer::Halted(misuse),
        Answer::Done(Err(misuse)) => Answer::Done(Err(misuse)),
        Answer::Done(Ok(OnceOutcome::Already(kept))) => Answer::Done(Ok(kept)),
        Answer::Done(Ok(OnceOutcome::Run)) => {
            ended(end(rt, worker, once, pass, note, value), value)
        }
        Answer::Done(Ok(OnceOutcome::Ended)) => unreachable!(),
    }
}
