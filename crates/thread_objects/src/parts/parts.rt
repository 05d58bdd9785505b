//! A part of a call, in the words of the record.
ghost use Rattle.std.specs.Prelude.{◌≡◌, ℕ, true, IsSome};
ghost use Rattle.workload.specs.Plan.{Plan};
ghost use Rattle.ruled_object.specs.Growth.{KeepsNote};
ghost use Rattle.ruled_object.specs.Passes.{own_by, start_of};
ghost use Rattle.ruled_object.specs.Standing.{stand_by};
ghost use Rattle.call_loop.specs.Calls.{IsGiven, left_in};
ghost use Rattle.run_record.specs.declared.entered.ObjectEvent.{ObjectEvent};
ghost use Rattle.run_record.specs.declared.entered.ObjectReply.{ObjectReply};
ghost use Rattle.run_record.specs.Parts.{stages};
ghost use Rattle.thread_objects.specs.Seats.{IsSeat, IsStanding};
ghost use Rattle.thread_objects.specs.Calling.{HasCalled};
ghost use Rattle.thread_objects.specs.Working.{Works, desk_at};
ghost use Rattle.thread_objects.specs.Own.{own_as};

use crate::parts::laws::{a_note_counts_its_calls, what_a_call_leaves};
use crate::parts::worker::Worker;
use call_loop::{Timing, call_within, call_within_timed};
use protocols::Protocol;
use ruled_object::{Object, PassOf};
use std::sync::Wait;
use sync_model::{Answer, Note, Worded};
use sync_outside::Clock;
use sync_types::Misuse;

/// Makes a call of a protocol that leaves its caller out of the object, whatever it comes to. The run of a worker is one long
/// call, as passes count them: it takes nothing off the calls that are left. Its clock is read by `timing`.
pub fn part<P: Protocol + Worded, T: Timing<P>, N: Note, C: Clock, R: Wait>(
    rt: &R,
    worker: &Worker<N, C>,
    object: &Object<P, N>,
    pass: &mut PassOf<P, N>,
    note: &mut N,
    stage: P::Stage,
    timing: &T,
) -> Answer<Result<P::Outcome, Misuse>>
    requires seat { IsSeat P.begins P.out P.stands N.at worker.now.at.home.now worker.now.workers worker.now.number object.now pass.old }
    requires note { N.at worker.now.at.home.now note.old }
    requires allowed { P.allows (start_of object.now) P.out stage ≡ true }
    requires returns { (outcome : P.Outcome) → P.left outcome ≡ P.out }
    ensures seat { IsSeat P.begins P.out P.stands N.at worker.now.at.home.now worker.now.workers worker.now.number object.now pass.new }
    ensures note { KeepsNote N.at N.own N.front note.old note.new }
    ensures called { (plan : Plan) → IsSome (N.own note.old) → HasCalled N.at N.own plan 0 note.old note.new }
    ensures gives { IsGiven (P.gives stage) result }
    ensures works { (event : P.Event → ObjectEvent) (reply : P.Reply → ObjectReply) (number : ℕ)
        → Works (stages event reply P.event P.meaning number stage) (desk_at N.own N.front number (own_as event reply pass.old) note.old) result (desk_at N.own N.front number (own_as event reply pass.new) note.new) }
{
    a_note_counts_its_calls();
    what_a_call_leaves::<N>();
    call_within_timed(object, rt, &worker.at, pass, note, stage, timing)
}

/// Makes a part of a call that may leave its caller inside, for another part to go on from there; or goes on with one from where the
/// caller stands.
pub fn part_from<P: Protocol + Worded, N: Note, C: Clock, R: Wait>(
    rt: &R,
    worker: &Worker<N, C>,
    object: &Object<P, N>,
    pass: &mut PassOf<P, N>,
    note: &mut N,
    stage: P::Stage,
) -> Answer<Result<P::Outcome, Misuse>>
    requires seat { IsStanding P.begins P.out P.stands N.at worker.now.at.home.now worker.now.workers worker.now.number (stand_by P.out P.stands (own_by pass.old)) object.now pass.old }
    requires note { N.at worker.now.at.home.now note.old }
    requires allowed { P.allows (start_of object.now) (stand_by P.out P.stands (own_by pass.old)) stage ≡ true }
    ensures seat { IsStanding P.begins P.out P.stands N.at worker.now.at.home.now worker.now.workers worker.now.number (left_in P.out P.left result) object.now pass.new }
    ensures note { KeepsNote N.at N.own N.front note.old note.new }
    ensures gives { IsGiven (P.gives stage) result }
    ensures works { (event : P.Event → ObjectEvent) (reply : P.Reply → ObjectReply) (number : ℕ)
        → Works (stages event reply P.event P.meaning number stage) (desk_at N.own N.front number (own_as event reply pass.old) note.old) result (desk_at N.own N.front number (own_as event reply pass.new) note.new) }
{
    a_note_counts_its_calls();
    call_within(object, rt, &worker.at, pass, note, stage)
}
