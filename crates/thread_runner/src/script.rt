//! A worker's script, call by call, and what is done before and behind it.
ghost use Rattle.std.specs.Prelude.{◌≡◌, [], ◌⊎◌, get_or, IfSome, IfNone};
ghost use Rattle.sync_model.specs.Shared.{items_of};
ghost use Rattle.ruled_object.specs.Growth.{KeepsNote};
ghost use Rattle.run_record.specs.Lines.{Line};
ghost use Rattle.thread_objects.specs.AsDeclared.{AreDeclared};
ghost use Rattle.thread_objects.specs.Desks.{AreSeats};
ghost use Rattle.thread_objects.specs.GivenUp.{GaveUp};
ghost use Rattle.thread_objects.specs.Passes.{owns_of};
ghost use Rattle.thread_runner.specs.Halting.{HaltsAll};
ghost use Rattle.thread_runner.specs.Jobs.{IsBetween, MayCall};
ghost use Rattle.thread_runner.specs.Replies.{is_through, misuse_in};
ghost use Rattle.thread_runner.specs.Sites.{IsWorkerAt};
ghost use Rattle.thread_objects.specs.Working.{desk_with};
ghost use Rattle.thread_runner.specs.DidLines.{DidLine, IsFresh, MadeCalls, WentThrough};

use crate::dispatch::make_call;
use crate::halting::halt_all;
use crate::opening::{closes, has_come, opens};
use crate::site::Site;
use script_calls::Reply;
use script_calls::laws::{a_run_goes_along_by_places, runs_go_on};
use std::sync::Wait;
use sync_model::{Answer, Caller, Note, Shared};
use sync_outside::{Clock, Gate};
use sync_types::{BoundedSeq, Misuse};
use thread_objects::parts::laws::moves;
use thread_objects::{AnyPass, Worker};

// Whether a worker made all that it was to make.
fn is_through(made: &Option<Answer<Result<(), Misuse>>>) -> bool
    ensures { result ≡ is_through made.now }
{
    match made {
        None => false,
        Some(Answer::Done(Ok(()))) => true,
        Some(Answer::Done(Err(_misuse))) => false,
        Some(Answer::Halted(_misuse)) => false,
    }
}

// The misuse that a worker met, where it met one.
fn misuse_in(made: &Option<Answer<Result<(), Misuse>>>) -> Option<Misuse>
    ensures { result ≡ misuse_in made.now }
{
    match made {
        None => None,
        Some(Answer::Done(Ok(()))) => None,
        Some(Answer::Done(Err(misuse))) => Some(*misuse),
        Some(Answer::Halted(_misuse)) => None,
    }
}

// Makes the calls of a worker's script in order, but those that a reply passes over, with the gate before and behind each. The first
// that is a misuse or meets a halt is the last one, and its answer is this one's. `None`, where a call was given up.
fn make_calls<S: Shared, C: Clock, G: Gate, R: Wait>(
    rt: &R,
    site: &Site<S>,
    worker: &Worker<S::Mark, C>,
    gate: &G,
    caller: &mut Caller<S::Mark>,
    passes: &mut [AnyPass<S::Mark>],
    replies: &mut BoundedSeq<Reply<u32>>,
    rooms: &mut Vec<BoundedSeq<(u32, u64)>>,
) -> Option<Answer<Result<(), Misuse>>>
    requires site { IsWorkerAt S.Mark.at worker.now.at.home.now (S.home_of site.now.catalog.shared.now) site.now.catalog.workload.now (S.maps site.now.catalog.shared.now) (S.kinds site.now.catalog.shared.now) (S.takes site.now.catalog.shared.now) site.now.objects.now site.now.catalog.numbers.now worker.now.workers }
    requires may { MayCall S.Mark.at S.Mark.own worker.now.at.home.now site.now.catalog.workload.now site.now.objects.now worker.now.workers worker.now.number passes.old caller.old replies.old rooms.old.items }
    ensures between { IsBetween S.Mark.at S.Mark.own worker.now.at.home.now site.now.catalog.workload.now site.now.objects.now worker.now.workers worker.now.number caller.old.note passes.new caller.new }
    ensures given_up { IfNone result (GaveUp site.now.catalog.workload.now (items_of (S.Mark.own caller.new.note))) }
    ensures made { IfSome result (λ answer. MadeCalls site.now.catalog.workload.now worker.now.number (get_or site.now.catalog.workload.now.scripts worker.now.number []) replies.new.items
        (desk_with S.Mark.own S.Mark.front (owns_of passes.old) caller.old.note) answer (desk_with S.Mark.own S.Mark.front (owns_of passes.new) caller.new.note)) }
{
    moves();
    a_run_goes_along_by_places();
    runs_go_on::<u32>();
    let script = site.catalog.workload.script(worker.number);
    let numbers = site.catalog.workload.key_numbers(worker.number);
    let mut place = 0;
    while place < script.len() {
        gate.before(rt, worker.number, place as u32);
        let call = &script[place];
        let number = numbers[place];
        let answer = make_call(rt, site, worker, caller, passes, rooms, call, number);
        gate.after(rt, worker.number, place as u32);
        match answer {
            None => return None,
            Some(Answer::Done(Ok(reply))) => {
                place += 1 + call.passed_over(&reply);
                replies.push(reply);
            }
            Some(Answer::Done(Err(misuse))) => return Some(Answer::Done(Err(misuse))),
            Some(Answer::Halted(misuse)) => return Some(Answer::Halted(misuse)),
        }
    }
    Some(Answer::Done(Ok(())))
}

// Makes the calls of a worker's script, and closes it at its end.
fn go_through<S: Shared, C: Clock, G: Gate, R: Wait>(
    rt: &R,
    site: &Site<S>,
    worker: &Worker<S::Mark, C>,
    gate: &G,
    caller: &mut Caller<S::Mark>,
    passes: &mut [AnyPass<S::Mark>],
    replies: &mut BoundedSeq<Reply<u32>>,
    rooms: &mut Vec<BoundedSeq<(u32, u64)>>,
) -> Option<Answer<Result<(), Misuse>>>
    requires site { IsWorkerAt S.Mark.at worker.now.at.home.now (S.home_of site.now.catalog.shared.now) site.now.catalog.workload.now (S.maps site.now.catalog.shared.now) (S.kinds site.now.catalog.shared.now) (S.takes site.now.catalog.shared.now) site.now.objects.now site.now.catalog.numbers.now worker.now.workers }
    requires may { MayCall S.Mark.at S.Mark.own worker.now.at.home.now site.now.catalog.workload.now site.now.objects.now worker.now.workers worker.now.number passes.old caller.old replies.old rooms.old.items }
    ensures between { IsBetween S.Mark.at S.Mark.own worker.now.at.home.now site.now.catalog.workload.now site.now.objects.now worker.now.workers worker.now.number caller.old.note passes.new caller.new }
    ensures given_up { IfNone result (GaveUp site.now.catalog.workload.now (items_of (S.Mark.own caller.new.note))) }
    ensures went { IfSome result (λ answer. WentThrough site.now.catalog.workload.now worker.now.number (get_or site.now.catalog.workload.now.scripts worker.now.number []) replies.new.items
        (desk_with S.Mark.own S.Mark.front (owns_of passes.old) caller.old.note) answer (desk_with S.Mark.own S.Mark.front (owns_of passes.new) caller.new.note)) }
{
    moves();
    let made = make_calls(rt, site, worker, gate, caller, passes, replies, rooms);
    if !is_through(&made) {
        return made;
    }
    Some(closes(rt, site, worker, passes, &mut caller.note))
}

// Halts the run by a misuse.
fn halt_run<S: Shared, C: Clock, R: Wait>(
    rt: &R,
    site: &Site<S>,
    worker: &Worker<S::Mark, C>,
    passes: &mut [AnyPass<S::Mark>],
    note: &mut S::Mark,
    misuse: Misuse,
)
    requires declared { AreDeclared S.Mark.at worker.now.at.home.now site.now.catalog.workload.now site.now.objects.now }
    requires workers { site.now.catalog.workload.now.workers ≡ worker.now.workers }
    requires seats { AreSeats S.Mark.at worker.now.at.home.now worker.now.workers worker.now.number site.now.objects.now passes.old }
    requires note { S.Mark.at worker.now.at.home.now note.old }
    ensures seats { AreSeats S.Mark.at worker.now.at.home.now worker.now.workers worker.now.number site.now.objects.now passes.new }
    ensures note { KeepsNote S.Mark.at S.Mark.own S.Mark.front note.old note.new }
    ensures halted { HaltsAll site.now.catalog.workload.now misuse (desk_with S.Mark.own S.Mark.front (owns_of passes.old) note.old) (desk_with S.Mark.own S.Mark.front (owns_of passes.new) note.new) }
{
    let workload = site.catalog.workload;
    halt_all(rt, worker, workload, site.objects, passes, note, misuse)
}

/// Makes the calls of a worker's script in order, but those that a reply passes over, with the gate before and behind each. Where some
/// workers wait to be started, one that does comes to its script once it was started, and makes the `done` on the group of its `go`
/// behind it; and each that comes to its end says so. A misuse halts Stop, and then every object, and ends the worker, as a halt does
/// that it meets. A call that answers nothing ends it too: none does, as is known once all workers have ended.
pub(crate) fn run_script<S: Shared, C: Clock, G: Gate, R: Wait>(
    rt: &R,
    site: &Site<S>,
    worker: &Worker<S::Mark, C>,
    gate: &G,
    caller: &mut Caller<S::Mark>,
    passes: &mut [AnyPass<S::Mark>],
    replies: &mut BoundedSeq<Reply<u32>>,
    rooms: &mut Vec<BoundedSeq<(u32, u64)>>,
)
    requires site { IsWorkerAt S.Mark.at worker.now.at.home.now (S.home_of site.now.catalog.shared.now) site.now.catalog.workload.now (S.maps site.now.catalog.shared.now) (S.kinds site.now.catalog.shared.now) (S.takes site.now.catalog.shared.now) site.now.objects.now site.now.catalog.numbers.now worker.now.workers }
    requires may { MayCall S.Mark.at S.Mark.own worker.now.at.home.now site.now.catalog.workload.now site.now.objects.now worker.now.workers worker.now.number passes.old caller.old replies.old rooms.old.items }
    requires fresh { IsFresh worker.now.number (desk_with S.Mark.own S.Mark.front (owns_of passes.old) caller.old.note) }
    ensures between { IsBetween S.Mark.at S.Mark.own worker.now.at.home.now site.now.catalog.workload.now site.now.objects.now worker.now.workers worker.now.number caller.old.note passes.new caller.new }
    ensures line { ((line : Line) × DidLine site.now.catalog.workload.now worker.now.number (get_or site.now.catalog.workload.now.scripts worker.now.number []) replies.new.items
        (desk_with S.Mark.own S.Mark.front (owns_of passes.old) caller.old.note) (desk_with S.Mark.own S.Mark.front (owns_of passes.new) caller.new.note) line)
        ⊎ GaveUp site.now.catalog.workload.now (items_of (S.Mark.own caller.new.note)) }
{
    moves();
    let opened = opens(rt, site, worker, passes, &mut caller.note);
    if !has_come(&opened) {
        return;
    }
    let went = go_through(rt, site, worker, gate, caller, passes, replies, rooms);
    match misuse_in(&went) {
        None => {}
        Some(misuse) => halt_run(rt, site, worker, passes, &mut caller.note, misuse),
    }
}
