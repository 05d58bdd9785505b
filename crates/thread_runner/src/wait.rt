//! `wait` on a cond: parts on two objects, the cond and its mutex.
ghost use Rattle.std.specs.Prelude.{◌≡◌};
ghost use Rattle.workload.specs.declared.object.ObjectWord.TheVariants as words;
ghost use Rattle.ruled_object.specs.Growth.{KeepsNote};
ghost use Rattle.run_record.specs.CondKind.{wait_part};
ghost use Rattle.run_record.specs.Parts.{with_outcome};
ghost use Rattle.thread_runner.specs.Replies.{relocked};
ghost use Rattle.thread_objects.specs.Desks.{AreSeats, IsObjectAt};
ghost use Rattle.thread_objects.specs.Kinds.{HasWord};
ghost use Rattle.thread_objects.specs.Passes.{owns_of};
ghost use Rattle.thread_objects.specs.Working.{Works, desk_with};

use crate::desk::{cond_at, mutex_at};
use protocols::{CondStage, MutexStage};
use script_calls::Reply;
use std::sync::Wait;
use sync_model::{Answer, Note};
use sync_outside::Clock;
use sync_types::{LockReply, Misuse};
use thread_objects::parts::laws::moves;
use thread_objects::{AnyObject, AnyPass, CallAnswer, Worker, gone_on};

// What a `wait` answers, whose mutex is locked again.
fn locked_again(answer: Answer<Result<LockReply, Misuse>>) -> CallAnswer
    ensures { result ≡ with_outcome relocked answer }
{
    match answer {
        Answer::Done(Ok(_outcome)) => Answer::Done(Ok(Reply::Returned)),
        Answer::Done(Err(misuse)) => Answer::Done(Err(misuse)),
        Answer::Halted(misuse) => Answer::Halted(misuse),
    }
}

/// Takes a ticket of the cond, unlocks its mutex, leaves the cond once the ticket is notified, and locks the mutex again.
pub(crate) fn wait<N: Note, C: Clock, R: Wait>(
    rt: &R,
    worker: &Worker<N, C>,
    objects: &[AnyObject<N>],
    passes: &mut [AnyPass<N>],
    note: &mut N,
    cond: usize,
    mutex: usize,
) -> CallAnswer
    requires cond { IsObjectAt (HasWord words.Cond) objects.now cond }
    requires mutex { IsObjectAt (HasWord words.Mutex) objects.now mutex }
    requires seats { AreSeats N.at worker.now.at.home.now worker.now.workers worker.now.number objects.now passes.old }
    requires note { N.at worker.now.at.home.now note.old }
    ensures seats { AreSeats N.at worker.now.at.home.now worker.now.workers worker.now.number objects.now passes.new }
    ensures note { KeepsNote N.at N.own N.front note.old note.new }
    ensures works { Works (wait_part cond mutex) (desk_with N.own N.front (owns_of passes.old) note.old) result (desk_with N.own N.front (owns_of passes.new) note.new) }
{
    moves();
    let ticket = gone_on(cond_at(rt, worker, objects, passes, note, cond, CondStage::Ticket));
    if let Err(answer) = ticket {
        return answer;
    }
    let unlocked = gone_on(mutex_at(rt, worker, objects, passes, note, mutex, MutexStage::Unlock));
    if let Err(answer) = unlocked {
        return answer;
    }
    let left = gone_on(cond_at(rt, worker, objects, passes, note, cond, CondStage::Leave));
    if let Err(answer) = left {
        return answer;
    }
    locked_again(mutex_at(rt, worker, objects, passes, note, mutex, MutexStage::Lock))
}
