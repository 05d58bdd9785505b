//! What a worker makes on Starts: it asks whether it was started, before its script, and tells behind it that it has ended. In its
//! script it may start others.
ghost use Rattle.std.specs.Prelude.{◌≡◌, ◌≢◌, ℕ, Err};
ghost use Rattle.script_calls.specs.declared.call.Reply.TheVariants as replies;
ghost use Rattle.sync_model.specs.declared.answer.Answer.TheVariants.{Done};
ghost use Rattle.starts_core.specs.declared.protocol.StartsStage.TheVariants as stages;
ghost use Rattle.starts_core.specs.StartsStages.{starts_gives};
ghost use Rattle.ruled_object.specs.Growth.{KeepsNote};
ghost use Rattle.call_loop.specs.Calls.{IsGiven};
ghost use Rattle.run_record.specs.Parts.{read_as, with_outcome};
ghost use Rattle.run_record.specs.StartsKind.{starts_part, was_started, wait_start_part, end_part};
ghost use Rattle.thread_objects.specs.Working.{Works, desk_at};
ghost use Rattle.thread_objects.specs.ByKind.{own_of};
ghost use Rattle.thread_objects.specs.Kinds.{IsStarts};
ghost use Rattle.thread_objects.specs.Passes.{IsSeatAt};

use crate::object::AnyObject;
use crate::parts::{CallAnswer, Worker, part};
use crate::pass::AnyPass;
use call_loop::Eager;
use script_calls::Reply;
use starts_core::{StartsOutcome, StartsStage};
use std::sync::Wait;
use sync_model::{Answer, Note};
use sync_outside::Clock;
use sync_types::Misuse;

/// Waits until the worker is started, and answers whether it was: true once it is, and false once nobody is left who could start it.
/// A worker that was live from the beginning is answered at once. It may wait for other workers.
pub fn wait_start<N: Note, C: Clock, R: Wait>(
    rt: &R,
    worker: &Worker<N, C>,
    object: &AnyObject<N>,
    pass: &mut AnyPass<N>,
    note: &mut N,
) -> Answer<Result<bool, Misuse>>
    requires kind { IsStarts object.now }
    requires seat { IsSeatAt N.at worker.now.at.home.now worker.now.workers worker.now.number object.now pass.old }
    requires note { N.at worker.now.at.home.now note.old }
    ensures seat { IsSeatAt N.at worker.now.at.home.now worker.now.workers worker.now.number object.now pass.new }
    ensures note { KeepsNote N.at N.own N.front note.old note.new }
    ensures unmisused { (misuse : Misuse) → result ≢ Done (Err misuse) }
    ensures works { (number : ℕ) → Works (wait_start_part number) (desk_at N.own N.front number (own_of pass.old) note.old) result (desk_at N.own N.front number (own_of pass.new) note.new) }
{
    whether_started(on_starts(rt, worker, object, pass, note, StartsStage::WaitStart))
}

/// Starts a worker, where it waits to be started; else nothing changes. It waits for nobody.
pub fn start<N: Note, C: Clock, R: Wait>(
    rt: &R,
    worker: &Worker<N, C>,
    object: &AnyObject<N>,
    pass: &mut AnyPass<N>,
    note: &mut N,
    started: u32,
) -> CallAnswer
    requires kind { IsStarts object.now }
    requires seat { IsSeatAt N.at worker.now.at.home.now worker.now.workers worker.now.number object.now pass.old }
    requires note { N.at worker.now.at.home.now note.old }
    ensures seat { IsSeatAt N.at worker.now.at.home.now worker.now.workers worker.now.number object.now pass.new }
    ensures note { KeepsNote N.at N.own N.front note.old note.new }
    ensures unmisused { (misuse : Misuse) → result ≢ Done (Err misuse) }
    ensures works { (number : ℕ)
        → Works (read_as (λ made. replies.Returned) (starts_part number (stages.Start started))) (desk_at N.own N.front number (own_of pass.old) note.old) result (desk_at N.own N.front number (own_of pass.new) note.new) }
{
    made(on_starts(rt, worker, object, pass, note, StartsStage::Start(started)))
}

/// Tells that the worker has made all its calls. Where it was the last one that could start others, all who wait to be started are
/// woken.
pub fn tell_end<N: Note, C: Clock, R: Wait>(
    rt: &R,
    worker: &Worker<N, C>,
    object: &AnyObject<N>,
    pass: &mut AnyPass<N>,
    note: &mut N,
) -> Answer<Result<(), Misuse>>
    requires kind { IsStarts object.now }
    requires seat { IsSeatAt N.at worker.now.at.home.now worker.now.workers worker.now.number object.now pass.old }
    requires note { N.at worker.now.at.home.now note.old }
    ensures seat { IsSeatAt N.at worker.now.at.home.now worker.now.workers worker.now.number object.now pass.new }
    ensures note { KeepsNote N.at N.own N.front note.old note.new }
    ensures unmisused { (misuse : Misuse) → result ≢ Done (Err misuse) }
    ensures works { (number : ℕ) → Works (end_part number) (desk_at N.own N.front number (own_of pass.old) note.old) result (desk_at N.own N.front number (own_of pass.new) note.new) }
{
    ended(on_starts(rt, worker, object, pass, note, StartsStage::End))
}

// Makes a call on Starts, from a stage on.
fn on_starts<N: Note, C: Clock, R: Wait>(
    rt: &R,
    worker: &Worker<N, C>,
    object: &AnyObject<N>,
    pass: &mut AnyPass<N>,
    note: &mut N,
    stage: StartsStage,
) -> Answer<Result<StartsOutcome, Misuse>>
    requires kind { IsStarts object.now }
    requires seat { IsSeatAt N.at worker.now.at.home.now worker.now.workers worker.now.number object.now pass.old }
    requires note { N.at worker.now.at.home.now note.old }
    ensures seat { IsSeatAt N.at worker.now.at.home.now worker.now.workers worker.now.number object.now pass.new }
    ensures note { KeepsNote N.at N.own N.front note.old note.new }
    ensures gives { IsGiven (starts_gives stage) result }
    ensures works { (number : ℕ) → Works (starts_part number stage) (desk_at N.own N.front number (own_of pass.old) note.old) result (desk_at N.own N.front number (own_of pass.new) note.new) }
{
    match object {
        AnyObject::Starts(object) => match pass {
            AnyPass::Starts(pass) => part(rt, worker, object, pass, note, stage, &Eager),
            _ => unreachable!(),
        },
        _ => unreachable!(),
    }
}

// Whether a worker was started that asked, by what its call came to.
fn whether_started(answer: Answer<Result<StartsOutcome, Misuse>>) -> Answer<Result<bool, Misuse>>
    ensures { result ≡ with_outcome was_started answer }
{
    match answer {
        Answer::Done(Ok(StartsOutcome::Started(was))) => Answer::Done(Ok(was)),
        Answer::Done(Ok(StartsOutcome::Done)) => Answer::Done(Ok(false)),
        Answer::Done(Err(misuse)) => Answer::Done(Err(misuse)),
        Answer::Halted(misuse) => Answer::Halted(misuse),
    }
}

// What a call replies that starts a worker.
fn made(answer: Answer<Result<StartsOutcome, Misuse>>) -> CallAnswer
    ensures { result ≡ with_outcome (λ made. replies.Returned) answer }
{
    match answer {
        Answer::Done(Ok(_outcome)) => Answer::Done(Ok(Reply::Returned)),
        Answer::Done(Err(misuse)) => Answer::Done(Err(misuse)),
        Answer::Halted(misuse) => Answer::Halted(misuse),
    }
}

// Of a call that only tells, nothing is told but that it was made.
fn ended(answer: Answer<Result<StartsOutcome, Misuse>>) -> Answer<Result<(), Misuse>>
    ensures { result ≡ with_outcome (λ ended. tt) answer }
{
    match answer {
        Answer::Done(Ok(_outcome)) => Answer::Done(Ok(())),
        Answer::Done(Err(misuse)) => Answer::Done(Err(misuse)),
        Answer::Halted(misuse) => Answer::Halted(misuse),
    }
}
