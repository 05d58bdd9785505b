//! The calls of a pool, each of whose parts is an object of its own. None waits for anybody.
ghost use Rattle.std.specs.Prelude.{◌≡◌, ℕ, ◌+◌, ◌*◌, ◌<◌, ◌≤◌, length, Result};
ghost use Rattle.std.specs.List.{range_with_len};
ghost use Rattle.sync_types.specs.declared.misuse.Misuse.{Misuse};
ghost use Rattle.protocols.specs.declared.pool.PoolOutcome.{PoolOutcome};
ghost use Rattle.pool_core.specs.Looks.{look};
ghost use Rattle.protocols.specs.PoolStages.{pool_event, pool_gives, look_gives};
ghost use Rattle.workload.specs.declared.object.ObjectWord.TheVariants as words;
ghost use Rattle.ruled_object.specs.Growth.{KeepsNote};
ghost use Rattle.call_loop.specs.Calls.{IsGiven};
ghost use Rattle.run_record.specs.Parts.{with_outcome};
ghost use Rattle.run_record.specs.PoolKind.{pool_part, pool_call, part_of, found_by, swept_by, looks_of, stage_of};
ghost use Rattle.thread_objects.specs.Desks.{AreSeats, IsObjectAt};
ghost use Rattle.thread_objects.specs.Kinds.{HasWord};
ghost use Rattle.thread_objects.specs.ByKind.{own_of};
ghost use Rattle.thread_objects.specs.Passes.{IsSeatAt, owns_of};
ghost use Rattle.thread_runner.specs.PoolParts.{ArePartsAt};
ghost use Rattle.thread_runner.specs.Replies.{pool_done};
ghost use Rattle.thread_objects.specs.Working.{Works, desk_at, desk_with};

use call_loop::Eager;
use protocols::{PoolOutcome, PoolStage};
use script_calls::Reply;
use std::sync::Wait;
use sync_model::{Answer, Note};
use sync_outside::Clock;
use sync_types::{Misuse, PoolCall, PoolCallReply};
use thread_objects::parts::laws::moves;
use thread_objects::{AnyObject, AnyPass, CallAnswer, Worker, part};

// What a put into a pool answers, and a sweep.
fn pool_done(answer: Answer<Result<PoolOutcome, Misuse>>) -> CallAnswer
    ensures { result ≡ with_outcome pool_done answer }
{
    match answer {
        Answer::Done(Ok(_outcome)) => Answer::Done(Ok(Reply::Pool(PoolCallReply::Done))),
        Answer::Done(Err(misuse)) => Answer::Done(Err(misuse)),
        Answer::Halted(misuse) => Answer::Halted(misuse),
    }
}

// Which look of a get this is. It is at the worker's own part, at the shared items of another, or among the victims of a part.
fn look_stage(worker: u32, workers: u32, number: u64) -> PoolStage
    requires worker { worker < workers }
    requires number { number < 2 * workers }
    ensures stage { result ≡ stage_of (look workers worker number) }
    ensures there { part_of worker (pool_event result 0) < workers }
    ensures look { (given : Result PoolOutcome Misuse) → pool_gives result given ≡ look_gives given }
{
    if number == 0 {
        return PoolStage::LookOwn;
    }
    let part = ((u64::from(worker) + number) % u64::from(workers)) as u32;
    if number < u64::from(workers) {
        PoolStage::LookOther(part)
    } else {
        PoolStage::LookVictim(part)
    }
}

// The part that an event is made at: the one that it names, or the worker's own.
fn part_named(worker: u32, stage: PoolStage) -> u32
    ensures { result ≡ part_of worker (pool_event stage 0) }
{
    match stage {
        PoolStage::LookOther(part) => part,
        PoolStage::LookVictim(part) => part,
        PoolStage::LookOwn => worker,
        PoolStage::Put(_item) => worker,
        PoolStage::Sweep => worker,
    }
}

// Makes one event of a call on a part of a pool.
fn part_of_pool<N: Note, C: Clock, R: Wait>(
    rt: &R,
    worker: &Worker<N, C>,
    object: &AnyObject<N>,
    pass: &mut AnyPass<N>,
    note: &mut N,
    stage: PoolStage,
) -> Answer<Result<PoolOutcome, Misuse>>
    requires kind { HasWord words.Pool object.now }
    requires seat { IsSeatAt N.at worker.now.at.home.now worker.now.workers worker.now.number object.now pass.old }
    requires note { N.at worker.now.at.home.now note.old }
    ensures seat { IsSeatAt N.at worker.now.at.home.now worker.now.workers worker.now.number object.now pass.new }
    ensures note { KeepsNote N.at N.own N.front note.old note.new }
    ensures gives { IsGiven (pool_gives stage) result }
    ensures works { (number : ℕ) → Works (pool_part number stage) (desk_at N.own N.front number (own_of pass.old) note.old) result (desk_at N.own N.front number (own_of pass.new) note.new) }
{
    match object {
        AnyObject::PoolPart(object) => match pass {
            AnyPass::PoolPart(pass) => part(rt, worker, object, pass, note, stage, &Eager),
            _ => unreachable!(),
        },
        _ => unreachable!(),
    }
}

// The same, of the part of a pool that is the object with this number.
fn part_at<N: Note, C: Clock, R: Wait>(
    rt: &R,
    worker: &Worker<N, C>,
    objects: &[AnyObject<N>],
    passes: &mut [AnyPass<N>],
    note: &mut N,
    number: usize,
    stage: PoolStage,
) -> Answer<Result<PoolOutcome, Misuse>>
    requires kind { IsObjectAt (HasWord words.Pool) objects.now number }
    requires seats { AreSeats N.at worker.now.at.home.now worker.now.workers worker.now.number objects.now passes.old }
    requires note { N.at worker.now.at.home.now note.old }
    ensures seats { AreSeats N.at worker.now.at.home.now worker.now.workers worker.now.number objects.now passes.new }
    ensures note { KeepsNote N.at N.own N.front note.old note.new }
    ensures gives { IsGiven (pool_gives stage) result }
    ensures works { Works (pool_part number stage) (desk_with N.own N.front (owns_of passes.old) note.old) result (desk_with N.own N.front (owns_of passes.new) note.new) }
{
    let object = &objects[number];
    let pass = &mut passes[number];
    part_of_pool(rt, worker, object, pass, note, stage)
}

// Takes an item that a look finds, or a new one, where none does. Each look is made at the part that it names.
fn get<N: Note, C: Clock, R: Wait>(
    rt: &R,
    worker: &Worker<N, C>,
    objects: &[AnyObject<N>],
    passes: &mut [AnyPass<N>],
    note: &mut N,
    first: usize,
) -> CallAnswer
    requires parts { ArePartsAt objects.now first worker.now.workers }
    requires room { first + worker.now.workers ≤ length objects.now }
    requires own { worker.now.number < worker.now.workers }
    requires seats { AreSeats N.at worker.now.at.home.now worker.now.workers worker.now.number objects.now passes.old }
    requires note { N.at worker.now.at.home.now note.old }
    ensures seats { AreSeats N.at worker.now.at.home.now worker.now.workers worker.now.number objects.now passes.new }
    ensures note { KeepsNote N.at N.own N.front note.old note.new }
    ensures works { Works (found_by worker.now.number first (looks_of worker.now.workers worker.now.number)) (desk_with N.own N.front (owns_of passes.old) note.old) result (desk_with N.own N.front (owns_of passes.new) note.new) }
{
    moves();
    let _count = objects.len();
    for nth in 0..2 * u64::from(worker.workers) {
        let stage = look_stage(worker.number, worker.workers, nth);
        let part = part_named(worker.number, stage);
        let number = first + part as usize;
        match part_at(rt, worker, objects, passes, note, number, stage) {
            Answer::Halted(misuse) => return Answer::Halted(misuse),
            Answer::Done(Err(misuse)) => return Answer::Done(Err(misuse)),
            Answer::Done(Ok(PoolOutcome::Nothing)) => {}
            Answer::Done(Ok(PoolOutcome::Item(item))) => {
                return Answer::Done(Ok(Reply::Pool(PoolCallReply::Put(item))));
            }
            Answer::Done(Ok(PoolOutcome::Kept)) => unreachable!(),
            Answer::Done(Ok(PoolOutcome::Dropped(_item))) => unreachable!(),
            Answer::Done(Ok(PoolOutcome::Swept)) => unreachable!(),
        }
    }
    Answer::Done(Ok(Reply::Pool(PoolCallReply::New)))
}

// Sweeps one part after the other, from 0 up.
fn sweep<N: Note, C: Clock, R: Wait>(
    rt: &R,
    worker: &Worker<N, C>,
    objects: &[AnyObject<N>],
    passes: &mut [AnyPass<N>],
    note: &mut N,
    first: usize,
) -> CallAnswer
    requires parts { ArePartsAt objects.now first worker.now.workers }
    requires room { first + worker.now.workers ≤ length objects.now }
    requires seats { AreSeats N.at worker.now.at.home.now worker.now.workers worker.now.number objects.now passes.old }
    requires note { N.at worker.now.at.home.now note.old }
    ensures seats { AreSeats N.at worker.now.at.home.now worker.now.workers worker.now.number objects.now passes.new }
    ensures note { KeepsNote N.at N.own N.front note.old note.new }
    ensures works { Works (swept_by first (range_with_len 0 worker.now.workers)) (desk_with N.own N.front (owns_of passes.old) note.old) result (desk_with N.own N.front (owns_of passes.new) note.new) }
{
    moves();
    let _count = objects.len();
    for part in 0..worker.workers {
        let number = first + part as usize;
        match part_at(rt, worker, objects, passes, note, number, PoolStage::Sweep) {
            Answer::Halted(misuse) => return Answer::Halted(misuse),
            Answer::Done(Err(misuse)) => return Answer::Done(Err(misuse)),
            Answer::Done(Ok(_outcome)) => {}
        }
    }
    Answer::Done(Ok(Reply::Pool(PoolCallReply::Done)))
}

/// Makes a call on the pool whose parts are the objects from this number on, one for each worker. An item is put into the
/// worker's own part.
pub(crate) fn call_pool<N: Note, C: Clock, R: Wait>(
    rt: &R,
    worker: &Worker<N, C>,
    objects: &[AnyObject<N>],
    passes: &mut [AnyPass<N>],
    note: &mut N,
    first: usize,
    call: PoolCall,
) -> CallAnswer
    requires parts { ArePartsAt objects.now first worker.now.workers }
    requires room { first + worker.now.workers ≤ length objects.now }
    requires own { worker.now.number < worker.now.workers }
    requires seats { AreSeats N.at worker.now.at.home.now worker.now.workers worker.now.number objects.now passes.old }
    requires note { N.at worker.now.at.home.now note.old }
    ensures seats { AreSeats N.at worker.now.at.home.now worker.now.workers worker.now.number objects.now passes.new }
    ensures note { KeepsNote N.at N.own N.front note.old note.new }
    ensures works { Works (pool_call worker.now.workers worker.now.number first call) (desk_with N.own N.front (owns_of passes.old) note.old) result (desk_with N.own N.front (owns_of passes.new) note.new) }
{
    let _count = objects.len();
    match call {
        PoolCall::Put(item) => {
            let own = first + worker.number as usize;
            let stage = PoolStage::Put(item);
            pool_done(part_at(rt, worker, objects, passes, note, own, stage))
        }
        PoolCall::Get => get(rt, worker, objects, passes, note, first),
        PoolCall::Sweep => sweep(rt, worker, objects, passes, note, first),
    }
}
