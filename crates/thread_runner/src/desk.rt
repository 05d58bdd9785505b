//! Parts of calls, by the number of their object.
ghost use Rattle.std.specs.Prelude.{ℕ, ◌≡◌, true, false};
ghost use Rattle.mutex_core.specs.MutexMachine.{State};
ghost use Rattle.wait_cores.specs.GroupMachine.{GroupState};
ghost use Rattle.protocols.specs.GroupStages.{group_allows};
ghost use Rattle.protocols.specs.MutexStages.{mutex_allows};
ghost use Rattle.workload.specs.declared.object.ObjectWord.TheVariants as words;
ghost use Rattle.ruled_object.specs.Growth.{KeepsNote};
ghost use Rattle.run_record.specs.CondKind.{cond_part};
ghost use Rattle.run_record.specs.MutexKind.{mutex_part};
ghost use Rattle.run_record.specs.WaitGroupKind.{wait_group_part};
ghost use Rattle.thread_objects.specs.Desks.{AreSeats, IsObjectAt};
ghost use Rattle.thread_objects.specs.ByKind.{own_of};
ghost use Rattle.thread_objects.specs.Kinds.{HasWord};
ghost use Rattle.thread_objects.specs.Passes.{IsSeatAt, owns_of};
ghost use Rattle.thread_objects.specs.Working.{Works, desk_at, desk_with};

use call_loop::{Eager, Lazy};
use protocols::{CondStage, GroupStage, MutexStage};
use std::sync::Wait;
use sync_model::{Answer, Note};
use sync_outside::Clock;
use sync_types::{LockReply, Misuse};
use thread_objects::{AnyObject, AnyPass, Worker, part};

// Makes a part of a call on a mutex, which may wait.
fn part_of_mutex<N: Note, C: Clock, R: Wait>(
    rt: &R,
    worker: &Worker<N, C>,
    object: &AnyObject<N>,
    pass: &mut AnyPass<N>,
    note: &mut N,
    stage: MutexStage,
) -> Answer<Result<LockReply, Misuse>>
    requires kind { HasWord words.Mutex object.now }
    requires seat { IsSeatAt N.at worker.now.at.home.now worker.now.workers worker.now.number object.now pass.old }
    requires note { N.at worker.now.at.home.now note.old }
    requires allowed { (start : State) → mutex_allows start false stage ≡ true }
    ensures seat { IsSeatAt N.at worker.now.at.home.now worker.now.workers worker.now.number object.now pass.new }
    ensures note { KeepsNote N.at N.own N.front note.old note.new }
    ensures works { (number : ℕ) → Works (mutex_part number stage) (desk_at N.own N.front number (own_of pass.old) note.old) result (desk_at N.own N.front number (own_of pass.new) note.new) }
{
    match object {
        AnyObject::Mutex(object) => match pass {
            AnyPass::Mutex(pass) => part(rt, worker, object, pass, note, stage, &Lazy),
            _ => unreachable!(),
        },
        _ => unreachable!(),
    }
}

/// Makes a part of a call on the mutex with this number.
pub(crate) fn mutex_at<N: Note, C: Clock, R: Wait>(
    rt: &R,
    worker: &Worker<N, C>,
    objects: &[AnyObject<N>],
    passes: &mut [AnyPass<N>],
    note: &mut N,
    number: usize,
    stage: MutexStage,
) -> Answer<Result<LockReply, Misuse>>
    requires kind { IsObjectAt (HasWord words.Mutex) objects.now number }
    requires seats { AreSeats N.at worker.now.at.home.now worker.now.workers worker.now.number objects.now passes.old }
    requires note { N.at worker.now.at.home.now note.old }
    requires allowed { (start : State) → mutex_allows start false stage ≡ true }
    ensures seats { AreSeats N.at worker.now.at.home.now worker.now.workers worker.now.number objects.now passes.new }
    ensures note { KeepsNote N.at N.own N.front note.old note.new }
    ensures works { Works (mutex_part number stage) (desk_with N.own N.front (owns_of passes.old) note.old) result (desk_with N.own N.front (owns_of passes.new) note.new) }
{
    let object = &objects[number];
    let pass = &mut passes[number];
    part_of_mutex(rt, worker, object, pass, note, stage)
}

// Makes a part of a call on a cond, which may wait.
fn part_of_cond<N: Note, C: Clock, R: Wait>(
    rt: &R,
    worker: &Worker<N, C>,
    object: &AnyObject<N>,
    pass: &mut AnyPass<N>,
    note: &mut N,
    stage: CondStage,
) -> Answer<Result<(), Misuse>>
    requires kind { HasWord words.Cond object.now }
    requires seat { IsSeatAt N.at worker.now.at.home.now worker.now.workers worker.now.number object.now pass.old }
    requires note { N.at worker.now.at.home.now note.old }
    ensures seat { IsSeatAt N.at worker.now.at.home.now worker.now.workers worker.now.number object.now pass.new }
    ensures note { KeepsNote N.at N.own N.front note.old note.new }
    ensures works { (number : ℕ) → Works (cond_part number stage) (desk_at N.own N.front number (own_of pass.old) note.old) result (desk_at N.own N.front number (own_of pass.new) note.new) }
{
    match object {
        AnyObject::Cond(object) => match pass {
            AnyPass::Cond(pass) => part(rt, worker, object, pass, note, stage, &Eager),
            _ => unreachable!(),
        },
        _ => unreachable!(),
    }
}

/// Makes a part of a call on the cond with this number.
pub(crate) fn cond_at<N: Note, C: Clock, R: Wait>(
    rt: &R,
    worker: &Worker<N, C>,
    objects: &[AnyObject<N>],
    passes: &mut [AnyPass<N>],
    note: &mut N,
    number: usize,
    stage: CondStage,
) -> Answer<Result<(), Misuse>>
    requires kind { IsObjectAt (HasWord words.Cond) objects.now number }
    requires seats { AreSeats N.at worker.now.at.home.now worker.now.workers worker.now.number objects.now passes.old }
    requires note { N.at worker.now.at.home.now note.old }
    ensures seats { AreSeats N.at worker.now.at.home.now worker.now.workers worker.now.number objects.now passes.new }
    ensures note { KeepsNote N.at N.own N.front note.old note.new }
    ensures works { Works (cond_part number stage) (desk_with N.own N.front (owns_of passes.old) note.old) result (desk_with N.own N.front (owns_of passes.new) note.new) }
{
    let object = &objects[number];
    let pass = &mut passes[number];
    part_of_cond(rt, worker, object, pass, note, stage)
}

// Makes a part of a call on a wait group, which may wait.
fn part_of_group<N: Note, C: Clock, R: Wait>(
    rt: &R,
    worker: &Worker<N, C>,
    object: &AnyObject<N>,
    pass: &mut AnyPass<N>,
    note: &mut N,
    stage: GroupStage,
) -> Answer<Result<(), Misuse>>
    requires kind { HasWord words.WaitGroup object.now }
    requires seat { IsSeatAt N.at worker.now.at.home.now worker.now.workers worker.now.number object.now pass.old }
    requires note { N.at worker.now.at.home.now note.old }
    requires allowed { (start : GroupState) → group_allows start false stage ≡ true }
    ensures seat { IsSeatAt N.at worker.now.at.home.now worker.now.workers worker.now.number object.now pass.new }
    ensures note { KeepsNote N.at N.own N.front note.old note.new }
    ensures works { (number : ℕ) → Works (wait_group_part number stage) (desk_at N.own N.front number (own_of pass.old) note.old) result (desk_at N.own N.front number (own_of pass.new) note.new) }
{
    match object {
        AnyObject::WaitGroup(object) => match pass {
            AnyPass::WaitGroup(pass) => part(rt, worker, object, pass, note, stage, &Eager),
            _ => unreachable!(),
        },
        _ => unreachable!(),
    }
}

/// Makes a part of a call on the wait group with this number.
pub(crate) fn group_at<N: Note, C: Clock, R: Wait>(
    rt: &R,
    worker: &Worker<N, C>,
    objects: &[AnyObject<N>],
    passes: &mut [AnyPass<N>],
    note: &mut N,
    number: usize,
    stage: GroupStage,
) -> Answer<Result<(), Misuse>>
    requires kind { IsObjectAt (HasWord words.WaitGroup) objects.now number }
    requires seats { AreSeats N.at worker.now.at.home.now worker.now.workers worker.now.number objects.now passes.old }
    requires note { N.at worker.now.at.home.now note.old }
    requires allowed { (start : GroupState) → group_allows start false stage ≡ true }
    ensures seats { AreSeats N.at worker.now.at.home.now worker.now.workers worker.now.number objects.now passes.new }
    ensures note { KeepsNote N.at N.own N.front note.old note.new }
    ensures works { Works (wait_group_part number stage) (desk_with N.own N.front (owns_of passes.old) note.old) result (desk_with N.own N.front (owns_of passes.new) note.new) }
{
    let object = &objects[number];
    let pass = &mut passes[number];
    part_of_group(rt, worker, object, pass, note, stage)
}
