//! Calls by the place of their object.
ghost use Rattle.std.specs.Prelude.{◌≡◌, ℕ, ◌+◌, ◌<◌, true, length, IfSome, IfNone};
ghost use Rattle.sync_model.specs.Shared.{IsCallerAt, items_of};
ghost use Rattle.protocols.specs.declared.wait_group.GroupStage.TheVariants as stages;
ghost use Rattle.workload.specs.declared.object.ObjectWord.TheVariants as words;
ghost use Rattle.workload.specs.Keys.{keys_in, operation_number};
ghost use Rattle.workload.specs.Plan.{refers};
ghost use Rattle.ruled_object.specs.Growth.{KeepsNote};
ghost use Rattle.run_record.specs.Calls.{call_on};
ghost use Rattle.run_record.specs.CondKind.{wait_part};
ghost use Rattle.run_record.specs.Record.{object_number};
ghost use Rattle.run_record.specs.WaitGroupKind.{wait_group_part};
ghost use Rattle.thread_objects.specs.Calling.{HasCalled};
ghost use Rattle.thread_objects.specs.Catalog.{HasAtomics};
ghost use Rattle.thread_objects.specs.GivenUp.{GaveUp};
ghost use Rattle.thread_objects.specs.Working.{Works, desk_with};
ghost use Rattle.thread_objects.specs.Alone.{IsCallAlone};
ghost use Rattle.thread_objects.specs.Desks.{AreSeats, IsObjectAt};
ghost use Rattle.thread_objects.specs.Kinds.{HasWord, IsOfKind};
ghost use Rattle.thread_objects.specs.Passes.{owns_of};

use crate::desk::group_at;
use crate::wait::wait;
use protocols::GroupStage;
use script_calls::Operation;
use std::sync::Wait;
use sync_model::{Answer, Caller, Note, Shared};
use sync_outside::Clock;
use sync_types::Misuse;
use thread_objects::{AnyObject, AnyPass, CallAnswer, Catalog, Worker, call_any};
use workload::ObjectKind;

/// Makes a call on the object at a place among the workload's objects, which is of this kind, and on no other one but maps and
/// atomics; `key` is the number of its key. `None`, where it gives the call up, since it has seen what can't be.
pub(crate) fn object_at<S: Shared, C: Clock, R: Wait>(
    rt: &R,
    worker: &Worker<S::Mark, C>,
    catalog: &Catalog<S>,
    caller: &mut Caller<S::Mark>,
    objects: &[AnyObject<S::Mark>],
    passes: &mut [AnyPass<S::Mark>],
    place: usize,
    kind: ObjectKind,
    operation: &Operation,
    key: u32,
) -> Option<CallAnswer>
    requires alone { IsCallAlone kind operation.now }
    requires key { key ≡ operation_number (keys_in catalog.now.workload.now.scripts) operation.now }
    requires kind { IsObjectAt (IsOfKind kind) objects.now (object_number place) }
    requires room { place + 1 < length objects.now }
    requires reference { refers catalog.now.workload.now.objects kind ≡ true }
    requires atomics { HasAtomics catalog.now.workload.now (S.kinds catalog.now.shared.now) catalog.now.numbers.now }
    requires seats { AreSeats S.Mark.at worker.now.at.home.now worker.now.workers worker.now.number objects.now passes.old }
    requires caller { IsCallerAt S.Mark.at S.Mark.own (S.home_of catalog.now.shared.now) caller.old }
    requires note { S.Mark.at worker.now.at.home.now caller.old.note }
    ensures seats { AreSeats S.Mark.at worker.now.at.home.now worker.now.workers worker.now.number objects.now passes.new }
    ensures called { HasCalled S.Mark.at S.Mark.own catalog.now.workload.now 0 caller.old.note caller.new.note }
    ensures given_up { IfNone result (GaveUp catalog.now.workload.now (items_of (S.Mark.own caller.new.note))) }
    ensures works { IfSome result (λ answer. (before : ℕ)
        → Works (call_on catalog.now.workload.now worker.now.number before place kind operation.now) (desk_with S.Mark.own S.Mark.front (owns_of passes.old) caller.old.note) answer (desk_with S.Mark.own S.Mark.front (owns_of passes.new) caller.new.note)) }
{
    let _count = objects.len();
    let number = place + 1;
    let object = &objects[number];
    let pass = &mut passes[number];
    call_any(
        rt, worker, catalog, caller, object, pass, kind, operation, key,
    )
}

/// Waits on the cond at a place, whose mutex is at that one.
pub(crate) fn wait_at<N: Note, C: Clock, R: Wait>(
    rt: &R,
    worker: &Worker<N, C>,
    objects: &[AnyObject<N>],
    passes: &mut [AnyPass<N>],
    note: &mut N,
    place: usize,
    mutex: usize,
) -> CallAnswer
    requires cond { IsObjectAt (HasWord words.Cond) objects.now (object_number place) }
    requires mutex { IsObjectAt (HasWord words.Mutex) objects.now (object_number mutex) }
    requires room { (place + 1 < length objects.now) × (mutex + 1 < length objects.now) }
    requires seats { AreSeats N.at worker.now.at.home.now worker.now.workers worker.now.number objects.now passes.old }
    requires note { N.at worker.now.at.home.now note.old }
    ensures seats { AreSeats N.at worker.now.at.home.now worker.now.workers worker.now.number objects.now passes.new }
    ensures note { KeepsNote N.at N.own N.front note.old note.new }
    ensures works { Works (wait_part (object_number place) (object_number mutex)) (desk_with N.own N.front (owns_of passes.old) note.old) result (desk_with N.own N.front (owns_of passes.new) note.new) }
{
    let _count = objects.len();
    wait(rt, worker, objects, passes, note, place + 1, mutex + 1)
}

/// Makes a `done` on the wait group at a place. It waits for nobody.
pub(crate) fn done_at<N: Note, C: Clock, R: Wait>(
    rt: &R,
    worker: &Worker<N, C>,
    objects: &[AnyObject<N>],
    passes: &mut [AnyPass<N>],
    note: &mut N,
    place: usize,
) -> Answer<Result<(), Misuse>>
    requires group { IsObjectAt (HasWord words.WaitGroup) objects.now (object_number place) }
    requires room { place + 1 < length objects.now }
    requires seats { AreSeats N.at worker.now.at.home.now worker.now.workers worker.now.number objects.now passes.old }
    requires note { N.at worker.now.at.home.now note.old }
    ensures seats { AreSeats N.at worker.now.at.home.now worker.now.workers worker.now.number objects.now passes.new }
    ensures note { KeepsNote N.at N.own N.front note.old note.new }
    ensures works { Works (wait_group_part (object_number place) stages.Done) (desk_with N.own N.front (owns_of passes.old) note.old) result (desk_with N.own N.front (owns_of passes.new) note.new) }
{
    let _count = objects.len();
    let done = GroupStage::Done;
    group_at(rt, worker, objects, passes, note, place + 1, done)
}
