//! `waitfor`: tests of an atomic, and waits on a cond between them.
ghost use Rattle.std.specs.Prelude.{◌≡◌, ◌+◌, ◌<◌, length};
ghost use Rattle.sync_types.specs.declared.atomic_object.AtomicKind.{AtomicKind};
ghost use Rattle.sync_model.specs.Shared.{IsCallerAt};
ghost use Rattle.workload.specs.declared.object.ObjectKind.TheVariants.{Atomic};
ghost use Rattle.workload.specs.declared.object.ObjectWord.TheVariants as words;
ghost use Rattle.run_record.specs.Objects.{atomic_number};
ghost use Rattle.run_record.specs.Record.{object_number};
ghost use Rattle.run_record.specs.Tests.{wait_for_call, waits_for};
ghost use Rattle.thread_objects.specs.Calling.{HasCalled};
ghost use Rattle.thread_objects.specs.Catalog.{HasAtomics, IsAt};
ghost use Rattle.thread_objects.specs.Desks.{AreSeats, IsObjectAt};
ghost use Rattle.thread_objects.specs.Kinds.{HasWord};
ghost use Rattle.thread_objects.specs.Passes.{owns_of};
ghost use Rattle.thread_objects.specs.Working.{Works, desk_with};
ghost use Rattle.thread_runner.specs.Replies.{is_unmet};

use crate::by_number::wait_at;
use crate::composed::testing::{compared, test_at};
use std::sync::Wait;
use sync_model::{Answer, Caller, Shared};
use sync_outside::Clock;
use sync_types::{Misuse, Number};
use thread_objects::parts::laws::{moves, what_a_call_leaves, what_calls_spend};
use thread_objects::{AnyObject, AnyPass, CallAnswer, Catalog, Worker};

// Whether a test found another number.
fn is_unmet(tested: &Answer<Result<bool, Misuse>>) -> bool
    ensures { result ≡ is_unmet tested.now }
{
    matches!(tested, Answer::Done(Ok(false)))
}

// Tests the atomic at a place. While it doesn't hold the number, and fewer waits were made than these tries, it waits on the cond
// at a place, whose mutex is at another one, and tests the atomic again. It answers the last test. Nothing is taken off the calls
// that a pass is good for, so the tries need no room there.
fn wait_until<S: Shared, C: Clock, R: Wait>(
    rt: &R,
    worker: &Worker<S::Mark, C>,
    catalog: &Catalog<S>,
    caller: &mut Caller<S::Mark>,
    objects: &[AnyObject<S::Mark>],
    passes: &mut [AnyPass<S::Mark>],
    place: usize,
    mutex: usize,
    atomic: usize,
    value: Number,
    tries: u32,
) -> Answer<Result<bool, Misuse>>
    requires cond { IsObjectAt (HasWord words.Cond) objects.now (object_number place) }
    requires mutex { IsObjectAt (HasWord words.Mutex) objects.now (object_number mutex) }
    requires room { (place + 1 < length objects.now) × (mutex + 1 < length objects.now) }
    requires atomics { HasAtomics catalog.now.workload.now (S.kinds catalog.now.shared.now) catalog.now.numbers.now }
    requires atomic { (type : AtomicKind) × IsAt catalog.now.workload.now atomic (Atomic type) }
    requires homes { S.home_of catalog.now.shared.now ≡ worker.now.at.home.now }
    requires seats { AreSeats S.Mark.at worker.now.at.home.now worker.now.workers worker.now.number objects.now passes.old }
    requires caller { IsCallerAt S.Mark.at S.Mark.own (S.home_of catalog.now.shared.now) caller.old }
    ensures seats { AreSeats S.Mark.at worker.now.at.home.now worker.now.workers worker.now.number objects.now passes.new }
    ensures called { HasCalled S.Mark.at S.Mark.own catalog.now.workload.now 0 caller.old.note caller.new.note }
    ensures works { Works (waits_for (object_number place) (object_number mutex) (atomic_number catalog.now.workload.now.objects atomic) value tries)
        (desk_with S.Mark.own S.Mark.front (owns_of passes.old) caller.old.note) result (desk_with S.Mark.own S.Mark.front (owns_of passes.new) caller.new.note) }
{
    moves();
    what_a_call_leaves::<S::Mark>();
    what_calls_spend::<S::Mark>();
    for _made in 0..tries {
        let tested = test_at(rt, catalog, caller, atomic, value);
        if !is_unmet(&tested) {
            return tested;
        }
        match wait_at(rt, worker, objects, passes, &mut caller.note, place, mutex) {
            Answer::Done(Ok(_returned)) => {}
            Answer::Done(Err(misuse)) => return Answer::Done(Err(misuse)),
            Answer::Halted(misuse) => return Answer::Halted(misuse),
        }
    }
    test_at(rt, catalog, caller, atomic, value)
}

/// Makes a `waitfor` on the cond at a place, whose mutex is at another one: it waits there until the atomic holds the number, but
/// no more often than these tries. It answers whether the last load of the atomic found the number. It may wait for other callers.
pub(crate) fn wait_for_at<S: Shared, C: Clock, R: Wait>(
    rt: &R,
    worker: &Worker<S::Mark, C>,
    catalog: &Catalog<S>,
    caller: &mut Caller<S::Mark>,
    objects: &[AnyObject<S::Mark>],
    passes: &mut [AnyPass<S::Mark>],
    place: usize,
    mutex: usize,
    atomic: usize,
    value: Number,
    tries: u32,
) -> CallAnswer
    requires cond { IsObjectAt (HasWord words.Cond) objects.now (object_number place) }
    requires mutex { IsObjectAt (HasWord words.Mutex) objects.now (object_number mutex) }
    requires room { (place + 1 < length objects.now) × (mutex + 1 < length objects.now) }
    requires atomics { HasAtomics catalog.now.workload.now (S.kinds catalog.now.shared.now) catalog.now.numbers.now }
    requires atomic { (type : AtomicKind) × IsAt catalog.now.workload.now atomic (Atomic type) }
    requires homes { S.home_of catalog.now.shared.now ≡ worker.now.at.home.now }
    requires seats { AreSeats S.Mark.at worker.now.at.home.now worker.now.workers worker.now.number objects.now passes.old }
    requires caller { IsCallerAt S.Mark.at S.Mark.own (S.home_of catalog.now.shared.now) caller.old }
    ensures seats { AreSeats S.Mark.at worker.now.at.home.now worker.now.workers worker.now.number objects.now passes.new }
    ensures called { HasCalled S.Mark.at S.Mark.own catalog.now.workload.now 0 caller.old.note caller.new.note }
    ensures works { Works (wait_for_call (object_number place) (object_number mutex) (atomic_number catalog.now.workload.now.objects atomic) value tries)
        (desk_with S.Mark.own S.Mark.front (owns_of passes.old) caller.old.note) result (desk_with S.Mark.own S.Mark.front (owns_of passes.new) caller.new.note) }
{
    compared(wait_until(
        rt, worker, catalog, caller, objects, passes, place, mutex, atomic, value, tries,
    ))
}
