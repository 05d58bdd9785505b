//! The turn of a worker that stands before a call, at the objects of a run.
ghost use Rattle.std.specs.Prelude.{◌≡◌, ◌≢◌, ◌<◌, ◌≤◌, true, None, Some, slice_get, IfOk, OnOk};
ghost use Rattle.workload.specs.Plan.{has_call, reference_of};
ghost use Rattle.step_runner.specs.declared.turns.object_state.ObjectState.{ObjectState};
ghost use Rattle.step_runner.specs.Items.{items_on, items_on_both, items_at};
ghost use Rattle.step_runner.specs.Noted.{noted};
ghost use Rattle.step_runner.specs.Objects.{IsMachineOf, kind_of};
ghost use Rattle.step_runner.specs.Ready.{IsReady};
ghost use Rattle.step_runner.specs.TurnAtObjects.{turn_on, turn_on_both, with_both, turn_at};
ghost use Rattle.step_runner.specs.TurnWithin.{wait_on, on_group};

use crate::notes::Notes;
use crate::turns::answer::Answer;
use crate::turns::flight_turn::take_fly_turn;
use crate::turns::item::Item;
use crate::turns::laws::turns_keep_kinds_and_machines;
use crate::turns::lock_turn::{take_mutex_turn, take_rw_mutex_turn};
use crate::turns::object_state::ObjectState;
use crate::turns::once_turn::{take_once_func_turn, take_once_turn, take_once_value_turn};
use crate::turns::plain_turn::{
    take_atomic_turn, take_composed_turn, take_map_turn, take_range_turn, take_var_turn,
};
use crate::turns::pool_turn::take_pool_turn;
use crate::turns::stages::{Places, Taker};
use crate::turns::wait_turn::{take_cond_turn, take_sema_turn, take_wait_group_turn};
use script_calls::{Call, Operation};
use std::alloc::{AllocError, Global};
use std::mem;
use sync_types::{CondCall, Number, WaitGroupCall};

/// Takes a turn of a worker that stands before a call of this operation, at the call's object and by its
/// kind, where that object refers to no other.
fn take_turn_on(
    alloc: Global,
    object: &mut ObjectState,
    place: usize,
    operation: &Operation,
    taker: Taker,
    notes: &mut Notes<Item>,
) -> Result<Answer, AllocError>
    requires has { has_call (kind_of object.old) operation.now ≡ true }
    requires alone { reference_of (kind_of object.old) ≡ None }
    requires machine { IsMachineOf taker.workers object.old }
    requires worker { taker.worker < taker.workers }
    requires few { taker.workers ≤ 64 }
    ensures turn { IfOk result (λ answer. turn_on operation.now taker.worker taker.moment object.old ≡ (object.new, answer)) }
    ensures noted { OnOk result (notes.new ≡ noted (items_on operation.now taker.worker taker.moment place object.old) notes.old) }
{
    match operation {
        Operation::Map(call) => take_map_turn(alloc, object, place, call, taker, notes),
        Operation::Range => take_range_turn(alloc, object, place, taker, notes),
        Operation::Atomic(call) => take_atomic_turn(object, place, *call, taker, notes),
        Operation::Mutex(call) => take_mutex_turn(object, place, *call, taker, notes),
        Operation::RwMutex(call) => take_rw_mutex_turn(object, place, *call, taker, notes),
        Operation::WaitGroup(call) => take_wait_group_turn(object, place, *call, taker, notes),
        Operation::Sema(call) => take_sema_turn(object, place, *call, taker, notes),
        Operation::OnceFunc => take_once_func_turn(object, place, taker, notes),
        Operation::OnceValue => take_once_value_turn(object, place, taker, notes),
        Operation::Pool(call) => take_pool_turn(object, place, *call, taker, notes),
        Operation::Var(call) => take_var_turn(object, place, *call, taker, notes),
        Operation::Composed(call) => take_composed_turn(object, place, *call, taker, notes),
        Operation::Cond(_) | Operation::Once | Operation::Fly(_) => Ok(Answer::Still),
    }
}

/// Takes a turn at an object that refers to another one, the target.
fn take_turn_on_both(
    object: &mut ObjectState,
    target: &mut ObjectState,
    at: Places,
    operation: &Operation,
    taker: Taker,
    notes: &mut Notes<Item>,
) -> Result<Answer, AllocError>
    requires object { IsMachineOf taker.workers object.old }
    requires target { IsMachineOf taker.workers target.old }
    requires worker { taker.worker < taker.workers }
    ensures turn { IfOk result (λ answer. turn_on_both operation.now taker.worker taker.moment object.old target.old ≡ ((object.new, target.new), answer)) }
    ensures noted { OnOk result (notes.new ≡ noted (items_on_both operation.now taker.worker taker.moment at.object at.target object.old target.old) notes.old) }
{
    match operation {
        Operation::Cond(call) => take_cond_turn(object, target, at, *call, taker, notes),
        Operation::Once => take_once_turn(object, target, at, taker, notes),
        Operation::Fly(key) => take_fly_turn(object, target, at, key, taker, notes),
        _ => Ok(Answer::Still),
    }
}

/// Takes a turn at the object at a place and at the one to which it refers, which leaves every other object
/// alone. While its turn is taken, the first one stands beside the others.
fn take_turn_at_both(
    objects: &mut [ObjectState],
    at: Places,
    operation: &Operation,
    taker: Taker,
    notes: &mut Notes<Item>,
) -> Result<Answer, AllocError>
    requires object { (object : ObjectState) × (slice_get objects.old at.object ≡ Some object) × IsMachineOf taker.workers object }
    requires target { (target : ObjectState) × (slice_get objects.old at.target ≡ Some target) × IsMachineOf taker.workers target }
    requires apart { at.target ≢ at.object }
    requires worker { taker.worker < taker.workers }
    ensures turn { IfOk result (λ answer. (object target : ObjectState) → slice_get objects.old at.object ≡ Some object → slice_get objects.old at.target ≡ Some target
        → with_both at.object at.target objects.old (turn_on_both operation.now taker.worker taker.moment object target) ≡ (objects.new, answer)) }
    ensures noted { OnOk result ((object target : ObjectState) → slice_get objects.old at.object ≡ Some object → slice_get objects.old at.target ≡ Some target
        → notes.new ≡ noted (items_on_both operation.now taker.worker taker.moment at.object at.target object target) notes.old) }
{
    let beside = ObjectState::Atomic(Number::Bool(false));
    let mut object = mem::replace(&mut objects[at.object], beside);
    let answer = take_turn_on_both(
        &mut object,
        &mut objects[at.target],
        at,
        operation,
        taker,
        notes,
    );
    objects[at.object] = object;
    answer
}

/// Takes a turn of a worker that stands before the call: the call's object, and the one to which that
/// refers, are changed by it, and no other. What it makes is noted. Only want of memory is an `Err`.
pub fn take_turn_at(
    alloc: Global,
    objects: &mut [ObjectState],
    call: &Call,
    taker: Taker,
    notes: &mut Notes<Item>,
) -> Result<Answer, AllocError>
    requires ready { IsReady taker.workers taker.worker call.now objects.old }
    requires few { taker.workers ≤ 64 }
    ensures turn { IfOk result (λ answer. turn_at call.now taker.worker taker.moment objects.old ≡ (objects.new, answer)) }
    ensures noted { OnOk result (notes.new ≡ noted (items_at call.now taker.worker taker.moment objects.old) notes.old) }
{
    let object = call.object;
    match objects[object].refers_to() {
        None => take_turn_on(
            alloc,
            &mut objects[object],
            object,
            &call.operation,
            taker,
            notes,
        ),
        Some(target) => {
            let at = Places { object, target };
            take_turn_at_both(objects, at, &call.operation, taker, notes)
        }
    }
}

/// Takes a turn of a wait on the cond at a place. Behind it the worker is ready for another one.
pub(crate) fn take_wait_turn(
    objects: &mut [ObjectState],
    cond: usize,
    taker: Taker,
    notes: &mut Notes<Item>,
) -> Result<Answer, AllocError>
    requires { IsReady taker.workers taker.worker (wait_on cond) objects.old }
    ensures turn { IfOk result (λ answer. turn_at (wait_on cond) taker.worker taker.moment objects.old ≡ (objects.new, answer)) }
    ensures ready { OnOk result (IsReady taker.workers taker.worker (wait_on cond) objects.new) }
    ensures noted { OnOk result (notes.new ≡ noted (items_at (wait_on cond) taker.worker taker.moment objects.old) notes.old) }
{
    turns_keep_kinds_and_machines();
    match objects[cond].refers_to() {
        None => Ok(Answer::Still),
        Some(mutex) => {
            let wait = Operation::Cond(CondCall::Wait);
            let at = Places {
                object: cond,
                target: mutex,
            };
            take_turn_at_both(objects, at, &wait, taker, notes)
        }
    }
}

/// Takes a turn of a call of the wait group at a place, which refers to no other object.
pub(crate) fn take_group_turn(
    objects: &mut [ObjectState],
    group: usize,
    call: WaitGroupCall,
    taker: Taker,
    notes: &mut Notes<Item>,
) -> Result<Answer, AllocError>
    requires { IsReady taker.workers taker.worker (on_group group call) objects.old }
    ensures turn { IfOk result (λ answer. turn_at (on_group group call) taker.worker taker.moment objects.old ≡ (objects.new, answer)) }
    ensures noted { OnOk result (notes.new ≡ noted (items_at (on_group group call) taker.worker taker.moment objects.old) notes.old) }
{
    take_wait_group_turn(&mut objects[group], group, call, taker, notes)
}
