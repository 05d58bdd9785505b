//! The turns of a worker that stands before a call of a wait group, of a semaphore or of a cond.
ghost use Rattle.std.specs.Prelude.{◌≡◌, ℕ, ◌<◌, IfOk, OnOk};
ghost use Rattle.mutex_core.specs.MutexMachine as mutex_machine;
ghost use Rattle.script_calls.specs.declared.call.Operation.TheVariants as operations;
ghost use Rattle.wait_cores.specs.GroupMachine as group_machine;
ghost use Rattle.wait_cores.specs.NotifyMachine as notify_machine;
ghost use Rattle.sema_core.specs.SemaMachine as sema_machine;
ghost use Rattle.step_runner.specs.declared.turns.object_state.ObjectState.TheVariants as states;
ghost use Rattle.step_runner.specs.Items.{items_on, items_on_both};
ghost use Rattle.step_runner.specs.Noted.{noted};
ghost use Rattle.step_runner.specs.TurnAtObjects.{turn_on, turn_on_both};

use crate::notes::Notes;
use crate::turns::answer::Answer;
use crate::turns::due::{cond_answer, cond_due, locked, returned};
use crate::turns::item::Item;
use crate::turns::object_state::ObjectState;
use crate::turns::stages::{Places, Taker, make};
use crate::turns::turn_kind::TurnKind;
use mutex_core::MutexCore;
use script_calls::Reply;
use sema_core::SemaCore;
use std::alloc::AllocError;
use sync_types::{CondCall, SemaCall, WaitGroupCall};
use wait_cores::{GroupCore, NotifyCore};

/// Takes a turn before a call of a wait group.
pub(crate) fn take_wait_group_turn(
    object: &mut ObjectState,
    place: usize,
    call: WaitGroupCall,
    taker: Taker,
    notes: &mut Notes<Item>,
) -> Result<Answer, AllocError>
    requires { (g : group_machine.GroupState) (first : ℕ) → object.old ≡ states.WaitGroup g first → taker.worker < group_machine.callers_of g }
    ensures turn { IfOk result (λ answer. turn_on (operations.WaitGroup call) taker.worker taker.moment object.old ≡ (object.new, answer)) }
    ensures noted { OnOk result (notes.new ≡ noted (items_on (operations.WaitGroup call) taker.worker taker.moment place object.old) notes.old) }
{
    match object {
        ObjectState::WaitGroup { group, .. } => {
            let due = GroupCore::due(call, group, taker.worker);
            Ok(returned(make::<GroupCore>(due, group, place, taker, notes)?))
        }
        _ => Ok(Answer::Still),
    }
}

/// Takes a turn before a call of a semaphore.
pub(crate) fn take_sema_turn(
    object: &mut ObjectState,
    place: usize,
    call: SemaCall,
    taker: Taker,
    notes: &mut Notes<Item>,
) -> Result<Answer, AllocError>
    requires { (s : sema_machine.SemaState) (size : ℕ) → object.old ≡ states.Sema s size → taker.worker < sema_machine.callers_of s }
    ensures turn { IfOk result (λ answer. turn_on (operations.Sema call) taker.worker taker.moment object.old ≡ (object.new, answer)) }
    ensures noted { OnOk result (notes.new ≡ noted (items_on (operations.Sema call) taker.worker taker.moment place object.old) notes.old) }
{
    match object {
        ObjectState::Sema { sema, .. } => {
            let due = SemaCore::due(call, sema, taker.worker);
            Ok(locked(make::<SemaCore>(due, sema, place, taker, notes)?))
        }
        _ => Ok(Answer::Still),
    }
}

/// Takes a turn before a call of a cond with this mutex. What the stage at the cond comes to is not looked
/// at: a ticket, a signal and a broadcast are made at once, and only a notified worker leaves.
fn take_turn_by_call(
    cond: &mut NotifyCore,
    mutex: &mut MutexCore,
    at: Places,
    call: CondCall,
    taker: Taker,
    notes: &mut Notes<Item>,
) -> Result<Answer, AllocError>
    requires at_cond { taker.worker < notify_machine.callers_of cond.old }
    requires at_mutex { taker.worker < mutex.old.callers }
    ensures turn { IfOk result (λ answer. (place : ℕ) → turn_on_both (operations.Cond call) taker.worker taker.moment (states.Cond cond.old place) (states.Mutex mutex.old) ≡ ((states.Cond cond.new place, states.Mutex mutex.new), answer)) }
    ensures noted { OnOk result ((place : ℕ) → notes.new ≡ noted (items_on_both (operations.Cond call) taker.worker taker.moment at.object at.target (states.Cond cond.old place) (states.Mutex mutex.old)) notes.old) }
{
    let due = cond_due(call, mutex.place(taker.worker), cond.place(taker.worker));
    let _made = make::<NotifyCore>(due.0, cond, at.object, taker, notes)?;
    let locked = make::<MutexCore>(due.1, mutex, at.target, taker, notes)?;
    Ok(cond_answer(call, due.1, locked))
}

/// Takes a turn before a call of a cond, whose mutex the target is.
pub(crate) fn take_cond_turn(
    object: &mut ObjectState,
    target: &mut ObjectState,
    at: Places,
    call: CondCall,
    taker: Taker,
    notes: &mut Notes<Item>,
) -> Result<Answer, AllocError>
    requires at_cond { (c : notify_machine.NotifyState) (place : ℕ) → object.old ≡ states.Cond c place → taker.worker < notify_machine.callers_of c }
    requires at_mutex { (m : mutex_machine.State) → target.old ≡ states.Mutex m → taker.worker < m.callers }
    ensures turn { IfOk result (λ answer. turn_on_both (operations.Cond call) taker.worker taker.moment object.old target.old ≡ ((object.new, target.new), answer)) }
    ensures noted { OnOk result (notes.new ≡ noted (items_on_both (operations.Cond call) taker.worker taker.moment at.object at.target object.old target.old) notes.old) }
{
    match object {
        ObjectState::Cond { cond, .. } => match target {
            ObjectState::Mutex(mutex) => take_turn_by_call(cond, mutex, at, call, taker, notes),
            _ => Ok(Answer::Still),
        },
        _ => Ok(Answer::Still),
    }
}
