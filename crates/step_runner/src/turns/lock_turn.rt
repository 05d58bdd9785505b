//! The turns of a worker that stands before a call of a mutex or of a reader/writer mutex.
ghost use Rattle.std.specs.Prelude.{◌≡◌, ◌<◌, IfOk, OnOk};
ghost use Rattle.mutex_core.specs.MutexMachine as mutex_machine;
ghost use Rattle.rw_core.specs.RwMachine as rw_machine;
ghost use Rattle.script_calls.specs.declared.call.Operation.TheVariants as operations;
ghost use Rattle.step_runner.specs.declared.turns.object_state.ObjectState.TheVariants as states;
ghost use Rattle.step_runner.specs.Items.{items_on};
ghost use Rattle.step_runner.specs.Noted.{noted};
ghost use Rattle.step_runner.specs.TurnAtObjects.{turn_on};

use crate::notes::Notes;
use crate::turns::answer::Answer;
use crate::turns::due::{locked, mutex_due, rw_due};
use crate::turns::item::Item;
use crate::turns::object_state::ObjectState;
use crate::turns::stages::{Taker, make};
use mutex_core::MutexCore;
use rw_core::RwCore;
use std::alloc::AllocError;
use sync_types::{MutexCall, RwMutexCall};

/// Takes a turn before a call of a mutex.
pub(crate) fn take_mutex_turn(
    object: &mut ObjectState,
    place: usize,
    call: MutexCall,
    taker: Taker,
    notes: &mut Notes<Item>,
) -> Result<Answer, AllocError>
    requires { (m : mutex_machine.State) → object.old ≡ states.Mutex m → taker.worker < m.callers }
    ensures turn { IfOk result (λ answer. turn_on (operations.Mutex call) taker.worker taker.moment object.old ≡ (object.new, answer)) }
    ensures noted { OnOk result (notes.new ≡ noted (items_on (operations.Mutex call) taker.worker taker.moment place object.old) notes.old) }
{
    match object {
        ObjectState::Mutex(mutex) => {
            let due = mutex_due(call, mutex.place(taker.worker));
            Ok(locked(make::<MutexCore>(due, mutex, place, taker, notes)?))
        }
        _ => Ok(Answer::Still),
    }
}

/// Takes a turn before a call of a reader/writer mutex.
pub(crate) fn take_rw_mutex_turn(
    object: &mut ObjectState,
    place: usize,
    call: RwMutexCall,
    taker: Taker,
    notes: &mut Notes<Item>,
) -> Result<Answer, AllocError>
    requires { (m : rw_machine.State) → object.old ≡ states.RwMutex m → taker.worker < m.callers }
    ensures turn { IfOk result (λ answer. turn_on (operations.RwMutex call) taker.worker taker.moment object.old ≡ (object.new, answer)) }
    ensures noted { OnOk result (notes.new ≡ noted (items_on (operations.RwMutex call) taker.worker taker.moment place object.old) notes.old) }
{
    match object {
        ObjectState::RwMutex(lock) => {
            let due = rw_due(call, lock.place(taker.worker));
            Ok(locked(make::<RwCore>(due, lock, place, taker, notes)?))
        }
        _ => Ok(Answer::Still),
    }
}
