//! The turns of a worker that stands before a call of a map, of an atomic or of a plain variable: the whole call.
ghost use Rattle.std.specs.Prelude.{◌≡◌, true, IfOk, OnOk};
ghost use Rattle.sync_types.specs.SequentialAtomic.{is_atomic_call};
ghost use Rattle.sync_types.specs.declared.atomic_object.AtomicKind.{AtomicKind};
ghost use Rattle.script_calls.specs.declared.call.Operation.TheVariants as operations;
ghost use Rattle.workload.specs.Plan.{has_call};
ghost use Rattle.workload.specs.declared.object.ObjectKind.TheVariants as kinds;
ghost use Rattle.step_runner.specs.Items.{items_on};
ghost use Rattle.step_runner.specs.Noted.{noted};
ghost use Rattle.step_runner.specs.Objects.{kind_of};
ghost use Rattle.step_runner.specs.TurnAtObjects.{turn_on};
ghost use Rattle.step_runner.specs.Variables.{var_reply, var_after};

use crate::notes::Notes;
use crate::turns::answer::Answer;
use crate::turns::item::Item;
use crate::turns::noting::{note_atomic_call, note_map_call, note_range, note_var_call};
use crate::turns::object_state::ObjectState;
use crate::turns::stages::Taker;
use script_calls::{ComposedCall, Reply, VarCall, VarReply};
use std::alloc::{AllocError, Global};
use sync_types::{AtomicCall, AtomicReply, MapCall, Name, Number, atomic_object, map_object};

/// Makes a call on a map, which is completed in this turn.
pub(crate) fn take_map_turn(
    alloc: Global,
    object: &mut ObjectState,
    place: usize,
    call: &MapCall<Name>,
    taker: Taker,
    notes: &mut Notes<Item>,
) -> Result<Answer, AllocError>
    requires { kind_of object.old ≡ kinds.Map }
    ensures turn { IfOk result (λ answer. turn_on (operations.Map call.now) taker.worker taker.moment object.old ≡ (object.new, answer)) }
    ensures noted { OnOk result (notes.new ≡ noted (items_on (operations.Map call.now) taker.worker taker.moment place object.old) notes.old) }
{
    match object {
        ObjectState::Map(map) => {
            let reply = map_object::apply(alloc, map, call)?;
            note_map_call(alloc, notes, taker.worker, place, call, reply)?;
            Ok(Answer::Completed(Reply::Map(reply)))
        }
        _ => Ok(Answer::Still),
    }
}

/// Shows all keys of a map with their values, which is completed in this turn too: no other call
/// comes between.
pub(crate) fn take_range_turn(
    alloc: Global,
    object: &ObjectState,
    place: usize,
    taker: Taker,
    notes: &mut Notes<Item>,
) -> Result<Answer, AllocError>
    requires { kind_of object.now ≡ kinds.Map }
    ensures turn { IfOk result (λ answer. turn_on operations.Range taker.worker taker.moment object.now ≡ (object.now, answer)) }
    ensures noted { OnOk result (notes.new ≡ noted (items_on operations.Range taker.worker taker.moment place object.now) notes.old) }
{
    match object {
        ObjectState::Map(map) => {
            let pairs = map.entries(alloc)?;
            note_range(alloc, notes, taker.worker, place, pairs.as_slice())?;
            Ok(Answer::Completed(Reply::Pairs(pairs)))
        }
        _ => Ok(Answer::Still),
    }
}

/// Makes a call on an atomic, which is completed in this turn.
pub(crate) fn take_atomic_turn(
    object: &mut ObjectState,
    place: usize,
    call: AtomicCall,
    taker: Taker,
    notes: &mut Notes<Item>,
) -> Result<Answer, AllocError>
    requires { (kind : AtomicKind) × (kind_of object.old ≡ kinds.Atomic kind) × (is_atomic_call kind call ≡ true) }
    ensures turn { IfOk result (λ answer. turn_on (operations.Atomic call) taker.worker taker.moment object.old ≡ (object.new, answer)) }
    ensures noted { OnOk result (notes.new ≡ noted (items_on (operations.Atomic call) taker.worker taker.moment place object.old) notes.old) }
{
    match object {
        ObjectState::Atomic(number) => {
            let reply = atomic_object::apply(number, call);
            note_atomic_call(notes, taker.worker, place, call, reply)?;
            Ok(Answer::Completed(Reply::Atomic(reply)))
        }
        _ => Ok(Answer::Still),
    }
}

/// Reads or writes a plain variable, which is completed in this turn.
pub(crate) fn take_var_turn(
    object: &mut ObjectState,
    place: usize,
    call: VarCall,
    taker: Taker,
    notes: &mut Notes<Item>,
) -> Result<Answer, AllocError>
    requires { kind_of object.old ≡ kinds.Var }
    ensures turn { IfOk result (λ answer. turn_on (operations.Var call) taker.worker taker.moment object.old ≡ (object.new, answer)) }
    ensures noted { OnOk result (notes.new ≡ noted (items_on (operations.Var call) taker.worker taker.moment place object.old) notes.old) }
{
    match object {
        ObjectState::Var(held) => {
            let reply = apply_to_variable(held, call);
            note_var_call(notes, taker.worker, place, call, reply)?;
            Ok(Answer::Completed(Reply::Var(reply)))
        }
        _ => Ok(Answer::Still),
    }
}

/// Reads or writes what a variable holds.
fn apply_to_variable(held: &mut u64, call: VarCall) -> VarReply
    ensures reply { result ≡ var_reply call held.old }
    ensures after { held.new ≡ var_after call held.old }
{
    match call {
        VarCall::Read => VarReply::Held(*held),
        VarCall::Write(value) => {
            *held = value;
            VarReply::Done
        }
    }
}

/// Makes a call on an atomic that is made of others, which is completed in this turn: an `ifeq` tells whether the atomic holds a
/// number.
pub(crate) fn take_composed_turn(
    object: &ObjectState,
    place: usize,
    call: ComposedCall,
    taker: Taker,
    notes: &mut Notes<Item>,
) -> Result<Answer, AllocError>
    requires { has_call (kind_of object.now) (operations.Composed call) ≡ true }
    ensures turn { IfOk result (λ answer. turn_on (operations.Composed call) taker.worker taker.moment object.now ≡ (object.now, answer)) }
    ensures noted { OnOk result (notes.new ≡ noted (items_on (operations.Composed call) taker.worker taker.moment place object.now) notes.old) }
{
    match (object, call) {
        (ObjectState::Atomic(number), ComposedCall::IfEqual { value, .. }) => {
            let found = AtomicReply::Held(*number);
            note_atomic_call(notes, taker.worker, place, AtomicCall::Load, found)?;
            Ok(Answer::Completed(Reply::Atomic(AtomicReply::Compared(*number == value))))
        }
        _ => Ok(Answer::Still),
    }
}
