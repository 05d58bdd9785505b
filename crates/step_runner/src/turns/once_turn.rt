//! The turns of a worker that stands before a call of a once, or of a function made by `OnceFunc` or
//! `OnceValue`.
ghost use Rattle.std.specs.Prelude.{◌≡◌, ℕ, ℤ, ◌<◌, [], ◌++◌, cond, IfOk, OnOk};
ghost use Rattle.std.specs.Int.{w64, int_wrapping_add};
ghost use Rattle.script_calls.specs.declared.call.Operation.TheVariants as operations;
ghost use Rattle.script_calls.specs.declared.call.Reply.TheVariants as replies;
ghost use Rattle.wait_cores.specs.OnceMachine as machine;
ghost use Rattle.wait_cores.specs.OnceStanding.{runs_at};
ghost use Rattle.run_record.specs.declared.entered.ObjectEvent.TheVariants as events;
ghost use Rattle.run_record.specs.declared.entered.ObjectReply.TheVariants as answered;
ghost use Rattle.step_runner.specs.Due.{ends_function};
ghost use Rattle.step_runner.specs.Items.{placed_at, once_items, add_items, items_on, items_on_both};
ghost use Rattle.step_runner.specs.Noted.{noted};
ghost use Rattle.step_runner.specs.TurnAtObjects.{once_made, added, turn_on, turn_on_both};
ghost use Rattle.step_runner.specs.declared.turns.object_state.ObjectState.TheVariants as states;

use crate::notes::Notes;
use crate::turns::answer::Answer;
use crate::turns::due::{did, func_returned, once_due, value_returned};
use crate::turns::item::Item;
use crate::turns::noting::{FunctionValue, note_atomic_call};
use crate::turns::object_state::ObjectState;
use crate::turns::stages::{Places, Taker, make};
use protocols::{OnceOutcome, OnceStage};
use std::alloc::AllocError;
use sync_types::{AtomicCall, AtomicReply, Number};
use wait_cores::OnceCore;

/// Whether the worker runs the function.
fn runs<T: Copy>(once: &OnceCore<T>, worker: u32) -> bool
    ensures { result ≡ runs_at once.now worker }
{
    match once.runner() {
        Some(runner) => runner == worker,
        None => false,
    }
}

/// Makes the stage that is due at a once whose function comes to this value.
fn make_stage<T: FunctionValue>(
    once: &mut OnceCore<T>,
    place: usize,
    value: T,
    taker: Taker,
    notes: &mut Notes<Item>,
) -> Result<Result<OnceOutcome<T>, Answer>, AllocError>
    requires { taker.worker < machine.callers_of once.old }
    ensures made { IfOk result (λ made. once_made taker.worker taker.moment value once.old ≡ (once.new, made)) }
    ensures noted { OnOk result (notes.new ≡ noted (once_items T.event_word T.reply_word taker.worker taker.moment place value once.old) notes.old) }
{
    let due = once_due(value, runs(once, taker.worker), once.place(taker.worker));
    make::<OnceCore<T>>(due, once, place, taker, notes)
}

/// Adds to the number, where the stage that is due ends the function, and notes it.
fn add_at_end(
    due: Option<OnceStage<i64>>,
    number: &mut i64,
    delta: i64,
    sum: i64,
    target: usize,
    taker: Taker,
    notes: &mut Notes<Item>,
) -> Result<(), AllocError>
    ensures number { OnOk result (number.new ≡ cond (ends_function due) sum number.old) }
    ensures noted { OnOk result (notes.new ≡ noted (cond (ends_function due) (placed_at taker.worker target (operations.Atomic (AtomicCall.Add (Number.Int64 delta))) (replies.Atomic (AtomicReply.Held (Number.Int64 sum)))) []) notes.old) }
{
    match due {
        Some(OnceStage::End(_)) => {
            *number = sum;
            let operand = Number::Int64(delta);
            let held = AtomicReply::Held(Number::Int64(sum));
            let add = AtomicCall::Add { operand };
            note_atomic_call(notes, taker.worker, target, add, held)
        }
        _ => Ok(()),
    }
}

/// Takes a turn at a once whose function adds this amount to the number. What it adds is noted before the end of the function.
fn take_adding_turn(
    once: &mut OnceCore<i64>,
    number: &mut i64,
    at: Places,
    delta: i64,
    taker: Taker,
    notes: &mut Notes<Item>,
) -> Result<Answer, AllocError>
    requires { taker.worker < machine.callers_of once.old }
    ensures turn { IfOk result (λ answer. (place : ℕ) → added place delta (Number.Int64 number.old) (int_wrapping_add w64 number.old delta) (once_made taker.worker taker.moment (int_wrapping_add w64 number.old delta) once.old) ≡ ((states.Once once.new place delta, states.Atomic (Number.Int64 number.new)), answer)) }
    ensures noted { OnOk result (notes.new ≡ noted (add_items taker.worker at.target delta (Number.Int64 number.old) (once_made taker.worker taker.moment (int_wrapping_add w64 number.old delta) once.old).1 ++ once_items events.Once answered.Once taker.worker taker.moment at.object (int_wrapping_add w64 number.old delta) once.old) notes.old) }
{
    let sum = number.wrapping_add(delta);
    let due = once_due(sum, runs(once, taker.worker), once.place(taker.worker));
    add_at_end(due, number, delta, sum, at.target, taker, notes)?;
    let made = make::<OnceCore<i64>>(due, once, at.object, taker, notes)?;
    Ok(did(sum, made))
}

/// Takes a turn before a `Do`, whose once adds to the target. The first one begins in one turn, and adds in
/// its next. The others wait until it has, and leave then.
pub(crate) fn take_once_turn(
    object: &mut ObjectState,
    target: &mut ObjectState,
    at: Places,
    taker: Taker,
    notes: &mut Notes<Item>,
) -> Result<Answer, AllocError>
    requires { (o : machine.OnceState ℤ) (place : ℕ) (delta : ℤ) → object.old ≡ states.Once o place delta → taker.worker < machine.callers_of o }
    ensures turn { IfOk result (λ answer. turn_on_both operations.Once taker.worker taker.moment object.old target.old ≡ ((object.new, target.new), answer)) }
    ensures noted { OnOk result (notes.new ≡ noted (items_on_both operations.Once taker.worker taker.moment at.object at.target object.old target.old) notes.old) }
{
    let ObjectState::Once { delta, .. } = object else {
        return Ok(Answer::Still);
    };
    let delta = *delta;
    match object {
        ObjectState::Once { once, .. } => match target {
            ObjectState::Atomic(Number::Int64(number)) => {
                take_adding_turn(once, number, at, delta, taker, notes)
            }
            _ => Ok(Answer::Still),
        },
        _ => Ok(Answer::Still),
    }
}

/// Takes a turn before a call of a `OnceFunc`, of which each caller has the code.
pub(crate) fn take_once_func_turn(
    object: &mut ObjectState,
    place: usize,
    taker: Taker,
    notes: &mut Notes<Item>,
) -> Result<Answer, AllocError>
    requires { (o : machine.OnceState ℕ) (code : ℕ) → object.old ≡ states.OnceFunc o code → taker.worker < machine.callers_of o }
    ensures turn { IfOk result (λ answer. turn_on operations.OnceFunc taker.worker taker.moment object.old ≡ (object.new, answer)) }
    ensures noted { OnOk result (notes.new ≡ noted (items_on operations.OnceFunc taker.worker taker.moment place object.old) notes.old) }
{
    match object {
        ObjectState::OnceFunc { once, code } => {
            let made = make_stage(once, place, *code, taker, notes)?;
            Ok(func_returned(*code, made))
        }
        _ => Ok(Answer::Still),
    }
}

/// Takes a turn before a call of a `OnceValue`, of which each caller has the value.
pub(crate) fn take_once_value_turn(
    object: &mut ObjectState,
    place: usize,
    taker: Taker,
    notes: &mut Notes<Item>,
) -> Result<Answer, AllocError>
    requires { (o : machine.OnceState ℕ) (value : ℕ) → object.old ≡ states.OnceValue o value → taker.worker < machine.callers_of o }
    ensures turn { IfOk result (λ answer. turn_on operations.OnceValue taker.worker taker.moment object.old ≡ (object.new, answer)) }
    ensures noted { OnOk result (notes.new ≡ noted (items_on operations.OnceValue taker.worker taker.moment place object.old) notes.old) }
{
    match object {
        ObjectState::OnceValue { once, value } => {
            let made = make_stage(once, place, *value, taker, notes)?;
            Ok(value_returned(*value, made))
        }
        _ => Ok(Answer::Still),
    }
}
