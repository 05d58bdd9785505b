//! The turns of a worker that stands before a call of a group of flights.
ghost use Rattle.std.specs.Prelude.{◌≡◌, ℕ, ℤ, ◌<◌, [], ◌++◌, List, cond, IfOk, OnOk};
ghost use Rattle.std.specs.Int.{w64, int_wrapping_add};
ghost use Rattle.script_calls.specs.declared.call.Operation.TheVariants as operations;
ghost use Rattle.script_calls.specs.declared.call.Reply.TheVariants as replies;
ghost use Rattle.flight_core.specs.FlightMachine as machine;
ghost use Rattle.workload.specs.Keys.{key_number};
ghost use Rattle.step_runner.specs.Due.{lands};
ghost use Rattle.step_runner.specs.Items.{placed_at, flight_items, landed_items, items_on_both};
ghost use Rattle.step_runner.specs.Noted.{noted};
ghost use Rattle.step_runner.specs.TurnAtObjects.{flight_made, flown_to, turn_on_both};
ghost use Rattle.step_runner.specs.declared.turns.object_state.ObjectState.TheVariants as states;

use crate::notes::Notes;
use crate::numbering::number_of;
use crate::turns::answer::Answer;
use crate::turns::due::{flight_due, flown};
use crate::turns::item::Item;
use crate::turns::noting::note_atomic_call;
use crate::turns::object_state::ObjectState;
use crate::turns::stages::{Places, Taker, make};
use flight_core::{FlightCore, FlightStage};
use std::alloc::AllocError;
use sync_types::{AtomicCall, AtomicReply, Name, Number};

/// Adds to the number, where the stage that is due lands, and notes it.
fn add_at_landing(
    due: Option<FlightStage>,
    number: &mut i64,
    delta: i64,
    sum: i64,
    target: usize,
    taker: Taker,
    notes: &mut Notes<Item>,
) -> Result<(), AllocError>
    ensures number { OnOk result (number.new ≡ cond (lands due) sum number.old) }
    ensures noted { OnOk result (notes.new ≡ noted (cond (lands due) (placed_at taker.worker target (operations.Atomic (AtomicCall.Add (Number.Int64 delta))) (replies.Atomic (AtomicReply.Held (Number.Int64 sum)))) []) notes.old) }
{
    match due {
        Some(FlightStage::Land(_)) => {
            *number = sum;
            let operand = Number::Int64(delta);
            let held = AtomicReply::Held(Number::Int64(sum));
            let add = AtomicCall::Add { operand };
            note_atomic_call(notes, taker.worker, target, add, held)
        }
        _ => Ok(()),
    }
}

/// Takes a turn at a group of flights whose function adds this amount to the number, for the key of this number. What it adds is noted
/// before the landing.
fn take_flying_turn(
    flight: &mut FlightCore,
    number: &mut i64,
    at: Places,
    key: u32,
    delta: i64,
    taker: Taker,
    notes: &mut Notes<Item>,
) -> Result<Answer, AllocError>
    requires { taker.worker < machine.callers_of flight.old }
    ensures turn { IfOk result (λ answer. (keys : List (List ℕ)) (place : ℕ) → flown_to keys place delta (Number.Int64 number.old) (int_wrapping_add w64 number.old delta) (flight_made taker.worker taker.moment key (int_wrapping_add w64 number.old delta) flight.old) ≡ ((states.Flight flight.new keys place delta, states.Atomic (Number.Int64 number.new)), answer)) }
    ensures noted { OnOk result (notes.new ≡ noted (landed_items taker.worker at.target delta (Number.Int64 number.old) (flight_made taker.worker taker.moment key (int_wrapping_add w64 number.old delta) flight.old).1 ++ flight_items taker.worker taker.moment at.object key (int_wrapping_add w64 number.old delta) flight.old) notes.old) }
{
    let sum = number.wrapping_add(delta);
    let due = flight_due(key, sum, flight.place(taker.worker));
    add_at_landing(due, number, delta, sum, at.target, taker, notes)?;
    let made = make::<FlightCore>(due, flight, at.object, taker, notes)?;
    Ok(flown(sum, made))
}

/// The number of a key at a group of flights.
fn number_at(group: &ObjectState, key: &Name) -> u32
    ensures { (f : machine.FlightState) (keys : List (List ℕ)) (place : ℕ) (delta : ℤ) → group.now ≡ states.Flight f keys place delta → result ≡ key_number keys key.now }
{
    match group {
        ObjectState::Flight { keys, .. } => number_of(keys, key),
        _ => 0,
    }
}

/// Takes a turn before a call for a key, whose group adds to the target. The first to come leads a flight in one turn, and adds and
/// lands in its next. Whoever joins the flight waits until it has landed, and leaves then.
pub(crate) fn take_fly_turn(
    object: &mut ObjectState,
    target: &mut ObjectState,
    at: Places,
    key: &Name,
    taker: Taker,
    notes: &mut Notes<Item>,
) -> Result<Answer, AllocError>
    requires { (f : machine.FlightState) (keys : List (List ℕ)) (place : ℕ) (delta : ℤ) → object.old ≡ states.Flight f keys place delta → taker.worker < machine.callers_of f }
    ensures turn { IfOk result (λ answer. turn_on_both (operations.Fly key.now) taker.worker taker.moment object.old target.old ≡ ((object.new, target.new), answer)) }
    ensures noted { OnOk result (notes.new ≡ noted (items_on_both (operations.Fly key.now) taker.worker taker.moment at.object at.target object.old target.old) notes.old) }
{
    let key = number_at(object, key);
    let ObjectState::Flight { delta, .. } = object else {
        return Ok(Answer::Still);
    };
    let delta = *delta;
    match object {
        ObjectState::Flight { flight, .. } => match target {
            ObjectState::Atomic(Number::Int64(number)) => {
                take_flying_turn(flight, number, at, key, delta, taker, notes)
            }
            _ => Ok(Answer::Still),
        },
        _ => Ok(Answer::Still),
    }
}
