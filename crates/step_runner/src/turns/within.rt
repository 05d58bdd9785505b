//! The turn of a worker that stands before a call or within it, at the objects of a run. A `waitfor` is made of loads of its
//! atomic and of turns of `wait`s on its cond: how many waits were begun tells whether the worker stands before it. A `go` is the
//! `add` of 1 to its group, in one turn.
ghost use Rattle.std.specs.Prelude.{◌≡◌, ◌<◌, ◌≤◌, ◌++◌, length, IfOk, OnOk};
ghost use Rattle.step_runner.specs.Items.{items_at};
ghost use Rattle.step_runner.specs.Noted.{noted};
ghost use Rattle.step_runner.specs.Ready.{IsReady};
ghost use Rattle.step_runner.specs.StandsWithin.{IsReadyWithin};
ghost use Rattle.step_runner.specs.TurnAtObjects.{turn_at};
ghost use Rattle.step_runner.specs.TurnWithin.{wait_on, load_of, add_one, done_on, is_met, tells, begin_wait, look, look_items, wait_for_turn, wait_for_items, start_item, start_items, turn_within, items_within};

use crate::notes::Notes;
use crate::turns::answer::Answer;
use crate::turns::item::Item;
use crate::turns::laws::turns_keep_kinds_and_machines;
use crate::turns::noting::{note_atomic_call, note_event};
use crate::turns::object_state::ObjectState;
use crate::turns::stages::Taker;
use crate::turns::turn::{take_group_turn, take_turn_at, take_wait_turn};
use run_record::{ObjectEvent, ObjectReply};
use script_calls::{Call, ComposedCall, Operation, Reply};
use starts_core::{StartEvent, StartReply};
use std::alloc::{AllocError, Global};
use sync_types::{AtomicCall, AtomicReply, Number, WaitGroupCall};

/// What a `waitfor` names, and how many waits it may make.
#[derive(Clone, Copy)]
struct Awaited {
    cond: usize,
    atomic: usize,
    value: Number,
    tries: u32,
}

/// Whether the object at a place is an atomic that holds the number.
fn is_met(objects: &[ObjectState], atomic: usize, value: Number) -> bool
    ensures { result ≡ is_met atomic value objects.now }
{
    match objects.get(atomic) {
        Some(ObjectState::Atomic(number)) => *number == value,
        _ => false,
    }
}

/// A `waitfor` is completed: it tells whether its last load found the number.
fn tells(met: bool) -> Answer
    ensures { result ≡ tells met }
{
    Answer::Completed(Reply::Atomic(AtomicReply::Compared(met)))
}

/// Notes the load of an atomic.
fn note_load(
    objects: &[ObjectState],
    atomic: usize,
    taker: Taker,
    notes: &mut Notes<Item>,
) -> Result<(), AllocError>
    requires { IsReady taker.workers taker.worker (load_of atomic) objects.now }
    ensures { OnOk result (notes.new ≡ noted (items_at (load_of atomic) taker.worker taker.moment objects.now) notes.old) }
{
    match objects[atomic] {
        ObjectState::Atomic(number) => {
            let found = AtomicReply::Held(number);
            note_atomic_call(notes, taker.worker, atomic, AtomicCall::Load, found)
        }
        _ => Ok(()),
    }
}

/// Begins one more wait: an event, after which the call hasn't returned, unless it is a misuse.
fn begin_wait(
    objects: &mut [ObjectState],
    awaited: Awaited,
    begun: u32,
    taker: Taker,
    notes: &mut Notes<Item>,
) -> Result<(u32, Answer), AllocError>
    requires ready { IsReady taker.workers taker.worker (wait_on awaited.cond) objects.old }
    requires fewer { begun < awaited.tries }
    ensures turn { IfOk result (λ taken. begin_wait begun (turn_at (wait_on awaited.cond) taker.worker taker.moment objects.old) ≡ ((objects.new, taken.0), taken.1)) }
    ensures noted { OnOk result (notes.new ≡ noted (items_at (wait_on awaited.cond) taker.worker taker.moment objects.old) notes.old) }
{
    match take_wait_turn(objects, awaited.cond, taker, notes)? {
        Answer::Misused(misuse) => Ok((begun + 1, Answer::Misused(misuse))),
        _ => Ok((begun + 1, Answer::Unfinished)),
    }
}

/// Loads the atomic. Where it doesn't hold the number and fewer waits were begun than the call may make, one more begins in this
/// turn; else the call is completed.
fn look(
    objects: &mut [ObjectState],
    awaited: Awaited,
    begun: u32,
    taker: Taker,
    notes: &mut Notes<Item>,
) -> Result<(u32, Answer), AllocError>
    requires ready { IsReady taker.workers taker.worker (wait_on awaited.cond) objects.old }
    requires atomic { IsReady taker.workers taker.worker (load_of awaited.atomic) objects.old }
    ensures turn { IfOk result (λ taken. look taker.worker taker.moment awaited.cond awaited.atomic awaited.value awaited.tries begun objects.old ≡ ((objects.new, taken.0), taken.1)) }
    ensures noted { OnOk result (notes.new ≡ noted (look_items taker.worker taker.moment awaited.cond awaited.atomic awaited.value awaited.tries begun objects.old) notes.old) }
{
    note_load(objects, awaited.atomic, taker, notes)?;
    let met = is_met(objects, awaited.atomic, awaited.value);
    if met || awaited.tries <= begun {
        return Ok((begun, tells(met)));
    }
    begin_wait(objects, awaited, begun, taker, notes)
}

/// Takes a turn before a `waitfor`, or within it, where the turn goes on with the wait that was begun last. A wait that returns is
/// followed by a load, in the same turn.
fn take_wait_for_turn(
    objects: &mut [ObjectState],
    awaited: Awaited,
    begun: u32,
    taker: Taker,
    notes: &mut Notes<Item>,
) -> Result<(u32, Answer), AllocError>
    requires ready { IsReady taker.workers taker.worker (wait_on awaited.cond) objects.old }
    requires atomic { IsReady taker.workers taker.worker (load_of awaited.atomic) objects.old }
    ensures turn { IfOk result (λ taken. wait_for_turn taker.worker taker.moment awaited.cond awaited.atomic awaited.value awaited.tries begun objects.old ≡ ((objects.new, taken.0), taken.1)) }
    ensures noted { OnOk result (notes.new ≡ noted (wait_for_items taker.worker taker.moment awaited.cond awaited.atomic awaited.value awaited.tries begun objects.old) notes.old) }
{
    turns_keep_kinds_and_machines();
    if begun == 0 {
        return look(objects, awaited, begun, taker, notes);
    }
    match take_wait_turn(objects, awaited.cond, taker, notes)? {
        Answer::Completed(_) => look(objects, awaited, begun, taker, notes),
        answer => Ok((begun, answer)),
    }
}

/// Takes the turn of a `go`: adds 1 to its group, and where that is no misuse, the start of the worker is noted behind it.
fn take_go_turn(
    objects: &mut [ObjectState],
    group: usize,
    started: u32,
    taker: Taker,
    notes: &mut Notes<Item>,
) -> Result<Answer, AllocError>
    requires { IsReady taker.workers taker.worker (add_one group) objects.old }
    ensures turn { IfOk result (λ answer. turn_at (add_one group) taker.worker taker.moment objects.old ≡ (objects.new, answer)) }
    ensures noted { OnOk result (notes.new ≡ noted (items_at (add_one group) taker.worker taker.moment objects.old ++ start_items (turn_at (add_one group) taker.worker taker.moment objects.old).1 (start_item taker.worker (length objects.old) started)) notes.old) }
{
    let starts = objects.len();
    let answer = take_group_turn(objects, group, WaitGroupCall::Add(1), taker, notes)?;
    if let Answer::Completed(_) = &answer {
        let start = ObjectEvent::Starts(StartEvent::Start(started));
        let done = ObjectReply::Starts(StartReply::Done);
        note_event(notes, taker.worker, starts, start, done)?;
    }
    Ok(answer)
}

/// Takes a turn of a worker that stands before a call or within it, of whose waits it has begun so many. With the answer it tells
/// how many were begun by then. What the turn makes is noted. Only want of memory is an `Err`.
pub fn take_turn_within(
    alloc: Global,
    objects: &mut [ObjectState],
    call: &Call,
    begun: u32,
    taker: Taker,
    notes: &mut Notes<Item>,
) -> Result<(u32, Answer), AllocError>
    requires ready { IsReadyWithin taker.workers taker.worker call.now objects.old }
    requires few { taker.workers ≤ 64 }
    ensures turn { IfOk result (λ taken. turn_within call.now taker.worker taker.moment begun objects.old ≡ ((objects.new, taken.0), taken.1)) }
    ensures noted { OnOk result (notes.new ≡ noted (items_within call.now taker.worker taker.moment begun objects.old) notes.old) }
{
    match call.operation {
        Operation::Composed(
            ComposedCall::WaitFor {
                atomic,
                value,
                tries,
            },
        ) => {
            let awaited = Awaited {
                cond: call.object,
                atomic,
                value,
                tries,
            };
            take_wait_for_turn(objects, awaited, begun, taker, notes)
        }
        Operation::Composed(ComposedCall::Go { worker }) => {
            let added = take_go_turn(objects, call.object, worker, taker, notes)?;
            Ok((begun, added))
        }
        _ => {
            let answer = take_turn_at(alloc, objects, call, taker, notes)?;
            Ok((begun, answer))
        }
    }
}

/// Takes the turn of the `done` that a worker makes behind its script, on the group of the `go` by which it was started.
pub fn take_done_turn(
    objects: &mut [ObjectState],
    group: usize,
    taker: Taker,
    notes: &mut Notes<Item>,
) -> Result<Answer, AllocError>
    requires ready { IsReady taker.workers taker.worker (done_on group) objects.old }
    ensures turn { IfOk result (λ answer. turn_at (done_on group) taker.worker taker.moment objects.old ≡ (objects.new, answer)) }
    ensures noted { OnOk result (notes.new ≡ noted (items_at (done_on group) taker.worker taker.moment objects.old) notes.old) }
{
    take_group_turn(objects, group, WaitGroupCall::Done, taker, notes)
}
