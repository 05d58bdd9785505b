//! The turn of a worker that stands before a call of a pool: the whole call.
ghost use Rattle.std.specs.Prelude.{◌≡◌, ℕ, ◌*◌, ◌<◌, ◌≤◌, [], ◌∷◌, IfOk, OnOk};
ghost use Rattle.pool_core.specs.PoolMachine as machine;
ghost use Rattle.script_calls.specs.declared.call.Operation.TheVariants as operations;
ghost use Rattle.step_runner.specs.declared.turns.object_state.ObjectState.TheVariants as states;
ghost use Rattle.step_runner.specs.Due.{looks_of};
ghost use Rattle.step_runner.specs.Items.{pool_item, look_items, pool_items, items_on};
ghost use Rattle.step_runner.specs.Noted.{noted};
ghost use Rattle.step_runner.specs.PoolTurn.{looked, found_by, pool_step};
ghost use Rattle.step_runner.specs.TurnAtObjects.{turn_on};

use crate::notes::Notes;
use crate::turns::answer::Answer;
use crate::turns::due::look_due;
use crate::turns::item::Item;
use crate::turns::object_state::ObjectState;
use crate::turns::stages::{Taker, make};
use pool_core::PoolCore;
use protocols::{PoolOutcome, PoolStage};
use script_calls::Reply;
use std::alloc::AllocError;
use sync_types::{PoolCall, PoolCallReply};

/// Makes a look, and takes the item that it finds.
fn look(
    pool: &mut PoolCore,
    place: usize,
    taker: Taker,
    stage: PoolStage,
    notes: &mut Notes<Item>,
) -> Result<Option<u64>, AllocError>
    ensures looked { IfOk result (λ found. looked taker.worker taker.moment stage pool.old ≡ (pool.new, found)) }
    ensures noted { OnOk result (notes.new ≡ noted (pool_item taker.worker taker.moment place stage pool.old ∷ []) notes.old) }
{
    match make::<PoolCore>(Some(stage), pool, place, taker, notes)? {
        Ok(PoolOutcome::Item(item)) => Ok(Some(item)),
        _ => Ok(None),
    }
}

/// Takes the first item that a look finds. Where none does, the item is a new one.
fn get(
    pool: &mut PoolCore,
    place: usize,
    taker: Taker,
    notes: &mut Notes<Item>,
) -> Result<Answer, AllocError>
    requires few { taker.workers ≤ 64 }
    requires worker { taker.worker < taker.workers }
    ensures found { IfOk result (λ answer. found_by taker.worker taker.moment (looks_of taker.workers taker.worker 0 (2 * taker.workers)) pool.old ≡ (pool.new, answer)) }
    ensures noted { OnOk result (notes.new ≡ noted (look_items taker.worker taker.moment place (looks_of taker.workers taker.worker 0 (2 * taker.workers)) pool.old) notes.old) }
{
    for number in 0..2 * taker.workers {
        let stage = look_due(taker.workers, taker.worker, number);
        if let Some(item) = look(pool, place, taker, stage, notes)? {
            return Ok(Answer::Completed(Reply::Pool(PoolCallReply::Put(item))));
        }
    }
    Ok(Answer::Completed(Reply::Pool(PoolCallReply::New)))
}

/// Makes a call on a pool.
fn take_step(
    pool: &mut PoolCore,
    place: usize,
    call: PoolCall,
    taker: Taker,
    notes: &mut Notes<Item>,
) -> Result<Answer, AllocError>
    requires parts { machine.callers_of pool.old ≡ taker.workers }
    requires few { taker.workers ≤ 64 }
    requires worker { taker.worker < taker.workers }
    ensures step { IfOk result (λ answer. pool_step taker.worker taker.moment call pool.old ≡ (pool.new, answer)) }
    ensures noted { OnOk result (notes.new ≡ noted (pool_items taker.worker taker.moment place call pool.old) notes.old) }
{
    match call {
        PoolCall::Put(item) => {
            let _kept = make::<PoolCore>(Some(PoolStage::Put(item)), pool, place, taker, notes)?;
            Ok(Answer::Completed(Reply::Pool(PoolCallReply::Done)))
        }
        PoolCall::Get => get(pool, place, taker, notes),
        PoolCall::Sweep => {
            let _swept = make::<PoolCore>(Some(PoolStage::Sweep), pool, place, taker, notes)?;
            Ok(Answer::Completed(Reply::Pool(PoolCallReply::Done)))
        }
    }
}

/// Makes a call on a pool, which is completed in this turn. What the machine answers to a put is not looked
/// at: a run gives each part room for every put of its workload, and then it is kept, by the law
/// `pools_have_room`.
pub(crate) fn take_pool_turn(
    object: &mut ObjectState,
    place: usize,
    call: PoolCall,
    taker: Taker,
    notes: &mut Notes<Item>,
) -> Result<Answer, AllocError>
    requires parts { (p : machine.PoolState ℕ) → object.old ≡ states.Pool p → machine.callers_of p ≡ taker.workers }
    requires few { taker.workers ≤ 64 }
    requires worker { taker.worker < taker.workers }
    ensures turn { IfOk result (λ answer. turn_on (operations.Pool call) taker.worker taker.moment object.old ≡ (object.new, answer)) }
    ensures noted { OnOk result (notes.new ≡ noted (items_on (operations.Pool call) taker.worker taker.moment place object.old) notes.old) }
{
    match object {
        ObjectState::Pool(pool) => take_step(pool, place, call, taker, notes),
        _ => Ok(Answer::Still),
    }
}
