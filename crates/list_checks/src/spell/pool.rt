//! The calls of a pool, as a list spells them.
ghost use Rattle.std.specs.Prelude.{◌≡◌, ◌≤◌, ◌<◌, ◌+◌, ◌*◌, ◌^◌, length, drop};
ghost use Rattle.pool_core.specs.Looks.{look};
ghost use Rattle.sync_types.specs.declared.pool_call.PoolCall.TheVariants.{Get, Sweep};
ghost use Rattle.run_cuts.specs.PoolCuts.{pool_event_in, pool_reply_in, is_pool_event, pool_cut};
ghost use Rattle.run_record.specs.PoolKind.{part_of, stage_of};
ghost use Rattle.list_checks.specs.SpellFound.{IsFound, look_cut};

use crate::spell::automaton::{Kind, spell_stages};
use crate::spell::spelt::{Found, Spelt, Stop};
use pool_core::{PartCore, PoolEvent, PoolReply};
use protocols::{PoolOutcome, PoolStage};
use run_record::{Made, ObjectEvent, ObjectReply};
use script_calls::Reply;
use sync_types::{PoolCall, PoolCallReply};

impl Kind for PartCore {
    ghost event_in = { pool_event_in };

    ghost reply_in = { pool_reply_in };

    ghost is_event = { is_pool_event };

    fn event_in(event: ObjectEvent) -> Option<PoolEvent<u64>> {
        match event {
            ObjectEvent::Pool(event) => Some(event),
            _ => None,
        }
    }

    fn reply_in(reply: ObjectReply) -> Option<PoolReply<u64>> {
        match reply {
            ObjectReply::Pool(reply) => Some(reply),
            _ => None,
        }
    }

    fn is_event(stage: PoolStage, event: &PoolEvent<u64>) -> bool {
        match (stage, event) {
            (PoolStage::Put(item), PoolEvent::Put(other)) => *other == item,
            (PoolStage::LookOwn, PoolEvent::LookOwn) => true,
            (PoolStage::LookOther(part), PoolEvent::LookOther(other)) => *other == part,
            (PoolStage::LookVictim(part), PoolEvent::LookVictim(other)) => *other == part,
            (PoolStage::Sweep, PoolEvent::Sweep) => true,
            _ => false,
        }
    }
}

/// A worker's pool, by the number of its part 0.
#[derive(Clone, Copy, Drop)]
pub struct Pool {
    /// How many workers there are, and so parts.
    pub workers: u32,
    /// The worker whose calls are looked for.
    pub worker: u32,
    /// The number of part 0.
    pub first: usize,
    pub ghost few: { (0 < workers) × (workers ≤ 32) × (worker < workers) × (first < 2 ^ 32) },
}

/// The call of a pool with which a list goes on behind a place.
pub fn spell_pool(pool: Pool, call: PoolCall, items: &[Made], from: usize) -> Found<Reply<u32>>
    requires { from ≤ length items.now }
    ensures { IsFound items.now from (pool_cut pool.workers pool.worker pool.first call (drop from items.now)) result }
{
    match call {
        PoolCall::Put(item) => {
            let own = pool.first + pool.worker as usize;
            let put = spell_stages::<PartCore>(own, PoolStage::Put(item), items, from)?;
            Ok(Spelt {
                end: put.end,
                outcome: Reply::Pool(PoolCallReply::Done),
            })
        }
        PoolCall::Get => spell_get(pool, items, from),
        PoolCall::Sweep => spell_sweep(pool, items, from),
    }
}

// The stage of a worker's look of this number, and the part at which it looks.
fn look_at(pool: Pool, number: u32) -> (PoolStage, u32)
    requires { number < 2 * pool.workers }
    ensures stage { result.0 ≡ stage_of (look pool.workers pool.worker number) }
    ensures part { result.1 ≡ part_of pool.worker (look pool.workers pool.worker number) }
    ensures there { result.1 < pool.workers }
{
    let part = (pool.worker + number) % pool.workers;
    if number == 0 {
        (PoolStage::LookOwn, pool.worker)
    } else if number < pool.workers {
        (PoolStage::LookOther(part), part)
    } else {
        (PoolStage::LookVictim(part), part)
    }
}

// A worker's look of this number, and the item that it took.
fn spell_look(pool: Pool, number: u32, items: &[Made], from: usize) -> Found<Option<u64>>
    requires number { number < 2 * pool.workers }
    requires from { from ≤ length items.now }
    ensures { IsFound items.now from (look_cut pool.worker pool.first (look pool.workers pool.worker number) (drop from items.now)) result }
{
    let (stage, part) = look_at(pool, number);
    let looked = spell_stages::<PartCore>(pool.first + part as usize, stage, items, from)?;
    let outcome = match looked.outcome {
        PoolOutcome::Item(item) => Some(item),
        PoolOutcome::Nothing => None,
        PoolOutcome::Kept | PoolOutcome::Dropped(_) | PoolOutcome::Swept => {
            return Err(Stop::Wrong);
        }
    };
    Ok(Spelt {
        end: looked.end,
        outcome,
    })
}

// The looks of a `get`, up to the first that takes an item.
fn spell_get(pool: Pool, items: &[Made], from: usize) -> Found<Reply<u32>>
    requires { from ≤ length items.now }
    ensures { IsFound items.now from (pool_cut pool.workers pool.worker pool.first Get (drop from items.now)) result }
{
    let mut at = from;
    for number in 0..2 * pool.workers {
        match spell_look(pool, number, items, at) {
            Ok(looked) => match looked.outcome {
                Some(item) => {
                    return Ok(Spelt {
                        end: looked.end,
                        outcome: Reply::Pool(PoolCallReply::Put(item)),
                    });
                }
                None => at = looked.end,
            },
            Err(stop) => return Err(stop),
        }
    }
    Ok(Spelt {
        end: at,
        outcome: Reply::Pool(PoolCallReply::New),
    })
}

// The sweep of each part, from 0 up.
fn spell_sweep(pool: Pool, items: &[Made], from: usize) -> Found<Reply<u32>>
    requires { from ≤ length items.now }
    ensures { IsFound items.now from (pool_cut pool.workers pool.worker pool.first Sweep (drop from items.now)) result }
{
    let mut at = from;
    for part in 0..pool.workers {
        let object = pool.first + part as usize;
        match spell_stages::<PartCore>(object, PoolStage::Sweep, items, at) {
            Ok(swept) => at = swept.end,
            Err(stop) => return Err(stop),
        }
    }
    Ok(Spelt {
        end: at,
        outcome: Reply::Pool(PoolCallReply::Done),
    })
}
