//! What the pools of a run have come to, and whose item a look takes.
ghost use Rattle.std.specs.Prelude.{◌≡◌, ℕ, ◌==◌, ◌+◌, ◌≤◌, ◌++◌, cond, unwrap_or, IfOk, OnOk};
ghost use Rattle.pool_core.specs.PoolMachine as machine;
ghost use Rattle.race_clocks.specs.Handing.{put_given, put_taken, pool_at, new_pool, stepped_by};
ghost use Rattle.race_clocks.specs.Seen.{numbered, is_put, pool_step};

use crate::by_place::ByPlace;
use crate::channel::Channel;
use pool_core::{PoolCore, PoolEvent, PoolReply};
use std::alloc::{AllocError, Global};
use std::marker::Model;
use sync_types::Seq;
use workload::Workload;

/// A pool that keeps the numbers of its puts in place of the items.
#[derive(Drop)]
pub(crate) struct NumberedPool {
    pool: PoolCore,
    count: u64,
}

impl Model for NumberedPool {
    ghost use Rattle.race_clocks.specs.Seen.{NumberedPool};

    ghost Value = { NumberedPool };

    ghost view = { λ p. record { pool = p.pool; count = p.count } };
}

/// The event with the number of the next put in place of an item.
fn numbered(number: u64, event: PoolEvent<u64>) -> PoolEvent<u64>
    ensures { result ≡ numbered number event }
{
    match event {
        PoolEvent::Put(_) => PoolEvent::Put(number),
        PoolEvent::LookOwn => PoolEvent::LookOwn,
        PoolEvent::LookOther(part) => PoolEvent::LookOther(part),
        PoolEvent::LookVictim(part) => PoolEvent::LookVictim(part),
        PoolEvent::Sweep => PoolEvent::Sweep,
    }
}

/// How many puts there were behind an event. Numbers end where memory would have long.
fn count_behind(count: u64, event: PoolEvent<u64>) -> Result<u64, AllocError>
    ensures { IfOk result (λ behind. behind ≡ cond (is_put event) (count + 1) count) }
{
    match event {
        PoolEvent::Put(_) => count.checked_add(1).ok_or(AllocError),
        _ => Ok(count),
    }
}

impl NumberedPool {
    /// Makes an event, and answers the number of a put for an item that is taken.
    fn step(&mut self, caller: u32, event: PoolEvent<u64>) -> Result<PoolReply<u64>, AllocError>
        ensures reply { IfOk result (λ reply. reply ≡ (pool_step self.old caller event).1) }
        ensures pool { OnOk result (self.new ≡ stepped_by self.old caller event) }
    {
        let count = count_behind(self.count, event)?;
        let reply = self.pool.step(caller, numbered(self.count, event));
        self.count = count;
        Ok(reply)
    }
}

/// The pool, or a new one with room for every put of the workload.
fn pool_or_new(
    alloc: Global,
    workload: &Workload,
    pool: Option<NumberedPool>,
    place: usize,
) -> Result<NumberedPool, AllocError>
    requires some { 1 ≤ workload.now.workers }
    requires few { workload.now.workers ≤ 64 }
    ensures { IfOk result (λ made. made ≡ unwrap_or pool (new_pool workload.now place)) }
{
    match pool {
        Some(pool) => Ok(pool),
        None => {
            let room = workload.puts_at(place);
            Ok(NumberedPool {
                pool: PoolCore::new(alloc, workload.workers(), room)?,
                count: 0,
            })
        }
    }
}

/// Tells of a put that is kept.
fn push_put(
    gives: &mut Seq<Channel>,
    kept: bool,
    pool: usize,
    number: u64,
) -> Result<(), AllocError>
    ensures { OnOk result (gives.new ≡ gives.old ++ put_given kept pool number) }
{
    if kept {
        gives.push(Channel::PutItem { pool, number })
    } else {
        Ok(())
    }
}

/// Tells of an item that is taken.
fn push_taken(
    takes: &mut Seq<Channel>,
    pool: usize,
    reply: PoolReply<u64>,
) -> Result<(), AllocError>
    ensures { OnOk result (takes.new ≡ takes.old ++ put_taken pool reply) }
{
    match reply {
        PoolReply::Item(number) => takes.push(Channel::PutItem { pool, number }),
        _ => Ok(()),
    }
}

/// Makes an event on the pool at a place, and tells of a put that is kept, and of whose item is taken.
pub(crate) fn enter_pool(
    alloc: Global,
    workload: &Workload,
    pools: &mut ByPlace<NumberedPool>,
    place: usize,
    caller: u32,
    event: PoolEvent<u64>,
    kept: bool,
    takes: &mut Seq<Channel>,
    gives: &mut Seq<Channel>,
) -> Result<(), AllocError>
    requires some { 1 ≤ workload.now.workers }
    requires few { workload.now.workers ≤ 64 }
    ensures pools { OnOk result ((other : ℕ) → pool_at workload.now pools.new other ≡ cond (place == other) (stepped_by (pool_at workload.now pools.old place) caller event) (pool_at workload.now pools.old other)) }
    ensures gives { OnOk result (gives.new ≡ gives.old ++ put_given kept place (pool_at workload.now pools.old place).count) }
    ensures takes { OnOk result (takes.new ≡ takes.old ++ put_taken place (pool_step (pool_at workload.now pools.old place) caller event).1) }
{
    let mut pool = pool_or_new(alloc, workload, pools.take(place), place)?;
    push_put(gives, kept, place, pool.count)?;
    let reply = pool.step(caller, event)?;
    push_taken(takes, place, reply)?;
    pools.put(place, pool)
}
