//! Go's `sync.Pool`, of numbers: a pool, and the callers that threads put and get by.
ghost use Rattle.std.specs.Prelude.{◌≡◌, ◌+◌, ◌<◌, ◌≤◌, All, IfOk, IfSome, MatchOption, vec_len};
ghost use Rattle.std.proofs.Props.{props};
ghost use Rattle.go_pool.specs.Pools.{parts_of, room_of, fresh_of, ArePasses, IsPassOf};
ghost use Rattle.go_sync.specs.PassProps.{follows_prop};

mod calls;

use go_pool::Pool;
use ruled_object::MAX_CALLS;
use std::alloc::{AllocError, Global};
use sync_model::NoNote;
use sync_outside::Clock;

/// What a pool keeps of a thread.
pub type PoolPass = go_pool::PoolPass<NoNote>;

/// What a pool keeps of its threads, one for each. `pool_callers` makes callers of them.
pub type PoolPasses = Vec<PoolPass>;

/// An empty pool for so many threads, 64 at most. Each thread's part has room for an item of its own and `room` more, in memory that is
/// taken here. `fresh` is what a `get` answers that finds no item.
pub fn new_pool(
    alloc: Global,
    threads: u32,
    room: u32,
    fresh: u64,
) -> Result<(Pool<NoNote>, PoolPasses), AllocError>
    requires { (0 < threads) × (threads ≤ 64) }
    ensures pool { IfOk result (λ made. (parts_of made.0 ≡ threads) × (room_of made.0 ≡ room) × (fresh_of made.0 ≡ fresh)) }
    ensures passes { IfOk result (λ made. ArePasses made.0 made.1.items) }
    ensures count { IfOk result (λ made. vec_len made.1 ≡ threads) }
{
    let (pool, passes) = Pool::new(alloc, &(), threads, room, fresh, MAX_CALLS, NoNote::new())?;
    Ok((pool, passes))
}

/// A caller for each thread.
pub fn pool_callers<'a, C: Clock>(
    alloc: Global,
    pool: &'a Pool<NoNote>,
    clock: &'a C,
    mut passes: PoolPasses,
) -> Result<Vec<PoolCaller<'a, C>>, AllocError>
    requires { ArePasses pool.now passes.items }
    ensures count { IfOk result (λ callers. vec_len callers ≡ vec_len passes) }
    ensures each { IfOk result (λ callers. All (λ caller. caller.pool.now ≡ pool.now) callers.items) }
{
    let mut callers = Vec::with_capacity(alloc, passes.len())?;
    while let Some(caller) = PoolCaller::last(pool, clock, &mut passes) {
        callers.push(caller)?;
    }
    Ok(callers)
}

/// What one thread uses a pool by.
///
/// In the words of Go's documentation: a call to `put(x)` synchronizes before a call to `get` returning that same value x.
#[derive(Drop)]
pub struct PoolCaller<'a, C: Clock> {
    pool: &'a Pool<NoNote>,
    clock: &'a C,
    pass: PoolPass,
    ghost is: { IsPassOf pool.now pass } by { Prim.hlevel (follows_prop, props) },
}

impl<'a, C: Clock> PoolCaller<'a, C> {
    /// The caller of the last of these passes.
    pub fn last(pool: &'a Pool<NoNote>, clock: &'a C, passes: &mut PoolPasses) -> Option<Self>
        requires { ArePasses pool.now passes.old.items }
        ensures passes { ArePasses pool.now passes.new.items }
        ensures count { MatchOption result (vec_len passes.old ≡ 0) (λ _. vec_len passes.new + 1 ≡ vec_len passes.old) }
        ensures at { IfSome result (λ caller. caller.pool.now ≡ pool.now) }
    {
        let pass = passes.pop()?;
        Some(PoolCaller { pool, clock, pass })
    }
}
