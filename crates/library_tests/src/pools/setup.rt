//! Pools for the tests, and their callers.
ghost use Rattle.std.specs.Prelude.{◌≤◌, IfOk};
ghost use Rattle.std.proofs.Props.{props};
ghost use Rattle.library_tests.specs.PassProps.{follows_prop};
ghost use Rattle.go_pool.specs.Pools.{ArePasses, IsPassOf};

use crate::made::knows;
use crate::waits::setup::HERE;
use go_pool::{Pool, PoolGet, PoolPass};
use pool_core::PoolPut;
use std::alloc::{AllocError, Global};
use std::sync::Wait;
use sync_model::{Answer, FrontNote};

/// A pool, and the passes of its callers.
pub(super) fn made(
    alloc: Global,
    callers: u32,
    room: u32,
    fresh: u64,
    calls: u64,
) -> Result<(Pool<FrontNote>, Vec<PoolPass<FrontNote>>), AllocError>
    requires callers { (1 ≤ callers) × (callers ≤ 64) }
    requires calls { calls ≤ 1000000 }
    ensures { IfOk result (λ made. ArePasses made.0 made.1.items) }
{
    let (pool, passes) = Pool::new(alloc, &(), callers, room, fresh, calls, knows(0))?;
    Ok((pool, passes))
}

/// A caller of a pool, with its pass and its note.
#[derive(Drop)]
pub(super) struct Caller<'a> {
    pool: &'a Pool<FrontNote>,
    pass: PoolPass<FrontNote>,
    note: FrontNote,
    ghost is: { IsPassOf pool.now pass } by { Prim.hlevel (follows_prop, props) },
}

impl<'a> Caller<'a> {
    /// The caller of the last of these passes, with this note.
    pub(super) fn last(
        pool: &'a Pool<FrontNote>,
        passes: &mut Vec<PoolPass<FrontNote>>,
        note: FrontNote,
    ) -> Option<Self>
        requires { ArePasses pool.now passes.old.items }
        ensures { ArePasses pool.now passes.new.items }
    {
        let pass = passes.pop()?;
        Some(Caller { pool, pass, note })
    }

    /// A put, where a call is left.
    pub(super) fn put<R: Wait>(&mut self, rt: &R, item: u64) -> Option<Answer<PoolPut>> {
        if self.pass.left() == 0 {
            return None;
        }
        Some(
            self.pool
                .put(rt, &HERE, &mut self.pass, &mut self.note, item),
        )
    }

    /// A get, where a call is left.
    pub(super) fn get<R: Wait>(&mut self, rt: &R) -> Option<Answer<PoolGet>> {
        if self.pass.left() == 0 {
            return None;
        }
        Some(self.pool.get(rt, &HERE, &mut self.pass, &mut self.note))
    }

    /// A sweep, where a call is left.
    pub(super) fn sweep<R: Wait>(&mut self, rt: &R) -> Option<Answer<()>> {
        if self.pass.left() == 0 {
            return None;
        }
        Some(self.pool.sweep(rt, &HERE, &mut self.pass, &mut self.note))
    }
}
