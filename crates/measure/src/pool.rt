//! `Pool`: a put and a get.
ghost use Rattle.go_pool.specs.Pools.{IsPassOf};

use crate::fresh::FreshNote;
use crate::measured::Measured;
use crate::plan::Plan;
use go_pool::{Pool, PoolPass};
use ruled_object::MAX_CALLS;
use std::alloc::{AllocError, Global};
use std::sync::Wait;
use sync_outside::{At, Clock};

/// How many shared items each caller's part has room for.
const ROOM: u32 = 8;

impl<N: FreshNote> Measured for Pool<N> {
    type Pass = PoolPass<N>;

    type Kept = N;

    ghost has_pass = { λ pool pass. IsPassOf pool pass };

    fn new(alloc: Global, plan: Plan) -> Result<(Self, Vec<PoolPass<N>>), AllocError> {
        let (pool, passes) = Pool::new(
            alloc,
            &(),
            plan.callers,
            ROOM,
            0,
            MAX_CALLS,
            N::fresh(plan.callers),
        )?;
        Ok((pool, passes))
    }

    fn pair<C: Clock, R: Wait>(&self, rt: &R, clock: &C, pass: &mut PoolPass<N>, note: &mut N) {
        if pass.left() < 2 {
            return;
        }
        let at = At { home: &(), clock };
        self.put(rt, &at, pass, note, 1);
        self.get(rt, &at, pass, note);
    }
}
