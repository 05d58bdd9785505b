//! The calls of a pool's caller.
ghost use Rattle.std.specs.Prelude.{◌<◌};
ghost use Rattle.go_pool.specs.Calls.{Gets, Puts, Sweeps};
ghost use Rattle.go_pool.specs.Items.{ComesFromPuts, DropsWhereFull};
ghost use Rattle.go_pool.specs.Pools.{IsPassOf, fresh_of, left_of, number_of, parts_of};
ghost use Rattle.go_sync.specs.PoolCallers.{IsSamePass, Makes};

use super::{PoolCaller, PoolPass};
use go_pool::{Pool, PoolGet};
use pool_core::PoolPut;
use ruled_object::MAX_CALLS;
use std::sync::Wait;
use sync_model::{Answer, NoNote};
use sync_outside::{At, Clock};

// A pass that is good for a call: where none is left it is renewed.
fn ready(pool: &Pool<NoNote>, pass: &mut PoolPass)
    requires { IsPassOf pool.now pass.old }
    ensures pass { IsPassOf pool.now pass.new × (0 < left_of pass.new) }
    ensures same { IsSamePass pass.old pass.new }
{
    if pass.left() == 0 {
        pool.renew(pass, MAX_CALLS);
    }
}

impl<C: Clock> PoolCaller<'_, C> {
    /// Go's `Put`: puts an item into the thread's own part. It is dropped exactly where that part has no room left.
    #[tactic(auto, using(crate::proofs::Pooled::did_so))]
    pub fn put<R: Wait>(&mut self, rt: &R, item: u64) -> Answer<PoolPut>
        ensures made { Makes (Puts item) self.old result self.new }
        ensures dropped { DropsWhereFull self.old.pool.now self.new.pass item result }
    {
        ready(self.pool, &mut self.pass);
        let at: At<NoNote, C> = At {
            home: &(),
            clock: self.clock,
        };
        self.pool
            .put(rt, &at, &mut self.pass, &mut NoNote::new(), item)
    }

    /// Go's `Get`: takes an item that was put, of the thread's own part before all others, or answers that it is new.
    #[tactic(auto, using(crate::proofs::Pooled::did_so))]
    pub fn get<R: Wait>(&mut self, rt: &R) -> Answer<PoolGet>
        ensures made { Makes (Gets (parts_of self.old.pool.now) (number_of self.old.pass) (fresh_of self.old.pool.now)) self.old result self.new }
        ensures origin { ComesFromPuts self.new.pass }
    {
        ready(self.pool, &mut self.pass);
        let at: At<NoNote, C> = At {
            home: &(),
            clock: self.clock,
        };
        self.pool.get(rt, &at, &mut self.pass, &mut NoNote::new())
    }

    /// What Go's garbage collector does to a pool: an item that nobody gets is removed by the second sweep after its put.
    #[tactic(auto, using(crate::proofs::Pooled::did_so))]
    pub fn sweep<R: Wait>(&mut self, rt: &R) -> Answer<()>
        ensures { Makes Sweeps self.old result self.new }
    {
        ready(self.pool, &mut self.pass);
        let at: At<NoNote, C> = At {
            home: &(),
            clock: self.clock,
        };
        self.pool.sweep(rt, &at, &mut self.pass, &mut NoNote::new())
    }
}
