//! The calls of a semaphore's caller.
ghost use Rattle.std.specs.Prelude.{◌≡◌, ◌↔◌, ◌<◌, true};
ghost use Rattle.weighted_sema.specs.SemaCalls.{Acquires, Releases, Tries};
ghost use Rattle.weighted_sema.specs.Semas.{IsPassOf, IsWeightOf};
ghost use Rattle.ruled_object.specs.Passes.{left_of};
ghost use Rattle.go_sync.specs.Renewing.{IsSame};
ghost use Rattle.go_sync.specs.SemaCallers.{MakesOf};

use super::SemaCaller;
use ruled_object::MAX_CALLS;
use std::sync::Wait;
use sync_model::{Answer, NoNote};
use sync_outside::{At, Clock};
use sync_types::Misuse;
use weighted_sema::{Sema, SemaPass};

// A pass that is good for a call: where none is left it is renewed.
fn ready(sema: &Sema<NoNote>, pass: &mut SemaPass<NoNote>)
    requires { IsPassOf sema.now pass.old }
    ensures pass { IsPassOf sema.now pass.new × (0 < left_of pass.new) }
    ensures same { IsSame pass.old pass.new }
{
    if pass.left() == 0 {
        sema.renew(pass, MAX_CALLS);
    }
}

impl<C: Clock> SemaCaller<'_, C> {
    // Whether it is a weight: 1 up to the semaphore's size.
    fn is_weight(&self, weight: u64) -> bool
        ensures { result ≡ true ↔ IsWeightOf self.now.semaphore.now.sema weight }
    {
        1 <= weight && weight <= self.semaphore.size
    }

    /// Go's `Acquire`: waits until the caller has the weight. Callers are served in the order in which they came. `None` where that is
    /// no weight, and nothing was done.
    #[tactic(auto, using(crate::proofs::Renewed::made_so))]
    pub fn acquire<R: Wait>(&mut self, rt: &R, weight: u64) -> Option<Answer<()>>
        ensures { MakesOf weight (Acquires weight) self.old result self.new }
    {
        if !self.is_weight(weight) {
            return None;
        }
        let sema = &self.semaphore.sema;
        ready(sema, &mut self.pass);
        let at: At<NoNote, C> = At {
            home: &(),
            clock: self.clock,
        };
        let mut note = NoNote::new();
        Some(sema.acquire(rt, &at, &mut self.pass, &mut note, weight))
    }

    /// Go's `TryAcquire`: whether the caller has the weight, which it has exactly where an `acquire` would have it at once. `None`
    /// where that is no weight, and nothing was done.
    #[tactic(auto, using(crate::proofs::Renewed::made_so))]
    pub fn try_acquire<R: Wait>(&mut self, rt: &R, weight: u64) -> Option<Answer<bool>>
        ensures { MakesOf weight (Tries weight) self.old result self.new }
    {
        if !self.is_weight(weight) {
            return None;
        }
        let sema = &self.semaphore.sema;
        ready(sema, &mut self.pass);
        let at: At<NoNote, C> = At {
            home: &(),
            clock: self.clock,
        };
        let mut note = NoNote::new();
        Some(sema.try_acquire(rt, &at, &mut self.pass, &mut note, weight))
    }

    /// Go's `Release`: gives a weight back, this caller's or another one's. More than is held is a misuse, which it answers, and
    /// nothing changes. `None` where that is no weight, and nothing was done.
    #[tactic(auto, using(crate::proofs::Renewed::made_so))]
    pub fn release<R: Wait>(&mut self, rt: &R, weight: u64) -> Option<Answer<Result<(), Misuse>>>
        ensures { MakesOf weight (Releases weight) self.old result self.new }
    {
        if !self.is_weight(weight) {
            return None;
        }
        let sema = &self.semaphore.sema;
        ready(sema, &mut self.pass);
        let at: At<NoNote, C> = At {
            home: &(),
            clock: self.clock,
        };
        let mut note = NoNote::new();
        Some(sema.release(rt, &at, &mut self.pass, &mut note, weight))
    }
}
