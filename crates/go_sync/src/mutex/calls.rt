//! The calls of a mutex's caller.
ghost use Rattle.go_locks.specs.MutexCalls.{Locks, Tries, Unlocks};
ghost use Rattle.go_sync.specs.MutexCallers.{LocksSoon, Makes};

use super::MutexCaller;
use std::sync::Wait;
use sync_model::{Answer, NoNote};
use sync_outside::{At, Clock};
use sync_types::Misuse;

// No call is taken off those that the pass is good for, so it never has to be renewed.
impl<C: Clock> MutexCaller<'_, C> {
    /// Go's `Lock`: waits until the caller has the mutex. `lock_soon` is quicker where the mutex is mostly free.
    #[tactic(auto, using(crate::proofs::Renewed::did_fresh))]
    pub fn lock<R: Wait>(&mut self, rt: &R) -> Answer<()>
        ensures { Makes Locks (C.shows self.old.clock.now) self.old result self.new }
    {
        let at: At<NoNote, C> = At {
            home: &(),
            clock: self.clock,
        };
        self.mutex
            .lock_within(rt, &at, &mut self.pass, &mut NoNote::new())
    }

    /// Go's `Lock`, by a try first: where the mutex is free no clock is read.
    pub fn lock_soon<R: Wait>(&mut self, rt: &R) -> Answer<()>
        ensures { LocksSoon C.shows self.old result self.new }
    {
        match self.try_lock(rt) {
            Answer::Done(true) => Answer::Done(()),
            Answer::Done(false) => self.lock(rt),
            Answer::Halted(_) => self.lock(rt),
        }
    }

    /// Go's `TryLock`: whether the caller has the mutex, which it has exactly where it was free and nobody waits before it.
    #[tactic(auto, using(crate::proofs::Renewed::did_fresh))]
    pub fn try_lock<R: Wait>(&mut self, rt: &R) -> Answer<bool>
        ensures { Makes Tries (C.shows self.old.clock.now) self.old result self.new }
    {
        let at: At<NoNote, C> = At {
            home: &(),
            clock: self.clock,
        };
        self.mutex
            .try_lock_within(rt, &at, &mut self.pass, &mut NoNote::new())
    }

    /// Go's `Unlock`. Of a mutex that isn't locked it is a misuse, which it answers, and nothing changes.
    #[tactic(auto, using(crate::proofs::Renewed::did_fresh))]
    pub fn unlock<R: Wait>(&mut self, rt: &R) -> Answer<Result<(), Misuse>>
        ensures { Makes Unlocks (C.shows self.old.clock.now) self.old result self.new }
    {
        let at: At<NoNote, C> = At {
            home: &(),
            clock: self.clock,
        };
        self.mutex
            .unlock_within(rt, &at, &mut self.pass, &mut NoNote::new())
    }
}
