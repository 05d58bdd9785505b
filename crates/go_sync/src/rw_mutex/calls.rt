//! The calls of a reader/writer lock's caller.
ghost use Rattle.std.specs.Prelude.{◌<◌};
ghost use Rattle.rw_core.specs.declared.event.RwEvent.{RwEvent};
ghost use Rattle.go_locks.specs.RwCalls.{ReadLocks, WriteLocks, Tries, Unlocks};
ghost use Rattle.go_locks.specs.RwMutexes.{IsPassOfRwMutex};
ghost use Rattle.ruled_object.specs.Passes.{left_of};
ghost use Rattle.go_sync.specs.Renewing.{IsSame};
ghost use Rattle.go_sync.specs.RwCallers.{Makes};

use super::RwCaller;
use go_locks::{RwMutex, RwPass};
use ruled_object::MAX_CALLS;
use std::sync::Wait;
use sync_model::{Answer, NoNote};
use sync_outside::{At, Clock};
use sync_types::Misuse;

// A pass that is good for a call: where none is left it is renewed.
fn ready(lock: &RwMutex<NoNote>, pass: &mut RwPass<NoNote>)
    requires { IsPassOfRwMutex lock.now pass.old }
    ensures pass { IsPassOfRwMutex lock.now pass.new × (0 < left_of pass.new) }
    ensures same { IsSame pass.old pass.new }
{
    if pass.left() == 0 {
        lock.renew(pass, MAX_CALLS);
    }
}

impl<C: Clock> RwCaller<'_, C> {
    /// Go's `RLock`: waits until the caller holds the lock, beside other readers.
    #[tactic(auto, using(crate::proofs::Renewed::did_so))]
    pub fn r_lock<R: Wait>(&mut self, rt: &R) -> Answer<()>
        ensures { Makes ReadLocks (C.shows self.old.clock.now) self.old result self.new }
    {
        ready(self.lock, &mut self.pass);
        let at: At<NoNote, C> = At {
            home: &(),
            clock: self.clock,
        };
        self.lock
            .r_lock(rt, &at, &mut self.pass, &mut NoNote::new())
    }

    /// Go's `TryRLock`: whether the caller holds the lock, beside other readers. It does where no writer holds it or waits.
    #[tactic(auto, using(crate::proofs::Renewed::did_so))]
    pub fn try_r_lock<R: Wait>(&mut self, rt: &R) -> Answer<bool>
        ensures { Makes (Tries RwEvent.ReadTry) (C.shows self.old.clock.now) self.old result self.new }
    {
        ready(self.lock, &mut self.pass);
        let at: At<NoNote, C> = At {
            home: &(),
            clock: self.clock,
        };
        self.lock
            .try_r_lock(rt, &at, &mut self.pass, &mut NoNote::new())
    }

    /// Go's `RUnlock`. Of a lock that no reader holds it is a misuse, which it answers, and nothing changes.
    #[tactic(auto, using(crate::proofs::Renewed::did_so))]
    pub fn r_unlock<R: Wait>(&mut self, rt: &R) -> Answer<Result<(), Misuse>>
        ensures { Makes (Unlocks RwEvent.ReadUnlock) (C.shows self.old.clock.now) self.old result self.new }
    {
        ready(self.lock, &mut self.pass);
        let at: At<NoNote, C> = At {
            home: &(),
            clock: self.clock,
        };
        self.lock
            .r_unlock(rt, &at, &mut self.pass, &mut NoNote::new())
    }

    /// Go's `Lock`: waits until the caller holds the lock, with nobody beside it.
    #[tactic(auto, using(crate::proofs::Renewed::did_so))]
    pub fn lock<R: Wait>(&mut self, rt: &R) -> Answer<()>
        ensures { Makes WriteLocks (C.shows self.old.clock.now) self.old result self.new }
    {
        ready(self.lock, &mut self.pass);
        let at: At<NoNote, C> = At {
            home: &(),
            clock: self.clock,
        };
        self.lock.lock(rt, &at, &mut self.pass, &mut NoNote::new())
    }

    /// Go's `TryLock`: whether the caller holds the lock, with nobody beside it. It does where nobody else does or waits to write.
    #[tactic(auto, using(crate::proofs::Renewed::did_so))]
    pub fn try_lock<R: Wait>(&mut self, rt: &R) -> Answer<bool>
        ensures { Makes (Tries RwEvent.WriteTry) (C.shows self.old.clock.now) self.old result self.new }
    {
        ready(self.lock, &mut self.pass);
        let at: At<NoNote, C> = At {
            home: &(),
            clock: self.clock,
        };
        self.lock
            .try_lock(rt, &at, &mut self.pass, &mut NoNote::new())
    }

    /// Go's `Unlock`. Of a lock that no writer holds it is a misuse, which it answers, and nothing changes.
    #[tactic(auto, using(crate::proofs::Renewed::did_so))]
    pub fn unlock<R: Wait>(&mut self, rt: &R) -> Answer<Result<(), Misuse>>
        ensures { Makes (Unlocks RwEvent.WriteUnlock) (C.shows self.old.clock.now) self.old result self.new }
    {
        ready(self.lock, &mut self.pass);
        let at: At<NoNote, C> = At {
            home: &(),
            clock: self.clock,
        };
        self.lock
            .unlock(rt, &at, &mut self.pass, &mut NoNote::new())
    }
}
